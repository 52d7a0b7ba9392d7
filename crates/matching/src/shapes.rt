ghost use Rattle.std.specs.Prelude.{◌≡◌, ◌<◌};
ghost use Rattle.matching.specs.Shapes.{end_of, part, shape_at};

use kinds::Shape;

// A shape's words: from its start to the next one's, or to the end.
// Both tables by themselves: the words answered may be kept longer than the starts are lent.
pub fn words_of<'a>(words: &'a [u16], starts: &[u16], shape: Shape) -> &'a [u16]
    ensures { result.now ≡ shape_at words.now starts.now shape.0 }
{
    let j = shape.0 as usize;
    match starts.get(j) {
        None => &[],
        Some(start) => part(words, *start as usize, end_of(words, starts, j)),
    }
}

fn end_of(words: &[u16], starts: &[u16], j: usize) -> usize
    requires { j < 65536 }
    ensures { result ≡ end_of words.now starts.now j }
{
    let next = starts.get(j + 1);
    next.map_or(words.len(), |end| *end as usize)
}

// The words from an index to another; none where there is no such part.
pub fn part<'a>(words: &'a [u16], from: usize, end: usize) -> &'a [u16]
    ensures { result.now ≡ part words.now from end }
{
    words.get(from..end).unwrap_or(&[])
}
