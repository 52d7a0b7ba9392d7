ghost use Rattle.std.specs.Prelude.{◌≡◌, ◌≤◌, length};
ghost use Rattle.std.proofs.lemmas.List.Edits.{sets};
ghost use Rattle.counting.specs.Counting.{total};
ghost use Rattle.matching.specs.Shapes.{Laid};
ghost use Rattle.comparing.specs.Comparing.{marks_to, out_of, compared};

use crate::nodes::mark_at;
use checks::checking::shapes_good;
use counting::marks::looked_at;
use kinds::{Node, Reason, Score, Shapes};

// Compares every shape with the subtree at each node, and sets the marks of the score's nodes; answers how many matches they hold.
pub fn compare(
    symbols: &[u8],
    shapes: Shapes<'_>,
    score: Score<'_>,
    marks: &mut [u16],
) -> Result<usize, Reason>
    ensures { out_of result marks.new ≡ compared symbols.now shapes.entry.words.now shapes.entry.starts.now score.entry.words.now score.entry.spans.now marks.old }
{
    let good = shapes_good(symbols, shapes);
    if !good {
        return Err(Reason::BadShapes);
    }
    // A match where `?` would serve: two edits write within it.
    match looked_at(symbols, score, marks) {
        Err(reason) => Err(reason),
        Ok(n) => Ok(mark_all(shapes, score, n, marks)),
    }
}

// The marks of the first n nodes, each written; answers how many matches they hold.
fn mark_all(shapes: Shapes<'_>, score: Score<'_>, n: usize, marks: &mut [u16]) -> usize
    requires { (length shapes.starts.now ≤ 16) × Laid shapes.words.now shapes.starts.now × (n ≤ 4096) × (n ≤ length marks.old) }
    ensures count { result ≡ total (marks_to shapes.entry.words.now shapes.entry.starts.now score.entry.words.now score.entry.spans.now n) }
    ensures buffer { marks.new ≡ sets marks.old 0 (marks_to shapes.entry.words.now shapes.entry.starts.now score.entry.words.now score.entry.spans.now n) }
{
    let mut sum: usize = 0;
    // By index: the edit `leaves_a_stale_bit` writes where the nodes begin.
    for x in 0..n {
        let mark = mark_at(shapes, score, Node(x as u16));
        marks[x] = mark;
        sum += mark.count_ones() as usize;
    }
    sum
}
