ghost use Rattle.std.specs.Prelude.{◌≡◌, ◌≤◌, length};
ghost use Rattle.counting.specs.Counting.{match_at, found_in};
ghost use Rattle.clashing.specs.Strays.{matched, strays};

use counting::passing::Matches;
use kinds::limits::BLANK;
use kinds::{Node, Score, Shape, Shapes};
use matching::falling::matches_at;
use matching::shapes::words_of;

// Whether a bit is set where no such shape matches.
pub fn has_stray(shapes: Shapes<'_>, score: Score<'_>, marks: &[u16]) -> bool
    requires { length marks.now ≤ 4096 }
    ensures { result ≡ strays shapes.entry.words.now shapes.entry.starts.now score.entry.words.now score.entry.spans.now (found_in marks.now) }
{
    Matches::new(marks).any(|(node, shape)| !is_match(shapes, score, shape, node))
}

// Whether there is such a shape, and it matches at the node.
pub fn is_match(shapes: Shapes<'_>, score: Score<'_>, shape: Shape, node: Node) -> bool
    ensures { result ≡ matched shapes.entry.words.now shapes.entry.starts.now score.entry.words.now score.entry.spans.now (match_at node.0 shape.0) }
{
    let known = (shape.0 as usize) < shapes.starts.len();
    known
        && matches_at(
            words_of(shapes.words, shapes.starts, shape),
            BLANK,
            score,
            node,
        )
}
