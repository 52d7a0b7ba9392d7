ghost use Rattle.std.specs.Prelude.{◌≡◌, ◌≤◌, length};
ghost use Rattle.kinds.specs.Lists.{gather};
ghost use Rattle.counting.specs.Counting.{match_at, found_in};
ghost use Rattle.matching.specs.Counts.{raises, is_shared};
ghost use Rattle.clashing.specs.Clashes.{nodes_of};
ghost use Rattle.clashing.specs.Passes.{sharing};

use counting::passing::Matches;
use kinds::limits::BLANK;
use kinds::{Node, Shape, Shapes};
use matching::shapes::words_of;
use matching::touching::{is_shared, touch};

// One more for each node that a match touches, for all matches.
pub fn touch_all(shapes: Shapes<'_>, spans: &[u16], marks: &[u16], counts: &mut [u16])
    requires { length marks.now ≤ 4096 }
    ensures { counts.new ≡ raises (gather (nodes_of shapes.entry.words.now shapes.entry.starts.now spans.now) (found_in marks.now)) counts.old }
{
    for (node, shape) in Matches::new(marks) {
        touch(
            words_of(shapes.words, shapes.starts, shape),
            BLANK,
            spans,
            node,
            counts,
        );
    }
}

// How many matches touch a node that is counted more than once.
pub fn count_all(shapes: Shapes<'_>, spans: &[u16], marks: &[u16], counts: &[u16]) -> usize
    requires { length marks.now ≤ 4096 }
    ensures { result ≡ sharing (nodes_of shapes.entry.words.now shapes.entry.starts.now spans.now) counts.now (found_in marks.now) }
{
    Matches::new(marks)
        .filter(|(node, shape)| shares(shapes, spans, *shape, *node, counts))
        .count()
}

// Whether the match touches a node that is counted more than once.
fn shares(shapes: Shapes<'_>, spans: &[u16], shape: Shape, node: Node, counts: &[u16]) -> bool
    ensures { result ≡ is_shared counts.now (nodes_of shapes.entry.words.now shapes.entry.starts.now spans.now (match_at node.0 shape.0)) }
{
    is_shared(
        words_of(shapes.words, shapes.starts, shape),
        BLANK,
        spans,
        node,
        counts,
    )
}
