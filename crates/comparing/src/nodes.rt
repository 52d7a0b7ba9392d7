ghost use Rattle.std.specs.Prelude.{◌≡◌, ◌≤◌, length};
ghost use Rattle.matching.specs.Shapes.{Laid};
ghost use Rattle.comparing.specs.Comparing.{mark_at};

use kinds::limits::BLANK;
use kinds::{Node, Score, Shapes};
use matching::falling::matches_at;

// A node's mark, from the last shape's bit down to the first's: a shape's words end where the next one's begin.
pub fn mark_at(shapes: Shapes<'_>, score: Score<'_>, node: Node) -> u16
    requires { (length shapes.starts.now ≤ 16) × Laid shapes.words.now shapes.starts.now }
    ensures { result ≡ mark_at shapes.entry.words.now shapes.entry.starts.now score.entry.words.now score.entry.spans.now node.0 }
{
    let mut mark: u16 = 0;
    let mut end = shapes.words.len();
    // By index: the edit `skips_the_last_shape` writes where the shapes end.
    for j in (0..shapes.starts.len()).rev() {
        let from = shapes.starts[j] as usize;
        mark = mark * 2 + u16::from(matches_at(&shapes.words[from..end], BLANK, score, node));
        end = from;
    }
    mark
}
