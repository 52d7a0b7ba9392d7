ghost use Rattle.std.specs.Prelude.{◌≡◌, ◌≤◌, length};
ghost use Rattle.clashing.specs.Clashing.{clashes_in, clashes_of};

use crate::strays::has_stray;
use crate::touches::{count_all, touch_all};
use checks::checking::shapes_good;
use counting::marks::looked_at;
use kinds::limits::SCORE_NODES;
use kinds::{Reason, Score, Shapes};

// The number of matches that clash with at least one other.
pub fn clashes(
    symbols: &[u8],
    shapes: Shapes<'_>,
    score: Score<'_>,
    marks: &[u16],
) -> Result<usize, Reason>
    ensures { result ≡ clashes_of symbols.now shapes.entry.words.now shapes.entry.starts.now score.entry.words.now score.entry.spans.now marks.now }
{
    let good = shapes_good(symbols, shapes);
    if !good {
        return Err(Reason::BadShapes);
    }
    let n = looked_at(symbols, score, marks)?;
    clashes_in(shapes, score, &marks[0..n])
}

// The same, where only the marks may be wrong. If each bit is a match, it touches nodes of the score, each once: so it clashes if one of them is touched
// more than once.
fn clashes_in(shapes: Shapes<'_>, score: Score<'_>, marks: &[u16]) -> Result<usize, Reason>
    requires { (length score.words.now ≤ 4096) × (length marks.now ≤ 4096) }
    ensures { result ≡ clashes_in shapes.entry.words.now shapes.entry.starts.now score.entry.words.now score.entry.spans.now marks.now }
{
    if has_stray(shapes, score, marks) {
        return Err(Reason::NoSuchMatch);
    }
    let mut counts = [0u16; SCORE_NODES];
    touch_all(shapes, score.spans, marks, &mut counts);
    Ok(count_all(shapes, score.spans, marks, &counts))
}
