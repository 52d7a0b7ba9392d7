ghost use Rattle.std.specs.Prelude.{◌≡◌, ◌<◌, length};
ghost use Rattle.replacing.specs.Putting.{bears, finished_at};

use kinds::{Node, Score, Symbol};

// Whether the node or one above it bears the symbol.
pub fn is_finished(score: Score<'_>, node: Node, finished: Symbol) -> bool
    requires { (node.0 < length score.words.now) × (node.0 < length score.spans.now) }
    ensures { result ≡ finished_at score.entry.words.now score.entry.spans.now node.0 finished.0 }
{
    let x = node.0 as usize;
    (0..x + 1).any(|y| bears(score, x, finished, y))
}

// Whether node y bears the symbol, and x is it or under it.
#[tactic(auto, unfolding(crate::specs::Putting::bears))]
fn bears(score: Score<'_>, x: usize, finished: Symbol, y: usize) -> bool
    requires { (y < length score.words.now) × (y < length score.spans.now) }
    ensures { result ≡ bears score.entry.words.now score.entry.spans.now x finished.0 y }
{
    score.words[y] == finished.0 && x < y + score.spans[y] as usize
}
