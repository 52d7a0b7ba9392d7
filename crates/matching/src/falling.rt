ghost use Rattle.std.specs.Prelude.{◌≡◌, ◌<◌};
ghost use Rattle.matching.specs.Falling.{size, stands, falls};

use crate::laying::Laying;
use kinds::{Node, Score};

// Whether a shape's words, laid over the score's from a node on, all stand there; words from `blank` on are blanks.
pub fn matches_at(shape: &[u16], blank: usize, score: Score<'_>, node: Node) -> bool
    ensures { result ≡ falls blank score.entry.words.now score.entry.spans.now shape.now node.0 }
{
    let words = score.words;
    Laying::new(shape, blank, score.spans, node).all(|(word, x)| stands(blank, words, word, x))
}

// Whether a shape's word stands at a node: a blank, or the score's symbol.
fn stands(blank: usize, score: &[u16], word: u16, x: usize) -> bool
    ensures { result ≡ stands blank score.now word x }
{
    blank <= word as usize || x < score.len() && score[x] == word
}

// How many nodes a shape's word takes from a node on: a blank the subtree there, a symbol one.
pub fn size(blank: usize, spans: &[u16], word: u16, x: usize) -> usize
    ensures is { result ≡ size blank spans.now word x }
    ensures small { result < 65536 }
{
    if (word as usize) < blank {
        return 1;
    }
    spans.get(x).map_or(0, |span| *span as usize)
}
