ghost use Rattle.std.specs.Prelude.{◌≡◌};
ghost use Rattle.matching.specs.Falling.{falling, touched};
ghost use Rattle.matching.specs.Counts.{raises, is_shared};

use crate::laying::Laying;
use kinds::Node;

// One more for each node on which a symbol of the shape falls.
pub fn touch(shape: &[u16], blank: usize, spans: &[u16], node: Node, counts: &mut [u16])
    ensures { counts.new ≡ raises (touched blank spans.now shape.now node.0) counts.old }
{
    for (word, x) in Laying::new(shape, blank, spans, node) {
        raise(blank, word, x, counts);
    }
}

// One more at a node if the word that falls there is a symbol.
fn raise(blank: usize, word: u16, x: usize, counts: &mut [u16])
    ensures { counts.new ≡ raises (falling blank word x) counts.old }
{
    if (word as usize) < blank && x < counts.len() {
        counts[x] = counts[x].saturating_add(1);
    }
}

// Whether a symbol of the shape falls on a node that is counted more than once.
pub fn is_shared(shape: &[u16], blank: usize, spans: &[u16], node: Node, counts: &[u16]) -> bool
    ensures { result ≡ is_shared counts.now (touched blank spans.now shape.now node.0) }
{
    Laying::new(shape, blank, spans, node).any(|(word, x)| is_more(blank, word, x, counts))
}

// Whether the word is a symbol, and its node is counted more than once.
fn is_more(blank: usize, word: u16, x: usize, counts: &[u16]) -> bool
    ensures { result ≡ is_shared counts.now (falling blank word x) }
{
    (word as usize) < blank && x < counts.len() && 1 < counts[x]
}
