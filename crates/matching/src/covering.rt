ghost use Rattle.std.specs.Prelude.{◌≡◌, ◌++◌, ◌+◌, ◌<◌, ◌≤◌, ltb, length, take};
ghost use Rattle.matching.specs.Falling.{on_blanks, covered};

use crate::laying::Laying;
use kinds::Node;

// The nodes of the subtrees that a shape's blanks cover, from left to right, at the front of `nodes`; how many they are.
pub fn cover(shape: &[u16], blank: usize, spans: &[u16], node: Node, nodes: &mut [usize]) -> usize
    requires { length shape.now ≤ length nodes.old }
    ensures nodes { take result nodes.new ≡ covered blank spans.now shape.now node.0 }
    ensures count { result ≡ length (covered blank spans.now shape.now node.0) }
    ensures few { result ≤ length shape.now }
{
    let mut n = 0;
    for (word, x) in Laying::new(shape, blank, spans, node) {
        n = keep(blank, word, x, nodes, n);
    }
    n
}

// The node behind the n that are kept, if the word is a blank; how many are kept then.
fn keep(blank: usize, word: u16, x: usize, nodes: &mut [usize], n: usize) -> usize
    requires { n < length nodes.old }
    ensures nodes { take result nodes.new ≡ take n nodes.old ++ on_blanks (ltb word blank) x }
    ensures most { result ≤ n + 1 }
{
    if (word as usize) < blank {
        return n;
    }
    nodes[n] = x;
    n + 1
}
