ghost use Rattle.std.specs.Prelude.{◌≡◌, ◌<◌, ◌≤◌, length, get_or};
ghost use Rattle.kinds.specs.Lists.{gather};
ghost use Rattle.replacing.specs.Putting.{under, piece_of, result_of};
ghost use Rattle.replacing.specs.Adding.{Added};

use kinds::limits::FIRST_NAME;
use kinds::{Node, Score};
use matching::shapes::part;

// A replacement and its place: the score, the node in it, the nodes that the shape's blanks cover there, and the replacement's words.
#[derive(Clone, Copy)]
pub struct Change<'a> {
    pub score: Score<'a>,
    pub node: Node,
    pub nodes: &'a [usize],
    pub link: &'a [u16],
}

// Where the words that were added end; none if there is no room for them.

// The new score: the words before the node, the replacement with each named blank's subtree, the words behind the node's subtree.
pub fn make(change: Change<'_>, made: &mut [u16]) -> Option<usize>
    requires { (change.node.0 < length change.score.words.now) × (change.node.0 < length change.score.spans.now) }
    ensures { Added made.old 0 (result_of change.entry.score.words.now change.entry.score.spans.now change.entry.node.0 change.entry.nodes.now change.entry.link.now) result made.new }
{
    let x = change.node.0 as usize;
    let words = change.score.words;
    let a = add(&words[0..x], made, 0)?;
    let b = fill(change, made, a)?;
    let end = x + change.score.spans[x] as usize;
    add(part(words, end, words.len()), made, b)
}

// The replacement, from index `from` on, with each named blank's subtree.
fn fill(change: Change<'_>, made: &mut [u16], from: usize) -> Option<usize>
    requires { from ≤ length made.old }
    ensures { Added made.old from (gather (piece_of change.entry.score.words.now change.entry.score.spans.now change.entry.nodes.now) change.entry.link.now) result made.new }
{
    let mut at = from;
    for word in change.link {
        at = add_piece(change, *word, made, at)?;
    }
    Some(at)
}

// The words that a word of the replacement stands for, from index `at` on.
fn add_piece(change: Change<'_>, word: u16, made: &mut [u16], at: usize) -> Option<usize>
    requires { at ≤ length made.old }
    ensures { Added made.old at (piece_of change.entry.score.words.now change.entry.score.spans.now change.entry.nodes.now word) result made.new }
{
    let w = word as usize;
    if w < FIRST_NAME {
        return add(&[word], made, at);
    }
    let words = under(change.score, node_of(change.nodes, w - FIRST_NAME));
    add(words, made, at)
}

// Words from index `at` on.
fn add(words: &[u16], made: &mut [u16], at: usize) -> Option<usize>
    requires { at ≤ length made.old }
    ensures { Added made.old at words.now result made.new }
{
    let n = words.len();
    if made.len() - at < n {
        return None;
    }
    made[at..at + n].copy_from_slice(words);
    Some(at + n)
}

// The node that blank j covers.
fn node_of(nodes: &[usize], j: usize) -> usize
    ensures { result ≡ get_or nodes.now j 0 }
{
    nodes.get(j).copied().unwrap_or(0)
}

// The words of the subtree at a node.
fn under<'a>(score: Score<'a>, y: usize) -> &'a [u16]
    ensures { result.now ≡ under score.entry.words.now score.entry.spans.now y }
{
    match score.spans.get(y) {
        None => &[],
        Some(span) => part(score.words, y, y + *span as usize),
    }
}
