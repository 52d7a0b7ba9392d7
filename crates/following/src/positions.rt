ghost use Rattle.std.specs.Prelude.{◌≡◌};
ghost use Rattle.kinds.specs.Positions.{decode};
ghost use Rattle.following.specs.Following.{child_at, follow, target, reached};
ghost use Rattle.following.specs.Following.{node_of};

use kinds::limits::NUMBERED_NODES;
use kinds::{Node, Position};

// The node that a position leads to from a node, in a score of so many nodes.
#[tactic(auto, unfolding(crate::specs::Following::target))]
pub fn follow(spans: &[u16], nodes: usize, from: Node, by: Position) -> Option<Node>
    ensures { result ≡ reached (target nodes spans.now from.0 by.0) }
{
    if !by.is_good() {
        return None;
    }
    let x = descend(spans, from.0 as usize, by.0)?;
    if nodes <= x || NUMBERED_NODES <= x {
        return None;
    }
    Some(Node(x as u16))
}

// By the code's higher digits, and from there to a child by its last.
fn descend(spans: &[u16], at: usize, code: u16) -> Option<usize>
    ensures { node_of result ≡ follow spans.now (decode code) at }
{
    if code == 0 {
        return Some(at);
    }
    let x = descend(spans, at, code / 5)?;
    child(spans, x, code % 5)
}

// Child i, from 1, of a node: over its earlier siblings' spans.
fn child(spans: &[u16], at: usize, i: u16) -> Option<usize>
    ensures { node_of result ≡ child_at spans.now i at }
{
    if spans.len() <= at {
        return None;
    }
    let end = at + spans[at] as usize;
    let mut here = at + 1;
    for left in (0..i).rev() {
        if spans.len() <= here {
            return None;
        }
        let size = spans[here] as usize;
        if size == 0 || end < here + size {
            return None;
        }
        if left == 0 {
            return Some(here);
        }
        here += size;
    }
    None
}
