ghost use Rattle.std.specs.Prelude.{◌≡◌, true, false, ◌+◌};
ghost use Rattle.kinds.specs.Lists.{or_else};
ghost use Rattle.kinds.specs.Lists.{all};
ghost use Rattle.following.specs.Following.{target};
ghost use Rattle.queue.specs.Targets.{fine, PairsIn};
ghost use Rattle.readers.specs.BlockWords.{pair_list};

use following::positions::follow;
use kinds::{Node, Position};

// Whether each of the pairs has a number below the limit and leads to a node below room.
pub fn fine_pairs(
    plan: &[u16],
    nodes: usize,
    spans: &[u16],
    from: Node,
    at: usize,
    count: usize,
    limit: u16,
    room: usize,
) -> bool
    requires { PairsIn plan.now at count }
    ensures { result ≡ all (fine limit room (target nodes spans.now from.0)) (pair_list plan.now at count) }
{
    let (pairs, _) = plan[at..at + 2 * count].as_chunks::<2>();
    pairs.iter().all(|&[number, code]| {
        let by = Position(code);
        fine_pair(nodes, spans, from, number, by, limit, room)
    })
}

#[tactic(auto, unfolding(crate::specs::Targets::fine))]
fn fine_pair(
    nodes: usize,
    spans: &[u16],
    from: Node,
    number: u16,
    by: Position,
    limit: u16,
    room: usize,
) -> bool
    ensures { result ≡ fine limit room (target nodes spans.now from.0) (number, by.0) }
{
    if limit <= number {
        return false;
    }
    match follow(spans, nodes, from, by) {
        Some(x) => (x.0 as usize) < room,
        None => false,
    }
}

// The number of the node that a position leads to, 0 where there is none.
pub fn aim(nodes: usize, spans: &[u16], from: Node, by: Position) -> u16
    ensures { result ≡ or_else (target nodes spans.now from.0 by.0) 0 }
{
    match follow(spans, nodes, from, by) {
        Some(x) => x.0,
        None => 0,
    }
}
