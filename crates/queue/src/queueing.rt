ghost use Rattle.std.specs.Prelude.{◌≡◌, ◌+◌, ◌<◌, ◌≤◌, length};
ghost use Rattle.std.proofs.lemmas.List.Edits.{sets};
ghost use Rattle.kinds.specs.Bits.{clear_bit, with_bit};
ghost use Rattle.following.specs.Following.{target};
ghost use Rattle.readers.specs.PlanParts.{pair_words};
ghost use Rattle.queue.specs.Targets.{marked, newly, landed, closed_up, Leading, Appended};
ghost use Rattle.readers.specs.BlockWords.{pair_list};

use crate::aiming::aim;
use kinds::{Node, Position};

// Sets the bit of each announcement, and counts those that were clear.
pub fn mark_pairs(
    plan: &[u16],
    nodes: usize,
    spans: &[u16],
    marks: &mut [u16],
    from: Node,
    at: usize,
    count: usize,
) -> usize
    requires { Leading plan.now at count (target nodes spans.now from.0) marks.old }
    ensures { (result ≡ newly (landed (target nodes spans.now from.0) (pair_list plan.now at count)) marks.old) × (marks.new ≡ marked (landed (target nodes spans.now from.0) (pair_list plan.now at count)) marks.old) }
{
    let (pairs, _) = plan[at..at + 2 * count].as_chunks::<2>();
    let mut new: usize = 0;
    for &[shape, code] in pairs {
        let x = aim(nodes, spans, from, Position(code)) as usize;
        let mark = &mut marks[x];
        new += clear_bit(*mark, shape);
        *mark = with_bit(*mark, shape);
    }
    new
}

// 1 if bit j of a mark is clear, else 0.
fn clear_bit(m: u16, j: u16) -> usize
    requires { j < 16 }
    ensures { result ≡ clear_bit m j }
{
    (1 - (m >> j) % 2) as usize
}

// A mark with bit j set.
fn with_bit(m: u16, j: u16) -> u16
    requires { j < 16 }
    ensures { result ≡ with_bit m j }
{
    m | (1 << j)
}

// Takes the two words at `at` out of the first `end` words: later ones close up.
pub fn close_up(items: &mut [u16], at: usize, end: usize)
    requires { (at + 2 ≤ end) × (end ≤ length items.old) }
    ensures { items.new ≡ closed_up items.old at end }
{
    for k in at..end - 2 {
        items[k] = items[k + 2];
    }
}

// Appends each successor as an item, from word `end` on.
pub fn append_pairs(
    plan: &[u16],
    nodes: usize,
    spans: &[u16],
    items: &mut [u16],
    from: Node,
    at: usize,
    count: usize,
    end: usize,
)
    requires { Appended plan.now at count items.old end }
    ensures { items.new ≡ sets items.old end (pair_words (landed (target nodes spans.now from.0) (pair_list plan.now at count))) }
{
    let (pairs, _) = plan[at..at + 2 * count].as_chunks::<2>();
    for (i, &[state, code]) in pairs.iter().enumerate() {
        let there = end + 2 * i;
        items[there] = state;
        items[there + 1] = aim(nodes, spans, from, Position(code));
    }
}
