ghost use Rattle.std.specs.Prelude.{◌+◌, ◌*◌, ◌<◌, ◌≤◌, length};
ghost use Rattle.goals.specs.GoalWords.{Stored};
ghost use Rattle.derivatives.specs.Orders.{out_items};
ghost use Rattle.derivatives.specs.Passes.{Arranged};

use crate::derivative::reduce;
use crate::sorting::arrange;
use goals::obligations::padded;
use goals::words::goal_at;
use kinds::{Position, Symbol};

// The goals of a state that a symbol at its label reduces to nothing, by position and then shape: for each 128 times the key that sorts so,
// and its place in the state. Answers how many.
pub fn outputs(
    tab: &[u16],
    ws: &[u16],
    at: usize,
    n: usize,
    root: Position,
    symbol: Symbol,
    items: &mut [u32],
) -> usize
    requires { Stored tab.now ws.now at n × (n ≤ length items.old) }
    ensures { Arranged (out_items tab.now ws.now at root.0 symbol.0 n) result items.old items.new }
{
    let mut k = 0;
    for j in 0..n {
        let g = goal_at(ws, at + 3 * j);
        if reduce(tab, g, root, symbol) == 0 {
            items[k] = 128 * (16 * padded(g.at.0 as u32) + g.shape.0 as u32) + j as u32;
            k += 1;
        }
    }
    arrange(items, k);
    k
}
