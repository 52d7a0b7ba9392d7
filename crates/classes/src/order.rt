ghost use Rattle.std.specs.Prelude.{◌≡◌};
ghost use Rattle.kinds.specs.Lists.{gather};
ghost use Rattle.goals.specs.GoalWords.{owed_by, no_code, first_code};
ghost use Rattle.classes.specs.Squares.{RowOf, Orderable};
ghost use Rattle.derivatives.specs.Orders.{class_at, lead_items};
ghost use Rattle.derivatives.specs.Passes.{Arranged};

use crate::members::leader;
use derivatives::sorting::arrange;
use goals::NO_CODE;
use goals::obligations::{first_owed, padded};
use goals::words::goal_at;

// The classes of n goals in their order: for each 128 times the padded code of its first obligation position and the row that begins it.
// Answers how many.
pub fn class_order(
    tab: &[u16],
    ws: &[u16],
    n: usize,
    dep: &[[bool; 96]; 96],
    items: &mut [u32],
) -> usize
    requires { Orderable tab.now ws.now n dep.now items.old }
    ensures { Arranged (lead_items tab.now dep.now ws.now n) result items.old items.new }
{
    let mut k = 0;
    for i in 0..n {
        if leader(dep, i) {
            items[k] = 128 * padded(first_in_row(tab, ws, n, dep, i)) + i as u32;
            k += 1;
        }
    }
    arrange(items, k);
    k
}

// The first obligation position of the goals that row i says yes to, as a code; NO_CODE where they have none.
fn first_in_row(tab: &[u16], ws: &[u16], n: usize, dep: &[[bool; 96]; 96], i: usize) -> u32
    requires { RowOf 96 tab.now ws.now n dep.now i }
    ensures { result ≡ first_code no_code (gather (owed_by tab.now) (class_at dep.now ws.now n i)) }
{
    let mut best: u32 = NO_CODE;
    for (j, yes) in dep[i][..n].iter().enumerate() {
        if *yes {
            best = first_owed(tab, goal_at(ws, 3 * j), best);
        }
    }
    best
}
