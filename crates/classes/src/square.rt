ghost use Rattle.std.specs.Prelude.{◌≡◌, true, false};
ghost use Rattle.kinds.specs.Chains.{Yes};
ghost use Rattle.goals.specs.GoalWords.{BothIn, Stored};
ghost use Rattle.goals.specs.GoalKinds.{as_words};
ghost use Rattle.goals.specs.WordStages.{dep_w};
ghost use Rattle.classes.specs.Squares.{IsSquare, RowOf, shares, RowFilled, RowsFilled, Closes};

use crate::closure::close;
use goals::Goal;
use goals::obligations::share;
use goals::words::goal_at;

// Do two goals share an obligation position?
fn depends(tab: &[u16], g: Goal, h: Goal) -> bool
    requires { BothIn tab.now g.shape.0 h.shape.0 }
    ensures { result ≡ dep_w tab.now (as_words g) (as_words h) }
{
    match share(tab, g, h) {
        Some(x) => true,
        None => false,
    }
}

// Row i of the square: on which of the n goals goal i depends directly.
fn fill_row(tab: &[u16], ws: &[u16], n: usize, i: usize, dep: &mut [[bool; 96]; 96])
    requires { RowOf n tab.now ws.now n dep.old i }
    ensures { RowFilled i (shares tab.now ws.now i) dep.old dep.new n }
{
    let g = goal_at(ws, 3 * i);
    // By index: what a part of a row holds when it comes back is not known to the proof.
    for j in 0..n {
        dep[i][j] = depends(tab, g, goal_at(ws, 3 * j));
    }
}

// The square of direct dependency among n goals.
fn fill(tab: &[u16], ws: &[u16], n: usize, dep: &mut [[bool; 96]; 96])
    requires { Stored tab.now ws.now 0 n × IsSquare 96 dep.old }
    ensures { RowsFilled n (shares tab.now ws.now) dep.new n }
{
    for i in 0..n {
        fill_row(tab, ws, n, i, dep);
    }
}

// The square of dependency among n goals: direct, and through thirds.
pub fn dependency(tab: &[u16], ws: &[u16], n: usize, dep: &mut [[bool; 96]; 96])
    requires { Stored tab.now ws.now 0 n × IsSquare 96 dep.old }
    ensures { Closes n (Yes (shares tab.now ws.now)) dep.new }
{
    fill(tab, ws, n, dep);
    close(dep, n);
}
