ghost use Rattle.std.specs.Prelude.{◌≡◌, false, [], ◌<◌, get_or};
ghost use Rattle.automaton.specs.Classes.{leads};
ghost use Rattle.goals.specs.GoalWords.{flat};
ghost use Rattle.classes.specs.Squares.{IsSquare, ClassRoom};
ghost use Rattle.derivatives.specs.Orders.{class_at};
ghost use Rattle.derivatives.specs.Passes.{Puts};

use goals::words::{goal_at, put_goal};

// Is the first yes of row i at its own place?
pub fn leader(dep: &[[bool; 96]; 96], i: usize) -> bool
    requires { (i < 96) × IsSquare 96 dep.now }
    ensures { result ≡ leads i (get_or dep.now i []) }
{
    dep[i].iter().position(|yes| *yes) == Some(i)
}

// The goals of row i, of n goals, into `out` from `to` on; answers the place after them.
pub fn put_class(
    dep: &[[bool; 96]; 96],
    i: usize,
    ws: &[u16],
    n: usize,
    out: &mut [u16],
    to: usize,
) -> usize
    requires { ClassRoom ws.now n dep.now i out.old to }
    ensures { Puts (flat (class_at dep.now ws.now n i)) to result out.old out.new }
{
    let mut next = to;
    for (j, yes) in dep[i][..n].iter().enumerate() {
        if *yes {
            put_goal(out, next, goal_at(ws, 3 * j));
            next += 3;
        }
    }
    next
}
