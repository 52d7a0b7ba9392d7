ghost use Rattle.std.specs.Prelude.{◌≡◌, [], ◌∷◌, ◌+◌, ◌≤◌, length};
ghost use Rattle.std.proofs.lemmas.List.Edits.{sets};
ghost use Rattle.goals.specs.GoalWords.{goal_at};
ghost use Rattle.goals.specs.GoalKinds.{as_goal};

use crate::Goal;
use kinds::{Position, Shape};

// The goal of the three words from `at` on.
pub fn goal_at(ws: &[u16], at: usize) -> Goal
    requires { at + 3 ≤ length ws.now }
    ensures { result ≡ as_goal (goal_at ws.now at) }
{
    Goal {
        shape: Shape(ws[at]),
        at: Position(ws[at + 1]),
        mask: ws[at + 2],
    }
}

// Three words from `to` on.
pub fn put_goal(out: &mut [u16], to: usize, g: Goal)
    requires { to + 3 ≤ length out.old }
    ensures { out.new ≡ sets out.old to (g.shape.0 ∷ g.at.0 ∷ g.mask ∷ []) }
{
    // Three stores: a copy of an array of three is four times slower.
    out[to] = g.shape.0;
    out[to + 1] = g.at.0;
    out[to + 2] = g.mask;
}
