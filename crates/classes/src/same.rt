ghost use Rattle.std.specs.Prelude.{◌≡◌, true, false};
ghost use Rattle.goals.specs.GoalWords.{goals_from, GoalsIn};
ghost use Rattle.goals.specs.GoalKinds.{as_words};
ghost use Rattle.goals.specs.WordStages.{same_w, among_w, within_w, same_state_w};

use goals::Goal;
use goals::words::goal_at;

fn same_goal(g: Goal, h: Goal) -> bool
    ensures { result ≡ same_w (as_words g) (as_words h) }
{
    g.shape.0 == h.shape.0 && g.at.0 == h.at.0 && g.mask == h.mask
}

// Does a goal stand among the k goals from `at` on?
fn among(g: Goal, vs: &[u16], at: usize, k: usize) -> bool
    requires { GoalsIn 96 vs.now at k }
    ensures { result ≡ among_w (as_words g) (goals_from vs.now at k) }
{
    (0..k).any(|j| same_goal(g, goal_at(vs, at + 3 * j)))
}

// Is each of the n goals from `from` on among the k goals from `at` on?
fn within(ws: &[u16], from: usize, n: usize, vs: &[u16], at: usize, k: usize) -> bool
    requires { GoalsIn 96 ws.now from n × GoalsIn 96 vs.now at k }
    ensures { result ≡ within_w (goals_from ws.now from n) (goals_from vs.now at k) }
{
    (0..n).all(|j| among(goal_at(ws, from + 3 * j), vs, at, k))
}

// Are two states of at most 32 goals the same set of goals?
pub fn same_state(ws: &[u16], from: usize, n: usize, vs: &[u16], at: usize, k: usize) -> bool
    requires { GoalsIn 32 ws.now from n × GoalsIn 32 vs.now at k }
    ensures { result ≡ same_state_w (goals_from ws.now from n) (goals_from vs.now at k) }
{
    within(ws, from, n, vs, at, k) && within(vs, at, k, ws, from, n)
}
