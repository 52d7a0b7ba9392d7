ghost use Rattle.std.specs.Prelude.{◌≡◌, map};
ghost use Rattle.std.proofs.lemmas.List.Edits.{sets};
ghost use Rattle.goals.specs.GoalWords.{goals_from, flat, GoalsIn};
ghost use Rattle.goals.specs.WordStages.{least_code, under_code, lift_w};
ghost use Rattle.derivatives.specs.Passes.{Lifts};

use goals::NOWHERE;
use kinds::Position;

// A class of k goals from `at` on, lifted by its displacement where it stands; answers the displacement.
pub fn lift_class(ws: &mut [u16], at: usize, k: usize) -> Position
    requires { GoalsIn 96 ws.old at k }
    ensures { Lifts (goals_from ws.old at k) at result.0 ws.old ws.new }
{
    let top = least(ws, at, k, NOWHERE);
    lift_goals(ws, at, k, top);
    top
}

// The position of the least code among `best` and those that n goals from `at` on announce.
fn least(ws: &[u16], at: usize, n: usize, best: Position) -> Position
    requires { GoalsIn 96 ws.now at n }
    ensures { result.0 ≡ least_code best.0 (goals_from ws.now at n) }
{
    let mut found = best.0;
    for i in 0..n {
        found = found.min(ws[at + 3 * i + 1]);
    }
    Position(found)
}

// What is left of a position below another.
fn under(top: Position, place: Position) -> Position
    ensures { result.0 ≡ under_code top.0 place.0 }
{
    let mut up = place.0 as u32;
    let mut weight: u32 = 1;
    while (top.0 as u32) < up {
        up /= 5;
        weight *= 5;
    }
    Position((place.0 as u32 % weight) as u16)
}

// The n goals from `at` on, lifted by a position where they stand.
fn lift_goals(ws: &mut [u16], at: usize, n: usize, top: Position)
    requires { GoalsIn 96 ws.old at n }
    ensures { ws.new ≡ sets ws.old at (flat (map (lift_w top.0) (goals_from ws.old at n))) }
{
    for i in 0..n {
        let here = at + 3 * i + 1;
        ws[here] = under(top, Position(ws[here])).0;
    }
}
