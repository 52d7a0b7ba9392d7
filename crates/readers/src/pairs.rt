ghost use Rattle.std.specs.Prelude.{◌≡◌, ◌+◌, ◌*◌, ◌≤◌, length, get_or};
ghost use Rattle.readers.specs.PlanParts.{pair_at};
ghost use Rattle.readers.specs.BlockWords.{pair_list, pair_of};

use kinds::Position;

// Pair i of those counted at a word, its number below a limit and its code in use.
pub fn pair_at(plan: &[u16], at: usize, limit: u16, i: usize) -> Option<(u16, Position)>
    requires { at + 1 + 2 * get_or plan.now at 0 ≤ length plan.now }
    ensures { pair_of result ≡ pair_at limit (pair_list plan.now (at + 1) (get_or plan.now at 0)) i }
{
    let n = plan[at] as usize;
    if n <= i {
        return None;
    }
    let number = plan[at + 1 + 2 * i];
    let by = Position(plan[at + 2 + 2 * i]);
    if limit <= number {
        return None;
    }
    let good = by.is_good();
    if !good {
        return None;
    }
    Some((number, by))
}
