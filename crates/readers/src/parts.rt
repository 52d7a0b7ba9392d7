ghost use Rattle.std.specs.Prelude.{◌≡◌, true, ◌+◌, ◌*◌, ◌≤◌, length, get_or};
ghost use Rattle.readers.specs.PlanParts.{counts_good, label_word, to_label};
ghost use Rattle.readers.specs.BlockWords.{block_start, block_fits, begins, middle};

use kinds::limits::{MOST_SHAPES, MOST_STATES, MOST_SYMBOLS};
use kinds::{Position, Reason, State, Symbol};

// There are 1 to 128 states, 1 to 32 symbols and 1 to 16 shapes, and the header is there.
pub fn counts_good(plan: &[u16]) -> bool
    ensures { result ≡ counts_good plan.now }
{
    4 <= plan.len()
        && 0 < plan[0]
        && plan[0] <= MOST_STATES
        && 0 < plan[1]
        && plan[1] as usize <= MOST_SYMBOLS
        && 0 < plan[2]
        && plan[2] as usize <= MOST_SHAPES
}

// The label of a state, whatever its code.
pub fn state_label(plan: &[u16], states: u16, state: State) -> Result<Position, Reason>
    ensures { result ≡ to_label (label_word plan.now states state.0) }
{
    if states <= state.0 {
        return Err(Reason::OutOfRange);
    }
    let at = 4 + state.0 as usize;
    if plan.len() <= at {
        return Err(Reason::OutOfRange);
    }
    Ok(Position(plan[at]))
}

// Where the block of a state and symbol begins, if it is there and whole.
pub fn block_start(
    plan: &[u16],
    states: u16,
    symbols: u16,
    state: State,
    symbol: Symbol,
) -> Option<usize>
    ensures { begins result ≡ block_start plan.now states symbols state.0 symbol.0 }
{
    if states <= state.0 {
        return None;
    }
    let beyond = symbols <= symbol.0;
    if beyond {
        return None;
    }
    let place = 4 + states as usize + (state.0 as usize * symbols as usize + symbol.0 as usize);
    if plan.len() <= place {
        return None;
    }
    let b = plan[place] as usize;
    let whole = block_fits(plan, b);
    if !whole {
        return None;
    }
    Some(b)
}

// The whole block lies within the plan words.
fn block_fits(plan: &[u16], b: usize) -> bool
    ensures { result ≡ block_fits plan.now b }
{
    if plan.len() <= b {
        return false;
    }
    let mid = b + 1 + 2 * plan[b] as usize;
    if plan.len() <= mid {
        return false;
    }
    mid + 1 + 2 * plan[mid] as usize <= plan.len()
}

// Where a block's successors are counted.
pub fn middle(plan: &[u16], b: usize) -> usize
    requires { block_fits plan.now b ≡ true }
    ensures place { result ≡ middle plan.now b }
    ensures whole { result + 1 + 2 * get_or plan.now result 0 ≤ length plan.now }
{
    b + 1 + 2 * plan[b] as usize
}
