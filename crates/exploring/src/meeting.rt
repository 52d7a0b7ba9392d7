ghost use Rattle.std.specs.Prelude.{List, [], ◌<◌, ◌≤◌, length};
ghost use Rattle.automaton.specs.Exploring.{Block, meet as meets-one, meets, row, explored};
ghost use Rattle.decoding.specs.WordMachine.{words as machine, state_in, states_in, used_words, Kept};
ghost use Rattle.decoding.specs.GoodStates.{Ready};
ghost use Rattle.derivatives.specs.Orders.{class_at};
ghost use Rattle.states.specs.Meeting.{Held, Behind, ClassMeetable, ClassesMeetable, MetIs, SymbolIs, RowIs, ExploredIs};
ghost use Rattle.states.specs.Parting.{OnSymbol, classes_by};

use derivatives::derivative::put_fresh;
use goals::obligations::label;
use kinds::{Position, Reason, State, Symbol};
use states::keeping::{find_state, lift_behind, place_in};
use states::parting::part;
use states::{DERIVED_WORDS, Derivative, STATES, Setting, Transition};

// Meets the states in the order of their numbers; scratch then holds them. Answers how many there are and how many words their blocks take.
pub fn explore(setting: Setting, scratch: &mut [u16]) -> Result<(usize, usize), (Reason, State)>
    requires { Ready setting.symbols.now setting.tab.now setting.shapes × (used_words ≤ length scratch.old) }
    ensures is { ExploredIs result setting.entry.symbols.now setting.entry.tab.now setting.entry.shapes scratch.new (explored (machine setting.entry.tab.now setting.entry.shapes) setting.entry.symbols.now) }
    ensures behind { Behind scratch.old scratch.new }
{
    put_fresh(scratch, place_in(0), setting.shapes, Position::ROOT);
    scratch[0] = setting.shapes as u16;
    let mut m = 1;
    let mut words = 0;
    let mut i = 0;
    // A while: a turn may add states, which have their turns too.
    while i < m {
        match explore_state(setting, scratch, m, State(i as u16)) {
            Ok((states, more)) => {
                m = states;
                words += more;
            }
            Err(reason) => {
                return Err((reason, State(i as u16)));
            }
        }
        i += 1;
    }
    Ok((m, words))
}

// One of m states on each symbol in turn. From here on an answer is how many states there are now, and how many words the blocks made take.
fn explore_state(
    setting: Setting,
    scratch: &mut [u16],
    m: usize,
    state: State,
) -> Result<(usize, usize), Reason>
    requires { Held setting.symbols.now setting.tab.now setting.shapes scratch.old m × (state.0 < m) }
    ensures is { (bs : List Block) → RowIs result setting.entry.symbols.now setting.entry.tab.now setting.entry.shapes scratch.new state.0 bs (row (machine setting.entry.tab.now setting.entry.shapes) state.0 (state_in scratch.old state.0) 0 setting.entry.symbols.now (states_in scratch.old m) bs) }
    ensures behind { Behind scratch.old scratch.new }
{
    let i = state.0 as usize;
    let n = scratch[i] as usize;
    let c = label(setting.tab, scratch, place_in(i), n) as u16;
    let mut states = m;
    let mut words = 0;
    for f in 0..setting.symbols.len() {
        let transition = Transition {
            state,
            root: Position(c),
            symbol: Symbol(f as u16),
        };
        let (all, more) = explore_symbol(setting, scratch, states, transition)?;
        states = all;
        words += more;
    }
    Ok((states, words))
}

// One of m states, with its label, on a symbol.
fn explore_symbol(
    setting: Setting,
    scratch: &mut [u16],
    m: usize,
    transition: Transition,
) -> Result<(usize, usize), Reason>
    requires { Kept scratch.old m × OnSymbol setting.symbols.now setting.tab.now setting.shapes scratch.old transition.state.0 transition.root.0 transition.symbol.0 }
    ensures is { SymbolIs result setting.entry.symbols.now setting.entry.tab.now setting.entry.shapes scratch.old m transition.state.0 transition.symbol.0 scratch.new }
    ensures behind { Behind scratch.old scratch.new }
{
    let mut out = [0u32; 32];
    let mut goals = [0u16; DERIVED_WORDS];
    let mut dep = [[false; 96]; 96];
    let mut order = [0u32; 96];
    let parts = part(
        setting, scratch, transition, &mut out, &mut goals, &mut dep, &mut order,
    );
    let derived = Derivative {
        goals: &goals,
        count: parts.goals,
        dep: &dep,
    };
    let classes = parts.classes;
    let base = 2 + 2 * parts.announced;
    meet_all(scratch, m, derived, &order[0..classes], base)
}

// Each class in turn; two words more than `base` for each.
fn meet_all(
    scratch: &mut [u16],
    m: usize,
    derived: Derivative,
    order: &[u32],
    base: usize,
) -> Result<(usize, usize), Reason>
    requires { ClassesMeetable scratch.old m derived.goals.now derived.count derived.dep.now order.now base }
    ensures is { MetIs result scratch.new base (meets (machine [] 0) (states_in scratch.old m) (classes_by derived.entry.dep.now derived.entry.goals.now derived.entry.count order.now)) }
    ensures behind { Behind scratch.old scratch.new }
{
    let mut states = m;
    let mut words = base;
    for item in order {
        let (all, more) = meet(scratch, states, derived, (*item % 128) as usize)?;
        states = all;
        words += more;
    }
    Ok((states, words))
}

// The class that row r begins: a state met before, or a new one where it stands.
fn meet(
    scratch: &mut [u16],
    m: usize,
    derived: Derivative,
    r: usize,
) -> Result<(usize, usize), Reason>
    requires { ClassMeetable scratch.old m derived.goals.now derived.count derived.dep.now r }
    ensures is { MetIs result scratch.new 0 (meets-one (machine [] 0) (states_in scratch.old m) (class_at derived.entry.dep.now derived.entry.goals.now derived.entry.count r)) }
    ensures behind { Behind scratch.old scratch.new }
{
    let class = lift_behind(scratch, m, derived, r);
    let k = class.goals;
    if 32 < k {
        return Err(Reason::ManyGoals);
    }
    if find_state(scratch, m, k) < m {
        return Ok((m, 2));
    }
    if m == STATES {
        return Err(Reason::ManyStates);
    }
    scratch[m] = k as u16;
    Ok((m + 1, 2))
}
