ghost use Rattle.std.specs.Prelude.{◌≡◌, [], ◌∷◌};
ghost use Rattle.std.proofs.lemmas.List.Edits.{sets};
ghost use Rattle.goals.specs.WordStages.{displacement_w, lifted_w};
ghost use Rattle.derivatives.specs.Orders.{class_at};
ghost use Rattle.derivatives.specs.Passes.{Puts};
ghost use Rattle.decoding.specs.WordMachine.{states_in};
ghost use Rattle.states.specs.Meeting.{place_of, Spared};
ghost use Rattle.writing.specs.RowWords.{block_in, plan_in, out_words, succ_words, SuccessorWritable, SuccessorsWritable, OutputsWritable, BlockWritable, RowWritable, RowWritten, Writable};

use goals::obligations::label;
use kinds::{Position, State, Symbol};
use states::keeping::{find_state, lift_behind, place_in};
use states::parting::part;
use states::{DERIVED_WORDS, Derivative, Setting, Transition};

// The plan of the m states in scratch, of `total` words. Classes are looked up behind the states.
pub fn write_plan(setting: Setting, scratch: &mut [u16], m: usize, total: usize, plan: &mut [u16])
    requires { Writable setting.symbols.now setting.tab.now setting.shapes scratch.old m total plan.old }
    ensures is { plan.new ≡ sets plan.old 0 (plan_in setting.entry.symbols.now setting.entry.tab.now setting.entry.shapes scratch.old m) }
    ensures spared { Spared m scratch.old scratch.new }
{
    let k = setting.symbols.len();
    plan[0] = m as u16;
    plan[1] = k as u16;
    plan[2] = setting.shapes as u16;
    plan[3] = total as u16;
    let mut at = 4 + m + m * k;
    for i in 0..m {
        let c = label(setting.tab, scratch, place_in(i), scratch[i] as usize) as u16;
        plan[4 + i] = c;
        at = write_row(setting, scratch, m, State(i as u16), Position(c), at, plan);
    }
}

// The blocks of a state from `at` on, and their starts; answers the place after them.
fn write_row(
    setting: Setting,
    scratch: &mut [u16],
    m: usize,
    state: State,
    root: Position,
    at: usize,
    plan: &mut [u16],
) -> usize
    requires { RowWritable setting.symbols.now setting.tab.now setting.shapes scratch.old m state.0 root.0 at plan.old }
    ensures is { RowWritten setting.entry.symbols.now setting.entry.tab.now setting.entry.shapes scratch.old m state.0 at result plan.old plan.new }
    ensures spared { Spared m scratch.old scratch.new }
{
    let starts = 4 + m + state.0 as usize * setting.symbols.len();
    let mut here = at;
    for f in 0..setting.symbols.len() {
        plan[starts + f] = here as u16;
        let transition = Transition {
            state,
            root,
            symbol: Symbol(f as u16),
        };
        here = write_block(setting, scratch, m, transition, here, plan);
    }
    here
}

// The block of a state on a symbol, from `at` on; answers the place after it.
fn write_block(
    setting: Setting,
    scratch: &mut [u16],
    m: usize,
    transition: Transition,
    at: usize,
    plan: &mut [u16],
) -> usize
    requires { BlockWritable setting.symbols.now setting.tab.now setting.shapes scratch.old m transition.state.0 transition.root.0 transition.symbol.0 at plan.old }
    ensures is { Puts (block_in setting.entry.symbols.now setting.entry.tab.now setting.entry.shapes scratch.old m transition.state.0 transition.symbol.0) at result plan.old plan.new }
    ensures spared { Spared m scratch.old scratch.new }
{
    let mut out = [0u32; 32];
    let mut goals = [0u16; DERIVED_WORDS];
    let mut dep = [[false; 96]; 96];
    let mut order = [0u32; 96];
    let parts = part(
        setting, scratch, transition, &mut out, &mut goals, &mut dep, &mut order,
    );
    let announced = parts.announced;
    let derived = Derivative {
        goals: &goals,
        count: parts.goals,
        dep: &dep,
    };
    let classes = parts.classes;
    let from = place_in(transition.state.0 as usize);
    let next = write_outputs(scratch, from, &out[0..announced], at, plan);
    write_successors(scratch, m, derived, &order[0..classes], next, plan)
}

// A count and the announcements of the goals of the state at `from` that `out` names; answers the place after them.
fn write_outputs(scratch: &[u16], from: usize, out: &[u32], at: usize, plan: &mut [u16]) -> usize
    requires { OutputsWritable scratch.now from out.now at plan.old }
    ensures { Puts (out_words scratch.now from out.now) at result plan.old plan.new }
{
    plan[at] = out.len() as u16;
    let mut here = at + 1;
    for item in out {
        let g = from + 3 * (*item % 128) as usize;
        plan[here] = scratch[g];
        plan[here + 1] = scratch[g + 1];
        here += 2;
    }
    here
}

// A count and the successors of the classes in their order; answers the place after them.
fn write_successors(
    scratch: &mut [u16],
    m: usize,
    derived: Derivative,
    order: &[u32],
    at: usize,
    plan: &mut [u16],
) -> usize
    requires { SuccessorsWritable scratch.old m derived.goals.now derived.count derived.dep.now order.now at plan.old }
    ensures is { Puts (succ_words derived.entry.dep.now derived.entry.goals.now derived.entry.count (states_in scratch.old m) order.now) at result plan.old plan.new }
    ensures spared { Spared m scratch.old scratch.new }
{
    plan[at] = order.len() as u16;
    let mut here = at + 1;
    for item in order {
        write_successor(scratch, m, derived, (*item % 128) as usize, here, plan);
        here += 2;
    }
    here
}

// The number of the state that the class of row r lifts to, and the displacement.
fn write_successor(
    scratch: &mut [u16],
    m: usize,
    derived: Derivative,
    r: usize,
    at: usize,
    plan: &mut [u16],
)
    requires { SuccessorWritable scratch.old m derived.goals.now derived.count derived.dep.now r at plan.old }
    ensures is { plan.new ≡ sets plan.old at (place_of (states_in scratch.old m) (lifted_w (class_at derived.entry.dep.now derived.entry.goals.now derived.entry.count r)) ∷ displacement_w (class_at derived.entry.dep.now derived.entry.goals.now derived.entry.count r) ∷ []) }
    ensures spared { Spared m scratch.old scratch.new }
{
    let class = lift_behind(scratch, m, derived, r);
    plan[at] = find_state(scratch, m, class.goals) as u16;
    plan[at + 1] = class.top.0;
}
