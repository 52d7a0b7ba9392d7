ghost use Rattle.std.specs.Prelude.{◌≡◌, ◌≤◌};
ghost use Rattle.goals.specs.GoalWords.{goals_from};
ghost use Rattle.derivatives.specs.Orders.{class_at};
ghost use Rattle.decoding.specs.WordMachine.{place_in, states_in, Kept};
ghost use Rattle.states.specs.Meeting.{place_of, ClassMeetable, LiftsBehind};

use crate::{Class, Derivative, STATES};
use classes::members::put_class;
use classes::same::same_state;
use derivatives::lift::lift_class;

// The words of a state of 32 goals.
const STATE_WORDS: usize = 96;

// Where state i begins in scratch, or what lies behind i states: the class that is looked up among them.
pub fn place_in(i: usize) -> usize
    requires { i ≤ 128 }
    ensures { result ≡ place_in i }
{
    STATES + STATE_WORDS * i
}

// The class that row r begins, lifted, behind the m states.
pub fn lift_behind(scratch: &mut [u16], m: usize, derived: Derivative, r: usize) -> Class
    requires { ClassMeetable scratch.old m derived.goals.now derived.count derived.dep.now r }
    ensures { LiftsBehind (class_at derived.entry.dep.now derived.entry.goals.now derived.entry.count r) m result scratch.old scratch.new }
{
    let at = place_in(m);
    let k = (put_class(derived.dep, r, derived.goals, derived.count, scratch, at) - at) / 3;
    let top = lift_class(scratch, at, k);
    Class { goals: k, top }
}

// The number of the first of m states that is the class of k goals behind them; m where none is.
pub fn find_state(scratch: &[u16], m: usize, k: usize) -> usize
    requires { Kept scratch.now m × (k ≤ 32) }
    ensures { result ≡ place_of (states_in scratch.now m) (goals_from scratch.now (place_in m) k) }
{
    let class = place_in(m);
    for i in 0..m {
        let n = scratch[i] as usize;
        if same_state(scratch, class, k, scratch, place_in(i), n) {
            return i;
        }
    }
    m
}
