#![tactic(auto)]

pub mod viewing; // the readers over a view of the plan

// A built plan as it is held for reading: the words lent, with their counts of states and symbols.
#[derive(Clone, Copy)]
pub struct PlanView<'a> {
    pub words: &'a [u16],
    pub states: u16,
    pub symbols: u16,
}
