#![tactic(auto)]

use kinds::{Reason, State};

pub mod building; // the call that builds a plan

// How many states a plan has, and how many words.
#[derive(Clone, Copy)]
pub struct Size {
    pub states: usize,
    pub words: usize,
}

// Why there is no plan: a refusal, or one that is given where a state is derived.
#[derive(Clone, Copy)]
pub enum Unbuilt {
    Refused(Reason),
    Stopped(Reason, State),
}
