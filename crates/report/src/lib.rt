#![tactic(auto)]

pub mod lines; // the lines of the report
mod text; // their pieces

// The numbers of the first line.
#[derive(Clone, Copy)]
pub struct Totals {
    pub nodes: usize,
    // Of the plan that led to the marks, if one did.
    pub states: Option<usize>,
    pub matches: usize,
    pub clashes: usize,
    pub depth: usize,
}
