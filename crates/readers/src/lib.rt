#![tactic(auto)]

pub mod parts; // header, labels and block starts of a plan
mod pairs; // the pairs of a block
pub mod reading; // labels, announcements and successors for other callers

// How many announcements and successors a block has.
#[derive(Clone, Copy)]
pub struct Lengths {
    pub announcements: usize,
    pub successors: usize,
}
