#![tactic(auto)]

pub mod finding; // where a folio's sections are: 1 to 6

// Where the shapes, the score and the trailer begin, in bytes; symbols begin at 0.
#[derive(Clone, Copy)]
pub struct Places {
    pub shapes: usize,
    pub score: usize,
    pub end: usize,
}
