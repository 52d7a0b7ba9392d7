#![tactic(auto)]

pub mod opening; // the call that opens a folio
mod storing; // what opening writes

// As many words as shapes and score have in the longest file.
const SECTION_WORDS: usize = 4368;

// How many symbols, shapes, shape words and nodes a folio has, and the depth of its score and of its deepest shape.
#[derive(Clone, Copy)]
pub struct Counts {
    pub symbols: usize,
    pub shapes: usize,
    pub words: usize,
    pub nodes: usize,
    pub depth: usize,
    pub deepest: usize,
}
