#![tactic(auto)]

pub mod reader; // one term, read in preorder
pub mod spans; // the spans of its nodes

// What a reading is held to: words from `blanks` on are blanks (65,536: none is), and no node stands at `stop` or after it.
#[derive(Clone, Copy)]
pub struct Limits {
    pub blanks: usize,
    pub stop: usize,
}

// What a whole term was met with: the index after its last word, and the greatest depth, its root at 0.
#[derive(Clone, Copy)]
pub struct Met {
    pub end: usize,
    pub depth: usize,
}

// Why the words at an index are no term within the limits.
#[derive(Clone, Copy)]
pub enum Fault {
    Ends,
    NoSymbol,
    Many,
    Deep,
}
