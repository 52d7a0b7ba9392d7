#![tactic(auto)]

pub mod reading; // a folio's shapes and its score: 7 to 17

// What whole shapes were met with: how many they are, and the depth of the deepest.
#[derive(Clone, Copy)]
pub struct ShapesMet {
    pub number: usize,
    pub depth: usize,
}
