#![tactic(auto)]

use kinds::Node;

pub mod checking; // the tables lent to later calls
pub mod showing; // the words of one subtree

// Which table a subtree is asked of, and at which of its words.
#[derive(Clone, Copy)]
pub enum Asked {
    Shapes(usize),
    Score(Node),
}
