#![tactic(auto)]

use kinds::Node;

pub mod starting; // a walk begins
pub mod stepping; // one step of it

// The buffers that a walk is lent.
#[derive(Drop)]
pub struct Walk<'a> {
    pub waiting: &'a mut [u16],
    pub log: &'a mut [u16],
    pub marks: &'a mut [u16],
}

// Of a walk: how many items wait, how many nodes are logged, and how many matches are marked.
#[derive(Clone, Copy)]
pub struct Record {
    pub waiting: usize,
    pub logged: usize,
    pub matches: usize,
}

// What a step sees: the item's node, the node read, and where the block begins.
#[derive(Clone, Copy)]
pub struct Seen {
    pub from: Node,
    pub node: Node,
    pub block: usize,
}
