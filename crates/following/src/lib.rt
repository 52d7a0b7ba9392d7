#![tactic(auto)]

pub mod positions; // a position followed from a node by spans
