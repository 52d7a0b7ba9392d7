#![tactic(auto)]

pub mod nodes; // the shapes that match at one node
pub mod marking; // at every node
