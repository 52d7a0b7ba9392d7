#![tactic(auto)]

pub mod aiming; // pairs of a number and a code, and the nodes that they lead to
pub mod queueing; // what a step writes
