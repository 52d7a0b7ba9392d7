#![tactic(auto)]

pub mod derivative; // a state's goals after a symbol
pub mod announce; // what is announced after a symbol
pub mod lift; // goals moved up under a common position
pub mod sorting; // numbers in order
