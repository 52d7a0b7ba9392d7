#![tactic(auto)]

mod closure; // a square closed transitively
pub mod square; // the dependency among goals
pub mod members; // a class's goals
pub mod order; // the classes in the order of their first positions
pub mod same; // whether two sets of goals are equal
