#![tactic(auto)]

pub mod blocks; // the plan's words from the states met
