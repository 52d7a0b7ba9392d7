#![tactic(auto)]

pub mod marks; // how many matches the marks hold
pub mod passing; // from match to match
