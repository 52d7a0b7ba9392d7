#![tactic(auto)]

pub mod meeting; // the states met, one symbol after the other
