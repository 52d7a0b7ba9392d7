#![tactic(auto)]

pub mod strays; // a bit where no such shape matches
pub mod touches; // the nodes that matches touch
pub mod marks; // how many matches clash
