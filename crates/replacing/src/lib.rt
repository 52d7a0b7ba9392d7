#![tactic(auto)]

pub mod putting; // the call
mod finished; // what is never replaced
mod linking; // whether a replacement is one tree
mod making; // the new score's words
