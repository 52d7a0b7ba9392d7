#![tactic(auto)]

pub mod files; // the call that binds a folio's file
mod storing; // bytes and words at an index
