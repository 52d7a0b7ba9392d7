#![tactic(auto)]

use walk::Record;

pub mod taking; // the choices of a list, in order

// Of a list of choices: how many were accepted, and the record after them. A refusal is at the index that is that number.
#[derive(Clone, Copy)]
pub struct Taken(pub usize, pub Record);
