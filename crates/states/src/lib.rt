#![tactic(auto)]

use kinds::{Position, State, Symbol};

pub mod keeping; // the states met, in scratch, and the class that is looked up among them
pub mod parting; // a state on a symbol, parted into classes

// As many states there are at most, and as many counts of goals stand first in scratch.
pub const STATES: usize = 128;

// The words of a derivative of 96 goals.
pub const DERIVED_WORDS: usize = 288;

// What every derivative is taken by: the shapes' tables, the symbols, and how many shapes there are.
#[derive(Clone, Copy)]
pub struct Setting<'a> {
    pub tab: &'a [u16],
    pub symbols: &'a [u8],
    pub shapes: usize,
}

// A state, its label, and the symbol that it is derived by.
#[derive(Clone, Copy)]
pub struct Transition {
    pub state: State,
    pub root: Position,
    pub symbol: Symbol,
}

// A derivative: its goals' words, how many goals it has, and the dependency among them.
#[derive(Clone, Copy)]
pub struct Derivative<'a> {
    pub goals: &'a [u16],
    pub count: usize,
    pub dep: &'a [[bool; 96]; 96],
}

// How many goals a state on a symbol announces, how many its derivative has, and how many classes.
#[derive(Clone, Copy)]
pub struct Parts {
    pub announced: usize,
    pub goals: usize,
    pub classes: usize,
}

// How many goals a class has, and its displacement.
#[derive(Clone, Copy)]
pub struct Class {
    pub goals: usize,
    pub top: Position,
}
