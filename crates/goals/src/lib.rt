#![tactic(auto)]

use kinds::{Position, Shape};
use tables::AREA_WORDS;

pub mod words; // a goal as three words
pub mod obligations; // what a goal owes, and a state's label

// Past every code: no label, no announcement.
pub const NO_CODE: u32 = 65535;

// No position.
pub const NOWHERE: Position = Position(65535);

// Past every mask: the symbol is not expected.
pub const UNEXPECTED: u32 = 65536;

// Where the second of the five shape tables begins: five to the power of each node's depth. The first has the codes of their positions.
pub const POWERS_AT: usize = AREA_WORDS;

// The third: the nodes of each one's subtree.
pub const SIZES_AT: usize = 2 * AREA_WORDS;

// The fourth: its symbol.
pub const SYMBOLS_AT: usize = 3 * AREA_WORDS;

// The fifth: the mask of its children that are no blanks.
pub const CHILDREN_AT: usize = 4 * AREA_WORDS;

// A shape awaited: what it announces, and a mask of its nodes that are open.
#[derive(Clone, Copy)]
pub struct Goal {
    pub shape: Shape,
    pub at: Position,
    pub mask: u16,
}
