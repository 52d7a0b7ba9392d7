#![tactic(auto)]

pub mod filling; // each shape's nodes as words: position, symbol, children

// The words of one table of 16 shapes by 16 nodes.
pub const AREA_WORDS: usize = 256;

// The words of the five tables.
pub const TABLE_WORDS: usize = 1280;
