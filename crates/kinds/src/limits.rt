// The numbers of document 01, each once.

// The longest file, in bytes, and its trailer.
pub const FILE_BYTES: usize = 8744;

pub const TRAILER_BYTES: usize = 8;

pub const MOST_SYMBOLS: usize = 32;

pub const MOST_CHILDREN: u8 = 4;

pub const MOST_SHAPES: usize = 16;

pub const SHAPE_NODES: usize = 16;

// The words of all shapes.
pub const SHAPES_WORDS: usize = 256;

// Depths from 0 to 5.
pub const SHAPE_LEVELS: usize = 6;

pub const SCORE_NODES: usize = 4096;

// Two words for each item that may wait.
pub const WAITING_WORDS: usize = 8192;

// Depths from 0 to 64.
pub const SCORE_LEVELS: usize = 65;

// Words from this one on are blanks in a shape.
pub const BLANK: usize = 65535;

// Words from this one on name a shape's blanks in a replacement, from left to right.
pub const FIRST_NAME: usize = 65504;

// No word is one in a score. A word can number so many nodes.
pub const NO_BLANK: usize = 65536;

pub const NUMBERED_NODES: usize = 65536;

pub const MOST_STATES: u16 = 128;

// The plan buffer that find lends, and the scratch that building asks for.
pub const PLAN_WORDS: usize = 32768;

pub const SCRATCH_WORDS: usize = 32768;

// A line of the report has room in so many bytes: its path has at most 64 numbers, and a number at most 20 digits.
pub const LINE_BYTES: usize = 1400;

pub const PATH_NUMBERS: usize = 64;

pub const NUMBER_DIGITS: usize = 20;
