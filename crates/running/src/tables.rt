// An opened folio's tables.
use crate::changing::change_table;
use crate::parts::first;
use kinds::{Score, Shapes};

// As they are lent to a call.
#[derive(Clone, Copy)]
pub struct Tables<'a> {
    pub symbols: &'a [u8],
    pub words: &'a [u16],
    pub starts: &'a [u16],
    pub score: &'a [u16],
    pub spans: &'a [u16],
}

impl<'a> Tables<'a> {
    pub fn shapes(self) -> Shapes<'a> {
        Shapes {
            words: self.words,
            starts: self.starts,
        }
    }

    pub fn score(self) -> Score<'a> {
        Score {
            words: self.score,
            spans: self.spans,
        }
    }
}

// The buffers that they are in, to be changed, and how much of each they are.
#[derive(Drop)]
pub struct Buffers<'a> {
    pub symbols: &'a mut [u8],
    pub words: &'a mut [u16],
    pub starts: &'a mut [u16],
    pub score: &'a mut [u16],
    pub spans: &'a mut [u16],
    pub lengths: Lengths,
}

// How long they are.
#[derive(Clone, Copy)]
pub struct Lengths {
    pub symbols: usize,
    pub words: usize,
    pub starts: usize,
    pub score: usize,
    pub spans: usize,
}

impl Lengths {
    // As opening writes them.
    pub fn opened(symbols: usize, words: usize, shapes: usize, nodes: usize) -> Lengths {
        Lengths {
            symbols,
            words,
            starts: shapes,
            score: nodes,
            spans: nodes,
        }
    }
}

impl Buffers<'_> {
    // Makes the changes of each table.
    pub fn change(&mut self, changes: &[u8]) {
        let n = self.lengths;
        self.lengths = Lengths {
            symbols: change_table(changes, b"symbols", self.symbols, n.symbols),
            words: change_table(changes, b"shapes", self.words, n.words),
            starts: change_table(changes, b"starts", self.starts, n.starts),
            score: change_table(changes, b"score", self.score, n.score),
            spans: change_table(changes, b"spans", self.spans, n.spans),
        };
    }

    pub fn tables(&self) -> Tables<'_> {
        let n = self.lengths;
        Tables {
            symbols: first(self.symbols, n.symbols),
            words: first(self.words, n.words),
            starts: first(self.starts, n.starts),
            score: first(self.score, n.score),
            spans: first(self.spans, n.spans),
        }
    }
}
