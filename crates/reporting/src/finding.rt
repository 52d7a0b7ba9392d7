use crate::engines::Engine;
use crate::holding::Output;
use bufferstone::limits::{FILE_BYTES, MOST_SHAPES, SCORE_NODES, SHAPES_WORDS};
use bufferstone::{Counts, Reason, Refusal, Totals, open};
use running::files::open_named;
use running::parts::first;
use running::reading::read_whole;
use running::tables::Tables;
use running::texts::same;
use std::io;
use std::io::Read;
use totals::count;

// What was shown of a file.
#[derive(Clone, Copy)]
pub enum Shown {
    Report,
    Refusal,
    Unread,
}

// A program's run: its engine, and its output.
#[derive(Drop)]
pub struct Finder<'a, 'b, E> {
    pub rt: &'a HostRuntime,
    pub engine: &'a E,
    pub out: Output<'a, 'b>,
}

impl<'a, 'b, E: Engine> Finder<'a, 'b, E> {
    // Prints the report of the file of that name; `-` is the reader `standard`.
    pub fn find_file(&mut self, path: &[u8], standard: &mut impl Read) -> io::Result<Shown> {
        if same(path, b"-") {
            return self.find_in(standard);
        }
        match open_named(self.rt, path) {
            Ok(mut file) => self.find_in(&mut file),
            Err(_) => self.show_unread(),
        }
    }

    // One byte more is read than a folio may have; of a longer input the rest is only counted.
    pub fn find_in(&mut self, input: &mut impl Read) -> io::Result<Shown> {
        let mut file = [0u8; FILE_BYTES + 1];
        match read_whole(input, &mut file) {
            Ok(n) => self.find(first(&file, n), n),
            Err(_) => self.show_unread(),
        }
    }

    // The file's bytes are all lent, or more than a folio may have; `length` is that of the whole file.
    fn find(&mut self, file: &[u8], length: usize) -> io::Result<Shown> {
        if FILE_BYTES < file.len() {
            return self.show_refusal(Refusal(Reason::Long, length));
        }
        self.find_whole(file)
    }

    // The tables are in a function that returns in one place: they are cleared once.
    fn find_whole(&mut self, file: &[u8]) -> io::Result<Shown> {
        let mut words = [0u16; SHAPES_WORDS];
        let mut starts = [0u16; MOST_SHAPES];
        let mut score = [0u16; SCORE_NODES];
        let mut spans = [0u16; SCORE_NODES];
        match open(file, &mut words, &mut starts, &mut score, &mut spans) {
            Err(refusal) => self.show_refusal(refusal),
            Ok(c) => {
                let tables = Tables {
                    symbols: first(file, c.symbols),
                    words: first(&words, c.words),
                    starts: first(&starts, c.shapes),
                    score: first(&score, c.nodes),
                    spans: first(&spans, c.nodes),
                };
                self.find_opened(c, tables)
            }
        }
    }

    fn find_opened(&mut self, counts: Counts, tables: Tables<'_>) -> io::Result<Shown> {
        let mut marks = [0u16; SCORE_NODES];
        match self.mark_and_count(counts, tables, &mut marks) {
            Ok(totals) => { self.show_report(totals, tables.spans, first(&marks, counts.nodes)) },
            Err(refusal) => self.show_refusal(refusal),
        }
    }

    fn mark_and_count(
        &self,
        counts: Counts,
        tables: Tables<'_>,
        marks: &mut [u16],
    ) -> Result<Totals, Refusal> {
        let made = self.engine.mark(tables, marks)?;
        let marks = first(marks, counts.nodes);
        match count(
            counts,
            made,
            tables.symbols,
            tables.shapes(),
            tables.score(),
            marks,
        ) {
            Ok(totals) => Ok(totals),
            Err(reason) => Err(Refusal(reason, 0)),
        }
    }
}
