#![tactic(auto)]
// Counts clashes in altered tables, with marks of its own. Standard input has a case in each line: a folio's name, how many words of marks are
// lent, the marks that are not 0, and the changes, each with ` | ` behind it. The folio NAME.folio is opened and its tables are changed; printed
// is the line, with what `clashes` answers behind it: the number, or `refused` and the reason's number.
// With a `=` behind the folio's name the shapes are compared, and no field of marks stands before the changes: each mark lent is 65,535 before. Printed
// behind the line are then the marks that are not 0, each with its node, or the refusal, and each mark that was to stay 65,535 and did not.
use bufferstone::limits::{FILE_BYTES, MOST_SHAPES, SCORE_NODES, SHAPES_WORDS};
use bufferstone::{clashes, number, open};
use compared::compare_lent;
use kinds::{Reason, Refusal};
use running::changing::change_table;
use running::files::read_folio;
use running::lines::answer_lines;
use running::parts::first;
use running::tables::{Buffers, Lengths, Tables};
use running::texts::{before, field, has, value_of};
use std::io;

mod compared; // the marks by comparing, and those that stay

// The words of room that a table has for changes, behind the longest that opens.
const ROOM: usize = 4;

fn main(rt: HostRuntime) -> io::Result<()> {
    answer_lines(&rt, |line| run_case(&rt, line))
}

// A folio's symbols are its first bytes. The same stands in `puts`: `running`, which both have, is below opening.
fn run_case(rt: &HostRuntime, line: &[u8]) -> io::Result<()> {
    let mut file = [0u8; FILE_BYTES + ROOM];
    let mut words = [0u16; SHAPES_WORDS + ROOM];
    let mut starts = [0u16; MOST_SHAPES + ROOM];
    let mut score = [0u16; SCORE_NODES + ROOM];
    let mut spans = [0u16; SCORE_NODES + ROOM];
    let n = read_folio(rt, before(line, b' '), &mut file);
    match open(
        first(&file, n),
        &mut words,
        &mut starts,
        &mut score,
        &mut spans,
    ) {
        Err(Refusal(reason, place)) => print!(rt; "not opened {}", number(reason)),
        Ok(c) => {
            let mut buffers = Buffers {
                symbols: &mut file,
                words: &mut words,
                starts: &mut starts,
                score: &mut score,
                spans: &mut spans,
                lengths: Lengths::opened(c.symbols, c.words, c.shapes, c.nodes),
            };
            buffers.change(changes_of(line));
            run_changed(rt, line, buffers.tables())
        }
    }
}

fn compares(line: &[u8]) -> bool {
    has(field(line, 0), b'=')
}

// The last field.
fn changes_of(line: &[u8]) -> &[u8] {
    if compares(line) {
        return field(line, 2);
    }
    field(line, 3)
}

fn run_changed(rt: &HostRuntime, line: &[u8], tables: Tables<'_>) -> io::Result<()> {
    let lent = value_of(field(line, 1));
    if compares(line) {
        return compare_lent(rt, lent, tables);
    }
    match count_marked(field(line, 2), lent, tables) {
        Ok(n) => print!(rt; "{n}"),
        Err(reason) => print!(rt; "refused {}", number(reason)),
    }
}

fn count_marked(marked: &[u8], lent: usize, tables: Tables<'_>) -> Result<usize, Reason> {
    let mut marks = [0u16; SCORE_NODES + ROOM];
    let n = change_table(marked, b"", &mut marks, lent);
    clashes(
        tables.symbols,
        tables.shapes(),
        tables.score(),
        first(&marks, n),
    )
}
