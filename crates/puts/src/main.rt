#![tactic(auto)]
// Puts replacements in. Standard input has a case in each line: a folio's name, a shape, a node, the finished symbol, the replacement's words, how
// many words are lent for the new score, and the changes of the tables, each with ` | ` behind it. The folio NAME.folio is opened and its tables are
// changed; each word lent is 65,535 before. Printed is the line, with what `put` answers behind it: the new score's words, or `refused` and the
// reason's number; and then each word that was to stay 65,535 and did not.
use bufferstone::limits::{FILE_BYTES, MOST_SHAPES, SCORE_NODES, SHAPES_WORDS};
use bufferstone::{number, open};
use kinds::Refusal;
use putting::put_lent;
use running::files::read_folio;
use running::lines::answer_lines;
use running::parts::first;
use running::tables::{Buffers, Lengths};
use running::texts::{before, field};
use std::io;

mod putting; // the call, and what it leaves

// The words of room that a table has for changes, behind the longest that opens.
const ROOM: usize = 4;

fn main(rt: HostRuntime) -> io::Result<()> {
    answer_lines(&rt, |line| run_case(&rt, line))
}

// A folio's symbols are its first bytes. The same stands in `altered`: `running`, which both have, is below opening.
fn run_case(rt: &HostRuntime, line: &[u8]) -> io::Result<()> {
    let mut file = [0u8; FILE_BYTES + ROOM];
    let mut words = [0u16; SHAPES_WORDS + ROOM];
    let mut starts = [0u16; MOST_SHAPES + ROOM];
    let mut score = [0u16; SCORE_NODES + ROOM];
    let mut spans = [0u16; SCORE_NODES + ROOM];
    let n = read_folio(rt, before(line, b' '), &mut file);
    match open(
        first(&file, n),
        &mut words,
        &mut starts,
        &mut score,
        &mut spans,
    ) {
        Err(Refusal(reason, place)) => print!(rt; "not opened {}", number(reason)),
        Ok(c) => {
            let mut buffers = Buffers {
                symbols: &mut file,
                words: &mut words,
                starts: &mut starts,
                score: &mut score,
                spans: &mut spans,
                lengths: Lengths::opened(c.symbols, c.words, c.shapes, c.nodes),
            };
            buffers.change(field(line, 6));
            put_lent(rt, line, buffers.tables())
        }
    }
}
