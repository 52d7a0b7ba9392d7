use crate::ROOM;
use bufferstone::limits::SCORE_NODES;
use bufferstone::{Reason, compare, number};
use running::parts::{first, first_mut};
use running::showing::show_marks;
use running::staying::{BEFORE, show_changed};
use running::tables::Tables;
use std::io;

// Compares with so many marks lent, and prints the marks or the refusal; behind that the marks that were to stay as before, and did not.
pub fn compare_lent(rt: &HostRuntime, lent: usize, tables: Tables<'_>) -> io::Result<()> {
    let score = tables.score();
    let mut marks = [BEFORE; SCORE_NODES + ROOM];
    let answer = compare(
        tables.symbols,
        tables.shapes(),
        score,
        first_mut(&mut marks, lent),
    );
    let written = show_answer(rt, answer, first(&marks, score.words.len()))?;
    show_changed(rt, &marks, written)
}

// How many marks the call was to write.
fn show_answer(
    rt: &HostRuntime,
    answer: Result<usize, Reason>,
    marks: &[u16],
) -> io::Result<usize> {
    match answer {
        Err(reason) => {
            print!(rt; "refused {}", number(reason))?;
            Ok(0)
        }
        Ok(some) => {
            show_marks(rt, "", marks)?;
            Ok(marks.len())
        }
    }
}
