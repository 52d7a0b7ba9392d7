use crate::ROOM;
use bufferstone::limits::SCORE_NODES;
use bufferstone::{Node, Reason, Shape, Symbol, number, put};
use running::parts::{first, first_mut};
use running::showing::show_words;
use running::staying::{BEFORE, show_changed};
use running::tables::Tables;
use running::texts::{field, numbers_in, value_of, word_of};
use std::io;

// The line's fields are the folio, the shape, the node, the finished symbol, the replacement, the words lent and the changes.
pub fn put_lent(rt: &HostRuntime, line: &[u8], tables: Tables<'_>) -> io::Result<()> {
    let shape = Shape(word_of(field(line, 1)));
    let node = Node(word_of(field(line, 2)));
    let finished = Symbol(word_of(field(line, 3)));
    let lent = value_of(field(line, 5));
    let mut link = [0u16; SCORE_NODES];
    let mut new = [BEFORE; SCORE_NODES + ROOM];
    let answer = put(
        tables.symbols,
        tables.shapes(),
        tables.score(),
        shape,
        node,
        numbers_in(field(line, 4), &mut link),
        finished,
        first_mut(&mut new, lent),
    );
    let written = show_answer(rt, answer, &new)?;
    show_changed(rt, &new, written)
}

// How many words the call was to write.
fn show_answer(rt: &HostRuntime, answer: Result<usize, Reason>, new: &[u16]) -> io::Result<usize> {
    match answer {
        Err(reason) => {
            print!(rt; "refused {}", number(reason))?;
            Ok(0)
        }
        Ok(n) => {
            show_words(rt, first(new, n))?;
            Ok(n)
        }
    }
}
