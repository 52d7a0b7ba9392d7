use crate::asking::Asked;
use crate::placing::place;
use crate::saying::{say, show_nodes, show_refusal};
use binding::files::bind;
use bufferstone::limits::{FILE_BYTES, MOST_SHAPES, SCORE_NODES, SHAPES_WORDS};
use bufferstone::{Reason, Refusal, open, put};
use running::parts::first;
use running::tables::Tables;

// A file of which all bytes are lent, or more than a folio may have; `length` is that of the whole file.
pub fn put_into(rt: &HostRuntime, file: &[u8], length: usize, asked: Asked, link: &[u16]) {
    if FILE_BYTES < file.len() {
        show_refusal(rt, Reason::Long, length);
        return;
    }
    let mut words = [0u16; SHAPES_WORDS];
    let mut starts = [0u16; MOST_SHAPES];
    let mut score = [0u16; SCORE_NODES];
    let mut spans = [0u16; SCORE_NODES];
    match open(file, &mut words, &mut starts, &mut score, &mut spans) {
        Err(Refusal(reason, place)) => show_refusal(rt, reason, place),
        Ok(c) => {
            let tables = Tables {
                symbols: first(file, c.symbols),
                words: first(&words, c.words),
                starts: first(&starts, c.shapes),
                score: first(&score, c.nodes),
                spans: first(&spans, c.nodes),
            };
            put_opened(rt, tables, asked, link);
        }
    }
}

fn put_opened(rt: &HostRuntime, tables: Tables<'_>, asked: Asked, link: &[u16]) {
    let Asked {
        shape,
        node,
        finished,
    } = asked;
    let mut new = [0u16; SCORE_NODES];
    match put(
        tables.symbols,
        tables.shapes(),
        tables.score(),
        shape,
        node,
        link,
        finished,
        &mut new,
    ) {
        Err(reason) => show_refusal(rt, reason, 0),
        Ok(n) => write_folio(rt, tables.symbols, tables.words, first(&new, n)),
    }
}

fn write_folio(rt: &HostRuntime, symbols: &[u8], words: &[u16], score: &[u16]) {
    let mut file = [0u8; FILE_BYTES];
    let n = bind(symbols, words, score, &mut file);
    if n == 0 {
        say(rt, b"the new folio", "over a folio's limits");
        return;
    }
    if place(rt, first(&file, n)) {
        show_nodes(rt, score.len());
    }
}
