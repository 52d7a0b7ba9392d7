ghost use Rattle.std.specs.Prelude.{◌≡◌, ◌+◌, ◌*◌, ◌<◌, ◌≤◌, length, get_or};
ghost use Rattle.std.proofs.lemmas.List.Edits.{sets};
ghost use Rattle.tables.specs.ShapeTables.{word_at, span_at, seek_from, Seekable, kids_at, node_word, entry_w, table_words, entries_from};

use crate::{AREA_WORDS, TABLE_WORDS};

// The nodes of a shape, at most.
const NODES: usize = 16;

fn word_at(words: &[u16], i: usize) -> u16
    ensures { result ≡ word_at words.now i }
{
    words.get(i).copied().unwrap_or(65535)
}

fn children_of(symbols: &[u8], w: u16) -> usize
    ensures value { result ≡ get_or symbols.now w 0 }
    ensures small { result ≤ 255 }
{
    symbols.get(w as usize).map_or(0, |n| *n as usize)
}

// The nodes of the term at `at`, at most 16.
fn span_at(symbols: &[u8], words: &[u16], at: usize) -> usize
    requires { at ≤ 100000 }
    ensures value { result ≡ span_at symbols.now words.now at }
    ensures few { result ≤ 16 }
{
    let mut need = 1;
    for i in 0..NODES {
        if need == 0 {
            return i;
        }
        need = need - 1 + children_of(symbols, word_at(words, at + i));
    }
    NODES
}

// Node r of the shape at st: v with `one` added for each sibling passed, and five times it and one more for each step down.
fn seek(symbols: &[u8], words: &[u16], st: usize, r: usize, one: u32, v: u32) -> u32
    requires { Seekable st one v }
    ensures value { result ≡ seek_from symbols.now words.now st r one 16 0 v }
    ensures small { result ≤ 65535 }
{
    let mut c = 0;
    let mut here = v;
    for _ in 0..NODES {
        if r <= c {
            return here;
        }
        let n = span_at(symbols, words, st + c);
        if r < c + n {
            c += 1;
            here = (5 * here + one) % 65536;
        } else {
            c += n;
            here = (here + one) % 65536;
        }
    }
    here
}

// The mask of the children that are no blanks, of node r of the shape at st.
fn kids_at(symbols: &[u8], words: &[u16], st: usize, r: usize) -> u64
    requires { (st ≤ 65535) × (r < 16) }
    ensures value { result ≡ kids_at symbols.now words.now st r }
    ensures small { result ≤ 65535 }
{
    let end = r + span_at(symbols, words, st + r);
    let mut c = r + 1;
    let mut mask: u64 = 0;
    for _ in 0..NODES {
        if end <= c {
            return mask;
        }
        if word_at(words, st + c) < 65535 {
            mask = (mask + (1u64 << c)) % 65536;
        }
        c += span_at(symbols, words, st + c);
    }
    mask
}

#[tactic(auto, unfolding(crate::specs::ShapeTables::node_word))]
fn node_word(symbols: &[u8], words: &[u16], st: usize, x: usize, r: usize) -> u16
    requires { (st ≤ 65535) × (r < 16) }
    ensures { result ≡ node_word symbols.now words.now st x r }
{
    match x {
        0 => seek(symbols, words, st, r, 1, 0) as u16,
        1 => seek(symbols, words, st, r, 0, 1) as u16,
        2 => span_at(symbols, words, st + r) as u16,
        3 => word_at(words, st + r),
        _ => kids_at(symbols, words, st, r) as u16,
    }
}

// Word k of the tables.
#[tactic(auto, unfolding(crate::specs::ShapeTables::entry_w))]
fn table_word(symbols: &[u8], words: &[u16], starts: &[u16], k: usize) -> u16
    ensures { result ≡ entry_w symbols.now words.now starts.now k }
{
    let s = k / 16 % 16;
    if s < starts.len() {
        let st = starts[s] as usize;
        let r = k % 16;
        if r < span_at(symbols, words, st) {
            return node_word(symbols, words, st, k / AREA_WORDS, r);
        }
        return 0;
    }
    0
}

// The five tables, at the start of `tab`.
pub fn fill_tables(symbols: &[u8], words: &[u16], starts: &[u16], tab: &mut [u16])
    requires { table_words ≤ length tab.old }
    ensures { tab.new ≡ sets tab.old 0 (entries_from symbols.now words.now starts.now 0 table_words) }
{
    for (k, word) in tab[..TABLE_WORDS].iter_mut().enumerate() {
        *word = table_word(symbols, words, starts, k);
    }
}
