// The changes of a table, each with a space behind it: TABLE@I=V, TABLE+V, TABLE-K. The marks are changed as a table with no name: I:V.
use crate::parts::{Entry, put};
use crate::texts::{before, begins, behind, has, value_of};

// A value at an index, a value behind the last, or so many of the last left out.
#[derive(Clone, Copy)]
enum Change {
    At(usize, usize),
    Behind(usize),
    Without(usize),
}

// How many entries a table of n has when what `changes` says of it is done.
pub fn change_table<T: Entry>(changes: &[u8], table: &[u8], entries: &mut [T], n: usize) -> usize {
    let mut now = n;
    for ended in changes.split_inclusive(|byte| *byte == b' ') {
        if let Some(text) = ended.strip_suffix(b" ") {
            now = change_of(text, table).map_or(now, |change| change.make(entries, now));
        }
    }
    now
}

fn change_of(text: &[u8], table: &[u8]) -> Option<Change> {
    if text.is_empty() || !begins(text, table) {
        return None;
    }
    if table.is_empty() {
        return Some(change_at(text, b':'));
    }
    Some(signed_change(text))
}

// No name of a table has a sign in it.
fn signed_change(text: &[u8]) -> Change {
    if has(text, b'@') {
        return change_at(text, b'=');
    }
    if has(text, b'+') {
        return Change::Behind(value_of(text));
    }
    Change::Without(value_of(text))
}

fn change_at(text: &[u8], sign: u8) -> Change {
    Change::At(value_of(before(text, sign)), value_of(behind(text, sign)))
}

impl Change {
    // Made in a table of n entries; how many there are then. No table comes near the greatest length.
    fn make<T: Entry>(self, entries: &mut [T], n: usize) -> usize {
        match self {
            Change::At(i, value) => {
                put(entries, i, value);
                n
            }
            Change::Behind(value) => {
                put(entries, n, value);
                n.saturating_add(1)
            }
            Change::Without(k) => n.saturating_sub(k),
        }
    }
}
