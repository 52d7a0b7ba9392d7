use crate::going::UNWRITTEN;
use running::parts::{behind, first};
use running::showing::{show_spaced, show_words};
use std::io;

// The first n words are those of the items waiting; what is written behind them was left there by others.
pub fn show_waiting(rt: &HostRuntime, words: &[u16], n: usize) -> io::Result<()> {
    show_words(rt, first(words, n))?;
    let left = behind(first(words, written(words)), n);
    if left.is_empty() {
        return Ok(());
    }
    if 0 < n {
        print!(rt; " ")?;
    }
    print!(rt; ";")?;
    show_spaced(rt, left)
}

// Where the words end that a walk wrote.
fn written(words: &[u16]) -> usize {
    let last = words.iter().rposition(|word| *word != UNWRITTEN);
    last.map_or(0, |i| i.saturating_add(1))
}
