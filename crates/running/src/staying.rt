// Words that a call was to leave as they were.
use std::io;

// Every word before the call.
pub const BEFORE: u16 = 65535;

// The words from n on that are not as before.
pub fn show_changed(to: &impl Print, words: &[u16], n: usize) -> io::Result<()> {
    for (i, word) in words.iter().enumerate().skip(n) {
        if *word != BEFORE {
            print!(to; " changed {i}:{word}")?;
        }
    }
    Ok(())
}
