use crate::finding::Shown;
use std::fmt;

// The files looked at, and what they came to.
#[derive(Clone, Copy, Default)]
pub struct Tally {
    pub files: usize,
    reported: usize,
    refused: usize,
    unread: usize,
}

impl Tally {
    pub fn begin_file(&mut self) {
        self.files = self.files.saturating_add(1);
    }

    pub fn end_file(&mut self, shown: Shown) {
        let kind = match shown {
            Shown::Report => &mut self.reported,
            Shown::Refusal => &mut self.refused,
            Shown::Unread => &mut self.unread,
        };
        *kind = kind.saturating_add(1);
    }
}

// The last line.
impl fmt::Display for Tally {
    fn fmt<W: fmt::Write>(&self, f: &mut fmt::Formatter<W>) -> fmt::Result {
        write!(
            f,
            "files {} reported {} refused {} unread {}",
            self.files, self.reported, self.refused, self.unread
        )
    }
}
