use crate::going::Going;
use bufferstone::number;
use running::texts::{before, begins, behind, has, value_of};
use std::io;

impl Going {
    // What is done, in order, each with a space behind it. N: a step takes item N; V:M: the caller puts M into the mark at node V; =C: the caller puts
    // C into the stored number.
    pub fn take_singly(&mut self, rt: &HostRuntime, text: &[u8]) -> io::Result<()> {
        for ended in text.split_inclusive(|byte| *byte == b' ') {
            let done = ended.strip_suffix(b" ").unwrap_or(&[]);
            if !done.is_empty() {
                self.do_one(rt, done)?;
            }
        }
        self.show_marked(rt)
    }

    fn do_one(&mut self, rt: &HostRuntime, done: &[u8]) -> io::Result<()> {
        if begins(done, b"=") {
            self.change_number(value_of(done));
            return Ok(());
        }
        if has(done, b':') {
            self.put_mark(value_of(before(done, b':')), value_of(behind(done, b':')));
            return Ok(());
        }
        match self.step(value_of(done)) {
            Ok(()) => print!(rt; " {}", self.record.matches),
            Err(reason) => print!(rt; " r{}", number(reason)),
        }
    }
}
