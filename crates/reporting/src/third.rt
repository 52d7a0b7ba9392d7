// Where `-` is read from while standard input has the names.
use std::fs::File;
use std::io::Read;
use std::{fs, io};

// Descriptor 3, which is opened when it is first read. Then it is read on from there, like standard input.
#[derive(Drop)]
pub struct Third<'a> {
    rt: &'a HostRuntime,
    opened: Option<File>,
}

impl<'a> Third<'a> {
    pub fn new(rt: &'a HostRuntime) -> Third<'a> {
        Third { rt, opened: None }
    }
}

impl Read for Third<'_> {
    fn read(&mut self, bytes: &mut [u8]) -> io::Result<usize> {
        if let Some(file) = &mut self.opened {
            return file.read(bytes);
        }
        let mut file = fs::open(self.rt, "/proc/self/fd/3")?;
        let n = file.read(bytes)?;
        self.opened = Some(file);
        Ok(n)
    }
}
