// Files, and the program's arguments.
ghost use Rattle.std.specs.Prelude.{◌≤◌};

use crate::reading::read_full;
use std::env::FillError;
use std::rt::{Env, Files};
use std::{fs, io, str};

// No path is as long.
pub const PATH_BYTES: usize = 4096;

// A file's name: as many of its bytes as fit.
#[derive(Clone, Copy)]
pub struct Name {
    bytes: [u8; PATH_BYTES],
    length: usize,
    ghost fits: { length ≤ 4096 },
}

impl Name {
    pub fn new() -> Name {
        Name {
            bytes: [0; PATH_BYTES],
            length: 0,
        }
    }

    // The program's argument of that number: no bytes where they do not fit; none where there is no such argument.
    pub fn argument(environment: &impl Env, i: usize) -> Option<Name> {
        let mut bytes = [0u8; PATH_BYTES];
        match environment.arg(i, &mut bytes) {
            Ok(length) => Some(Name { bytes, length }),
            Err(FillError::TooLong) => Some(Name::new()),
            Err(FillError::NotPresent) => None,
        }
    }

    pub fn as_bytes(&self) -> &[u8] {
        &self.bytes[..self.length]
    }

    pub fn is_empty(&self) -> bool {
        self.length == 0
    }

    pub fn clear(&mut self) {
        self.length = 0;
    }

    pub fn push(&mut self, byte: u8) {
        if self.length < PATH_BYTES {
            self.bytes[self.length] = byte;
            self.length += 1;
        }
    }

    pub fn push_all(&mut self, bytes: &[u8]) {
        for byte in bytes {
            self.push(*byte);
        }
    }
}

impl Default for Name {
    fn default() -> Name {
        Name::new()
    }
}

pub fn has_argument(environment: &impl Env, i: usize) -> bool {
    Name::argument(environment, i).is_some()
}

// A path is text: bytes that are not UTF-8 name no file.
pub fn text_of(path: &[u8]) -> io::Result<&str> {
    str::from_utf8(path).map_err(|_| io::Error::from(io::ErrorKind::InvalidFilename))
}

// Opens the file of that name for reading.
pub fn open_named<R: Files>(files: &R, path: &[u8]) -> io::Result<R::File> {
    fs::open(files, text_of(path)?)
}

// The bytes of the file NAME.folio; how many they are.
pub fn read_folio(files: &impl Files, name: &[u8], file: &mut [u8]) -> usize {
    let mut path = Name::new();
    path.push_all(name);
    path.push_all(b".folio");
    match open_named(files, path.as_bytes()) {
        Ok(mut folio) => read_full(&mut folio, file),
        Err(_) => 0,
    }
}
