use crate::asking::argument;
use crate::saying::fail;
use running::files::{Name, text_of};
use std::fs::File;
use std::io::Write;
use std::random::RandomSource;
use std::{fs, io};

// Makes the file that the last argument names, of all the bytes, and answers whether it stands.
pub fn place(rt: &HostRuntime, bytes: &[u8]) -> bool {
    let name = argument(rt, 6);
    match place_at(rt, bytes, name.as_bytes()) {
        Ok(()) => true,
        Err(error) => {
            fail(rt, name.as_bytes(), error);
            false
        }
    }
}

// They go to a file of another name first, beside it, so that no half of a folio ever has the name.
fn place_at(rt: &HostRuntime, bytes: &[u8], path: &[u8]) -> io::Result<()> {
    let name = name_beside(rt, path);
    let beside = text_of(name.as_bytes())?;
    let path = text_of(path)?;
    let file = create(rt, beside)?;
    let placed = write_whole(file, bytes).and_then(|()| move_to(rt, beside, path));
    if placed.is_err() {
        let _ = fs::remove_file(rt, beside);
    }
    placed
}

// The name with a dot and six letters behind it, that no other run is likely to take. A name that is cut short is one byte longer than a path may be.
fn name_beside(rt: &HostRuntime, path: &[u8]) -> Name {
    let mut random = [0u8; 6];
    let _ = rt.fill_bytes(&mut random);
    let mut name = Name::new();
    name.push_all(path);
    name.push(b'.');
    for byte in &random {
        name.push(b'a' + byte % 26);
    }
    name
}

// A file that was not there before.
fn create(rt: &HostRuntime, path: &str) -> io::Result<File> {
    File::options().write(true).create_new(true).open(rt, path)
}

// The bytes are on the disk when this is done; closing the file can then lose none of them.
fn write_whole(mut file: File, bytes: &[u8]) -> io::Result<()> {
    file.write_all(bytes)?;
    file.sync_all()
}

// A file is renamed over one of the new name, so that name is taken first, which fails where there is one.
fn move_to(rt: &HostRuntime, beside: &str, path: &str) -> io::Result<()> {
    create(rt, path)?;
    let moved = fs::rename(rt, beside, path);
    if moved.is_err() {
        let _ = fs::remove_file(rt, path);
    }
    moved
}
