use bufferstone::limits::LINE_BYTES;
use bufferstone::{Reason, put_refusal};
use running::failing;
use running::parts::first;
use running::reading::read_named;
use std::fmt::Display;
use std::io;
use std::io::Error;

pub fn show_refusal(rt: &HostRuntime, reason: Reason, place: usize) {
    let mut line = [0u8; LINE_BYTES];
    match put_refusal(reason, place, &mut line) {
        Err(why) => {}
        Ok(n) => show(rt, rt.write_all(first(&line, n))),
    }
}

pub fn show_nodes(rt: &HostRuntime, n: usize) {
    show(rt, println!(rt; "nodes {n}"));
}

// Says so where a line was not written.
fn show(rt: &HostRuntime, written: io::Result<()>) {
    if let Err(error) = written {
        fail(rt, b"standard output", error);
    }
}

// On standard error: what is wrong with the thing named.
pub fn say<D: Display + Drop>(rt: &HostRuntime, name: &[u8], what: D) {
    let to = rt.stderr();
    let _ = print!(to; "put: ");
    let _ = to.write_all(name);
    let _ = println!(to; ": {what}");
}

// The same where a call failed: why it did.
pub fn fail(rt: &HostRuntime, name: &[u8], error: Error) {
    failing::fail(&rt.stderr(), "put", name, error);
}

// The length of the file of that name, whose first bytes are put into `bytes`. It says why there is none.
pub fn read(rt: &HostRuntime, path: &[u8], bytes: &mut [u8]) -> Option<usize> {
    match read_named(rt, path, bytes) {
        Ok(length) => Some(length),
        Err(error) => {
            fail(rt, path, error);
            None
        }
    }
}
