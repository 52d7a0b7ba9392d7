#![tactic(auto)]
// Puts a replacement into a folio's score: put FOLIO SHAPE NODE FINISHED LINK NEW
//
// FOLIO and LINK are files, LINK of the replacement's words, low byte first, at most 32,768 of them. SHAPE, NODE and FINISHED are decimal numbers of at
// most 65,535; FINISHED is the finished symbol, `-` for none. The new folio has FOLIO's symbols and shapes, and the new score. It is written to the file
// NEW, whole or not at all; a file of that name is never touched.
//
// Printed is `nodes N`, the new score's, when the file stands; `refused N at P` where FOLIO or the replacement is refused; nothing where something else
// is wrong, which standard error then names. The exit status is 0 in each case: what is printed says which it is.
use asking::{argument, is_complete, read_numbers};
use bufferstone::limits::FILE_BYTES;
use linking::{LINK_WORDS, read_link};
use making::put_into;
use running::parts::first;
use saying::{read, say};

mod asking; // the arguments
mod linking; // the replacement
mod making; // opening, putting and binding
mod placing; // a new file
mod saying; // lines and messages

fn main(rt: HostRuntime) {
    if is_complete(&rt) {
        let _ = put_files(&rt);
    } else {
        say(&rt, b"usage", "put FOLIO SHAPE NODE FINISHED LINK NEW");
    }
}

// Nothing where something is wrong with an argument, or with a file that one names. One byte more is read than a folio may have; of a longer file the
// rest is only counted.
fn put_files(rt: &HostRuntime) -> Option<()> {
    let asked = read_numbers(rt)?;
    let mut file = [0u8; FILE_BYTES + 1];
    let mut words = [0u16; LINK_WORDS];
    let length = read(rt, argument(rt, 1).as_bytes(), &mut file)?;
    let link = read_link(rt, &mut words)?;
    put_into(rt, first(&file, length), length, asked, link);
    Some(())
}
