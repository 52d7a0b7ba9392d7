use crate::engines::Engine;
use crate::failing::Failure;
use crate::finding::{Finder, Shown};
use crate::tally::Tally;
use crate::third::Third;
use running::files::Name;
use running::parts::first;
use std::io;
use std::io::{Error, ErrorKind, Read};

// More than any input has.
const MOST_CHUNKS: usize = 0x7fffffffffffffff;

const CHUNK_BYTES: usize = 65536;

// How far the names are worked through: the name begun, the files counted, and what is read where the name is `-`.
#[derive(Drop)]
struct Run<'a> {
    progress: bool,
    name: Name,
    tally: Tally,
    dash: Third<'a>,
}

impl<'a, 'b, E: Engine> Finder<'a, 'b, E> {
    // Prints name and report of every file that standard input names, and the last line.
    pub fn find_names(&mut self, progress: bool) -> Result<(), Failure> {
        let mut run = Run {
            progress,
            name: Name::new(),
            tally: Tally::default(),
            dash: Third::new(self.rt),
        };
        for _ in 0..MOST_CHUNKS {
            if !self.take_chunk(&mut run)? {
                self.finish(&mut run)?;
                return Ok(());
            }
        }
        Err(Failure::Names(Error::from(ErrorKind::FileTooLarge)))
    }

    // Whether there was one.
    fn take_chunk(&mut self, run: &mut Run<'a>) -> Result<bool, Failure> {
        let mut chunk = [0u8; CHUNK_BYTES];
        let n = self.rt.stdin().read(&mut chunk).map_err(Failure::Names)?;
        for byte in first(&chunk, n) {
            self.take_byte(*byte, run)?;
        }
        Ok(0 < n)
    }

    // A name is printed as it comes, so that none is too long for it.
    fn take_byte(&mut self, byte: u8, run: &mut Run<'a>) -> io::Result<()> {
        if byte == 0 {
            return self.end_name(run);
        }
        run.name.push(byte);
        self.out.put_byte(byte)
    }

    // A line on standard error after every 25 files.
    fn end_name(&mut self, run: &mut Run<'a>) -> io::Result<()> {
        let shown = self.find_named(run);
        run.name.clear();
        run.tally.begin_file();
        let files = run.tally.files;
        if run.progress && files % 25 == 0 {
            let _ = eprintln!(self.rt; "{files}");
        }
        run.tally.end_file(shown?);
        Ok(())
    }

    // A name that does not fit is longer than any that opens: the bytes of it that fit have no room for the end of a path.
    fn find_named(&mut self, run: &mut Run<'a>) -> io::Result<Shown> {
        self.out.put_byte(b'\n')?;
        self.find_file(run.name.as_bytes(), &mut run.dash)
    }

    // The last name may stand without its NUL. The last line is written when all before it is, and can then be said again.
    fn finish(&mut self, run: &mut Run<'a>) -> io::Result<()> {
        if !run.name.is_empty() {
            self.end_name(run)?;
        }
        self.out.write()?;
        let tally = run.tally;
        println!(self.rt; "{tally}")?;
        if run.progress {
            let _ = eprintln!(self.rt; "{tally}");
        }
        Ok(())
    }
}
