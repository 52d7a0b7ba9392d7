ghost use Rattle.std.specs.Prelude.{◌≡◌, ◌≤◌, ℕ, List, length, IfOk};
ghost use Rattle.std.specs.Io.KnownBytes.{Consumes, IsAtEnd};
ghost use Rattle.running.specs.Input.{HoldsInput, ReadsOn};

use crate::files::open_named;
use std::io;
use std::io::Read;
use std::rt::Files;

// No input takes as many turns.
const MOST_TURNS: u64 = 0x7fffffffffffffff;

// Reads the file of that name as `read_whole` does.
pub fn read_named(files: &impl Files, path: &[u8], file: &mut [u8]) -> io::Result<usize> {
    let mut input = open_named(files, path)?;
    read_whole(&mut input, file)
}

// The length of an input whose first bytes are put into `file`. Nothing says that it ends: the turns are more than any input takes.
pub fn read_whole<R: Read>(input: &mut R, file: &mut [u8]) -> io::Result<usize>
    ensures { IfOk result (HoldsInput (R.remaining input.old) file.new) }
{
    let mut length: usize = 0;
    for turn in 0..MOST_TURNS {
        let n = read_on(input, file, length)?;
        if n == 0 {
            return Ok(length);
        }
        length = length.saturating_add(n);
    }
    Err(io::Error::from(io::ErrorKind::FileTooLarge))
}

// What does not fit into `file` is only counted.
fn read_on<R: Read>(input: &mut R, file: &mut [u8], length: usize) -> io::Result<usize>
    ensures { IfOk result (ReadsOn (R.remaining input.old) (R.remaining input.new) file.old file.new length) }
{
    if length < file.len() {
        return input.read(&mut file[length..]);
    }
    count_on(input)
}

fn count_on<R: Read>(input: &mut R) -> io::Result<usize>
    ensures { IfOk result (λ n. (read : List ℕ) × (length read ≡ n) × Consumes (R.remaining input.old) (R.remaining input.new) read
        × (n ≡ 0 → IsAtEnd (R.remaining input.new))) }
{
    let mut bytes = [0u8; 65536];
    input.read(&mut bytes)
}

// Reads until all the bytes are there, the input ends or a read fails; how many there are.
pub fn read_full(input: &mut impl Read, bytes: &mut [u8]) -> usize
    ensures { result ≤ length bytes.new }
{
    let mut n: usize = 0;
    // A while: a read says how far it came.
    while n < bytes.len() {
        match input.read(&mut bytes[n..]) {
            Ok(more) if 0 < more => n += more,
            _ => break,
        }
    }
    n
}
