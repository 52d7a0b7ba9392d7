// The cases on standard input, one in each line.
use crate::reading::read_full;
use std::io;

// As much is read of them.
const INPUT_BYTES: usize = 65536;

// Prints each line that has an end and is not empty, and behind it what `answer` says of it.
pub fn answer_lines<F: FnMut(&[u8]) -> io::Result<()>>(
    rt: &HostRuntime,
    mut answer: F,
) -> io::Result<()>
    requires { F.IsAlwaysCallable answer }
{
    let mut input = [0u8; INPUT_BYTES];
    let n = read_full(&mut rt.reader(), &mut input);
    for ended in input[..n].split_inclusive(|byte| *byte == b'\n') {
        let line = ended.strip_suffix(b"\n").unwrap_or(&[]);
        if !line.is_empty() {
            rt.write_all(line)?;
            answer(line)?;
            print!(rt; "\n")?;
        }
    }
    Ok(())
}
