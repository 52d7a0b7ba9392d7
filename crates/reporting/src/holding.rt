// Output is held in a lent buffer, and written when there is no room in it for one line more.
use bufferstone::Reason;
use bufferstone::limits::LINE_BYTES;
use running::parts::first;
use std::io;
use std::io::{Error, ErrorKind};

// As many bytes are held at most.
pub const HELD_BYTES: usize = 65536;

// From the first write on that fails, nothing more may be put.
#[derive(Drop)]
pub struct Output<'a, 'b> {
    rt: &'a HostRuntime,
    bytes: &'b mut [u8],
    held: usize,
}

impl<'a, 'b> Output<'a, 'b> {
    pub fn new(rt: &'a HostRuntime, bytes: &'b mut [u8]) -> Output<'a, 'b> {
        Output { rt, bytes, held: 0 }
    }

    // Writes what is held.
    pub fn write(&mut self) -> io::Result<()> {
        let held = self.held;
        self.rt.write_all(first(self.bytes, held))?;
        self.held = 0;
        Ok(())
    }

    // A line as `put` writes it; one that is refused adds nothing.
    pub fn put_line<F: FnOnce(&mut [u8]) -> Result<usize, Reason>>(
        &mut self,
        put: F,
    ) -> io::Result<()>
        requires { F.IsAlwaysCallable put }
    {
        self.make_room()?;
        let held = self.held;
        if let Ok(more) = put(rest(self.bytes, held)) {
            self.held = held.saturating_add(more);
        }
        Ok(())
    }

    pub fn put_text(&mut self, text: &[u8]) -> io::Result<()> {
        for byte in text {
            self.put_byte(*byte)?;
        }
        Ok(())
    }

    pub fn put_byte(&mut self, byte: u8) -> io::Result<()> {
        self.make_room()?;
        let held = self.held;
        let Some(next) = self.bytes.get_mut(held) else {
            return Err(Error::from(ErrorKind::WriteZero));
        };
        *next = byte;
        self.held = held.saturating_add(1);
        Ok(())
    }

    // Room for a line.
    fn make_room(&mut self) -> io::Result<()> {
        if self.bytes.len().saturating_sub(self.held) < LINE_BYTES {
            return self.write();
        }
        Ok(())
    }
}

// What is behind the first n bytes, or all where there are fewer.
fn rest(bytes: &mut [u8], n: usize) -> &mut [u8] {
    if bytes.len() < n {
        return bytes;
    }
    &mut bytes[n..]
}
