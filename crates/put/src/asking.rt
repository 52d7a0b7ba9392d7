use crate::saying::say;
use bufferstone::{Node, Shape, Symbol};
use running::files::{Name, has_argument};
use running::texts::{same, value_of};

// What no symbol has for its number.
const NO_SYMBOL: u16 = 65535;

// Where the replacement is put in, and the finished symbol.
#[derive(Clone, Copy)]
pub struct Asked {
    pub shape: Shape,
    pub node: Node,
    pub finished: Symbol,
}

// Whether there are as many arguments as there have to be.
pub fn is_complete(rt: &HostRuntime) -> bool {
    has_argument(rt, 6) && !has_argument(rt, 7)
}

// The argument of that number, or none of its bytes where it is longer than any path.
pub fn argument(rt: &HostRuntime, i: usize) -> Name {
    Name::argument(rt, i).unwrap_or_default()
}

// The numbers among the arguments. It says which is none.
pub fn read_numbers(rt: &HostRuntime) -> Option<Asked> {
    let shape = named_number(rt, argument(rt, 2).as_bytes(), b"SHAPE")?;
    let node = named_number(rt, argument(rt, 3).as_bytes(), b"NODE")?;
    let finished = finished_symbol(rt, argument(rt, 4).as_bytes())?;
    Some(Asked {
        shape: Shape(shape),
        node: Node(node),
        finished: Symbol(finished),
    })
}

fn finished_symbol(rt: &HostRuntime, text: &[u8]) -> Option<u16> {
    if same(text, b"-") {
        return Some(NO_SYMBOL);
    }
    named_number(rt, text, b"FINISHED")
}

fn named_number(rt: &HostRuntime, text: &[u8], name: &[u8]) -> Option<u16> {
    let number = decimal(text);
    if number.is_none() {
        say(rt, name, "no number from 0 to 65535");
    }
    number
}

fn decimal(text: &[u8]) -> Option<u16> {
    if text.is_empty() || !text.iter().all(|byte| byte.is_ascii_digit()) {
        return None;
    }
    u16::try_from(value_of(text)).ok()
}
