use crate::engines::Engine;
use crate::failing::Failure;
use crate::finding::Finder;
use crate::holding::{HELD_BYTES, Output};
use running::failing::fail;
use running::files::{Name, has_argument};
use running::texts::same;
use std::io;

// What the arguments ask for.
#[derive(Clone, Copy)]
enum Asked {
    Input,
    Arguments,
    Names { progress: bool },
}

// Prints the reports that the program's arguments ask for.
pub fn answer<'a, E: Engine>(rt: &'a HostRuntime, engine: &'a E) {
    let mut bytes = [0u8; HELD_BYTES];
    let mut finder = Finder {
        rt,
        engine,
        out: Output::new(rt, &mut bytes),
    };
    match find_asked(&mut finder, asked_by(rt)) {
        Ok(()) => {}
        Err(Failure::Output(error)) => {
            fail(&rt.stderr(), engine.program(), b"standard output", error)
        }
        Err(Failure::Names(error)) => fail(&rt.stderr(), engine.program(), b"names", error),
    }
}

fn asked_by(rt: &HostRuntime) -> Asked {
    let Some(first) = Name::argument(rt, 1) else {
        return Asked::Input;
    };
    if same(first.as_bytes(), b"--names") {
        let Some(second) = Name::argument(rt, 2) else {
            return Asked::Names { progress: false };
        };
        if same(second.as_bytes(), b"--progress") && !has_argument(rt, 3) {
            return Asked::Names { progress: true };
        }
    }
    Asked::Arguments
}

fn find_asked<E: Engine>(finder: &mut Finder<'_, '_, E>, asked: Asked) -> Result<(), Failure> {
    match asked {
        Asked::Input => {
            finder.find_in(&mut finder.rt.stdin())?;
        }
        Asked::Arguments => find_arguments(finder)?,
        Asked::Names { progress } => finder.find_names(progress)?,
    }
    finder.out.write()?;
    Ok(())
}

fn find_arguments<E: Engine>(finder: &mut Finder<'_, '_, E>) -> io::Result<()> {
    for i in 1..usize::MAX {
        let Some(name) = Name::argument(finder.rt, i) else {
            return Ok(());
        };
        finder.out.put_text(name.as_bytes())?;
        finder.out.put_byte(b'\n')?;
        finder.find_file(name.as_bytes(), &mut finder.rt.stdin())?;
    }
    Ok(())
}
