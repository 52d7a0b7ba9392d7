use crate::engines::Engine;
use crate::finding::{Finder, Shown};
use bufferstone::{Node, Refusal, Shape, Totals, put_first, put_line, put_refusal};
use std::io;

impl<E: Engine> Finder<'_, '_, E> {
    pub fn show_unread(&mut self) -> io::Result<Shown> {
        self.out.put_text(b"cannot be read\n")?;
        Ok(Shown::Unread)
    }

    pub fn show_refusal(&mut self, refusal: Refusal) -> io::Result<Shown> {
        let Refusal(reason, place) = refusal;
        self.out.put_line(|line| put_refusal(reason, place, line))?;
        Ok(Shown::Refusal)
    }

    // The first line, and the lines of the nodes' marks.
    pub fn show_report(
        &mut self,
        totals: Totals,
        spans: &[u16],
        marks: &[u16],
    ) -> io::Result<Shown> {
        self.out.put_line(|line| put_first(totals, line))?;
        for (node, mark) in (0..4096).zip(marks) {
            if *mark != 0 {
                self.show_mark(spans, Node(node), *mark)?;
            }
        }
        Ok(Shown::Report)
    }

    // A line for each shape whose bit is set.
    fn show_mark(&mut self, spans: &[u16], node: Node, mark: u16) -> io::Result<()> {
        for shape in 0..16 {
            if mark & (1 << shape) != 0 {
                self.out
                    .put_line(|line| put_line(spans, node, Shape(shape), line))?;
            }
        }
        Ok(())
    }
}
