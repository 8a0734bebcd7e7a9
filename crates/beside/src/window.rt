// Standard input record by record. What a record says has at most 5,000 bytes, and is written before the next one is read.
use crate::read;
use crate::records::{Mode, Run};
use std::io;
use std::io::{ErrorKind, Read, Write};
use stream::{Next, Span};

// A proved loop has to end: it counts its turns up to a number that no run reaches.
pub(crate) fn run<R: Read, W: Write>(input: &mut R, output: &mut W, mode: Mode) -> io::Result<()> {
    let mut window = [0u8; 16384];
    let mut run = Run::begin(mode);
    let mut span = Span { from: 0, to: 0 };
    for _ in 0..u64::MAX {
        match stream::read_next(input, &mut window, span)? {
            Next::Record(p) => {
                run.one(output, read::part(&window, p.from, p.to))?;
                span = Span {
                    from: p.to,
                    to: p.end,
                };
            }
            Next::Cut => {
                run.cut(output)?;
                return run.finish(output);
            }
            Next::Ended => return run.finish(output),
        }
    }
    Err(io::Error::from(ErrorKind::TimedOut))
}
