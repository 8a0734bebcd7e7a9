// Records: offered to the held state, or folded, with compare's lines for each. The state stays the bytes that it is saved as.
use crate::{calls, read, text};
use answer::{Answer, Refusal};
use report::Tally;
use std::io;
use std::io::Write;

const KS: u16 = 0x4B53;

#[derive(Clone, Copy)]
pub struct Mode {
    pub states: bool,
    pub fold: bool,
    pub calls: bool,
    pub mixed: bool,
}

// What goes from record to record: beside the counts, the state's buffer and how many of its bytes are used; and room for lines.
#[derive(Drop)]
pub struct Run {
    mode: Mode,
    tally: Tally,
    state: [u8; 2285],
    kept: usize,
    out: [u8; 8192],
}

// No mode takes more than two letters.
fn has(s: &[u8], letter: u8) -> bool {
    read::byte(s, 4) == letter || read::byte(s, 5) == letter
}

impl Run {
    pub(crate) fn begin(mode: Mode) -> Run {
        Run {
            mode,
            tally: report::begin(),
            state: [0; 2285],
            kept: 0,
            out: [0; 8192],
        }
    }

    // "a KS in a fold stream starts a new run with the state it brings, whatever was held" (compare/README.md). Where it is
    // refused, no byte of the old one is touched.
    fn start_with(&mut self, body: &[u8]) -> Answer {
        let before = self.kept;
        self.kept = 0;
        let x = in_place::offer_body(&mut self.state, &mut self.kept, KS, body);
        if x.number != 0 {
            self.kept = before;
        }
        x
    }

    fn judge(&mut self, mark: u16, body: &[u8]) -> Answer {
        if !self.mode.fold {
            return in_place::offer_body(&mut self.state, &mut self.kept, mark, body);
        }
        if mark == KS {
            return self.start_with(body);
        }
        in_place::fold_body(&mut self.state, &mut self.kept, mark, body)
    }

    // The held state, where it is asked for: hex of its KS record, or -.
    fn put_state(&mut self, at: usize) -> usize {
        if !self.mode.states {
            return at;
        }
        if self.kept == 0 {
            return text::put_all(&mut self.out, at, b"-\n");
        }
        text::put_bytes(&mut self.out, at, read::part(&self.state, 0, self.kept))
    }

    // The lines for an answer.
    fn tell<W: Write>(&mut self, output: &mut W, mark: u16, x: Answer) -> io::Result<()> {
        let told = report::tell(self.tally, mark, x, &mut self.out, 0);
        let used = self.put_state(told.at);
        self.tally = told.tally;
        text::write(output, &self.out, used)
    }

    // "Fewer than 4 bytes left .., or a body past the end, is 1 and ends the input"
    pub(crate) fn cut<W: Write>(&mut self, output: &mut W) -> io::Result<()> {
        if self.mode.calls {
            return calls::answer(output, b"", &mut self.out);
        }
        self.tell(output, 0, Answer::from(Refusal::Truncated))
    }

    // The last line; a run of calls has none.
    pub(crate) fn finish<W: Write>(&mut self, output: &mut W) -> io::Result<()> {
        if self.mode.calls {
            return Ok(());
        }
        let used = report::tell_end(self.tally, &self.state, self.kept, &mut self.out, 0);
        text::write(output, &self.out, used)
    }

    // A record with mark 0 in a mixed input: the letters of its body are the flags for what follows, with an empty holder.
    fn again<W: Write>(&mut self, output: &mut W, s: &[u8]) -> io::Result<()> {
        self.finish(output)?;
        self.mode = Mode {
            states: has(s, b's'),
            fold: has(s, b'f'),
            calls: has(s, b'c'),
            mixed: true,
        };
        self.tally = report::begin();
        self.kept = 0;
        Ok(())
    }

    // s is the record with its mark and length; of a long body the first bytes that decide.
    pub(crate) fn one<W: Write>(&mut self, output: &mut W, s: &[u8]) -> io::Result<()> {
        let mark = read::mark(s);
        if self.mode.mixed && mark == 0 {
            return self.again(output, s);
        }
        if self.mode.calls {
            return calls::answer(output, s, &mut self.out);
        }
        let x = self.judge(mark, read::part(s, 4, s.len()));
        self.tell(output, mark, x)
    }
}
