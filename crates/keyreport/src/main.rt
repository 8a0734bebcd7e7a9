// keyreport: reads records from standard input and writes document 01's lines to standard output, in bounded memory. The state
// stays the bytes that it is saved as.
#![tactic(auto)]

ghost use Rattle.std.specs.Prelude.{◌≡◌, ◌+◌, ◌≤◌, [], ◌++◌, length, take, OnOk};
ghost use Rattle.std.specs.Io.KnownBytes.{Appends};
ghost use Rattle.canonical.specs.Bytes.{Bytes};
ghost use Rattle.found.specs.Kept.{kept_in};
ghost use Rattle.report.specs.Report.{last_line};
ghost use Rattle.in_place.specs.Calls.{offered_in, body_offered_in};
ghost use Rattle.keyreport.specs.Run.{mark_at, body_at, Fits, Flushed, cut_lines, Finished, Ready, Reports};

use answer::Answer;
use report::Tally;
use std::io::{Eprint, ErrorKind, Read, Write};
use std::process::ExitCode;
use std::{fmt, io};
use stream::{Next, Place, Span};

// The window holds the longest good record, 10,089 bytes, and more.
const WINDOW: usize = 10240;

const OUT: usize = 2048;

// "The longest KS 2,281", with its mark and length.
const STATE: usize = 2285;

// Why a report has no last line.
#[derive(Clone, Copy)]
enum Failure {
    Input(io::Error),
    Output(io::Error),
}

impl fmt::Display for Failure {
    fn fmt<W: fmt::Write>(&self, f: &mut fmt::Formatter<W>) -> fmt::Result {
        match self {
            Failure::Input(e) => write!(f, "standard input: {e}"),
            Failure::Output(e) => write!(f, "standard output: {e}"),
        }
    }
}

// Where the longest line would not fit behind the first `at` bytes of `out`, those are written. It gives the next line's place.
fn make_room<W: Write>(output: &mut W, out: &[u8], at: usize) -> Result<usize, Failure>
    requires at_in_bounds { at ≤ length out.now }
    requires in_bounds { 111 ≤ length out.now }
    ensures room { Fits (length out.now) result }
    ensures bytes { Flushed (W.contents output.old) (W.contents output.new) (take at out.now) out.now result }
{
    if lines::LONGEST <= out.len() - at {
        return Ok(at);
    }
    stream::write_all(output, &out[..at]).map_err(Failure::Output)?;
    Ok(0)
}

fn mark_at(window: &[u8], place: Place) -> u16
    requires from_bound { place.from + 4 ≤ place.to }
    requires to_in_bounds { place.to ≤ length window.now }
    ensures { result ≡ mark_at window.now place }
{
    u16::from_be_bytes([window[place.from], window[place.from + 1]])
}

// A record of the window is offered to the state.
#[tactic(auto, using(crate::proofs::Runs::body_bytes))]
fn offer(state: &mut [u8], used: &mut usize, mark: u16, window: &[u8], place: Place) -> Answer
    requires from_bound { place.from + 4 ≤ place.to }
    requires to_in_bounds { place.to ≤ length window.now }
    ensures value { result ≡ (body_offered_in state.old used.old mark (body_at window.now place)).answer }
    ensures state_after { state.new ≡ (body_offered_in state.old used.old mark (body_at window.now place)).bytes }
    ensures used_after { used.new ≡ (body_offered_in state.old used.old mark (body_at window.now place)).used }
    ensures body_bytes { Bytes (body_at window.now place) }
{
    in_place::offer_body(state, used, mark, &window[place.from + 4..place.to])
}

// Counts, state, lines and place are parameters, here and below: a struct would hold two borrows, and each clause would go through it.
#[tactic(auto, using(crate::proofs::Laws::prefix_length, crate::proofs::Laws::end_in, crate::proofs::Laws::end_behind))]
fn end<W: Write>(
    output: &mut W,
    t: Tally,
    state: &[u8],
    used: usize,
    out: &mut [u8],
    at: usize,
) -> Result<(), Failure>
    requires { at + 111 ≤ length out.old }
    ensures { OnOk result (Appends (W.contents output.old) (W.contents output.new) (take at out.old ++ last_line t (kept_in state.now used).holder)) }
{
    let behind = report::tell_end(t, state, used, out, at);
    stream::write_all(output, &out[..behind]).map_err(Failure::Output)
}

// Bytes that are no record get what no bytes get: "A one-record call on no bytes answers 1 too."
#[tactic(auto, using(crate::proofs::Laws::told_in, crate::proofs::Runs::cut_told))]
fn cut<W: Write>(
    output: &mut W,
    t: Tally,
    state: &mut [u8],
    used: &mut usize,
    out: &mut [u8],
    at: usize,
) -> Result<(), Failure>
    requires { at + 111 ≤ length out.old }
    ensures { OnOk result (Appends (W.contents output.old) (W.contents output.new) (take at out.old ++ cut_lines t (offered_in state.old used.old []))) }
{
    let answer = in_place::offer(state, used, b"");
    let last = report::tell(t, 0, answer, out, at);
    let behind = make_room(output, out, last.at)?;
    end(output, last.tally, state, *used, out, behind)
}

// A read failed: the lines so far are written, and no last one; that it failed is said, whatever becomes of the lines.
fn failed<W: Write>(output: &mut W, e: io::Error, out: &[u8], at: usize) -> Failure
    requires { at ≤ length out.now }
{
    let _ = stream::write_all(output, &out[..at]);
    Failure::Input(e)
}

// No further record: the input ended, inside a record or behind one.
fn finish<W: Write>(
    output: &mut W,
    t: Tally,
    state: &mut [u8],
    used: &mut usize,
    next: Next,
    out: &mut [u8],
    at: usize,
) -> Result<(), Failure>
    requires { at + 111 ≤ length out.old }
    ensures { OnOk result (Finished (W.contents output.old) (W.contents output.new) (take at out.old) t state.old used.old next) }
{
    match next {
        Next::Cut => cut(output, t, state, used, out, at),
        Next::Ended => end(output, t, state, *used, out, at),
        Next::Record(_) => Ok(()),
    }
}

// A proved loop has to end, and nothing says that the input does. So the records are counted, up to a number that no run reaches.
#[tactic(auto, using(crate::proofs::Laws::told_in))]
fn run<R: Read, W: Write>(
    input: &mut R,
    output: &mut W,
    state: &mut [u8],
    used: &mut usize,
    window: &mut [u8],
    out: &mut [u8],
) -> Result<(), Failure>
    requires { 111 ≤ length out.old }
    ensures { Ready used.old state.old window.old → OnOk result (Reports (R.remaining input.old) (W.contents output.old) (W.contents output.new)) }
{
    let mut t = report::begin();
    let mut span = Span { from: 0, to: 0 };
    let mut at: usize = 0;
    for _ in 0..u64::MAX {
        let next = match stream::read_next(input, window, span) {
            Ok(next) => next,
            Err(e) => return Err(failed(output, e, out, at)),
        };
        let Next::Record(place) = next else {
            return finish(output, t, state, used, next, out, at);
        };
        let mark = mark_at(window, place);
        let answer = offer(state, used, mark, window, place);
        let last = report::tell(t, mark, answer, out, at);
        at = make_room(output, out, last.at)?;
        t = last.tally;
        span = Span {
            from: place.to,
            to: place.end,
        };
    }
    Err(Failure::Input(io::Error::from(ErrorKind::TimedOut)))
}

// On its own, for its buffers: a run that ends well does not pay for them.
#[cold]
#[inline(never)]
fn say(rt: &impl Eprint, e: &Failure) {
    let _ = rt.eprintln(e);
}

fn main(rt: HostRuntime) -> ExitCode {
    let mut state = [0u8; STATE];
    let mut used: usize = 0;
    let mut window = [0u8; WINDOW];
    let mut out = [0u8; OUT];
    let mut input = rt.stdin();
    let mut output = rt.stdout();
    match run(
        &mut input,
        &mut output,
        &mut state,
        &mut used,
        &mut window,
        &mut out,
    ) {
        Ok(()) => ExitCode::SUCCESS,
        Err(e) => {
            say(&rt, &e);
            ExitCode::FAILURE
        }
    }
}

#[cfg(test)]
mod tests {
    use super::*;
    use std::alloc::Global;

    // Fails where its bytes end, if it is `broken`.
    #[derive(Drop)]
    struct Source<'a> {
        left: &'a [u8],
        broken: bool,
    }

    impl Read for Source<'_> {
        fn read(&mut self, buf: &mut [u8]) -> io::Result<usize> {
            if self.left.is_empty() && self.broken {
                return Err(io::Error::from(ErrorKind::BrokenPipe));
            }
            self.left.read(buf)
        }
    }

    fn reported(alloc: Global, mut input: Source<'_>) -> (Vec<u8>, Result<(), Failure>) {
        let mut output = Vec::new(alloc);
        let mut state = [0u8; STATE];
        let mut used: usize = 0;
        let mut window = [0u8; WINDOW];
        let mut out = [0u8; OUT];
        let ended = run(
            &mut input,
            &mut output,
            &mut state,
            &mut used,
            &mut window,
            &mut out,
        );
        (output, ended)
    }

    // A record with a mark that is none: a line, and the last one.
    #[test]
    fn ends_a_report(rt: HostRuntime) {
        let input = Source {
            left: b"XX\x00\x00",
            broken: false,
        };
        let (output, ended) = reported(rt.alloc(), input);
        assert!(rt; ended.is_ok());
        assert_eq!(rt; output.as_slice(), b"1 ?? 2 0 0\nend 0 1 -\n".as_slice());
    }

    // The same, where the next read fails.
    #[test]
    fn ends_no_report_of_a_failed_read(rt: HostRuntime) {
        let input = Source {
            left: b"XX\x00\x00",
            broken: true,
        };
        let (output, ended) = reported(rt.alloc(), input);
        assert!(rt; matches!(ended, Err(Failure::Input(_))));
        assert_eq!(rt; output.as_slice(), b"1 ?? 2 0 0\n".as_slice());
    }
}
