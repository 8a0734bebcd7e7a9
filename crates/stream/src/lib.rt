// An input, record by record, through one window of bytes, and an output: input of any length in bounded memory. The input is
// whatever reads and the output whatever writes; a program hands over its standard input and its standard output.
#![tactic(auto)]

ghost use Rattle.std.specs.Prelude.{◌≡◌, ℕ, ◌+◌, ◌-◌, ◌≤◌, ◌<◌, IsOk, OnOk, IfOk, IfSome, length, take, drop};
ghost use Rattle.std.specs.Io.KnownBytes.{Appends};
ghost use Rattle.stream.specs.Window.{size_of, Reached, Holds, Found};
ghost use Rattle.stream.specs.Left.{left_of, Stays, Brought, Filled, Skipped, HoldsLeft, Gives, Wrote};

use std::io;
use std::io::{Error, ErrorKind, Read, Write};

// A record's mark and length, and the bytes that decide: "a body past the longest legal one is decided by its first bytes", one
// more than the longest has. Crate decoded shows, as `first-bytes`, that they decide.
const KEPT: usize = 10090;

// The bytes of the window that are read and not used.
#[derive(Clone, Copy)]
pub struct Span {
    pub from: usize,
    pub to: usize,
}

// A record in the window, from its mark on, and where the unused bytes behind it end. Of a record that is longer than the window
// these are the mark, the length and the deciding bytes; the others are stepped over.
#[derive(Clone, Copy)]
pub struct Place {
    pub from: usize,
    pub to: usize,
    pub end: usize,
}

// A record; bytes that are none, where the input ends; or no byte, where it ends.
#[derive(Clone, Copy)]
pub enum Next {
    Record(Place),
    Cut,
    Ended,
}

// What a read did: there are bytes up to a place, or, at `None`, the input has ended. A write does the same: the bytes up to a place
// are written, or the output takes no more.
type Moved = io::Result<Option<usize>>;

// A call that a signal interrupted is made again: it moved nothing.
fn failed(e: Error, to: usize) -> Moved
    ensures { Stays to result }
{
    if e.kind() == ErrorKind::Interrupted {
        return Ok(Some(to));
    }
    Err(e)
}

// A proved loop has to end, and nothing says that a signal does not interrupt every call: so the calls are counted, up to a number
// that no run reaches.
fn too_often() -> Error {
    Error::new(ErrorKind::TimedOut, "interrupted at every call")
}

// One read into the window's bytes from `to` to `end`.
fn read_some<R: Read>(input: &mut R, window: &mut [u8], to: usize, end: usize) -> Moved
    requires { (to ≤ end) × (end ≤ length window.old) }
    ensures reached { Reached to end result }
    ensures window_unchanged { take to window.new ≡ take to window.old }
    ensures bytes { Brought (R.remaining input.old) (R.remaining input.new) to end window.new result }
{
    match input.read(&mut window[to..end]) {
        Ok(0) => Ok(None),
        Ok(n) => Ok(Some(to + n)),
        Err(e) => failed(e, to),
    }
}

// Reads until there are bytes up to `want`, or the input ends.
fn fill<R: Read>(input: &mut R, window: &mut [u8], have: usize, want: usize) -> io::Result<usize>
    requires { have ≤ length window.old }
    ensures reached { IfOk result (λ n. (have ≤ n) × (n ≤ length window.old)) }
    ensures window_unchanged { take have window.new ≡ take have window.old }
    ensures bytes { Filled (R.remaining input.old) (R.remaining input.new) have want window.new result }
{
    let end = window.len();
    let mut to = have;
    for _ in 0..u64::MAX {
        if want <= to {
            return Ok(to);
        }
        let Some(n) = read_some(input, window, to, end)? else {
            return Ok(to);
        };
        to = n;
    }
    Err(too_often())
}

// Reads `count` bytes and forgets them: they go behind the first `from` bytes of the window. It says whether there were as many.
fn skip<R: Read>(input: &mut R, window: &mut [u8], from: usize, count: usize) -> io::Result<bool>
    requires { from ≤ length window.old }
    ensures window_unchanged { take from window.new ≡ take from window.old }
    ensures bytes { Skipped (R.remaining input.old) (R.remaining input.new) from (length window.old) count result }
{
    let room = window.len() - from;
    let mut left = count;
    for _ in 0..u64::MAX {
        if left == 0 {
            return Ok(true);
        }
        let end = from + left.min(room);
        let Some(n) = read_some(input, window, from, end)? else {
            return Ok(false);
        };
        left -= n - from;
    }
    Err(too_often())
}

// The unused bytes, read on until there are `want`, or all that is left of the input.
fn hold<R: Read>(input: &mut R, window: &mut [u8], span: Span, want: usize) -> io::Result<Span>
    requires from_le_to { span.from ≤ span.to }
    requires to_in_bounds { span.to ≤ length window.old }
    ensures holds { Holds window.old span window.new result }
    ensures bytes { HoldsLeft (left_of window.old span (R.remaining input.old)) (R.remaining input.new) want window.new result }
{
    let have = span.to - span.from;
    if want <= have {
        return Ok(span);
    }
    window.copy_within(span.from..span.to, 0);
    let to = fill(input, window, have, want)?;
    Ok(Span { from: 0, to })
}

// How long the record is that stands at a place, by its length.
fn size_at(window: &[u8], at: usize) -> usize
    requires { at + 4 ≤ length window.now }
    ensures { result ≡ size_of (drop at window.now) }
{
    4 + usize::from(u16::from_be_bytes([window[at + 2], window[at + 3]]))
}

// A record that the window cannot hold: the window is filled, the rest of the record stepped over.
fn long<R: Read>(input: &mut R, window: &mut [u8], head: Span, size: usize) -> io::Result<Next>
    requires in_bounds { 10090 < length window.old }
    requires from_le_to { head.from ≤ head.to }
    requires to_in_bounds { head.to ≤ length window.old }
    requires bound { 4 ≤ head.to - head.from }
    requires size_value { size ≡ size_of (drop head.from window.old) }
    requires window_len_bound { length window.old < size }
    ensures found { Found window.old head window.new result }
    ensures bytes { IfSome (left_of window.old head (R.remaining input.old)) (λ s. Gives s window.new (R.remaining input.new) result) }
{
    let len = window.len();
    let full = hold(input, window, head, len)?;
    if full.to - full.from < len {
        return Ok(Next::Cut);
    }
    let kept = full.from + KEPT;
    if !skip(input, window, kept, size - len)? {
        return Ok(Next::Cut);
    }
    Ok(Next::Record(Place {
        from: full.from,
        to: kept,
        end: kept,
    }))
}

// A record that the window can hold.
fn short<R: Read>(input: &mut R, window: &mut [u8], head: Span, size: usize) -> io::Result<Next>
    requires from_le_to { head.from ≤ head.to }
    requires to_in_bounds { head.to ≤ length window.old }
    requires bound { 4 ≤ head.to - head.from }
    requires size_value { size ≡ size_of (drop head.from window.old) }
    requires size_in_bounds { size ≤ length window.old }
    ensures found { Found window.old head window.new result }
    ensures bytes { IfSome (left_of window.old head (R.remaining input.old)) (λ s. Gives s window.new (R.remaining input.new) result) }
{
    let whole = hold(input, window, head, size)?;
    if whole.to - whole.from < size {
        return Ok(Next::Cut);
    }
    Ok(Next::Record(Place {
        from: whole.from,
        to: whole.from + size,
        end: whole.to,
    }))
}

// The next record of the input, read from the window's unused bytes on.
fn first<R: Read>(input: &mut R, window: &mut [u8], span: Span) -> io::Result<Next>
    requires in_bounds { 10090 < length window.old }
    requires from_le_to { span.from ≤ span.to }
    requires to_in_bounds { span.to ≤ length window.old }
    ensures found { Found window.old span window.new result }
    ensures bytes { IfSome (left_of window.old span (R.remaining input.old)) (λ s. Gives s window.new (R.remaining input.new) result) }
{
    let head = hold(input, window, span, 4)?;
    match head.to - head.from {
        0 => return Ok(Next::Ended),
        1..=3 => return Ok(Next::Cut),
        _ => {}
    }
    let size = size_at(window, head.from);
    if window.len() < size {
        return long(input, window, head, size);
    }
    short(input, window, head, size)
}

// A read that failed is not the end of the input: its error comes. One comes too where the window is too short or the span is none.
pub fn read_next<R: Read>(input: &mut R, window: &mut [u8], span: Span) -> io::Result<Next>
    ensures found { Found window.old span window.new result }
    ensures bytes { IfSome (left_of window.old span (R.remaining input.old)) (λ s. Gives s window.new (R.remaining input.new) result) }
{
    let len = window.len();
    if len <= KEPT || len < span.to || span.to < span.from {
        return Err(Error::from(ErrorKind::InvalidInput));
    }
    first(input, window, span)
}

// One write of the bytes from `done` on.
fn write_some<W: Write>(output: &mut W, out: &[u8], done: usize) -> Moved
    requires { done ≤ length out.now }
    ensures reached { Reached done (length out.now) result }
    ensures bytes { Wrote (W.contents output.old) (W.contents output.new) done out.now result }
{
    match output.write(&out[done..]) {
        Ok(0) => Ok(None),
        Ok(n) => Ok(Some(done + n)),
        Err(e) => failed(e, done),
    }
}

// Writes all, or says why not.
pub fn write_all<W: Write>(output: &mut W, out: &[u8]) -> io::Result<()>
    ensures nothing { length out.now ≡ 0 → IsOk result }
    ensures bytes { OnOk result (Appends (W.contents output.old) (W.contents output.new) out.now) }
{
    let mut done: usize = 0;
    for _ in 0..u64::MAX {
        if out.len() <= done {
            return Ok(());
        }
        let Some(n) = write_some(output, out, done)? else {
            return Err(Error::from(ErrorKind::WriteZero));
        };
        done = n;
    }
    Err(too_often())
}

#[cfg(test)]
mod tests {
    use super::*;
    use std::test::Fail;

    // Gives a byte a call, and is interrupted before each one. Where it `fails`, an error comes in place of the end.
    #[derive(Drop)]
    struct Drip<'a> {
        left: &'a [u8],
        interrupts: bool,
        fails: bool,
    }

    impl Read for Drip<'_> {
        fn read(&mut self, buf: &mut [u8]) -> io::Result<usize> {
            self.interrupts = !self.interrupts;
            if !self.interrupts {
                return Err(Error::from(ErrorKind::Interrupted));
            }
            let Some((first, left)) = self.left.split_first() else {
                if self.fails {
                    return Err(Error::from(ErrorKind::BrokenPipe));
                }
                return Ok(0);
            };
            if buf.is_empty() {
                return Ok(0);
            }
            buf[0] = *first;
            self.left = left;
            Ok(1)
        }
    }

    // Takes a byte a call, and is interrupted before each one, until it is full.
    #[derive(Drop)]
    struct Cup {
        bytes: [u8; 4],
        full: usize,
        interrupts: bool,
    }

    impl Write for Cup {
        fn write(&mut self, buf: &[u8]) -> io::Result<usize> {
            self.interrupts = !self.interrupts;
            if !self.interrupts {
                return Err(Error::from(ErrorKind::Interrupted));
            }
            if buf.is_empty() || self.bytes.len() <= self.full {
                return Ok(0);
            }
            self.bytes[self.full] = buf[0];
            self.full += 1;
            Ok(1)
        }

        fn flush(&mut self) -> io::Result<()> {
            Ok(())
        }
    }

    // A record, and the first bytes of another one, where the input ends.
    #[test]
    fn reads_a_byte_at_a_time(rt: HostRuntime) {
        let mut input = Drip {
            left: b"RO\x00\x01xIC\x00",
            interrupts: true,
            fails: false,
        };
        let mut window = [0u8; 10240];
        let Ok(Next::Record(p)) = read_next(&mut input, &mut window, Span { from: 0, to: 0 }) else {
            panic!(rt; "no record");
        };
        assert_eq!(rt; p.to - p.from, 5);
        assert_eq!(rt; &window[p.from..p.to], b"RO\x00\x01x".as_slice());
        let rest = Span {
            from: p.to,
            to: p.end,
        };
        let next = read_next(&mut input, &mut window, rest);
        assert!(rt; matches!(next, Ok(Next::Cut)));
    }

    // The same, where the read behind the first record fails.
    #[test]
    fn a_failed_read_is_no_end(rt: HostRuntime) {
        let mut input = Drip {
            left: b"RO\x00\x01x",
            interrupts: true,
            fails: true,
        };
        let mut window = [0u8; 10240];
        let Ok(Next::Record(p)) = read_next(&mut input, &mut window, Span { from: 0, to: 0 }) else {
            panic!(rt; "no record");
        };
        let rest = Span {
            from: p.to,
            to: p.end,
        };
        let Err(e) = read_next(&mut input, &mut window, rest) else {
            panic!(rt; "no failure");
        };
        assert_eq!(rt; e.kind(), ErrorKind::BrokenPipe);
    }

    #[test]
    fn writes_a_byte_at_a_time(rt: HostRuntime) -> Result<(), Fail> {
        let mut output = Cup {
            bytes: [0; 4],
            full: 0,
            interrupts: true,
        };
        write_all(&mut output, b"abc")?;
        assert_eq!(rt; &output.bytes[..3], b"abc".as_slice());
        let Err(e) = write_all(&mut output, b"de") else {
            panic!(rt; "five bytes in four");
        };
        assert_eq!(rt; e.kind(), ErrorKind::WriteZero);
        Ok(())
    }
}
