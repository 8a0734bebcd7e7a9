// Document 01's lines as bytes: one for each answer, and the last one. Each is written over a lent buffer from a place on.
#![tactic(auto)]

ghost use Rattle.std.specs.Prelude.{◌≡◌, ◌≤◌, ◌<◌, ◌+◌, length};
ghost use Rattle.writer.specs.Writing.{Room, over};
ghost use Rattle.lines.specs.Lines.{digits, numeral, detail, decimal_then, detail_then, hides_mark, mark_then, reached_then, line, end_line, written};
ghost use Rattle.lines.specs.Lines.{glyph as Lines·glyph};

use answer::Answer;
use number::Number;

// How many bytes a line may have: who lends a buffer leaves room for them.
pub const LONGEST: usize = 111;

fn glyph(d: u64) -> u8
    requires { d < 16 }
    ensures { result ≡ Lines·glyph d }
{
    if d < 10 {
        0x30 + d as u8
    } else {
        0x57 + d as u8
    }
}

// How many digits a number has.
#[tactic(auto, using(crate::proofs::Laws::numeral_last, crate::proofs::Laws::numeral_next, crate::proofs::Laws::numeral_end))]
fn size(base: u64, most: usize, n: u64) -> usize
    requires { 1 < base }
    ensures { result ≡ length (numeral base most n) }
{
    let mut rest = n;
    for k in 0..most {
        if rest < base {
            return k + 1;
        }
        rest /= base;
    }
    most
}

// Each `put` writes from a place on where its caller has room, and gives the place behind what it wrote.
// The last digit is the lowest.
#[tactic(auto, using(crate::proofs::Laws::length_digits, crate::proofs::Laws::digits_last, crate::proofs::Laws::digits_none))]
fn put_digits(buf: &mut [u8], at: usize, base: u64, width: usize, n: u64) -> usize
    requires lt_base { 1 < base }
    requires base_bound { base ≤ 16 }
    requires room { Room (digits base width n) at buf.old }
    ensures value { result ≡ at + length (digits base width n) }
    ensures buf_after { buf.new ≡ over at (digits base width n) buf.old }
{
    let mut rest = n;
    for i in (0..width).rev() {
        buf[at + i] = glyph(rest % base);
        rest /= base;
    }
    at + width
}

#[tactic(auto, using(crate::proofs::Laws::numeral_digits, crate::proofs::Laws::length_digits))]
fn put_numeral(buf: &mut [u8], at: usize, base: u64, most: usize, n: u64) -> usize
    requires lt_base { 1 < base }
    requires base_bound { base ≤ 16 }
    requires room { Room (numeral base most n) at buf.old }
    ensures value { result ≡ at + length (numeral base most n) }
    ensures buf_after { buf.new ≡ over at (numeral base most n) buf.old }
{
    let width = size(base, most, n);
    put_digits(buf, at, base, width, n)
}

#[tactic(auto, using(writer::proofs::Laws::pieces), unfolding(crate::specs::Lines::decimal_then, crate::specs::Lines::decimal, writer::specs::Writing::put))]
fn put_decimal(buf: &mut [u8], at: usize, n: u64, behind: u8) -> usize
    requires { Room (decimal_then behind n) at buf.old }
    ensures value { result ≡ at + length (decimal_then behind n) }
    ensures buf_after { buf.new ≡ over at (decimal_then behind n) buf.old }
{
    let p = put_numeral(buf, at, 10, 20, n);
    writer::byte(buf, p, behind)
}

// Two words: the high one without leading zeros, then all of the low one's digits.
#[tactic(auto, using(writer::proofs::Laws::pieces, crate::proofs::Laws::detail_short, crate::proofs::Laws::detail_long))]
fn put_words(buf: &mut [u8], at: usize, x: Number) -> usize
    requires { Room (detail x) at buf.old }
    ensures value { result ≡ at + length (detail x) }
    ensures buf_after { buf.new ≡ over at (detail x) buf.old }
{
    if x.high == 0 {
        return put_numeral(buf, at, 16, 16, x.low);
    }
    let p = put_numeral(buf, at, 16, 16, x.high);
    put_digits(buf, p, 16, 16, x.low)
}

#[tactic(auto, using(writer::proofs::Laws::pieces), unfolding(crate::specs::Lines::detail_then, writer::specs::Writing::put))]
fn put_detail(buf: &mut [u8], at: usize, x: Number, behind: u8) -> usize
    requires { Room (detail_then behind x) at buf.old }
    ensures value { result ≡ at + length (detail_then behind x) }
    ensures buf_after { buf.new ≡ over at (detail_then behind x) buf.old }
{
    let p = put_words(buf, at, x);
    writer::byte(buf, p, behind)
}

// "?? with answers 1 and 2"
#[tactic(auto, unfolding(crate::specs::Lines::hides_mark))]
fn hides_mark(number: u8) -> bool
    ensures { result ≡ hides_mark number }
{
    matches!(number, 1 | 2)
}

#[tactic(auto, unfolding(crate::specs::Lines::mark_then, writer::specs::Writing::put))]
fn put_mark(buf: &mut [u8], at: usize, number: u8, mark: u16, behind: u8) -> usize
    requires { Room (mark_then behind number mark) at buf.old }
    ensures value { result ≡ at + length (mark_then behind number mark) }
    ensures buf_after { buf.new ≡ over at (mark_then behind number mark) buf.old }
{
    if hides_mark(number) {
        return writer::bytes(buf, at, &[b'?', b'?', behind]);
    }
    let [first, second] = mark.to_be_bytes();
    writer::bytes(buf, at, &[first, second, behind])
}

#[tactic(auto, using(writer::proofs::Laws::pieces), unfolding(crate::specs::Lines::line))]
fn put_answer(buf: &mut [u8], at: usize, ordinal: u64, mark: u16, x: Answer) -> usize
    requires { Room (line ordinal mark x) at buf.old }
    ensures value { result ≡ at + length (line ordinal mark x) }
    ensures buf_after { buf.new ≡ over at (line ordinal mark x) buf.old }
{
    let p = put_decimal(buf, at, ordinal, b' ');
    let q = put_mark(buf, p, x.number, mark, b' ');
    let r = put_decimal(buf, q, u64::from(x.number), b' ');
    let e = put_detail(buf, r, x.a, b' ');
    put_detail(buf, e, x.b, b'\n')
}

// "sn written as a detail, or `-` for an empty holder"
#[tactic(auto, unfolding(crate::specs::Lines::reached_then, writer::specs::Writing::put))]
fn put_reached(buf: &mut [u8], at: usize, held: bool, sn: Number, behind: u8) -> usize
    requires { Room (reached_then behind held sn) at buf.old }
    ensures value { result ≡ at + length (reached_then behind held sn) }
    ensures buf_after { buf.new ≡ over at (reached_then behind held sn) buf.old }
{
    if !held {
        return writer::bytes(buf, at, &[b'-', behind]);
    }
    put_detail(buf, at, sn, behind)
}

#[tactic(auto, using(writer::proofs::Laws::pieces, crate::proofs::Laws::end_length, crate::proofs::Laws::end_over), unfolding(writer::specs::Writing::put))]
fn put_counts(
    buf: &mut [u8],
    at: usize,
    accepted: u64,
    offered: u64,
    held: bool,
    sn: Number,
) -> usize
    requires { Room (end_line accepted offered held sn) at buf.old }
    ensures value { result ≡ at + length (end_line accepted offered held sn) }
    ensures buf_after { buf.new ≡ over at (end_line accepted offered held sn) buf.old }
{
    let p = writer::bytes(buf, at, b"end ");
    let q = put_decimal(buf, p, accepted, b' ');
    let r = put_decimal(buf, q, offered, b' ');
    put_reached(buf, r, held, sn, b'\n')
}

// The line of an answer. It gives the place behind the line; where the longest line has no room, nothing is written.
#[tactic(auto, using(crate::proofs::Laws::line_few), unfolding(crate::specs::Lines::written))]
pub fn put_line(buf: &mut [u8], at: usize, ordinal: u64, mark: u16, x: Answer) -> usize
    ensures value { result ≡ (written (line ordinal mark x) at buf.old).0 }
    ensures buf_after { buf.new ≡ (written (line ordinal mark x) at buf.old).1 }
{
    if !writer::room(buf, at, LONGEST) {
        return at;
    }
    put_answer(buf, at, ordinal, mark, x)
}

// The last line, in the same way.
#[tactic(auto, using(crate::proofs::Laws::end_few), unfolding(crate::specs::Lines::written))]
pub fn put_end(
    buf: &mut [u8],
    at: usize,
    accepted: u64,
    offered: u64,
    held: bool,
    sn: Number,
) -> usize
    ensures value { result ≡ (written (end_line accepted offered held sn) at buf.old).0 }
    ensures buf_after { buf.new ≡ (written (end_line accepted offered held sn) at buf.old).1 }
{
    if !writer::room(buf, at, LONGEST) {
        return at;
    }
    put_counts(buf, at, accepted, offered, held, sn)
}
