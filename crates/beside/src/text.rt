// Text into a lent buffer: each function writes from a place on and gives the place behind. What has no room is dropped.
ghost use Rattle.std.specs.Prelude.{◌<◌, ◌≤◌};

use crate::read;
use answer::Answer;
use item::Item;
use items::Items;
use number::Number;
use std::io;
use std::io::Write;

fn put(out: &mut [u8], at: usize, b: u8) -> usize {
    if at < out.len() {
        out[at] = b;
        return at + 1;
    }
    at
}

pub(crate) fn put_all(out: &mut [u8], at: usize, src: &[u8]) -> usize {
    let mut p = at;
    for b in src {
        p = put(out, p, *b);
    }
    p
}

// A digit: 0 to 9, then a to f.
fn glyph(d: u64) -> u8
    requires { d < 16 }
{
    b"0123456789abcdef"[d as usize]
}

// A number in base 10 or 16, with zeros in front up to a width.
fn put_number(out: &mut [u8], at: usize, n: u64, base: u64, width: usize) -> usize
    requires above_one { 1 < base }
    requires to_sixteen { base ≤ 16 }
{
    let mut digits = [0u8; 20];
    let mut rest = n;
    for i in (0..20).rev() {
        digits[i] = glyph(rest % base);
        rest /= base;
        if rest == 0 && width <= 20 - i {
            return put_all(out, at, &digits[i..]);
        }
    }
    put_all(out, at, &digits)
}

// Bytes in hex, two digits each.
fn put_hex(out: &mut [u8], at: usize, src: &[u8]) -> usize {
    let mut p = at;
    for b in src {
        p = put_number(out, p, u64::from(*b), 16, 2);
    }
    p
}

// A line of bytes in hex.
pub(crate) fn put_bytes(out: &mut [u8], at: usize, src: &[u8]) -> usize {
    let p = put_hex(out, at, src);
    put(out, p, b'\n')
}

pub(crate) fn put_decimal(out: &mut [u8], at: usize, n: u64, behind: u8) -> usize {
    let p = put_number(out, at, n, 10, 1);
    put(out, p, behind)
}

fn put_words(out: &mut [u8], at: usize, n: Number) -> usize {
    if n.high == 0 {
        return put_number(out, at, n.low, 16, 1);
    }
    let p = put_number(out, at, n.high, 16, 1);
    put_number(out, p, n.low, 16, 16)
}

fn put_detail(out: &mut [u8], at: usize, n: Number, behind: u8) -> usize {
    let p = put_words(out, at, n);
    put(out, p, behind)
}

// Number, a and b as keyreport writes them.
pub(crate) fn put_answer(out: &mut [u8], at: usize, x: Answer, behind: u8) -> usize {
    let p = put_decimal(out, at, u64::from(x.number), b' ');
    let q = put_detail(out, p, x.a, b' ');
    put_detail(out, q, x.b, behind)
}

// A code letter and the hex digits of the rest, without leading zeros.
fn put_item(out: &mut [u8], at: usize, x: &Item) -> usize {
    let p = put(out, at, x.code);
    let Some(first) = x.raw.iter().position(|b| *b != 0) else {
        return p;
    };
    let q = put_number(out, p, u64::from(x.raw[first]), 16, 1);
    put_hex(out, q, &x.raw[first + 1..])
}

// A line of items with commas between, or - for none.
pub(crate) fn put_items(out: &mut [u8], at: usize, l: Items) -> usize {
    if l.count == 0 {
        return put_all(out, at, b"-\n");
    }
    let mut p = at;
    for (i, x) in l.at.iter().take(l.count).enumerate() {
        if i != 0 {
            p = put(out, p, b',');
        }
        p = put_item(out, p, x);
    }
    put(out, p, b'\n')
}

pub(crate) fn write<W: Write>(output: &mut W, out: &[u8], used: usize) -> io::Result<()> {
    stream::write_all(output, read::part(out, 0, used))
}
