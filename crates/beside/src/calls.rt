// Direct calls: one request in compare's encoding (compare/oracle/encode.rs), one line. Its fields stand behind mark and length.
use crate::{read, text};
use answer::{Answer, Refusal};
use authority::{Authority, Commitment, Witnessing};
use item::Kind;
use items::Items;
use std::io;
use std::io::Write;
use threshold::{Short, Threshold};
use toad::Toad;

// What a call says: its answer, the number that it takes, a judgement, or yes or no. Of a bad request, one that compare never
// makes, it says nothing.
#[derive(Clone, Copy)]
enum Said {
    Plain(Answer),
    Taken(Toad),
    Judged(Result<(), Short>),
    Yes(bool),
}

// Nothing stands behind a request's fields.
fn ends(s: &[u8], at: usize) -> Option<()> {
    if at == s.len() { Some(()) } else { None }
}

fn checked(found: Result<(), Refusal>) -> Option<Said> {
    Some(Said::Plain(answer::of(found)))
}

fn taken(t: Result<Toad, Refusal>) -> Option<Said> {
    Some(match t {
        Ok(toad) => Said::Taken(toad),
        Err(r) => Said::Plain(Answer::from(r)),
    })
}

fn ample(s: &[u8]) -> Option<Said> {
    let (witnesses, at) = cursor::read_u64(s, 4)?;
    ends(s, at)?;
    taken(toad::ample(witnesses))
}

fn exact(s: &[u8]) -> Option<Said> {
    let (toad, at) = cursor::read_u32(s, 4)?;
    let (witnesses, at) = cursor::read_u64(s, at)?;
    ends(s, at)?;
    taken(toad::exact(toad, witnesses))
}

fn satisfied_by(sorted: bool, t: Threshold, ps: &[u32]) -> Result<(), Short> {
    if sorted {
        return satisfied::satisfied_by_sorted_unique(t, ps);
    }
    satisfied::satisfied_by(t, ps)
}

fn satisfied(sorted: bool, s: &[u8]) -> Option<Said> {
    let (t, at) = read::threshold(s, 4)?;
    let (count, at) = cursor::read_u8(s, at)?;
    let n = usize::from(count);
    let rest = s.get(at..)?;
    if 64 < n || rest.len() != n * 4 {
        return None;
    }
    let ps = read::places(rest);
    Some(Said::Judged(satisfied_by(sorted, t, &ps[..n])))
}

fn attainable(s: &[u8]) -> Option<Said> {
    let (t, at) = read::threshold(s, 4)?;
    let (keys, at) = cursor::read_u64(s, at)?;
    ends(s, at)?;
    Some(match attainable::attainable(t, keys as usize) {
        Ok(yes) => Said::Yes(yes),
        Err(r) => Said::Plain(Answer::from(r)),
    })
}

fn well_formed(s: &[u8]) -> Option<Said> {
    let (t, at) = read::threshold(s, 4)?;
    let (keys, at) = cursor::read_u64(s, at)?;
    ends(s, at)?;
    checked(threshold::check_well_formed(t, keys as usize))
}

fn witnesses(s: &[u8]) -> Option<Said> {
    let (l, at) = read::list(s, 4, Kind::Key)?;
    ends(s, at)?;
    checked(member_set::check_witnesses(l, 1))
}

// Cuts and additions alone: with the cuts themselves as the current members neither 21 nor 22 can come.
fn deltas(s: &[u8]) -> Option<Said> {
    let (cuts, at) = read::list(s, 4, Kind::Key)?;
    let (adds, at) = read::list(s, at, Kind::Key)?;
    ends(s, at)?;
    checked(member_set::check_change(cuts, cuts, adds))
}

fn identity(s: &[u8]) -> Option<Said> {
    let prefix = field::copy_item(s, 4);
    let (keys, t, at) = read::quorum(s, 37, Kind::Key)?;
    let (next, at) = read::list(s, at, Kind::Said)?;
    let (witnesses, at) = read::list(s, at, Kind::Key)?;
    let (anchors, at) = cursor::read_u32(s, at)?;
    ends(s, at)?;
    checked(inception::check_identity(prefix, keys, t, next.count, witnesses.count, anchors))
}

fn signatures(s: &[u8]) -> Option<Said> {
    let (keys, threshold, at) = read::quorum(s, 4, Kind::Key)?;
    let (l, at) = read::sigers(s, at)?;
    ends(s, at)?;
    checked(authority::verify(Authority { keys, threshold }, l))
}

fn opening(s: &[u8]) -> Option<Said> {
    let (next, bar, at) = read::quorum(s, 4, Kind::Said)?;
    let (keys, threshold, at) = read::quorum(s, at, Kind::Key)?;
    let (l, at) = read::sigers(s, at)?;
    ends(s, at)?;
    let old = Commitment {
        next,
        threshold: bar,
    };
    checked(authority::verify_opening(old, Authority { keys, threshold }, l))
}

fn receipts(s: &[u8]) -> Option<Said> {
    let (toad, at) = cursor::read_u32(s, 4)?;
    let (witnesses, at) = read::list(s, at, Kind::Key)?;
    let (l, at) = read::sigers(s, at)?;
    ends(s, at)?;
    checked(authority::receipted_by(Witnessing { witnesses, toad }, l))
}

fn put_yes(out: &mut [u8], yes: bool) -> usize {
    if yes {
        return text::put_all(out, 0, b"yes\n");
    }
    text::put_all(out, 0, b"no\n")
}

// A no names the first clause that is short, or 0.
fn put_judged(out: &mut [u8], judged: Result<(), Short>) -> usize {
    let Err(short) = judged else {
        return put_yes(out, true);
    };
    let p = text::put_all(out, 0, b"no ");
    text::put_decimal(out, p, short.clause as u64, b'\n')
}

fn put_taken(out: &mut [u8], t: Toad) -> usize {
    let p = text::put_answer(out, 0, answer::accept(), b' ');
    text::put_decimal(out, p, u64::from(t.0), b'\n')
}

fn put_said(out: &mut [u8], x: Said) -> usize {
    match x {
        Said::Plain(y) => text::put_answer(out, 0, y, b'\n'),
        Said::Taken(t) => put_taken(out, t),
        Said::Judged(j) => put_judged(out, j),
        Said::Yes(yes) => put_yes(out, yes),
    }
}

fn put_refusal(out: &mut [u8], r: Refusal) -> usize {
    text::put_answer(out, 0, Answer::from(r), b'\n')
}

fn update(s: &[u8]) -> Option<Result<Items, Refusal>> {
    let (current, at) = read::list(s, 4, Kind::Key)?;
    let (cuts, at) = read::list(s, at, Kind::Key)?;
    let (adds, at) = read::list(s, at, Kind::Key)?;
    ends(s, at)?;
    Some(member_set::update(current, cuts, adds))
}

fn members(s: &[u8], out: &mut [u8]) -> Option<usize> {
    Some(match update(s)? {
        Ok(l) => {
            let p = text::put_answer(out, 0, answer::accept(), b' ');
            text::put_items(out, p, l)
        }
        Err(r) => put_refusal(out, r),
    })
}

// A room, and a state's bytes, which are read into structs and saved from them into so many bytes. No bytes are an empty holder,
// as bytes that are no state are; a request without a room has none and no bytes.
fn saved(s: &[u8], buf: &mut [u8]) -> Option<Result<usize, Refusal>> {
    let (room, from) = cursor::read_u32(s, 4).unwrap_or((0, s.len()));
    let buf = buf.get_mut(..room as usize)?;
    let h = restore::restore(read::part(s, from, s.len())).unwrap_or(empty::nothing());
    Some(snapshot::save(h, buf))
}

// The bytes that the answer says are written stand behind it.
fn save(s: &[u8], out: &mut [u8]) -> Option<usize> {
    let mut buf = [0u8; 4096];
    Some(match saved(s, &mut buf)? {
        Ok(size) => {
            let x = answer::refuse(0, size as u64, 0);
            let p = text::put_answer(out, 0, x, b' ');
            text::put_bytes(out, p, read::part(&buf, 0, size))
        }
        Err(r) => put_refusal(out, r),
    })
}

// A request's two letters.
fn mark(s: &[u8]) -> &[u8] {
    read::part(s, 0, 2)
}

fn reply(s: &[u8]) -> Option<Said> {
    match mark(s) {
        b"AM" => ample(s),
        b"EX" => exact(s),
        b"SO" => satisfied(true, s),
        b"AN" => satisfied(false, s),
        b"AT" => attainable(s),
        b"WF" => well_formed(s),
        b"WI" => witnesses(s),
        b"DE" => deltas(s),
        b"ID" => identity(s),
        b"SI" => signatures(s),
        b"OP" => opening(s),
        b"RE" => receipts(s),
        _ => None,
    }
}

fn put(s: &[u8], out: &mut [u8]) -> Option<usize> {
    match mark(s) {
        b"ME" => members(s, out),
        b"SA" => save(s, out),
        _ => Some(put_said(out, reply(s)?)),
    }
}

// s is the whole request, its mark and length included. A bad one is said to be bad.
pub(crate) fn answer<W: Write>(output: &mut W, s: &[u8], out: &mut [u8]) -> io::Result<()> {
    let used = match put(s, out) {
        Some(used) => used,
        None => text::put_all(out, 0, b"bad\n"),
    };
    text::write(output, out, used)
}
