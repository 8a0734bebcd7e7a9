// What stands at a place of lent bytes, as the library's values, for every place: each with the place behind it, or nothing.
use item::Kind;
use items::Items;
use threshold::Threshold;
use verification::{Index, Ondex, Siger, Sigers};

// The bytes between two places, or none.
pub(crate) fn part(s: &[u8], from: usize, to: usize) -> &[u8] {
    s.get(from..to).unwrap_or(b"")
}

// The byte at a place, or 0.
pub(crate) fn byte(s: &[u8], at: usize) -> u8 {
    s.get(at).copied().unwrap_or(0)
}

// The first two bytes, or 0.
pub(crate) fn mark(s: &[u8]) -> u16 {
    u16::from_be_bytes(cursor::copy_raw(s, 0))
}

pub(crate) fn list(s: &[u8], at: usize, kind: Kind) -> Option<(Items, usize)> {
    let (l, next) = field::scan_items(s, at, kind).ok()?;
    Some((field::copy_items(s, l), next))
}

pub(crate) fn threshold(s: &[u8], at: usize) -> Option<(Threshold, usize)> {
    let (m, next) = threshold_field::scan(s, at).ok()?;
    Some((threshold_field::copy(s, m), next))
}

// Keys, or next digests, with the threshold over them.
pub(crate) fn quorum(s: &[u8], at: usize, kind: Kind) -> Option<(Items, Threshold, usize)> {
    let (items, at) = list(s, at, kind)?;
    let (threshold, next) = threshold(s, at)?;
    Some((items, threshold, next))
}

// The first 64 numbers; what cannot be had is 0.
pub(crate) fn places(s: &[u8]) -> [u32; 64] {
    let mut places = [0u32; 64];
    for (i, place) in places.iter_mut().enumerate() {
        *place = u32::from_be_bytes(cursor::copy_raw(s, i * 4));
    }
    places
}

// A signature's 76 bytes, whose shape is scanned before.
fn siger(s: &[u8]) -> Siger {
    Siger {
        code: byte(s, 0),
        index: Index(u32::from_be_bytes(cursor::copy_raw(s, 1))),
        dual: byte(s, 5) == 1,
        ondex: Ondex(u32::from_be_bytes(cursor::copy_raw(s, 6))),
        raw: cursor::copy_raw(s, 10),
        verified: byte(s, 74) == 1,
        matches: byte(s, 75) == 1,
    }
}

pub(crate) fn sigers(s: &[u8], at: usize) -> Option<(Sigers, usize)> {
    let (l, next) = wire::scan(s, at).ok()?;
    let mut at = [verification::no_siger(); 48];
    for (x, bytes) in at.iter_mut().zip(part(s, l.first, next).chunks_exact(76)) {
        *x = siger(bytes);
    }
    let count = l.count;
    Some((Sigers { count, at }, next))
}
