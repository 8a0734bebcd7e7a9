// Signatures as they stand in a lent byte string: where a list of them stands, and the places that they speak for. Nothing is copied.
#![tactic(auto)]

ghost use Rattle.std.specs.Prelude.{◌≡◌, ◌+◌, ◌*◌, ◌≤◌, eqb, length, take, drop};
ghost use Rattle.lists.specs.Lists.{both, either, any, same_numbers};
ghost use Rattle.firsts.specs.Firsts.{has_first};
ghost use Rattle.cursor.specs.Cursor.{scanned};
ghost use Rattle.cursor.specs.Spans.{list_of};
ghost use Rattle.verification.specs.Verification.{same_wire, counted_of, claim_of};
ghost use Rattle.wire.specs.Wire.{word_of, siger_of, sigers_of, firsts_from, shaped_at, sigers_span};

use answer::Refusal;
use cursor::Listing;
use verification::{Claim, Counted, Index, Ondex};

// Of four bytes that are there: `cursor::read_u32` would ask for their room again, at each signature.
#[tactic(auto, using(crate::proofs::Laws::word_bytes))]
fn word(s: &[u8], at: usize) -> u32
    requires { at + 4 ≤ length s.now }
    ensures { result ≡ word_of s.now at }
{
    u32::from_be_bytes([s[at], s[at + 1], s[at + 2], s[at + 3]])
}

// Without an ondex its number is 0.
fn ondex_fits(s: &[u8], at: usize, flag: u8) -> bool
    requires { at + 4 ≤ length s.now }
    ensures { result ≡ either (eqb flag 1) (eqb (word_of s.now at) 0) }
{
    flag == 1 || word(s, at) == 0
}

#[tactic(auto, unfolding(crate::specs::Wire::shaped_at))]
fn shaped(s: &[u8], at: usize) -> bool
    ensures { result ≡ shaped_at s.now at }
{
    if cursor::bytes(s, at, 76).is_none() {
        return false;
    }
    let flag = s[at + 5];
    flag <= 1 && ondex_fits(s, at + 6, flag) && s[at + 74] <= 1 && s[at + 75] <= 1
}

// A count byte of at most 48, and as many signatures, each whole and of its classes: where they stand, and the place behind the last.
#[tactic(auto, using(crate::proofs::Laws::scanning))]
pub fn scan(s: &[u8], at: usize) -> Result<(Listing, usize), Refusal>
    ensures { scanned result ≡ sigers_span s.now at }
{
    let Some((count, first)) = cursor::read_u8(s, at) else {
        return Err(Refusal::BadField);
    };
    if 48 < count {
        return Err(Refusal::TooMany);
    }
    let count = count as usize;
    let mut next = first;
    for _ in 0..count {
        if !shaped(s, next) {
            return Err(Refusal::BadField);
        }
        next += 76;
    }
    Ok((Listing { count, first }, next))
}

// Compared to the end, many bytes at a time: where two first differ makes no difference to the time. A `for`, since this is the hot loop of the device's call:
// `==` on the slices leaves early and is a call apart, and took 5.5 ns where this takes 4.4 (2.8 where the first 4 bytes differ); a `zip` with a `fold` took 4.9.
fn same_raw(s: &[u8], p: usize, q: usize) -> bool
    requires p_in_bounds { p + 64 ≤ length s.now }
    requires q_in_bounds { q + 64 ≤ length s.now }
    ensures { result ≡ same_numbers (take 64 (drop p s.now)) (take 64 (drop q s.now)) }
{
    let mut same = true;
    for i in 0..64 {
        same &= s[p + i] == s[q + i];
    }
    same
}

// The raw bytes come first: they tell two signatures apart soonest.
#[tactic(auto, using(cursor::proofs::Laws::raw_got), unfolding(crate::specs::Wire::siger_of, verification::specs::Verification::same_wire))]
fn same_at(s: &[u8], p: usize, q: usize) -> bool
    requires p_in_bounds { p + 76 ≤ length s.now }
    requires q_in_bounds { q + 76 ≤ length s.now }
    ensures { result ≡ same_wire (siger_of s.now p) (siger_of s.now q) }
{
    same_raw(s, p + 10, q + 10)
        && s[p] == s[q]
        && word(s, p + 1) == word(s, q + 1)
        && (s[p + 5] == 1) == (s[q + 5] == 1)
        && word(s, p + 6) == word(s, q + 6)
}

// Whether the signature at p is a copy of the earlier one at q, which has position j. Most differ in their first raw byte, so that is looked at first. Of the
// others only first ones are compared: what equals a copy equals the one copied.
#[tactic(auto, using(crate::proofs::Laws::same_first, crate::proofs::Laws::other_too))]
fn is_copy(s: &[u8], set: u64, j: usize, q: usize, p: usize) -> bool
    requires q_in_bounds { q + 76 ≤ length s.now }
    requires p_in_bounds { p + 76 ≤ length s.now }
    ensures { result ≡ both (has_first set j) (same_wire (siger_of s.now p) (siger_of s.now q)) }
{
    s[p + 10] == s[q + 10] && firsts::has(set, j) && same_at(s, p, q)
}

// Whether the signature at p is a copy of one of the i from a place on, of which the first ones are given.
#[tactic(auto, using(crate::proofs::Laws::none_before, crate::proofs::Laws::list_copy))]
fn copied(s: &[u8], at: usize, i: usize, set: u64, p: usize) -> bool
    requires i_bound { i ≤ 48 }
    requires i_in_bounds { at + i * 76 ≤ length s.now }
    requires set_value { set ≡ firsts_from s.now at i }
    requires p_in_bounds { p + 76 ≤ length s.now }
    ensures { result ≡ any (same_wire (siger_of s.now p)) (list_of (siger_of s.now) 76 i at) }
{
    for j in 0..i {
        if is_copy(s, set, j, at + j * 76, p) {
            return true;
        }
    }
    false
}

#[tactic(auto, unfolding(crate::specs::Wire::siger_of))]
fn claim_at(s: &[u8], p: usize) -> Claim
    requires { p + 76 ≤ length s.now }
    ensures { result ≡ claim_of (siger_of s.now p) }
{
    Claim {
        index: Index(word(s, p + 1)),
        dual: s[p + 5] == 1,
        ondex: Ondex(word(s, p + 6)),
        verified: s[p + 74] == 1,
        matches: s[p + 75] == 1,
    }
}

// The places that a list's signatures speak for; none where they are more than 48 or the bytes run out.
#[tactic(auto, using(crate::proofs::Laws::counting))]
pub fn count(s: &[u8], l: Listing, keys: usize, next: usize) -> Counted
    ensures { result ≡ counted_of keys next (sigers_of s.now l.count l.first) }
{
    let mut c = Counted {
        verified: 0,
        exposed: 0,
    };
    if 48 < l.count || cursor::bytes(s, l.first, l.count * 76).is_none() {
        return c;
    }
    let mut set: u64 = 0;
    for i in 0..l.count {
        let p = l.first + i * 76;
        if copied(s, l.first, i, set, p) {
            continue;
        }
        c = verification::counted_claim(c, claim_at(s, p), keys, next);
        set = firsts::with(set, i);
    }
    c
}
