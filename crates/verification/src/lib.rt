// Signatures, and the places that they speak for: an index finds a key, an ondex a commitment, and neither the other.
#![tactic(auto)]

ghost use Rattle.std.specs.Prelude.{◌≡◌};
ghost use Rattle.std.specs.List.{list_all};
ghost use Rattle.lists.specs.Lists.{both};
ghost use Rattle.answer.specs.Answer.{refused};
ghost use Rattle.answer.specs.Refusal.{answered};
ghost use Rattle.firsts.specs.Firsts.{has_first};
ghost use Rattle.verification.specs.Verification.{signatures, same_wire, place_within, key_place, commitment_place};
ghost use Rattle.verification.specs.Verification.{exposed_with, counted_with, counted_of, claimed, claim_of, no_siger, ondex_fits, zero_siger, shape_of};

use answer::Refusal;

#[derive(Clone, Copy, PartialEq, Eq)]
pub struct Index(pub u32);

#[derive(Clone, Copy, PartialEq, Eq)]
pub struct Ondex(pub u32);

// An ondex beside its flag: a record may hold a number without the flag, which is answered with 3, and `Option<Ondex>` could not say it.
#[derive(Clone, Copy)]
pub struct Siger {
    pub code: u8,
    pub index: Index,
    pub dual: bool,
    pub ondex: Ondex,
    pub raw: [u8; 64],
    pub verified: bool,
    pub matches: bool,
}

// What a signature says without its bytes: the places that it names, and its verdicts.
#[derive(Clone, Copy, PartialEq, Eq)]
pub struct Claim {
    pub index: Index,
    pub dual: bool,
    pub ondex: Ondex,
    pub verified: bool,
    pub matches: bool,
}

impl From<Siger> for Claim {
    ghost from_gives = { λ s c. c ≡ claim_of s };

    fn from(s: Siger) -> Claim {
        Claim {
            index: s.index,
            dual: s.dual,
            ondex: s.ondex,
            verified: s.verified,
            matches: s.matches,
        }
    }
}

// An array with a count, as document 01 wants it: no heap, and every count has to be answered.
#[derive(Clone, Copy)]
pub struct Sigers {
    pub count: usize,
    pub at: [Siger; 48],
}

// Places of verified keys and of exposed commitments.
#[derive(Clone, Copy, PartialEq, Eq)]
pub struct Counted {
    pub verified: u16,
    pub exposed: u16,
}

// Copies are equal in code, index, ondex and raw; their verdicts may differ. The index first, since it tells most apart; inlined always, since a call would
// copy both.
#[inline(always)]
#[tactic(auto, using(crate::proofs::Laws::same_raw, crate::proofs::Laws::flags_equal), unfolding(crate::specs::Verification::same_wire))]
pub fn same_wire(a: Siger, b: Siger) -> bool
    ensures { result ≡ same_wire a b }
{
    a.index == b.index
        && a.code == b.code
        && a.dual == b.dual
        && a.ondex == b.ondex
        && a.raw == b.raw
}

#[tactic(auto, unfolding(crate::specs::Verification::place_within))]
fn within(place: u32, n: usize) -> Option<usize>
    ensures { result ≡ place_within place n }
{
    let at = place as usize;
    (at < n).then_some(at)
}

pub fn key_place(index: Index, keys: usize) -> Option<usize>
    ensures { result ≡ key_place index keys }
{
    within(index.0, keys)
}

pub fn commitment_place(ondex: Ondex, next: usize) -> Option<usize>
    ensures { result ≡ commitment_place ondex next }
{
    within(ondex.0, next)
}

// The exposed places with that of a verified signature, where it has an ondex within the commitments and its digest agrees.
#[tactic(auto, unfolding(crate::specs::Verification::exposed_with, crate::specs::Verification::place_within))]
fn exposed_with(set: u16, s: Claim, next: usize) -> u16
    ensures { result ≡ exposed_with next set (claimed s) }
{
    // Before the `match`, not in a guard of it: a guard is compiled without a jump, and costs each signature the whole.
    if !s.dual || !s.matches {
        return set;
    }
    match commitment_place(s.ondex, next) {
        Some(place) => places::with_place(set, place as u32),
        None => set,
    }
}

// The places so far with those of one more signature that is no copy: of its bytes nothing is asked.
#[tactic(auto, unfolding(crate::specs::Verification::counted_with, crate::specs::Verification::place_within))]
pub fn counted_claim(c: Counted, s: Claim, keys: usize, next: usize) -> Counted
    ensures { result ≡ counted_with keys next c (claimed s) }
{
    match key_place(s.index, keys) {
        Some(place) if s.verified => Counted {
            verified: places::with_place(c.verified, place as u32),
            exposed: exposed_with(c.exposed, s, next),
        },
        _ => c,
    }
}

#[tactic(auto, unfolding(crate::specs::Verification::counted_with, crate::specs::Verification::exposed_with))]
pub fn counted_with(c: Counted, s: Siger, keys: usize, next: usize) -> Counted
    ensures { result ≡ counted_with keys next c s }
{
    counted_claim(c, Claim::from(s), keys, next)
}

// Whether a signature is a copy of an earlier one at a position. Only first ones are compared: what equals a copy equals the one copied.
pub fn is_copy(set: u64, position: usize, earlier: Siger, s: Siger) -> bool
    ensures { result ≡ both (has_first set position) (same_wire s earlier) }
{
    firsts::has(set, position) && same_wire(s, earlier)
}

// One loop for signatures and receipts alike. A copy is looked for in the list itself, at the positions of the first ones.
#[tactic(auto, using(crate::proofs::Laws::counted_none, crate::proofs::Laws::firsts_none, crate::proofs::Laws::none_before))]
pub fn count(l: Sigers, keys: usize, next: usize) -> Counted
    ensures { result ≡ counted_of keys next (signatures l) }
{
    let mut c = Counted {
        verified: 0,
        exposed: 0,
    };
    let mut set: u64 = 0;
    'each: for (i, s) in l.at[..l.count.min(48)].iter().enumerate() {
        for (j, earlier) in l.at[..i].iter().enumerate() {
            if is_copy(set, j, *earlier, *s) {
                continue 'each;
            }
        }
        c = counted_with(c, *s, keys, next);
        set = firsts::with(set, i);
    }
    c
}

pub fn no_siger() -> Siger
    ensures { result ≡ no_siger }
{
    Siger {
        code: 0,
        index: Index(0),
        dual: false,
        ondex: Ondex(0),
        raw: [0; 64],
        verified: false,
        matches: false,
    }
}

fn is_zero(s: Siger) -> bool
    ensures { result ≡ zero_siger s }
{
    same_wire(no_siger(), s) && !s.verified && !s.matches
}

// Without an ondex its number is 0.
pub fn ondex_fits(s: Siger) -> bool
    ensures { result ≡ ondex_fits s }
{
    s.dual || s.ondex.0 == 0
}

fn ondexes_fit(used: &[Siger]) -> bool
    ensures { result ≡ list_all ondex_fits used.now }
{
    used.iter().all(|s| ondex_fits(*s))
}

fn all_zero(unused: &[Siger]) -> bool
    ensures { result ≡ list_all zero_siger unused.now }
{
    unused.iter().all(|s| is_zero(*s))
}

// `TooMany` where the count is above 48, `BadField` where an ondex does not fit its flag or an unused place is not zero.
#[tactic(auto, using(crate::proofs::Laws::list_all_is, std::proofs::lemmas::List::take_rest), unfolding(crate::specs::Verification::shape_of))]
pub fn shape(l: Sigers) -> Result<(), Refusal>
    ensures { answered result ≡ refused (shape_of l) 0 0 }
{
    if 48 < l.count {
        return Err(Refusal::TooMany);
    }
    if ondexes_fit(&l.at[..l.count]) && all_zero(&l.at[l.count..]) {
        Ok(())
    } else {
        Err(Refusal::BadField)
    }
}
