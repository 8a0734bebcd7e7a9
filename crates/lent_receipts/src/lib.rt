// The lent list of receipts: walked once, each element handed to a by-value counting step. None is stored: a copy is looked for in the lent list itself, at
// the positions of the first ones.
#![tactic(auto)]

ghost use Rattle.std.specs.Prelude.{◌≡◌};
ghost use Rattle.answer.specs.Refusal.{answered};
ghost use Rattle.lent_receipts.specs.Receipted.{step_of, none_yet, concluded, receipted_from};

use answer::Refusal;
use verification::{Counted, Siger};

// Of the receipts so far: which positions have first ones, the places that they speak for, and whether every ondex fits its flag.
#[derive(Clone, Copy)]
struct Tally {
    pub firsts: u64,
    pub counted: Counted,
    pub fits: bool,
}

fn none_yet() -> Tally
    ensures { result ≡ none_yet }
{
    Tally {
        firsts: 0,
        counted: Counted {
            verified: 0,
            exposed: 0,
        },
        fits: true,
    }
}

// The counting step, for the receipt at position i: a copy of the one at j where that is earlier. "Of copies equal in code, index, ondex and raw, the first
// decides."
#[tactic(auto, unfolding(crate::specs::Receipted::step_of))]
fn step(t: Tally, s: Siger, i: usize, j: usize, witnesses: usize) -> Tally
    ensures { result ≡ step_of witnesses t s i j }
{
    let fits = t.fits && verification::ondex_fits(s);
    if j < i {
        return Tally { fits, ..t };
    }
    Tally {
        firsts: firsts::with(t.firsts, i),
        counted: verification::counted_with(t.counted, s, witnesses, 0),
        fits,
    }
}

// Shape before the count, and also where toad is 0.
#[tactic(auto, unfolding(crate::specs::Receipted::concluded))]
fn conclude(t: Tally, toad: u32) -> Result<(), Refusal>
    ensures { answered result ≡ concluded toad t }
{
    if !t.fits {
        return Err(Refusal::BadField);
    }
    authority::receipts(toad, t.counted.verified)
}

// "one entry takes a lent list of signature structs, as `receipted_by` does".
#[tactic(auto, using(crate::proofs::Laws::too_many, crate::proofs::Laws::few_enough, crate::proofs::Laws::tally_none, crate::proofs::Laws::unlike_none))]
pub fn receipted_by(toad: u32, witnesses: usize, receipts: &[Siger]) -> Result<(), Refusal>
    ensures { answered result ≡ receipted_from toad witnesses receipts.now }
{
    if 48 < receipts.len() {
        return Err(Refusal::TooMany);
    }
    let mut t = none_yet();
    for (i, s) in receipts.iter().enumerate() {
        // The position of the first one that it copies, or its own.
        let mut place = i;
        for (j, earlier) in receipts[..i].iter().enumerate() {
            if verification::is_copy(t.firsts, j, *earlier, *s) {
                place = j;
                break;
            }
        }
        t = step(t, *s, i, place, witnesses);
    }
    conclude(t, toad)
}
