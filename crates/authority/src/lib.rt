// The three counts: signatures against an authority (27), exposed commitments (28), receipts of witnesses (32).
#![tactic(auto)]

ghost use Rattle.std.specs.Prelude.{◌≡◌, ℕ, length};
ghost use Rattle.answer.specs.Refusal.{answered, counted_as};
ghost use Rattle.items.specs.Items.{listed};
ghost use Rattle.places.specs.Places.{places_in};
ghost use Rattle.authority.specs.Authority.{quorum, receipts, verifies, opens, witnessed};

use answer::{Refusal, TooFew};
use items::Items;
use threshold::Threshold;
use verification::Sigers;

// Who may sign.
#[derive(Clone, Copy)]
pub struct Authority {
    pub keys: Items,
    pub threshold: Threshold,
}

// What the next rotation must expose.
#[derive(Clone, Copy)]
pub struct Commitment {
    pub next: Items,
    pub threshold: Threshold,
}

// Who must have seen an event, and how many of them.
#[derive(Clone, Copy)]
pub struct Witnessing {
    pub witnesses: Items,
    pub toad: u32,
}

fn used(l: Items) -> usize
    ensures { result ≡ length (listed l) }
{
    l.count.min(16)
}

// A set of places against a threshold; what is too few names how many there are, and the first clause that is short.
#[tactic(auto, using(crate::proofs::Laws::quorum_met, crate::proofs::Laws::quorum_short))]
pub fn quorum(t: Threshold, set: u16) -> Result<(), TooFew>
    ensures { (which : ℕ) → counted_as which result ≡ quorum which t (places_in set) }
{
    let counted = places::size(set);
    match threshold::judge(t, counted as usize, set) {
        Ok(()) => Ok(()),
        Err(short) => Err(TooFew {
            counted,
            clause: short.clause,
        }),
    }
}

#[tactic(auto, unfolding(crate::specs::Authority::receipts))]
pub fn receipts(toad: u32, set: u16) -> Result<(), Refusal>
    ensures { answered result ≡ receipts toad (places_in set) }
{
    let valid = places::size(set);
    if toad <= valid {
        return Ok(());
    }
    Err(Refusal::InsufficientWitnessReceipts {
        valid,
        required: toad,
    })
}

#[tactic(auto, using(crate::proofs::Laws::verifies_is))]
pub fn verify(a: Authority, l: Sigers) -> Result<(), Refusal>
    ensures { answered result ≡ verifies a l }
{
    let counted = verification::count(l, used(a.keys), 0);
    quorum(a.threshold, counted.verified).map_err(Refusal::MissingSignatures)
}

// The signatures that count for the revealed keys are the ones that may expose the old commitments.
#[tactic(auto, using(answer::proofs::Results::refuses, crate::proofs::Laws::verifies_is, crate::proofs::Laws::exposes_is), unfolding(answer::specs::Answer::first_refusal, crate::specs::Authority::opens))]
pub fn verify_opening(c: Commitment, revealed: Authority, l: Sigers) -> Result<(), Refusal>
    ensures { answered result ≡ opens c revealed l }
{
    let counted = verification::count(l, used(revealed.keys), used(c.next));
    quorum(revealed.threshold, counted.verified).map_err(Refusal::MissingSignatures)?;
    quorum(c.threshold, counted.exposed).map_err(Refusal::PriorNextThresholdUnsatisfied)
}

// Toad 0 reads no receipts.
#[tactic(auto, using(crate::proofs::Laws::witnessed_is, crate::proofs::Laws::receipts_none))]
pub fn receipted_by(w: Witnessing, l: Sigers) -> Result<(), Refusal>
    ensures { answered result ≡ witnessed w l }
{
    if w.toad == 0 {
        return Ok(());
    }
    let counted = verification::count(l, used(w.witnesses), 0);
    receipts(w.toad, counted.verified)
}
