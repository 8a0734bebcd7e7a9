// What the checks need of up to 48 signatures and 48 receipts: three sets of places, and what they come to.
#![tactic(auto)]

ghost use Rattle.std.specs.Prelude.{◌≡◌};
ghost use Rattle.answer.specs.Refusal.{answered};
ghost use Rattle.verification.specs.Verification.{signatures};
ghost use Rattle.evidence.specs.Evidence.{evidence_of, signed_on, exposed_on, receipted_on};

use answer::Refusal;
use threshold::Threshold;
use verification::Sigers;

// Verified keys, exposed commitments, and witnesses with a verified receipt.
#[derive(Clone, Copy, PartialEq, Eq)]
pub struct Evidence {
    pub verified: u16,
    pub exposed: u16,
    pub receipted: u16,
}

pub fn gather(sigs: Sigers, receipts: Sigers, keys: usize, next: usize) -> Evidence
    ensures { result ≡ evidence_of keys next (signatures sigs) (signatures receipts) }
{
    let own = verification::count(sigs, keys, next);
    let seen = verification::count(receipts, 16, 0);
    Evidence {
        verified: own.verified,
        exposed: own.exposed,
        receipted: seen.verified,
    }
}

pub fn signed(t: Threshold, v: Evidence) -> Result<(), Refusal>
    ensures { answered result ≡ signed_on t v }
{
    authority::quorum(t, v.verified).map_err(Refusal::MissingSignatures)
}

pub fn exposed(t: Threshold, v: Evidence) -> Result<(), Refusal>
    ensures { answered result ≡ exposed_on t v }
{
    authority::quorum(t, v.exposed).map_err(Refusal::PriorNextThresholdUnsatisfied)
}

// Receipts count for the witnesses that there are: a place past their list is skipped.
pub fn receipted(toad: u32, v: Evidence, witnesses: usize) -> Result<(), Refusal>
    ensures { answered result ≡ receipted_on toad v witnesses }
{
    authority::receipts(toad, places::cut_to(v.receipted, witnesses))
}
