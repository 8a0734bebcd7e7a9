// The witness threshold: ample for a number of witnesses, exact for one, or as it stands on the wire.
#![tactic(auto)]

ghost use Rattle.std.specs.Prelude.{◌≡◌, ◌<◌, ◌^◌};
ghost use Rattle.answer.specs.Refusal.{answered};
ghost use Rattle.toad.specs.Toad.{taken_as, majority, ample_of, ample_answer, in_range, exact_answer, witness_threshold};

use answer::Refusal;

#[derive(Clone, Copy, PartialEq, Eq)]
pub struct Toad(pub u32);

// The first number of witnesses whose ample threshold is past u32.
const TOO_MANY: u64 = 6_442_450_943;

// The least whole number that is no less than (n + f + 1) / 2, for f faulty witnesses out of n.
fn least_strong_majority(n: u64, f: u64) -> u64
    requires n_bound { n < 2 ^ 33 }
    requires f_bound { f < 2 ^ 33 }
    ensures { result ≡ majority n f }
{
    (n + f + 2) / 2
}

// The least strong majority over both ways to round the faulty third.
#[tactic(auto, unfolding(crate::specs::Toad::ample_of))]
fn least_ample(n: u64) -> u64
    requires { n < 6442450943 }
    ensures { result ≡ ample_of n }
{
    if n == 0 {
        return 0;
    }
    let faultable = n - 1;
    let floor = least_strong_majority(n, (faultable / 3).max(1));
    let ceil = least_strong_majority(n, ((faultable + 2) / 3).max(1));
    n.min(floor.min(ceil))
}

#[tactic(auto, using(crate::proofs::Laws::ample_fits, crate::proofs::Laws::ample_refused))]
pub fn ample(witnesses: u64) -> Result<Toad, Refusal>
    ensures { taken_as result ≡ ample_answer witnesses }
{
    if TOO_MANY <= witnesses {
        return Err(Refusal::Overflow { witnesses });
    }
    Ok(Toad(least_ample(witnesses) as u32))
}

fn in_range(toad: u32, witnesses: u64) -> bool
    ensures { result ≡ in_range toad witnesses }
{
    (witnesses == 0 && toad == 0) || (1 <= toad && toad as u64 <= witnesses)
}

pub fn exact(toad: u32, witnesses: u64) -> Result<Toad, Refusal>
    ensures { taken_as result ≡ exact_answer toad witnesses }
{
    if !in_range(toad, witnesses) {
        return Err(Refusal::OutOfRange { toad, witnesses });
    }
    Ok(Toad(toad))
}

// No validation: what governs a rotation's threshold is not in the event.
pub fn from_wire(toad: u32) -> Toad
    ensures { result.0 ≡ toad }
{
    Toad(toad)
}

#[tactic(auto, unfolding(crate::specs::Toad::witness_threshold))]
pub fn check_witness_threshold(toad: u32, witnesses: usize) -> Result<(), Refusal>
    ensures { answered result ≡ witness_threshold toad witnesses }
{
    let witnesses = witnesses as u64;
    if in_range(toad, witnesses) {
        return Ok(());
    }
    if toad == 0 {
        return Err(Refusal::WitnessThresholdZeroWithWitnesses { witnesses });
    }
    Err(Refusal::WitnessThresholdExceeded { toad, witnesses })
}
