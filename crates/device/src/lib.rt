// The device's calls, which crate device_c exports to C: on a state that lies in a lent buffer, as its snapshot's bytes or as nothing.
#![tactic(auto)]

ghost use Rattle.std.specs.Prelude.{◌≡◌};
ghost use Rattle.snapshot.specs.Bytes.{flag_byte};
ghost use Rattle.attainable.specs.Attainable.{attained_as};
ghost use Rattle.in_place.specs.Calls.{offered_in, folded_in, asked};
ghost use Rattle.device.specs.Calls.{words, length_in, attainable_in};

use answer::{Answer, Refusal};

// The details as words, the number as the result.
fn tell(x: Answer, details: &mut [u64; 4]) -> u8
    ensures value { result ≡ x.number }
    ensures details_after { details.new ≡ words x }
{
    *details = [x.a.high, x.a.low, x.b.high, x.b.low];
    x.number
}

// The first record of `input` is offered to the state in the buffer; what stands behind that record is not looked at.
pub fn keystate_offer(
    state: &mut [u8],
    used: &mut usize,
    input: &[u8],
    details: &mut [u64; 4],
) -> u8
    ensures value { result ≡ (offered_in state.old used.old input.now).answer.number }
    ensures details_after { details.new ≡ words (offered_in state.old used.old input.now).answer }
    ensures state_after { state.new ≡ (offered_in state.old used.old input.now).bytes }
    ensures used_after { used.new ≡ (offered_in state.old used.old input.now).used }
{
    tell(in_place::offer(state, used, input), details)
}

// The same without the checks: for a history that was checked before.
pub fn keystate_fold(state: &mut [u8], used: &mut usize, input: &[u8], details: &mut [u64; 4]) -> u8
    ensures value { result ≡ (folded_in state.old used.old input.now).answer.number }
    ensures details_after { details.new ≡ words (folded_in state.old used.old input.now).answer }
    ensures state_after { state.new ≡ (folded_in state.old used.old input.now).bytes }
    ensures used_after { used.new ≡ (folded_in state.old used.old input.now).used }
{
    tell(in_place::fold(state, used, input), details)
}

// `state` is the used bytes alone.
pub fn keystate_ask(state: &[u8], details: &mut [u64; 4]) -> u8
    ensures value { result ≡ (asked state.now).number }
    ensures details_after { details.new ≡ words (asked state.now) }
{
    tell(in_place::ask(state), details)
}

// "Otherwise the length leads to the next record, refused or not."
#[tactic(auto, unfolding(crate::specs::Calls::length_in))]
pub fn keystate_length(input: &[u8]) -> usize
    ensures { result ≡ length_in input.now }
{
    found::length(input)
}

#[tactic(auto, using(crate::proofs::Laws::alone))]
fn attainable_in(s: &[u8], keys: usize) -> Result<bool, Refusal>
    ensures { attained_as result ≡ attainable_in s.now keys }
{
    let (m, end) = threshold_field::scan(s, 0)?;
    if end != s.len() {
        return Err(Refusal::BadField);
    }
    attainable::attainable(threshold_field::copy(s, m), keys)
}

// `yes` becomes 1 or 0; 0 where the number is not 0.
pub fn keystate_attainable(threshold: &[u8], keys: usize, yes: &mut u8) -> u8
    ensures value { result ≡ (attainable_in threshold.now keys).number }
    ensures yes_after { yes.new ≡ flag_byte (attainable_in threshold.now keys).yes }
{
    match attainable_in(threshold, keys) {
        Ok(is) => {
            *yes = u8::from(is);
            0
        }
        Err(r) => {
            *yes = 0;
            Answer::from(r).number
        }
    }
}
