// The device's static library: its exported calls. Each is the call of that name of crate device, under the same clauses.
#![tactic(auto)]

ghost use Rattle.std.specs.Prelude.{◌≡◌, false};
ghost use Rattle.snapshot.specs.Bytes.{flag_byte};
ghost use Rattle.attainable.specs.Attainable.{attained};
ghost use Rattle.in_place.specs.Calls.{offered_in, folded_in, asked};
ghost use Rattle.device.specs.Calls.{words, length_in, attainable_in};

// The first record of `input` is offered to the state in the buffer; what stands behind that record is not looked at.
#[unsafe(no_mangle)]
pub extern "C" fn keystate_offer(
    state: &mut [u8],
    used: &mut usize,
    input: &[u8],
    details: &mut [u64; 4],
) -> u8
    ensures value { result ≡ (offered_in state.old used.old input.now).answer.number }
    ensures details_after { details.new ≡ words (offered_in state.old used.old input.now).answer }
    ensures state_after { state.new ≡ (offered_in state.old used.old input.now).bytes }
    ensures used_after { used.new ≡ (offered_in state.old used.old input.now).used }
{
    device::keystate_offer(state, used, input, details)
}

// The same without the checks: for a history that was checked before.
#[unsafe(no_mangle)]
pub extern "C" fn keystate_fold(
    state: &mut [u8],
    used: &mut usize,
    input: &[u8],
    details: &mut [u64; 4],
) -> u8
    ensures value { result ≡ (folded_in state.old used.old input.now).answer.number }
    ensures details_after { details.new ≡ words (folded_in state.old used.old input.now).answer }
    ensures state_after { state.new ≡ (folded_in state.old used.old input.now).bytes }
    ensures used_after { used.new ≡ (folded_in state.old used.old input.now).used }
{
    device::keystate_fold(state, used, input, details)
}

// `state` is the used bytes alone.
#[unsafe(no_mangle)]
pub extern "C" fn keystate_ask(state: &[u8], details: &mut [u64; 4]) -> u8
    ensures value { result ≡ (asked state.now).number }
    ensures details_after { details.new ≡ words (asked state.now) }
{
    device::keystate_ask(state, details)
}

// "Otherwise the length leads to the next record, refused or not."
#[unsafe(no_mangle)]
pub extern "C" fn keystate_length(input: &[u8]) -> usize
    ensures { result ≡ length_in input.now }
{
    device::keystate_length(input)
}

// `yes` becomes 1 or 0; 0 where the number is not 0.
#[unsafe(no_mangle)]
pub extern "C" fn keystate_attainable(threshold: &[u8], keys: usize, yes: &mut u8) -> u8
    ensures value { result ≡ (attainable_in threshold.now keys).number }
    ensures yes_after { yes.new ≡ flag_byte (attainable_in threshold.now keys).yes }
{
    device::keystate_attainable(threshold, keys, yes)
}
