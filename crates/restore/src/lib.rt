// A saved state read back into structs: what a state's bytes hold, as a holder. The inverse of snapshot's `save`.
#![tactic(auto)]

ghost use Rattle.std.specs.Prelude.{◌≡◌};
ghost use Rattle.found.specs.Kept.{state_in};
ghost use Rattle.restore.specs.Restore.{restored_is};

use answer::Refusal;
use state::Holder;

// No bytes are an empty holder; a refusal is one of the first four, 1 to 4.
#[tactic(auto, using(crate::proofs::Laws::state_restored))]
pub fn restore(s: &[u8]) -> Result<Holder, Refusal>
    ensures { restored_is result ≡ state_in s.now }
{
    match found::in_bytes(s)? {
        Some(m) => Ok(state::hold(record::copy_state(&s[4..], m))),
        None => Ok(empty::nothing()),
    }
}
