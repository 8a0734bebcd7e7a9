// A threshold judged where it stands: only one with weights is copied.
#![tactic(auto)]

ghost use Rattle.std.specs.Prelude.{◌≡◌, ℕ, leb, length};
ghost use Rattle.lists.specs.Lists.{pick};
ghost use Rattle.answer.specs.Answer.{refused, accepted};
ghost use Rattle.answer.specs.Refusal.{answered, counted_as};
ghost use Rattle.places.specs.Places.{places_in};
ghost use Rattle.threshold.specs.Threshold.{well_formed};
ghost use Rattle.authority.specs.Authority.{quorum};
ghost use Rattle.threshold_field.specs.ThresholdField.{threshold_of};

use answer::{Refusal, TooFew};
use threshold_field::Marks;

// 23 to 26 of the threshold at the marks.
#[tactic(auto, unfolding(threshold::specs::Threshold::well_formed))]
pub fn form(s: &[u8], m: Marks, keys: usize) -> Result<(), Refusal>
    ensures { answered result ≡ well_formed (threshold_of s.now m) keys }
{
    if m.tag == 0 {
        return threshold::form_simple(m.simple, keys);
    }
    threshold::form(threshold_field::copy(s, m), keys)
}

// Of a simple threshold there is no clause to name.
fn quorum_simple(required: u64, set: u16) -> Result<(), TooFew>
    ensures { (which : ℕ) → counted_as which result ≡ pick (leb required (length (places_in set))) accepted (refused which (length (places_in set)) 0) }
{
    let counted = places::size(set);
    if required <= counted as u64 {
        Ok(())
    } else {
        Err(TooFew { counted, clause: 0 })
    }
}

// A set of places against the threshold at the marks; a refusal names how many there are, and the first clause that is short.
#[tactic(auto, unfolding(authority::specs::Authority::quorum, threshold::specs::Threshold::judged))]
pub fn quorum(s: &[u8], m: Marks, set: u16) -> Result<(), TooFew>
    ensures { (which : ℕ) → counted_as which result ≡ quorum which (threshold_of s.now m) (places_in set) }
{
    if m.tag == 0 {
        return quorum_simple(m.simple, set);
    }
    authority::quorum(threshold_field::copy(s, m), set)
}
