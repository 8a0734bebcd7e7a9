// Whether a threshold can be satisfied at all, by the keys that there are.
#![tactic(auto)]

ghost use Rattle.std.specs.Prelude.{◌≡◌};
ghost use Rattle.attainable.specs.Attainable.{attainable_by, attained_as};

use answer::Refusal;
use threshold::Threshold;

#[tactic(auto, using(answer::proofs::Results::refuses), unfolding(crate::specs::Attainable::attainable_by))]
pub fn attainable(t: Threshold, keys: usize) -> Result<bool, Refusal>
    ensures { attained_as result ≡ attainable_by t keys }
{
    threshold::shape(t)?;
    if 16 < keys {
        return Err(Refusal::TooMany);
    }
    let all = places::cut_to(0xffff, keys);
    Ok(threshold::judge(t, keys, all).is_ok())
}
