// The identity law of an inception: a basic prefix is its own sole key, and a non-transferable one commits to nothing.
#![tactic(auto)]

ghost use Rattle.std.specs.Prelude.{◌≡◌, eqb};
ghost use Rattle.lists.specs.Lists.{both};
ghost use Rattle.answer.specs.Answer.{first_refusal};
ghost use Rattle.answer.specs.Refusal.{answered};
ghost use Rattle.threshold.specs.Threshold.{is_simple};
ghost use Rattle.inception.specs.Identity.{sole_key, commits_nothing, identity};

use answer::Refusal;
use item::Item;
use items::Items;
use threshold::Threshold;

fn is_simple_one(t: Threshold) -> bool
    ensures { result ≡ both (is_simple t) (eqb t.simple 1) }
{
    t.tag == 0 && t.simple == 1
}

#[tactic(auto, unfolding(answer::specs::Answer::first_refusal))]
fn sole_key(prefix: Item, keys: Items, t: Threshold) -> Result<(), Refusal>
    ensures { answered result ≡ first_refusal (sole_key prefix keys t) }
{
    if keys.count != 1 {
        return Err(Refusal::BasicKeyCount { keys: keys.count });
    }
    if !is_simple_one(t) {
        return Err(Refusal::BasicThreshold);
    }
    if !item::same(prefix, keys.at[0]) {
        return Err(Refusal::BasicKeyMismatch);
    }
    Ok(())
}

#[tactic(auto, unfolding(answer::specs::Answer::first_refusal))]
fn commits_nothing(next: usize, witnesses: usize, anchors: u32) -> Result<(), Refusal>
    ensures { answered result ≡ first_refusal (commits_nothing next witnesses anchors) }
{
    if next != 0 {
        return Err(Refusal::NonTransferableNextKeys);
    }
    if witnesses != 0 {
        return Err(Refusal::NonTransferableWitnesses);
    }
    if anchors != 0 {
        return Err(Refusal::NonTransferableAnchors);
    }
    Ok(())
}

#[tactic(auto, using(answer::proofs::Results::refuses), unfolding(answer::specs::Answer::first_refusal, crate::specs::Identity::identity))]
pub fn check_identity(
    prefix: Item,
    keys: Items,
    t: Threshold,
    next: usize,
    witnesses: usize,
    anchors: u32,
) -> Result<(), Refusal>
    ensures { answered result ≡ identity prefix keys t next witnesses anchors }
{
    let code = prefix.code;
    if !item::is_basic(code) {
        return Ok(());
    }
    sole_key(prefix, keys, t)?;
    if item::is_transferable(code) {
        return Ok(());
    }
    commits_nothing(next, witnesses, anchors)
}
