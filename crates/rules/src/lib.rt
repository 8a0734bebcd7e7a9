// The checks that document 01's lists are made of and that both ways through them share: by value (`judge_structs`) and in place
// (`judge`). The lists themselves are in specs/Rules.
#![tactic(auto)]

ghost use Rattle.std.specs.Prelude.{◌≡◌};
ghost use Rattle.number.specs.Number.{next_of};
ghost use Rattle.answer.specs.Answer.{refuse_unless, first_refusal};
ghost use Rattle.answer.specs.Refusal.{answer_of, answered};
ghost use Rattle.item.specs.Item.{same_item};
ghost use Rattle.items.specs.Items.{listed};
ghost use Rattle.member_set.specs.Members.{change_faults, updated, change_as};
ghost use Rattle.evidence.specs.Evidence.{receipted_on};
ghost use Rattle.rules.specs.Rules.{follows, chains_onto, genesis_sn, genesis_head, witness_stages, changed, may_interact};

use answer::Refusal;
use config::Config;
use event::Head;
use evidence::Evidence;
use item::{Item, Kind};
use items::Items;
use number::Number;

// 34 at the last number, whatever the event's number; 35 for any other that does not follow.
fn follow(sn: Number, actual: Number) -> Result<(), Refusal>
    ensures { answered result ≡ follows (next_of sn) actual }
{
    let Some(expected) = number::next(sn) else {
        return Err(Refusal::SequenceNumberOverflow);
    };
    if !number::same(expected, actual) {
        return Err(Refusal::OutOfOrder { expected, actual });
    }
    Ok(())
}

fn same_or(a: Item, b: Item, refusal: Refusal) -> Result<(), Refusal>
    ensures { answered result ≡ refuse_unless (same_item a b) (answer_of refusal) }
{
    if item::same(a, b) {
        Ok(())
    } else {
        Err(refusal)
    }
}

#[tactic(auto, using(answer::proofs::Results::refuses), unfolding(answer::specs::Answer::first_refusal, crate::specs::Rules::chains_onto))]
pub fn chain(prefix: Item, sn: Number, said: Item, h: Head) -> Result<(), Refusal>
    ensures { answered result ≡ chains_onto prefix sn said h }
{
    same_or(prefix, h.prefix, Refusal::IdentifierMismatch)?;
    follow(sn, h.sn)?;
    same_or(said, h.prior, Refusal::PriorDigestMismatch)
}

fn genesis_sn(sn: Number) -> Result<(), Refusal>
    ensures { answered result ≡ genesis_sn sn }
{
    if !number::same(sn, number::from_u64(0)) {
        return Err(Refusal::NonZeroGenesisSn { sn });
    }
    Ok(())
}

// 3 for a prefix that is none, then 11.
#[tactic(auto, using(answer::proofs::Results::refuses), unfolding(answer::specs::Answer::first_refusal))]
pub fn genesis(prefix: Item, sn: Number) -> Result<(), Refusal>
    ensures { answered result ≡ genesis_head prefix sn }
{
    item::shape(prefix, Kind::Prefix)?;
    genesis_sn(sn)
}

// 18 to 22; 38; 30 or 31; 32 of the resulting list.
#[tactic(auto, using(answer::proofs::Results::refuses, crate::proofs::Laws::change_stops), unfolding(answer::specs::Answer::first_refusal))]
pub fn rewitnessed(
    current: Items,
    cuts: Items,
    adds: Items,
    toad: u32,
    v: Evidence,
) -> Result<Items, Refusal>
    ensures { change_as result ≡ changed (first_refusal (witness_stages (change_faults (listed current) (listed cuts) (listed adds)) (updated (listed current) (listed cuts) (listed adds)) toad (receipted_on toad v))) (updated (listed current) (listed cuts) (listed adds)) }
{
    member_set::check_change(current, cuts, adds)?;
    let list = member_set::update(current, cuts, adds)?;
    toad::check_witness_threshold(toad, list.count)?;
    evidence::receipted(toad, v, list.count)?;
    Ok(list)
}

pub fn only_establishment(config: Config) -> Result<(), Refusal>
    ensures { answered result ≡ may_interact config }
{
    if config::is_establishment_only(config) {
        return Err(Refusal::InteractionOnEstablishmentOnly);
    }
    Ok(())
}
