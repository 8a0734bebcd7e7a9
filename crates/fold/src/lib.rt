// The unchecked fold: what accepted events make of a state, with nothing checked but shape and room.
#![tactic(auto)]

ghost use Rattle.std.specs.Prelude.{◌≡◌};
ghost use Rattle.answer.specs.Answer.{accepted, refused};
ghost use Rattle.items.specs.Items.{packed};
ghost use Rattle.lists.specs.Lists.{pick};
ghost use Rattle.state.specs.State.{is_held, holding, rotated, stepped};
ghost use Rattle.rules.specs.Rules.{new_witnesses};
ghost use Rattle.member_set.specs.Members.{change_of};
ghost use Rattle.ingest.specs.Judgement.{settled, settled_as};
ghost use Rattle.fold.specs.Fold.{foldable, fold_answer, fold_state, folded};

use answer::Refusal;
use event::{Body, Event, Head, Ilk};
use ingest::Offered;
use state::{Holder, KeyState};

// "RO and IX on nothing 8, an overfull list 38."
#[tactic(auto, using(crate::proofs::Laws::overfull, crate::proofs::Laws::rolls), unfolding(state::specs::State::is_held))]
pub fn roll(before: Holder, h: Head, b: Body) -> Result<KeyState, Refusal>
    ensures { settled_as before result ≡ settled before (pick (is_held before) (change_of (new_witnesses before.state b)).answer (refused 8 0 0)) (holding (rotated before.state h b (packed (new_witnesses before.state b)))) }
{
    if !before.held {
        return Err(Refusal::NotInception);
    }
    let current = before.state.witnessing.witnesses;
    let witnesses = member_set::update(current, b.removals, b.additions)?;
    Ok(state::rotate(before.state, h, b, witnesses))
}

#[tactic(auto, unfolding(state::specs::State::is_held))]
pub fn step(before: Holder, h: Head) -> Result<KeyState, Refusal>
    ensures { settled_as before result ≡ settled before (pick (is_held before) accepted (refused 8 0 0)) (holding (stepped before.state h)) }
{
    if !before.held {
        return Err(Refusal::NotInception);
    }
    Ok(state::step(before.state, h))
}

// "IC starts afresh, even over a state": at its own number.
#[tactic(auto, unfolding(crate::specs::Fold::fold_state))]
fn fold_as(before: Holder, e: Event) -> Result<KeyState, Refusal>
    ensures { settled_as before result ≡ settled before (foldable e.ilk before e) (holding (fold_state before.state e)) }
{
    match e.ilk {
        Ilk::Inception => Ok(state::begin(e.head.sn, e.head, e.body)),
        Ilk::Rotation => roll(before, e.head, e.body),
        Ilk::Interaction => step(before, e.head),
        Ilk::DelegatedInception => Err(Refusal::EvidenceRequired),
        Ilk::DelegatedRotation => Err(Refusal::EvidenceRequired),
    }
}

fn next(before: Holder, e: Event) -> Result<KeyState, Refusal>
    ensures { settled_as before result ≡ settled before (fold_answer before e) (holding (fold_state before.state e)) }
{
    shape::of_holder(before)?;
    shape::of_event(e)?;
    fold_as(before, e)
}

#[tactic(auto, unfolding(crate::specs::Fold::folded))]
pub fn fold(before: Holder, e: Event) -> Offered
    ensures { result ≡ folded before e }
{
    ingest::settle(before, next(before, e))
}
