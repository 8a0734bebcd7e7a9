// The decision: an event offered to an empty or held state gets document 01's answer and the next state.
#![tactic(auto)]

ghost use Rattle.std.specs.Prelude.{◌≡◌, true};
ghost use Rattle.item.specs.Item.{item_fits};
ghost use Rattle.item.specs.declared.Kind.TheVariants.{Prefix};
ghost use Rattle.event.specs.declared.Ilk.TheVariants.{Inception, Rotation, Interaction};
ghost use Rattle.state.specs.declared.Holder.{Holder};
ghost use Rattle.state.specs.declared.KeyState.{KeyState};
ghost use Rattle.state.specs.State.{holding, seeded};
ghost use Rattle.shape.specs.Event.{event_shape};
ghost use Rattle.ingest.specs.Judgement.{settled, settled_as, on_nothing, where_live, on_state, judgement, answer_to, next_as, next_state, offered};

use answer::{Answer, Refusal};
use event::{Event, Ilk};
use state::{Holder, KeyState};

// The answer, and the holder after it: as it came, where the event is refused.
#[derive(Clone, Copy)]
pub struct Offered {
    pub answer: Answer,
    pub holder: Holder,
}

// "Every refusal leaves state and buffers untouched."
pub fn settle(before: Holder, next: Result<KeyState, Refusal>) -> Offered
    ensures { result ≡ settled_as before next }
{
    match next {
        Ok(s) => Offered {
            answer: answer::accept(),
            holder: state::hold(s),
        },
        Err(r) => Offered {
            answer: Answer::from(r),
            holder: before,
        },
    }
}

// Its own keys sign, its own witnesses receipt.
fn inception(e: Event) -> Result<KeyState, Refusal>
    requires { item_fits Prefix e.head.prefix ≡ true }
    ensures { (before : Holder) → settled_as before result ≡ settled before (on_nothing Inception e) (holding (seeded e.head e.body)) }
{
    let v = evidence::gather(e.sigs, e.receipts, e.body.authority.keys.count, 0);
    judge_structs::incept(e.head, e.body, e.anchors, v)?;
    Ok(state::begin(number::from_u64(0), e.head, e.body))
}

// The keys that it brings sign, the state's commitment is exposed, the new witnesses receipt.
fn rotation(s: KeyState, e: Event) -> Result<KeyState, Refusal>
    ensures { (before : Holder) → settled_as before result ≡ settled before (where_live Rotation s e) (holding (next_as Rotation s e)) }
{
    let keys = e.body.authority.keys.count;
    let next = s.commitment.next.count;
    let v = evidence::gather(e.sigs, e.receipts, keys, next);
    let witnesses = judge_structs::rotate(s, e.head, e.body, v)?;
    Ok(state::rotate(s, e.head, e.body, witnesses))
}

// The state's keys sign, the state's witnesses receipt.
fn interaction(s: KeyState, e: Event) -> Result<KeyState, Refusal>
    ensures { (before : Holder) → settled_as before result ≡ settled before (where_live Interaction s e) (holding (next_as Interaction s e)) }
{
    let v = evidence::gather(e.sigs, e.receipts, s.authority.keys.count, 0);
    judge_structs::interact(s, e.head, v)?;
    Ok(state::step(s, e.head))
}

fn on_nothing(e: Event) -> Result<KeyState, Refusal>
    requires { event_shape e ≡ 0 }
    ensures { (before : Holder) (s : KeyState) → settled_as before result ≡ settled before (on_nothing e.ilk e) (holding (next_state s e)) }
{
    match e.ilk {
        Ilk::Inception => inception(e),
        Ilk::Rotation => Err(Refusal::NotInception),
        Ilk::Interaction => Err(Refusal::NotInception),
        Ilk::DelegatedInception => Err(Refusal::EvidenceRequired),
        Ilk::DelegatedRotation => Err(Refusal::NotInception),
    }
}

#[tactic(auto, unfolding(crate::specs::Judgement::on_state, crate::specs::Judgement::next_state, state::specs::State::may_move))]
fn on_state(s: KeyState, e: Event) -> Result<KeyState, Refusal>
    ensures { (before : Holder) → settled_as before result ≡ settled before (on_state s e) (holding (next_state s e)) }
{
    if !s.transferable {
        return Err(Refusal::NonTransferableState);
    }
    match e.ilk {
        Ilk::Inception => Err(Refusal::DuplicateInception),
        Ilk::Rotation => rotation(s, e),
        Ilk::Interaction => interaction(s, e),
        Ilk::DelegatedInception => Err(Refusal::EvidenceRequired),
        Ilk::DelegatedRotation => Err(Refusal::DelegatorUnknown),
    }
}

#[tactic(auto, unfolding(crate::specs::Judgement::judgement, state::specs::State::is_held))]
fn judge(h: Holder, e: Event) -> Result<KeyState, Refusal>
    requires { event_shape e ≡ 0 }
    ensures { (before : Holder) → settled_as before result ≡ settled before (judgement h e) (holding (next_state h.state e)) }
{
    if h.held {
        on_state(h.state, e)
    } else {
        on_nothing(e)
    }
}

// "state first, then record", then the judgement.
fn next(h: Holder, e: Event) -> Result<KeyState, Refusal>
    ensures { (before : Holder) → settled_as before result ≡ settled before (answer_to h e) (holding (next_state h.state e)) }
{
    shape::of_holder(h)?;
    shape::of_event(e)?;
    judge(h, e)
}

#[tactic(auto, unfolding(crate::specs::Judgement::offered))]
pub fn offer(before: Holder, e: Event) -> Offered
    ensures { result ≡ offered before e }
{
    settle(before, next(before, e))
}
