// The shape of structs: before anything else a struct entry looks at the state, then at the event, each in field order.
// BadField where a place is outside its class, TooMany where a list counts above its limit.
#![tactic(auto, using(answer::proofs::Results::refuses), unfolding(answer::specs::Answer::first_fault, state::specs::State::is_held, crate::specs::Event::first_head, crate::specs::Event::later_head, crate::specs::Event::own_shape, crate::specs::Event::next_shape, crate::specs::Event::body_shape, crate::specs::Event::signed_shape, crate::specs::Event::event_shape, crate::specs::State::state_head, crate::specs::State::state_tail, crate::specs::State::state_shape, crate::specs::State::holder_shape))]

ghost use Rattle.std.specs.Prelude.{◌≡◌};
ghost use Rattle.answer.specs.Answer.{refused};
ghost use Rattle.answer.specs.Refusal.{answered};
ghost use Rattle.event.specs.declared.Ilk.TheVariants.{Inception, Rotation, Interaction};
ghost use Rattle.shape.specs.Event.{first_head, later_head, own_shape, next_shape, body_shape, signed_shape, shape_as, event_shape};
ghost use Rattle.shape.specs.State.{latest_shape, state_head, state_tail, state_shape, holder_shape};

use answer::Refusal;
use authority::{Authority, Commitment};
use event::{Body, Event, Head, Ilk};
use item::Kind;
use state::{Holder, KeyState};

fn first_head(h: Head) -> Result<(), Refusal>
    ensures { answered result ≡ refused (first_head h) 0 0 }
{
    item::shape(h.prefix, Kind::Prefix)?;
    item::shape(h.said, Kind::Said)
}

fn later_head(h: Head) -> Result<(), Refusal>
    ensures { answered result ≡ refused (later_head h) 0 0 }
{
    first_head(h)?;
    item::shape(h.prior, Kind::Said)
}

fn own_shape(a: Authority) -> Result<(), Refusal>
    ensures { answered result ≡ refused (own_shape a) 0 0 }
{
    items::shape(a.keys, Kind::Key)?;
    threshold::shape(a.threshold)
}

fn next_shape(c: Commitment) -> Result<(), Refusal>
    ensures { answered result ≡ refused (next_shape c) 0 0 }
{
    items::shape(c.next, Kind::Said)?;
    threshold::shape(c.threshold)
}

fn body_shape(b: Body) -> Result<(), Refusal>
    ensures { answered result ≡ refused (body_shape b) 0 0 }
{
    own_shape(b.authority)?;
    next_shape(b.commitment)?;
    items::shape(b.additions, Kind::Key)
}

fn signed_shape(e: Event) -> Result<(), Refusal>
    ensures { answered result ≡ refused (signed_shape e) 0 0 }
{
    verification::shape(e.sigs)?;
    verification::shape(e.receipts)
}

fn inception_shape(e: Event) -> Result<(), Refusal>
    ensures { answered result ≡ refused (shape_as Inception e) 0 0 }
{
    first_head(e.head)?;
    body_shape(e.body)?;
    config::shape(e.body.config)?;
    signed_shape(e)
}

fn rotation_shape(e: Event) -> Result<(), Refusal>
    ensures { answered result ≡ refused (shape_as Rotation e) 0 0 }
{
    later_head(e.head)?;
    body_shape(e.body)?;
    items::shape(e.body.removals, Kind::Key)?;
    signed_shape(e)
}

fn interaction_shape(e: Event) -> Result<(), Refusal>
    ensures { answered result ≡ refused (shape_as Interaction e) 0 0 }
{
    later_head(e.head)?;
    signed_shape(e)
}

pub fn of_event(e: Event) -> Result<(), Refusal>
    ensures { answered result ≡ refused (event_shape e) 0 0 }
{
    match e.ilk {
        Ilk::Inception => inception_shape(e),
        Ilk::Rotation => rotation_shape(e),
        Ilk::Interaction => interaction_shape(e),
        Ilk::DelegatedInception | Ilk::DelegatedRotation => Ok(()),
    }
}

// "latest type (0 IC, 1 RO, 2 IX)"
fn latest_shape(latest: u8) -> Result<(), Refusal>
    ensures { answered result ≡ refused (latest_shape latest) 0 0 }
{
    if latest <= 2 {
        Ok(())
    } else {
        Err(Refusal::BadField)
    }
}

fn state_head(s: KeyState) -> Result<(), Refusal>
    ensures { answered result ≡ refused (state_head s) 0 0 }
{
    item::shape(s.prefix, Kind::Prefix)?;
    item::shape(s.said, Kind::Said)?;
    latest_shape(s.latest)
}

fn state_tail(s: KeyState) -> Result<(), Refusal>
    ensures { answered result ≡ refused (state_tail s) 0 0 }
{
    items::shape(s.witnessing.witnesses, Kind::Key)?;
    config::shape(s.config)?;
    item::shape(s.last.said, Kind::Said)
}

pub fn of_state(s: KeyState) -> Result<(), Refusal>
    ensures { answered result ≡ refused (state_shape s) 0 0 }
{
    state_head(s)?;
    own_shape(s.authority)?;
    next_shape(s.commitment)?;
    state_tail(s)
}

pub fn of_holder(h: Holder) -> Result<(), Refusal>
    ensures { answered result ≡ refused (holder_shape h) 0 0 }
{
    if h.held { of_state(h.state) } else { Ok(()) }
}
