// The lent key state: an event offered to a held state by value, and the same through a reference to it.
#![tactic(auto)]

ghost use Rattle.std.specs.Prelude.{◌≡◌};
ghost use Rattle.lent_state.specs.Ingested.{ingested};

use answer::Answer;
use event::Event;
use state::KeyState;

// The answer, and the state after it: as it came, where the event is refused.
#[derive(Clone, Copy)]
pub struct Ingested {
    pub answer: Answer,
    pub state: KeyState,
}

pub fn ingest(s: KeyState, e: Event) -> Ingested
    ensures { result ≡ ingested s e }
{
    let offered = ingest::offer(state::hold(s), e);
    Ingested {
        answer: offered.answer,
        state: offered.holder.state,
    }
}

// "One entry alters a lent key state, as `ingest_mut` does".
pub fn ingest_mut(s: &mut KeyState, e: Event) -> Answer
    ensures { (result ≡ (ingested s.old e).answer) × (s.new ≡ (ingested s.old e).state) }
{
    let copy = *s;
    let out = ingest(copy, e);
    *s = out.state;
    out.answer
}
