// The key state by value, the holder of one, and what an accepted event makes of it.
#![tactic(auto)]

ghost use Rattle.std.specs.Prelude.{◌≡◌};
ghost use Rattle.state.specs.State.{moves_with, begun, rotated, stepped, holding};

use authority::{Authority, Commitment, Witnessing};
use config::Config;
use event::{Body, Head};
use item::Item;
use items::Items;
use number::Number;

// Where the last inception or rotation stands.
#[derive(Clone, Copy)]
pub struct EstablishmentRef {
    pub sn: Number,
    pub said: Item,
}

// `latest` is the type of the latest event: 0 inception, 1 rotation, 2 interaction.
// It stays a number: an enum would ask more of callers, where shape answers 3 for every other number.
#[derive(Clone, Copy)]
pub struct KeyState {
    pub prefix: Item,
    pub sn: Number,
    pub said: Item,
    pub latest: u8,
    pub authority: Authority,
    pub commitment: Commitment,
    pub witnessing: Witnessing,
    pub config: Config,
    pub transferable: bool,
    pub last: EstablishmentRef,
}

// Empty, or one state. An empty holder's state is not looked at, and comes back from a refusal as it was.
// No Option<KeyState>, which cannot hold it: `ingest::offer` promises the whole holder unchanged on refusal, an empty one too.
#[derive(Clone, Copy)]
pub struct Holder {
    pub held: bool,
    pub state: KeyState,
}

// A prefix that can move, with next keys to move to.
pub fn can_move(code: u8, next: usize) -> bool
    ensures { result ≡ moves_with code next }
{
    item::is_transferable(code) && next != 0
}

// The state that an inception makes: the checked path writes the number 0, the unchecked fold the event's own.
pub fn begin(sn: Number, h: Head, b: Body) -> KeyState
    ensures { result ≡ begun sn h b }
{
    KeyState {
        prefix: h.prefix,
        sn,
        said: h.said,
        latest: 0,
        authority: b.authority,
        commitment: b.commitment,
        witnessing: Witnessing {
            witnesses: b.additions,
            toad: b.toad,
        },
        config: b.config,
        transferable: can_move(h.prefix.code, b.commitment.next.count),
        last: EstablishmentRef { sn, said: h.said },
    }
}

// Prefix and config carry over; the flag is never set again, only cleared where next is empty.
pub fn rotate(s: KeyState, h: Head, b: Body, witnesses: Items) -> KeyState
    ensures { result ≡ rotated s h b witnesses }
{
    KeyState {
        sn: h.sn,
        said: h.said,
        latest: 1,
        authority: b.authority,
        commitment: b.commitment,
        witnessing: Witnessing {
            witnesses,
            toad: b.toad,
        },
        transferable: s.transferable && b.commitment.next.count != 0,
        last: EstablishmentRef {
            sn: h.sn,
            said: h.said,
        },
        ..s
    }
}

// Only the pointer moves.
pub fn step(s: KeyState, h: Head) -> KeyState
    ensures { result ≡ stepped s h }
{
    KeyState {
        sn: h.sn,
        said: h.said,
        latest: 2,
        ..s
    }
}

pub fn hold(s: KeyState) -> Holder
    ensures { result ≡ holding s }
{
    Holder {
        held: true,
        state: s,
    }
}
