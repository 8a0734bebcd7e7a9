// The walk over a whole byte string: record after record, refused or not, offered to a state that stays the bytes it lies in.
#![tactic(auto)]

ghost use Rattle.std.specs.Prelude.{◌≡◌, ◌<◌, ◌^◌, ◌+◌};
ghost use Rattle.walk.specs.Walk.{lent, end_in, walked_in, counted_in};

use answer::Answer;

// How many records were accepted, and how many there were.
#[derive(Clone, Copy)]
pub struct Walked {
    pub accepted: usize,
    pub offered: usize,
}

fn count_in(w: Walked, x: Answer) -> Walked
    requires accepted_bound { w.accepted + 1 < 2 ^ 64 }
    requires offered_bound { w.offered + 1 < 2 ^ 64 }
    ensures { result ≡ counted_in w x }
{
    Walked {
        accepted: w.accepted + usize::from(x.number == 0),
        offered: w.offered + 1,
    }
}

pub fn walk(state: &mut [u8], used: &mut usize, s: &[u8]) -> Walked
    ensures value { result ≡ walked_in (lent state.old used.old) s.now }
    ensures state_after { state.new ≡ (end_in (lent state.old used.old) s.now).bytes }
    ensures used_after { used.new ≡ (end_in (lent state.old used.old) s.now).used }
{
    let mut w = Walked {
        accepted: 0,
        offered: 0,
    };
    let mut at = 0;
    // stays a while: each record's own length says where the next one starts
    while at < s.len() {
        let x = in_place::offer(state, used, &s[at..]);
        w = count_in(w, x);
        at += found::length(&s[at..]);
    }
    w
}
