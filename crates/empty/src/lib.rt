// A holder of nothing: where every run begins.
#![tactic(auto)]

ghost use Rattle.std.specs.Prelude.{◌≡◌};
ghost use Rattle.state.specs.State.{no_threshold};
ghost use Rattle.empty.specs.Empty.{nothing};

use authority::{Authority, Commitment, Witnessing};
use config::Config;
use state::{EstablishmentRef, Holder, KeyState};
use threshold::Threshold;
use weight::Weight;

fn no_threshold() -> Threshold
    ensures { result ≡ no_threshold }
{
    Threshold {
        tag: 0,
        simple: 0,
        clauses: 0,
        sizes: [0; 16],
        weights: [Weight { num: 0, den: 0 }; 16],
    }
}

pub fn nothing() -> Holder
    ensures { result ≡ nothing }
{
    let items = items::empty();
    let threshold = no_threshold();
    let zero = number::from_u64(0);
    let none = item::zero();
    let state = KeyState {
        prefix: none,
        sn: zero,
        said: none,
        latest: 0,
        authority: Authority {
            keys: items,
            threshold,
        },
        commitment: Commitment {
            next: items,
            threshold,
        },
        witnessing: Witnessing {
            witnesses: items,
            toad: 0,
        },
        config: Config {
            count: 0,
            traits: [0; 8],
        },
        transferable: false,
        last: EstablishmentRef {
            sn: zero,
            said: none,
        },
    };
    Holder { held: false, state }
}
