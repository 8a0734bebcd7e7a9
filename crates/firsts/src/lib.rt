// Which signatures of a list are first ones, no copy of one before them: their positions in the input, where they stay and are compared. At most 48 are
// the bits of one word.
#![tactic(auto)]

ghost use Rattle.std.specs.Prelude.{◌≡◌};
ghost use Rattle.firsts.specs.Firsts.{has_first, with_first};

pub fn has(set: u64, position: usize) -> bool
    ensures { result ≡ has_first set position }
{
    position < 64 && (set >> position) % 2 == 1
}

pub fn with(set: u64, position: usize) -> u64
    ensures { result ≡ with_first set position }
{
    if position < 64 {
        set | (1 << position)
    } else {
        set
    }
}
