// Numbers of up to 128 bits as two 64-bit words: sequence numbers, and the details of an answer.
#![tactic(auto)]

ghost use Rattle.std.specs.Prelude.{◌≡◌, ltb};
ghost use Rattle.number.specs.Number.{value, small, same_number, next_of};

// The higher word first: so the derived order is that of the numbers.
#[derive(Clone, Copy, PartialEq, Eq, PartialOrd, Ord)]
pub struct Number {
    pub high: u64,
    pub low: u64,
}

pub fn from_u64(n: u64) -> Number
    ensures { result ≡ small n }
{
    Number { high: 0, low: n }
}

#[tactic(auto, unfolding(crate::specs::Number::same_number))]
pub fn same(a: Number, b: Number) -> bool
    ensures { result ≡ same_number a b }
{
    a == b
}

pub fn below(a: Number, b: Number) -> bool
    ensures { result ≡ ltb (value a) (value b) }
{
    a < b
}

// The number after, or none after 2^128-1.
#[tactic(auto, using(crate::proofs::Laws::next_within, crate::proofs::Laws::next_carry, crate::proofs::Laws::next_none))]
pub fn next(n: Number) -> Option<Number>
    ensures { result ≡ next_of n }
{
    match (n.low.checked_add(1), n.high.checked_add(1)) {
        (Some(low), _) => Some(Number { high: n.high, low }),
        (None, Some(high)) => Some(Number { high, low: 0 }),
        (None, None) => None,
    }
}
