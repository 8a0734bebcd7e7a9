// Weights of a clause, and their sum: left to right, in checked u64.
#![tactic(auto)]

ghost use Rattle.std.specs.Prelude.{◌≡◌};
ghost use Rattle.weight.specs.Weight.{plus as plusOf, weigh as weigh_of, reaches_one, zero_weight};

#[derive(Clone, Copy, PartialEq, Eq)]
pub struct Weight {
    pub num: u64,
    pub den: u64,
}

// One weight more: the fractions' sum over the product of the denominators. There is none where a step overflows u64.
#[tactic(auto, unfolding(crate::specs::Weight::plus))]
pub fn plus(sum: Option<Weight>, w: Weight) -> Option<Weight>
    ensures { result ≡ plusOf sum w }
{
    let sum = sum?;
    let left = sum.num.checked_mul(w.den)?;
    let right = w.num.checked_mul(sum.den)?;
    let num = left.checked_add(right)?;
    let den = sum.den.checked_mul(w.den)?;
    Some(Weight { num, den })
}

// "a zero denominator anywhere, signed or not, fails it": so the denominator is looked at first.
#[tactic(auto, unfolding(crate::specs::Weight::weigh))]
pub fn weigh(signed: bool, sum: Option<Weight>, w: Weight) -> Option<Weight>
    ensures { result ≡ weigh_of signed sum w }
{
    if w.den == 0 {
        return None;
    }
    if signed { plus(sum, w) } else { sum }
}

pub fn reaches_one(sum: Option<Weight>) -> bool
    ensures { result ≡ reaches_one sum }
{
    sum.is_some_and(|s| s.den <= s.num)
}

pub fn is_zero(w: Weight) -> bool
    ensures { result ≡ zero_weight w }
{
    w == Weight { num: 0, den: 0 }
}
