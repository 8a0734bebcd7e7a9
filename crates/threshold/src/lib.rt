// Signing thresholds: a simple number, or clauses of weights. Their shape, whether they are well formed, and who satisfies them.
#![tactic(auto)]

ghost use Rattle.std.specs.Prelude.{◌≡◌, ◌+◌, ◌≤◌, eqb, length, take, drop};
ghost use Rattle.lists.specs.Lists.{pick, both, any};
ghost use Rattle.answer.specs.Answer.{refused};
ghost use Rattle.answer.specs.Refusal.{answered};
ghost use Rattle.places.specs.Places.{bit_at};
ghost use Rattle.weight.specs.Weight.{zero_weight, no_sum};
ghost use Rattle.threshold.specs.Threshold.{sum, rest_zero, shape_of, at_most, simple_form, well_formed, check_well_formed, sum_from, runs, clauses_met, first_short, judged};

use answer::Refusal;
use weight::Weight;

// Tag 0 is simple, tag 1 weighted: clause after clause, each with the size that stands in `sizes`, in one run of weights.
// No enum: `shape` answers 3 for a tag that is none, and for an unused place that is not zero.
#[derive(Clone, Copy)]
pub struct Threshold {
    pub tag: u8,
    pub simple: u64,
    pub clauses: usize,
    pub sizes: [u8; 16],
    pub weights: [Weight; 16],
}

// Not satisfied: the first clause that is not reached, counted from 1, or 0 where there is none to name.
#[derive(Clone, Copy, PartialEq, Eq)]
pub struct Short {
    pub clause: usize,
}

// The sizes of n clauses: 16 at most.
fn used(sizes: &[u8; 16], n: usize) -> &[u8]
    ensures those { result.now ≡ take n sizes.now }
    ensures few { length result.now ≤ 16 }
{
    &sizes[..n.min(16)]
}

pub fn weights_in(sizes: [u8; 16], n: usize) -> usize
    ensures { result ≡ sum (take n sizes) }
{
    used(&sizes, n).iter().map(|size| usize::from(*size)).sum()
}

// 3 where a place that is not used is not zero: a number, or what stands from the clause s and the weight w on.
fn unused(t: Threshold, number: u64, s: usize, w: usize) -> Result<(), Refusal>
    ensures { answered result ≡ refused (pick (both (eqb number 0) (rest_zero t s w)) 0 3) 0 0 }
{
    let sizes_zero = t.sizes.iter().skip(s).all(|size| *size == 0);
    let weights_zero = t.weights.iter().skip(w).all(|w| weight::is_zero(*w));
    if number == 0 && sizes_zero && weights_zero {
        Ok(())
    } else {
        Err(Refusal::BadField)
    }
}

#[tactic(auto, unfolding(crate::specs::Threshold::shape_of))]
pub fn shape(t: Threshold) -> Result<(), Refusal>
    ensures { answered result ≡ refused (shape_of t) 0 0 }
{
    match t.tag {
        0 => unused(t, t.clauses as u64, 0, 0),
        1 => {
            let total = weights_in(t.sizes, t.clauses);
            if 16 < t.clauses || 16 < total {
                return Err(Refusal::TooMany);
            }
            unused(t, t.simple, t.clauses, total)
        }
        _ => Err(Refusal::BadField),
    }
}

fn some_empty(sizes: &[u8]) -> bool
    ensures { result ≡ any (eqb 0) sizes.now }
{
    sizes.contains(&0)
}

fn at_most(required: u64, keys: usize) -> Result<(), Refusal>
    ensures { answered result ≡ at_most required keys }
{
    let keys = keys as u64;
    if required <= keys {
        Ok(())
    } else {
        Err(Refusal::ExceedsKeyCount { required, keys })
    }
}

// 23, 24: of a simple number there is nothing else to look at.
pub fn form_simple(required: u64, keys: usize) -> Result<(), Refusal>
    ensures { answered result ≡ simple_form required keys }
{
    if required == 0 {
        return Err(Refusal::BelowMinimum);
    }
    at_most(required, keys)
}

// 23 to 26, whatever the shape.
#[tactic(auto, unfolding(crate::specs::Threshold::well_formed))]
pub fn form(t: Threshold, keys: usize) -> Result<(), Refusal>
    ensures { answered result ≡ well_formed t keys }
{
    if t.tag == 0 {
        return form_simple(t.simple, keys);
    }
    if t.clauses == 0 {
        return Err(Refusal::EmptyClauseList);
    }
    if some_empty(used(&t.sizes, t.clauses)) {
        return Err(Refusal::EmptyClause);
    }
    at_most(weights_in(t.sizes, t.clauses) as u64, keys)
}

#[tactic(auto, using(answer::proofs::Results::refuses), unfolding(answer::specs::Answer::first_refusal, crate::specs::Threshold::check_well_formed))]
pub fn check_well_formed(t: Threshold, keys: usize) -> Result<(), Refusal>
    ensures { answered result ≡ check_well_formed t keys }
{
    shape(t)?;
    form(t, keys)
}

// The sum of a clause whose weights stand from `base` on.
fn clause_sum(clause: &[Weight], base: usize, set: u16) -> Option<Weight>
    requires { base + length clause.now ≤ 16 }
    ensures { result ≡ sum_from (bit_at set) base no_sum clause.now }
{
    let mut sum = Some(Weight { num: 0, den: 1 });
    for (k, w) in clause.iter().enumerate() {
        let signed = places::has(set, (base + k) as u32);
        sum = weight::weigh(signed, sum, *w);
    }
    sum
}

// Each clause owns the next run of weights, which ends at the array's end at the latest.
fn judge_clauses(sizes: &[u8], weights: &[Weight; 16], set: u16) -> Result<(), Short>
    ensures { result ≡ first_short 1 (clauses_met (bit_at set) 0 (runs sizes.now weights.now)) }
{
    let mut base = 0;
    let mut rest: &[Weight] = weights;
    for (i, size) in sizes.iter().enumerate() {
        let (clause, behind) = rest.split_at(usize::from(*size).min(rest.len()));
        if !weight::reaches_one(clause_sum(clause, base, set)) {
            return Err(Short { clause: i + 1 });
        }
        base += clause.len();
        rest = behind;
    }
    Ok(())
}

// The judgement over a set of places below 16, and how many places there are in all.
#[tactic(auto, unfolding(crate::specs::Threshold::judged))]
pub fn judge(t: Threshold, count: usize, set: u16) -> Result<(), Short>
    ensures { result ≡ judged t count (bit_at set) }
{
    if t.tag == 0 && t.simple <= count as u64 {
        return Ok(());
    }
    if t.tag == 0 || t.clauses == 0 {
        return Err(Short { clause: 0 });
    }
    judge_clauses(used(&t.sizes, t.clauses), &t.weights, set)
}
