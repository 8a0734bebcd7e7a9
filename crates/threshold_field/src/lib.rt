// A threshold in a record: scanned for its places first and copied after.
#![tactic(auto)]

ghost use Rattle.std.specs.Prelude.{◌≡◌, ◌+◌, ◌≤◌, length};
ghost use Rattle.cursor.specs.Cursor.{scanned};
ghost use Rattle.threshold_field.specs.ThresholdField.{Small, total_at, weighted_at, marks_as, marks_at};
ghost use Rattle.threshold_field.specs.ThresholdField.{weight_of, sizes_of, weights_of, threshold_of};

use answer::Refusal;
use threshold::Threshold;
use weight::Weight;

// What a scan keeps: the tag, the simple number, how many clauses and weights there are, and where the first size and the first
// weight stand. No enum by the tag: what is copied has the tag that was given, whatever it is: so `copy` promises.
#[derive(Clone, Copy)]
pub struct Marks {
    pub tag: u8,
    pub simple: u64,
    pub clauses: usize,
    pub sizes: usize,
    pub total: usize,
    pub weights: usize,
}

// What the sizes come to, at most 16, and the place after them. Added as they are read: the one that passes 16 ends the reading.
#[tactic(auto, using(crate::proofs::Laws::total_more, crate::proofs::Laws::total_many, crate::proofs::Laws::total_stop, crate::proofs::Laws::total_end))]
fn scan_sizes(s: &[u8], n: usize, first: usize) -> Result<(usize, usize), Refusal>
    ensures result_value { scanned result ≡ total_at s.now n 0 first }
    ensures small { Small result }
{
    let mut total = 0;
    let mut at = first;
    for _ in 0..n {
        let Some((size, next)) = cursor::read_u8(s, at) else {
            return Err(Refusal::BadField);
        };
        total += size as usize;
        if 16 < total {
            return Err(Refusal::TooMany);
        }
        at = next;
    }
    Ok((total, at))
}

#[tactic(auto, unfolding(crate::specs::ThresholdField::marks_as))]
fn scan_simple(s: &[u8], at: usize) -> Result<(Marks, usize), Refusal>
    ensures { scanned result ≡ marks_as 0 s.now at }
{
    let Some((simple, next)) = cursor::read_u64(s, at) else {
        return Err(Refusal::BadField);
    };
    let marks = Marks {
        tag: 0,
        simple,
        clauses: 0,
        sizes: 0,
        total: 0,
        weights: 0,
    };
    Ok((marks, next))
}

#[tactic(auto, unfolding(crate::specs::ThresholdField::weighted_at, crate::specs::ThresholdField::pass_at))]
fn scan_weighted(s: &[u8], at: usize) -> Result<(Marks, usize), Refusal>
    ensures { scanned result ≡ weighted_at s.now at }
{
    let Some((count, sizes)) = cursor::read_u8(s, at) else {
        return Err(Refusal::BadField);
    };
    if 16 < count {
        return Err(Refusal::TooMany);
    }
    let clauses = count as usize;
    let (total, weights) = scan_sizes(s, clauses, sizes)?;
    if cursor::bytes(s, weights, total * 16).is_none() {
        return Err(Refusal::BadField);
    }
    let marks = Marks {
        tag: 1,
        simple: 0,
        clauses,
        sizes,
        total,
        weights,
    };
    Ok((marks, weights + total * 16))
}

// The marks, and the place after the threshold.
#[tactic(auto, unfolding(crate::specs::ThresholdField::marks_at, crate::specs::ThresholdField::marks_as))]
pub fn scan(s: &[u8], at: usize) -> Result<(Marks, usize), Refusal>
    ensures { scanned result ≡ marks_at s.now at }
{
    let Some((tag, next)) = cursor::read_u8(s, at) else {
        return Err(Refusal::BadField);
    };
    match tag {
        0 => scan_simple(s, next),
        1 => scan_weighted(s, next),
        _ => Err(Refusal::BadField),
    }
}

#[tactic(auto, using(crate::proofs::Laws::fill_over, crate::proofs::Laws::fill_short, crate::proofs::Laws::fill_bytes))]
fn copy_sizes(s: &[u8], n: usize, first: usize) -> [u8; 16]
    ensures { result ≡ sizes_of s.now n first }
{
    let mut sizes = [0u8; 16];
    if 16 < n {
        return sizes;
    }
    if let Some(part) = cursor::bytes(s, first, n) {
        sizes[..n].copy_from_slice(part);
    }
    sizes
}

#[tactic(auto, using(crate::proofs::Laws::weight_is))]
fn copy_weight(s: &[u8], at: usize) -> Weight
    requires { at + 16 ≤ length s.now }
    ensures { result ≡ weight_of s.now at }
{
    Weight {
        num: u64::from_be_bytes(cursor::copy_raw(s, at)),
        den: u64::from_be_bytes(cursor::copy_raw(s, at + 8)),
    }
}

#[tactic(auto, using(crate::proofs::Laws::fill_none, crate::proofs::Laws::fill_over, crate::proofs::Laws::fill_short, crate::proofs::Laws::fill_all, cursor::proofs::Laws::list_more))]
fn copy_weights(s: &[u8], n: usize, first: usize) -> [Weight; 16]
    ensures { result ≡ weights_of s.now n first }
{
    let mut weights = [Weight { num: 0, den: 0 }; 16];
    if 16 < n {
        return weights;
    }
    if cursor::bytes(s, first, n * 16).is_none() {
        return weights;
    }
    for i in 0..n {
        weights[i] = copy_weight(s, first + i * 16);
    }
    weights
}

// The threshold whose parts stand at the marks, unused places zero.
pub fn copy(s: &[u8], m: Marks) -> Threshold
    ensures { result ≡ threshold_of s.now m }
{
    Threshold {
        tag: m.tag,
        simple: m.simple,
        clauses: m.clauses,
        sizes: copy_sizes(s, m.clauses, m.sizes),
        weights: copy_weights(s, m.total, m.weights),
    }
}
