// Who satisfies a threshold: a lent list of places, of any length, judged by its places below 16 and by how many there are.
// A judgement that is not met names the first clause that is short, counted from 1, or 0 where there is none to name.
#![tactic(auto)]

ghost use Rattle.std.specs.Prelude.{◌≡◌, leb, length};
ghost use Rattle.satisfied.specs.Satisfied.{rising, sorted_unique, satisfied_by_sorted_unique, satisfied_by};

use threshold::{Short, Threshold};

fn is_rising(ps: &[u32]) -> bool
    ensures { result ≡ rising ps.now }
{
    ps.is_sorted_by(|a, b| a < b)
}

// Whether a list names at least `need` numbers. A number counts at its last place; the search ends when there are enough.
fn names_at_least(ps: &[u32], need: u64) -> bool
    ensures { result ≡ leb need (length (sorted_unique ps.now)) }
{
    let mut left = need;
    for (i, x) in ps.iter().enumerate() {
        if left == 0 {
            return true;
        }
        if !ps[i + 1..].contains(x) {
            left -= 1;
        }
    }
    left == 0
}

#[tactic(auto, unfolding(crate::specs::Satisfied::satisfied_by_sorted_unique))]
pub fn satisfied_by_sorted_unique(t: Threshold, ps: &[u32]) -> Result<(), Short>
    ensures { result ≡ satisfied_by_sorted_unique t ps.now }
{
    if threshold::shape(t).is_err() || !is_rising(ps) {
        return Err(Short { clause: 0 });
    }
    threshold::judge(t, ps.len(), places::set_of(ps))
}

// A simple threshold asks only how many places there are, a weighted one only which.
#[tactic(auto, using(crate::proofs::Laws::sorted_rises), unfolding(crate::specs::Satisfied::satisfied_by_sorted_unique, threshold::specs::Threshold::judged))]
pub fn satisfied_by(t: Threshold, ps: &[u32]) -> Result<(), Short>
    ensures { result ≡ satisfied_by t ps.now }
{
    if threshold::shape(t).is_err() {
        return Err(Short { clause: 0 });
    }
    if t.tag != 0 {
        return threshold::judge(t, 0, places::set_of(ps));
    }
    if names_at_least(ps, t.simple) {
        Ok(())
    } else {
        Err(Short { clause: 0 })
    }
}
