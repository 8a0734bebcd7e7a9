// Witness lists: the faults of a list and of a change, in the Rust's order, and the list after a change.
#![tactic(auto)]

ghost use Rattle.std.specs.Prelude.{◌≡◌, [], ◌<◌};
ghost use Rattle.lists.specs.Lists.{filter, first_from, is_at};
ghost use Rattle.item.specs.Item.{is_transferable};
ghost use Rattle.items.specs.Items.{listed, packed, member};
ghost use Rattle.answer.specs.Answer.{refuse_if};
ghost use Rattle.answer.specs.Refusal.{answer_of, answered};
ghost use Rattle.member_set.specs.Members.{repeat_from, duplicate, transferable, absent, witness_faults, change_faults, joined, updated, change_of, change_as};
ghost use Rattle.member_set.specs.Parts.{grown, pushed};

use answer::Refusal;
use item::Item;
use items::Items;

// The places that are used: a count above 16 can use no more.
fn used(l: &Items) -> &[Item]
    ensures { result.now ≡ listed l.now }
{
    l.at.get(..l.count).unwrap_or(&l.at)
}

fn has(these: &[Item], x: Item) -> bool
    ensures { result ≡ member these.now x }
{
    these.iter().any(|y| item::same(x, *y))
}

// The first place whose item stood earlier.
#[tactic(auto, using(crate::proofs::Laws::repeat_here, crate::proofs::Laws::repeat_next, crate::proofs::Laws::repeat_none))]
pub fn first_repeat(l: Items) -> Option<usize>
    ensures { result ≡ repeat_from [] 0 (listed l) }
{
    let these = used(&l);
    for (i, x) in these.iter().enumerate() {
        if has(&these[..i], *x) {
            return Some(i);
        }
    }
    None
}

pub fn first_transferable(l: Items) -> Option<usize>
    ensures { result ≡ first_from is_transferable 0 (listed l) }
{
    used(&l).iter().position(|x| item::is_transferable(x.code))
}

#[tactic(auto, using(lists::proofs::Facts::first_any))]
fn is_among(x: Item, l: Items) -> bool
    ensures { result ≡ member (listed l) x }
{
    items::find(l, x).is_some()
}

// The first of xs that is not among ys.
pub fn first_absent(xs: Items, ys: Items) -> Option<usize>
    ensures { result ≡ first_from (absent (listed ys)) 0 (listed xs) }
{
    used(&xs).iter().position(|x| !is_among(*x, ys))
}

// The first of xs that is among ys: the first y that equals it ends the search.
#[tactic(auto, using(crate::proofs::Laws::among_here, crate::proofs::Laws::among_next, crate::proofs::Laws::among_none, crate::proofs::Laws::overlap_here, crate::proofs::Laws::overlap_next, crate::proofs::Laws::overlap_none))]
pub fn first_overlap(xs: Items, ys: Items) -> Option<usize>
    ensures { result ≡ first_from (member (listed ys)) 0 (listed xs) }
{
    let these = used(&xs);
    let those = used(&ys);
    'search: {
        for (i, x) in these.iter().enumerate() {
            for y in those {
                if item::same(*x, *y) {
                    break 'search Some(i);
                }
            }
        }
        None
    }
}

// A refusal where a search ended at a place.
fn refuse_at(found: Option<usize>, refusal: Refusal) -> Result<(), Refusal>
    ensures { answered result ≡ refuse_if (is_at found) (answer_of refusal) }
{
    match found {
        Some(_) => Err(refusal),
        None => Ok(()),
    }
}

// `list` stays a u8 in these checks: an enum would ask more of callers, and the clauses hold for every number.
#[tactic(auto, using(lists::proofs::Facts::first_any))]
pub fn check_members(l: Items, list: u8) -> Result<(), Refusal>
    ensures { answered result ≡ duplicate list (listed l) }
{
    refuse_at(first_repeat(l), Refusal::Duplicate { list })
}

#[tactic(auto, using(lists::proofs::Facts::first_any))]
fn check_transferable(l: Items, list: u8) -> Result<(), Refusal>
    ensures { answered result ≡ transferable list (listed l) }
{
    refuse_at(first_transferable(l), Refusal::TransferableWitness { list })
}

#[tactic(auto, using(answer::proofs::Results::refuses), unfolding(answer::specs::Answer::first_refusal, crate::specs::Members::witness_faults))]
pub fn check_witnesses(l: Items, list: u8) -> Result<(), Refusal>
    ensures { answered result ≡ witness_faults list (listed l) }
{
    check_members(l, list)?;
    check_transferable(l, list)
}

// 18 removals, 18 additions, 20, 19 removals, 19 additions, 21, 22.
#[tactic(auto, using(answer::proofs::Results::refuses, lists::proofs::Facts::first_any), unfolding(answer::specs::Answer::first_refusal, crate::specs::Members::change_faults))]
pub fn check_change(current: Items, cuts: Items, adds: Items) -> Result<(), Refusal>
    ensures { answered result ≡ change_faults (listed current) (listed cuts) (listed adds) }
{
    check_members(cuts, 2)?;
    check_members(adds, 3)?;
    refuse_at(first_overlap(cuts, adds), Refusal::CutAddOverlap)?;
    check_transferable(cuts, 2)?;
    check_transferable(adds, 3)?;
    refuse_at(first_absent(cuts, current), Refusal::RemovalNotCurrent)?;
    refuse_at(
        first_overlap(adds, current),
        Refusal::AdditionAlreadyPresent,
    )
}

// One more; past 16 only the count grows.
#[tactic(auto, unfolding(crate::specs::Parts::pushed))]
fn push(l: &mut Items, x: Item)
    requires { l.old.count < 32 }
    ensures { l.new ≡ pushed l.old x }
{
    if l.count < 16 {
        l.at[l.count] = x;
    }
    l.count += 1;
}

// The current members that are not cut.
#[tactic(auto, using(crate::proofs::Laws::kept_none, crate::proofs::Laws::kept_in, crate::proofs::Laws::kept_out))]
fn kept(current: Items, cuts: Items) -> Items
    ensures { result ≡ packed (filter (absent (listed cuts)) (listed current)) }
{
    let mut l = items::empty();
    for x in used(&current) {
        if !has(used(&cuts), *x) {
            push(&mut l, *x);
        }
    }
    l
}

// The kept members, then the additions that are not there yet.
#[tactic(auto, using(crate::proofs::Laws::joined_in, crate::proofs::Laws::joined_kept, crate::proofs::Laws::joined_earlier))]
fn with_additions(first: Items, adds: Items) -> Items
    requires { first ≡ packed (listed first) }
    ensures { result ≡ grown (joined (listed first) (listed adds)) }
{
    let these = used(&adds);
    let mut l = first;
    for (i, x) in these.iter().enumerate() {
        if !has(used(&first), *x) && !has(&these[..i], *x) {
            push(&mut l, *x);
        }
    }
    l
}

#[tactic(auto, using(crate::proofs::Laws::first_listed, crate::proofs::Laws::update_many, crate::proofs::Laws::update_fits), unfolding(crate::specs::Members::updated, crate::specs::Parts::grown))]
pub fn update(current: Items, cuts: Items, adds: Items) -> Result<Items, Refusal>
    ensures { change_as result ≡ change_of (updated (listed current) (listed cuts) (listed adds)) }
{
    let l = with_additions(kept(current, cuts), adds);
    if 16 < l.count {
        return Err(Refusal::TooManyWitnesses { count: l.count });
    }
    Ok(l)
}
