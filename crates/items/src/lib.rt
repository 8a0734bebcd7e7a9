// Lists of at most 16 items: a count and 16 places, the unused ones zero. Their shape, and the first place of an item.
#![tactic(auto)]

ghost use Rattle.std.specs.Prelude.{◌≡◌, [], drop};
ghost use Rattle.lists.specs.Lists.{all, first_from};
ghost use Rattle.answer.specs.Answer.{refused};
ghost use Rattle.answer.specs.Refusal.{answered};
ghost use Rattle.item.specs.Item.{item_fits, is_zero, same_item};
ghost use Rattle.items.specs.Items.{listed, packed, shape_of};

use answer::Refusal;
use item::{Item, Kind};

// An array with a count, as document 01 wants it: no heap, and every count has to be answered.
#[derive(Clone, Copy)]
pub struct Items {
    pub count: usize,
    pub at: [Item; 16],
}

pub fn empty() -> Items
    ensures { result ≡ packed [] }
{
    Items {
        count: 0,
        at: [item::zero(); 16],
    }
}

// The places that are used: a count above 16 can use no more.
fn used(l: &Items) -> &[Item]
    ensures { result.now ≡ listed l.now }
{
    l.at.get(..l.count).unwrap_or(&l.at)
}

// A `for`: behind `position` a wrong place would be refused for the call that makes it, not for the place.
#[tactic(auto, using(crate::proofs::Laws::found_here, crate::proofs::Laws::found_next, crate::proofs::Laws::found_none))]
pub fn find(l: Items, x: Item) -> Option<usize>
    ensures { result ≡ first_from (same_item x) 0 (listed l) }
{
    let these = used(&l);
    for (i, y) in these.iter().enumerate() {
        if item::same(x, *y) {
            return Some(i);
        }
    }
    None
}

fn used_fit(l: Items, kind: Kind) -> bool
    ensures { result ≡ all (item_fits kind) (listed l) }
{
    l.at.iter().take(l.count).all(|x| item::fits(x.code, kind))
}

fn unused_zero(l: Items) -> bool
    ensures { result ≡ all is_zero (drop l.count l.at) }
{
    l.at.iter().skip(l.count).all(|x| item::is_zero(*x))
}

// TooMany where the count is above 16, BadField where a used place is outside its class or an unused one is not zero.
#[tactic(auto, unfolding(crate::specs::Items::shape_of))]
pub fn shape(l: Items, kind: Kind) -> Result<(), Refusal>
    ensures { answered result ≡ refused (shape_of kind l) 0 0 }
{
    if 16 < l.count {
        return Err(Refusal::TooMany);
    }
    if used_fit(l, kind) && unused_zero(l) {
        Ok(())
    } else {
        Err(Refusal::BadField)
    }
}
