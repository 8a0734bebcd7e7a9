// Fields of a record: an item, a list of items, config traits, a flag, a sequence number. Items and lists are scanned for their
// places first and copied after, so that nothing is copied of a record that is refused. What is scanned comes with the place behind it.
#![tactic(auto)]

ghost use Rattle.std.specs.Prelude.{◌≡◌, ◌+◌, ◌*◌, ◌≤◌, length};
ghost use Rattle.items.specs.Items.{packed};
ghost use Rattle.config.specs.Config.{packed_traits};
ghost use Rattle.format.specs.Fields.{flag_at, sn_at};
ghost use Rattle.cursor.specs.Cursor.{had, scanned};
ghost use Rattle.cursor.specs.Spans.{span_at, list_of};
ghost use Rattle.field.specs.Field.{place_at, trait_place_at, entry_at, items_place_at, config_place_at, byte_of, item_of, items_of, config_of};

use answer::Refusal;
use config::Config;
use cursor::Listing;
use item::{Item, Kind};
use items::Items;
use number::Number;

// What a list is made of. No closure: the clause of `scan_list` names the reading of each case.
#[derive(Clone, Copy)]
enum Entry {
    Item(Kind),
    Trait,
}

pub fn scan_item(s: &[u8], at: usize, kind: Kind) -> Option<(usize, usize)>
    ensures { had result ≡ place_at kind s.now at }
{
    let item = cursor::bytes(s, at, 33)?;
    if item::fits(item[0], kind) {
        Some((at, at + 33))
    } else {
        None
    }
}

#[tactic(auto, unfolding(crate::specs::Field::trait_place_at))]
fn scan_trait(s: &[u8], at: usize) -> Option<(usize, usize)>
    ensures { had result ≡ trait_place_at s.now at }
{
    let Some((t, next)) = cursor::read_u8(s, at) else {
        return None;
    };
    if config::is_trait(t) {
        Some((at, next))
    } else {
        None
    }
}

fn scan_entry(s: &[u8], at: usize, e: Entry) -> Option<(usize, usize)>
    ensures { had result ≡ entry_at e s.now at }
{
    match e {
        Entry::Item(kind) => scan_item(s, at, kind),
        Entry::Trait => scan_trait(s, at),
    }
}

#[tactic(auto, unfolding(cursor::specs::Spans::span_at))]
fn scan_list(s: &[u8], at: usize, e: Entry, max: u8) -> Result<(Listing, usize), Refusal>
    ensures { scanned result ≡ span_at (entry_at e s.now) max s.now at }
{
    let Some((n, first)) = cursor::read_u8(s, at) else {
        return Err(Refusal::BadField);
    };
    if max < n {
        return Err(Refusal::TooMany);
    }
    let mut p = first;
    for _turn in 0..n {
        let Some((_, next)) = scan_entry(s, p, e) else {
            return Err(Refusal::BadField);
        };
        p = next;
    }
    let count = n as usize;
    Ok((Listing { count, first }, p))
}

pub fn scan_items(s: &[u8], at: usize, kind: Kind) -> Result<(Listing, usize), Refusal>
    ensures { scanned result ≡ items_place_at kind s.now at }
{
    scan_list(s, at, Entry::Item(kind), 16)
}

pub fn scan_config(s: &[u8], at: usize) -> Result<(Listing, usize), Refusal>
    ensures { scanned result ≡ config_place_at s.now at }
{
    scan_list(s, at, Entry::Trait, 8)
}

// The item at a place; zeros where the bytes run out.
#[tactic(auto, using(crate::proofs::Laws::item_is, crate::proofs::Laws::item_none))]
pub fn copy_item(s: &[u8], at: usize) -> Item
    ensures { result ≡ item_of s.now at }
{
    if s.len() <= at {
        return item::zero();
    }
    let raw = cursor::copy_raw(s, at + 1);
    Item { code: s[at], raw }
}

fn fill_items(s: &[u8], l: Listing) -> Items
    requires count_bound { l.count ≤ 16 }
    requires in_bounds { l.first + l.count * 33 ≤ length s.now }
    ensures { result ≡ packed (list_of (item_of s.now) 33 l.count l.first) }
{
    let z = item::zero();
    let mut places = [z; 16];
    for i in 0..l.count {
        places[i] = copy_item(s, l.first + i * 33);
    }
    Items {
        count: l.count,
        at: places,
    }
}

// The items of a list; none where they are more than 16 or the bytes run out.
#[tactic(auto, unfolding(cursor::specs::Spans::many_of, crate::specs::Field::items_of))]
pub fn copy_items(s: &[u8], l: Listing) -> Items
    ensures { result ≡ items_of s.now l.count l.first }
{
    if cursor::stands(s, l, 33, 16) {
        fill_items(s, l)
    } else {
        items::empty()
    }
}

// How many items `copy_items` would copy.
#[tactic(auto, using(cursor::proofs::Laws::list_length), unfolding(cursor::specs::Spans::many_of, crate::specs::Field::items_of))]
pub fn count_items(s: &[u8], l: Listing) -> usize
    ensures { result ≡ (items_of s.now l.count l.first).count }
{
    if cursor::stands(s, l, 33, 16) {
        l.count
    } else {
        0
    }
}

// The traits of a list; none where they are more than 8 or the bytes run out.
#[tactic(auto, using(crate::proofs::Laws::traits_copied), unfolding(cursor::specs::Spans::many_of, crate::specs::Field::config_of))]
pub fn copy_config(s: &[u8], l: Listing) -> Config
    ensures { result ≡ config_of s.now l.count l.first }
{
    let mut traits = [0u8; 8];
    if !cursor::stands(s, l, 1, 8) {
        return Config { count: 0, traits };
    }
    traits[..l.count].copy_from_slice(&s[l.first..l.first + l.count]);
    Config {
        count: l.count,
        traits,
    }
}

#[tactic(auto, unfolding(format::specs::Fields::flag_at))]
pub fn read_flag(s: &[u8], at: usize) -> Option<(bool, usize)>
    ensures { had result ≡ flag_at s.now at }
{
    let Some((b, next)) = cursor::read_u8(s, at) else {
        return None;
    };
    if 1 < b {
        return None;
    }
    Some((b == 1, next))
}

// "A high and a low 64-bit word."
#[tactic(auto, unfolding(format::specs::Fields::sn_at))]
pub fn read_sn(s: &[u8], at: usize) -> Option<(Number, usize)>
    ensures { had result ≡ sn_at s.now at }
{
    let Some((high, p)) = cursor::read_u64(s, at) else {
        return None;
    };
    let Some((low, next)) = cursor::read_u64(s, p) else {
        return None;
    };
    Some((Number { high, low }, next))
}
