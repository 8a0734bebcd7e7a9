// Items: a code byte and 32 bytes. The class of a code, and equality over all 33 bytes.
#![tactic(auto)]

ghost use Rattle.std.specs.Prelude.{◌≡◌};
ghost use Rattle.answer.specs.Answer.{refused};
ghost use Rattle.answer.specs.Refusal.{answered};
ghost use Rattle.item.specs.Item.{item_shape, class_of, fits_of, basic_of, transferable_of, same_item, zero_item, is_zero};
ghost use Rattle.item.specs.declared.Kind.TheVariants.{Said};

use answer::Refusal;

#[derive(Clone, Copy, PartialEq, Eq)]
pub struct Item {
    pub code: u8,
    pub raw: [u8; 32],
}

#[derive(Clone, Copy, PartialEq, Eq)]
pub enum Class {
    NonTransferableKey,
    TransferableKey,
    Digest,
    Bad,
}

// What a place of a record asks of its item.
#[derive(Clone, Copy, PartialEq, Eq)]
pub enum Kind {
    Prefix,
    Key,
    Said,
}

#[tactic(auto, unfolding(crate::specs::Item::class_of))]
pub fn classify(code: u8) -> Class
    ensures { result ≡ class_of code }
{
    match code {
        b'B' => Class::NonTransferableKey,
        b'D' => Class::TransferableKey,
        b'E'..=b'I' => Class::Digest,
        _ => Class::Bad,
    }
}

pub fn fits(code: u8, kind: Kind) -> bool
    ensures { result ≡ fits_of kind code }
{
    match kind {
        Kind::Prefix => is_basic(code) || is_digest(code),
        Kind::Key => is_basic(code),
        Kind::Said => is_digest(code),
    }
}

pub fn is_basic(code: u8) -> bool
    ensures { result ≡ basic_of code }
{
    matches!(
        classify(code),
        Class::NonTransferableKey | Class::TransferableKey
    )
}

fn is_digest(code: u8) -> bool
    ensures { result ≡ fits_of Said code }
{
    matches!(classify(code), Class::Digest)
}

pub fn is_transferable(code: u8) -> bool
    ensures { result ≡ transferable_of code }
{
    matches!(classify(code), Class::TransferableKey | Class::Digest)
}

// Over all 33 bytes. std's `==` compares bytes many at a time.
#[tactic(auto, using(lists::proofs::Chains::same_pointwise), unfolding(crate::specs::Item::same_item))]
pub fn same(a: Item, b: Item) -> bool
    ensures { result ≡ same_item a b }
{
    a == b
}

pub fn zero() -> Item
    ensures { result ≡ zero_item }
{
    Item {
        code: 0,
        raw: [0; 32],
    }
}

// Against zeros that the compiler sees: `same(zero(), x)` was four times as slow.
#[tactic(auto, using(crate::proofs::Laws::zero_by, crate::proofs::Laws::zero_not))]
pub fn is_zero(x: Item) -> bool
    ensures { result ≡ is_zero x }
{
    x.code == 0 && x.raw == [0; 32]
}

// A refusal where the code is outside the class that the place asks for.
pub fn shape(x: Item, kind: Kind) -> Result<(), Refusal>
    ensures { answered result ≡ refused (item_shape kind x) 0 0 }
{
    if fits(x.code, kind) {
        Ok(())
    } else {
        Err(Refusal::BadField)
    }
}
