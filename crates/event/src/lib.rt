// Events by value: where they stand in the log, what they establish, and the signatures and receipts that came with them.
#![tactic(auto)]

use authority::{Authority, Commitment};
use config::Config;
use item::Item;
use items::Items;
use number::Number;
use verification::Sigers;

#[derive(Clone, Copy)]
pub enum Ilk {
    Inception,
    Rotation,
    Interaction,
    DelegatedInception,
    DelegatedRotation,
}

// An inception has no prior.
#[derive(Clone, Copy)]
pub struct Head {
    pub prefix: Item,
    pub sn: Number,
    pub said: Item,
    pub prior: Item,
}

// What an inception or a rotation sets up. `additions` are an inception's witnesses; it has no removals, a rotation no config.
#[derive(Clone, Copy)]
pub struct Body {
    pub authority: Authority,
    pub commitment: Commitment,
    pub additions: Items,
    pub removals: Items,
    pub toad: u32,
    pub config: Config,
}

// A field that an event's ilk does not have is not looked at.
#[derive(Clone, Copy)]
pub struct Event {
    pub ilk: Ilk,
    pub head: Head,
    pub body: Body,
    pub anchors: u32,
    pub sigs: Sigers,
    pub receipts: Sigers,
}
