// Events judged where they stand: a record's bytes against a snapshot's, by their marks. No state and no event is made.
#![tactic(auto)]

ghost use Rattle.std.specs.Prelude.{◌≡◌, [], eqb};
ghost use Rattle.lists.specs.Lists.{both};
ghost use Rattle.answer.specs.Answer.{first_refusal};
ghost use Rattle.answer.specs.Refusal.{answered};
ghost use Rattle.event.specs.declared.Ilk.TheVariants.{Inception, Rotation, Interaction};
ghost use Rattle.items.specs.Items.{listed};
ghost use Rattle.member_set.specs.Members.{witness_faults, change_as};
ghost use Rattle.field.specs.Field.{item_of};
ghost use Rattle.rules.specs.Rules.{of_prefix, changed, new_witnesses};
ghost use Rattle.ingest.specs.Judgement.{incepted, rotates, interacts};
ghost use Rattle.parts.specs.Parts.{body_of};
ghost use Rattle.record.specs.Marks.{state_of, event_of};
ghost use Rattle.judge.specs.Parts.{list_at, identity_at, next_form_at, start_at, keys_at, witnesses_at};
ghost use Rattle.judge.specs.Parts.{chains_at, forms_at, signed_at, opening_at, changed_at, moving_at, standing_at};

use answer::Refusal;
use cursor::Listing;
use evidence::Evidence;
use item::Item;
use items::Items;
use parts::{BodyMarks, HeadMarks, QuorumMarks, SignersMarks};
use record::{EventMarks, StateMarks};

// Keys and threshold are copied for a basic prefix only.
#[tactic(auto, unfolding(inception::specs::Identity::identity))]
fn identity(
    s: &[u8],
    own: QuorumMarks,
    prefix: Item,
    next: usize,
    witnesses: usize,
    anchors: u32,
) -> Result<(), Refusal>
    ensures { answered result ≡ identity_at s.now own prefix next witnesses anchors }
{
    if !item::is_basic(prefix.code) {
        return Ok(());
    }
    let keys = field::copy_items(s, own.items);
    let t = threshold_field::copy(s, own.threshold);
    inception::check_identity(prefix, keys, t, next, witnesses, anchors)
}

#[tactic(auto, using(crate::proofs::Laws::no_witnesses))]
fn witnesses_good(s: &[u8], l: Listing) -> Result<(), Refusal>
    ensures { answered result ≡ witness_faults 1 (listed (list_at s.now l)) }
{
    if l.count == 0 {
        return Ok(());
    }
    member_set::check_witnesses(field::copy_items(s, l), 1)
}

fn next_form(s: &[u8], q: QuorumMarks, next: usize) -> Result<(), Refusal>
    ensures { answered result ≡ next_form_at s.now q next }
{
    if next == 0 {
        return Ok(());
    }
    threshold_at::form(s, q.threshold, next)
}

// 3 for a prefix that is none; 11; 12 to 17; 18, 19.
#[tactic(auto, using(answer::proofs::Results::refuses), unfolding(answer::specs::Answer::first_refusal))]
fn inception_start(
    s: &[u8],
    m: EventMarks,
    prefix: Item,
    next: usize,
    witnesses: usize,
) -> Result<(), Refusal>
    ensures { answered result ≡ first_refusal (start_at s.now m.head m.body prefix next witnesses m.tail.anchors) }
{
    let own = m.body.signers.authority;
    rules::genesis(prefix, m.head.sn)?;
    identity(s, own, prefix, next, witnesses, m.tail.anchors)?;
    witnesses_good(s, m.body.additions)
}

// The own threshold; 27; the next threshold.
#[tactic(auto, using(answer::proofs::Results::refuses), unfolding(answer::specs::Answer::first_refusal))]
fn inception_keys(
    s: &[u8],
    q: SignersMarks,
    keys: usize,
    next: usize,
    v: Evidence,
) -> Result<(), Refusal>
    ensures { answered result ≡ first_refusal (keys_at s.now q keys next v) }
{
    let own = q.authority.threshold;
    threshold_at::form(s, own, keys)?;
    threshold_at::quorum(s, own, v.verified).map_err(Refusal::MissingSignatures)?;
    next_form(s, q.commitment, next)
}

// 30 or 31; 32.
#[tactic(auto, using(answer::proofs::Results::refuses), unfolding(answer::specs::Answer::first_refusal))]
fn check_witnesses(toad: u32, witnesses: usize, v: Evidence) -> Result<(), Refusal>
    ensures { answered result ≡ first_refusal (witnesses_at toad witnesses v) }
{
    toad::check_witness_threshold(toad, witnesses)?;
    evidence::receipted(toad, v, witnesses)
}

// 29 has no check: 12 to 15 come first (reserved/proofs/Laws).
#[tactic(auto, using(crate::proofs::Laws::start_stops, crate::proofs::Laws::keys_stop, crate::proofs::Laws::witnesses_answer))]
pub fn incept(s: &[u8], m: EventMarks) -> Result<(), Refusal>
    ensures { answered result ≡ of_prefix (item_of s.now m.head.prefix) (incepted (event_of Inception s.now m)) }
{
    let keys = field::count_items(s, m.body.signers.authority.items);
    let next = field::count_items(s, m.body.signers.commitment.items);
    let witnesses = field::count_items(s, m.body.additions);
    let prefix = field::copy_item(s, m.head.prefix);
    inception_start(s, m, prefix, next, witnesses)?;
    let v = record::gather(s, m.tail, keys, 0);
    inception_keys(s, m.body.signers, keys, next, v)?;
    check_witnesses(m.body.toad, witnesses, v)
}

fn chain(st: &[u8], old: HeadMarks, s: &[u8], h: HeadMarks) -> Result<(), Refusal>
    ensures { answered result ≡ chains_at st.now old s.now h }
{
    let prefix = field::copy_item(st, old.prefix);
    let said = field::copy_item(st, old.said);
    rules::chain(prefix, old.sn, said, parts::copy_head(s, h))
}

// The own threshold; the next threshold.
#[tactic(auto, using(answer::proofs::Results::refuses), unfolding(answer::specs::Answer::first_refusal))]
fn rotation_forms(s: &[u8], q: SignersMarks, keys: usize) -> Result<(), Refusal>
    ensures { answered result ≡ first_refusal (forms_at s.now q keys) }
{
    threshold_at::form(s, q.authority.threshold, keys)?;
    next_form(s, q.commitment, field::count_items(s, q.commitment.items))
}

// 27 of the keys that the event brings; 28 of what the state committed to.
#[tactic(auto, using(answer::proofs::Results::refuses), unfolding(answer::specs::Answer::first_refusal))]
fn rotation_signed(
    st: &[u8],
    old: QuorumMarks,
    s: &[u8],
    own: QuorumMarks,
    v: Evidence,
) -> Result<(), Refusal>
    ensures { answered result ≡ first_refusal (signed_at st.now old s.now own v) }
{
    threshold_at::quorum(s, own.threshold, v.verified).map_err(Refusal::MissingSignatures)?;
    let exposed = threshold_at::quorum(st, old.threshold, v.exposed);
    exposed.map_err(Refusal::PriorNextThresholdUnsatisfied)
}

// 33 to 36; the own threshold; the next threshold; 27; 28.
#[tactic(auto, using(answer::proofs::Results::refuses), unfolding(answer::specs::Answer::first_refusal))]
fn rotation_keys(
    st: &[u8],
    sm: StateMarks,
    s: &[u8],
    m: EventMarks,
    v: Evidence,
    keys: usize,
) -> Result<(), Refusal>
    ensures { answered result ≡ first_refusal (opening_at st.now sm s.now m keys v) }
{
    let signers = m.body.signers;
    chain(st, sm.head, s, m.head)?;
    rotation_forms(s, signers, keys)?;
    rotation_signed(st, sm.body.signers.commitment, s, signers.authority, v)
}

// No change has no fault and always has room: 30 or 31; 32 of the list as it stands.
#[tactic(auto, using(answer::proofs::Results::refuses, crate::proofs::Laws::unchanged_at, crate::proofs::Laws::packed_at))]
fn same_witnesses(st: &[u8], old: Listing, toad: u32, v: Evidence) -> Result<Items, Refusal>
    ensures { change_as result ≡ changed_at (listed (list_at st.now old)) [] [] toad v }
{
    check_witnesses(toad, field::count_items(st, old), v)?;
    Ok(field::copy_items(st, old))
}

fn no_change(cut: Listing, added: Listing) -> bool
    ensures { result ≡ both (eqb cut.count 0) (eqb added.count 0) }
{
    cut.count == 0 && added.count == 0
}

// Not inlined: three copies in the one frame of a call took 3 KiB more of its stack.
#[inline(never)]
fn list(s: &[u8], l: Listing) -> Items
    ensures { result ≡ list_at s.now l }
{
    field::copy_items(s, l)
}

// 18 to 22; 38; 30 or 31; 32 of the resulting list.
#[tactic(auto, using(crate::proofs::Laws::no_change))]
fn rewitness(st: &[u8], old: Listing, s: &[u8], b: BodyMarks, v: Evidence) -> Result<Items, Refusal>
    ensures { change_as result ≡ changed_at (listed (list_at st.now old)) (listed (list_at s.now b.removals)) (listed (list_at s.now b.additions)) b.toad v }
{
    if no_change(b.removals, b.additions) {
        return same_witnesses(st, old, b.toad, v);
    }
    let current = list(st, old);
    let cuts = list(s, b.removals);
    let adds = list(s, b.additions);
    rules::rewitnessed(current, cuts, adds, b.toad, v)
}

#[tactic(auto, using(crate::proofs::Laws::rewitness_answers))]
pub fn rotate(st: &[u8], sm: StateMarks, s: &[u8], m: EventMarks) -> Result<Items, Refusal>
    ensures { change_as result ≡ changed (rotates (state_of st.now sm) (event_of Rotation s.now m)) (new_witnesses (state_of st.now sm) (body_of s.now m.body)) }
{
    let keys = field::count_items(s, m.body.signers.authority.items);
    let next = field::count_items(st, sm.body.signers.commitment.items);
    let v = record::gather(s, m.tail, keys, next);
    rotation_keys(st, sm, s, m, v, keys)?;
    rewitness(st, sm.body.additions, s, m.body, v)
}

// 37; 33 to 36.
#[tactic(auto, using(answer::proofs::Results::refuses), unfolding(answer::specs::Answer::first_refusal))]
fn interaction_start(st: &[u8], sm: StateMarks, s: &[u8], h: HeadMarks) -> Result<(), Refusal>
    ensures { answered result ≡ first_refusal (moving_at st.now sm s.now h) }
{
    rules::only_establishment(field::copy_config(st, sm.body.config))?;
    chain(st, sm.head, s, h)
}

// 27 with the state's keys; 32 with the state's witnesses.
#[tactic(auto, using(answer::proofs::Results::refuses), unfolding(answer::specs::Answer::first_refusal))]
fn interaction_signed(st: &[u8], held: BodyMarks, v: Evidence) -> Result<(), Refusal>
    ensures { answered result ≡ first_refusal (standing_at st.now held v) }
{
    let own = held.signers.authority.threshold;
    threshold_at::quorum(st, own, v.verified).map_err(Refusal::MissingSignatures)?;
    evidence::receipted(held.toad, v, field::count_items(st, held.additions))
}

#[tactic(auto, using(answer::proofs::Results::refuses, crate::proofs::Laws::standing_answers), unfolding(answer::specs::Answer::first_refusal, rules::specs::Rules::interaction))]
pub fn interact(st: &[u8], sm: StateMarks, s: &[u8], m: EventMarks) -> Result<(), Refusal>
    ensures { answered result ≡ interacts (state_of st.now sm) (event_of Interaction s.now m) }
{
    interaction_start(st, sm, s, m.head)?;
    let keys = field::count_items(st, sm.body.signers.authority.items);
    let v = record::gather(s, m.tail, keys, 0);
    interaction_signed(st, sm.body, v)
}
