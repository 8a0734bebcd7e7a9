// Records offered to a state, or folded into it, in place: the state stays the bytes that it lies in, and no state is made by value.
#![tactic(auto)]

ghost use Rattle.std.specs.Prelude.{◌≡◌, true, ◌+◌, ◌-◌, ◌≤◌, length, take, drop};
ghost use Rattle.lists.specs.Lists.{pick};
ghost use Rattle.answer.specs.Answer.{accepted, refused};
ghost use Rattle.answer.specs.Refusal.{answer_of, answered};
ghost use Rattle.items.specs.Items.{packed};
ghost use Rattle.event.specs.declared.Ilk.TheVariants.{Inception, Rotation, Interaction};
ghost use Rattle.state.specs.State.{holding, genesis, rotated, stepped};
ghost use Rattle.empty.specs.Empty.{nothing};
ghost use Rattle.rules.specs.Rules.{new_witnesses, changed};
ghost use Rattle.ingest.specs.Judgement.{rotates, interacts};
ghost use Rattle.member_set.specs.Members.{change_of, change_as};
ghost use Rattle.layout.specs.Records.{content_of};
ghost use Rattle.parts.specs.Parts.{head_of, body_of};
ghost use Rattle.record.specs.Marks.{inception_places, rotation_places, interaction_places, snapshot_places, state_of, event_of};
ghost use Rattle.receive.specs.Judged.{judged, content_judged};
ghost use Rattle.fold_record.specs.Steps.{fold_of, content_folded};
ghost use Rattle.snapshot.specs.Assembled.{loose_of, assembled};
ghost use Rattle.found.specs.Found.{Got};
ghost use Rattle.found.specs.Kept.{kept_in};
ghost use Rattle.in_place.specs.Calls.{after_saving, settled_in, on_state, body_offered_in, offered_in, body_folded_in, folded_in, asked};
ghost use Rattle.in_place.specs.Steps.{Body, state_at, Keeps, left, took, instead_of, deciding};

use answer::{Answer, Refusal};
use authority::Witnessing;
use found::Content;
use items::Items;
use record::{EventMarks, StateMarks};
use snapshot::Loose;

// The longest body of a record has 10,085 bytes (decoded, `first-bytes`).
const DECIDING: usize = 10086;

// The mark of a snapshot: its two letters as a big-endian number.
const KS: u16 = 0x4B53;

// ---- The next state, but for the runs of bytes that it takes over

fn begun(s: &[u8], m: EventMarks) -> Loose
    ensures { result ≡ loose_of (genesis (head_of s.now m.head) (body_of s.now m.body)) }
{
    let prefix = field::copy_item(s, m.head.prefix);
    let next = field::count_items(s, m.body.signers.commitment.items);
    Loose {
        prefix,
        latest: 0,
        witnessing: Witnessing {
            witnesses: field::copy_items(s, m.body.additions),
            toad: m.body.toad,
        },
        config: field::copy_config(s, m.body.config),
        transferable: state::can_move(prefix.code, next),
    }
}

// "A rotation never sets the flag, it only clears it where next is empty"
fn rolled(st: &[u8], sm: StateMarks, s: &[u8], m: EventMarks, list: Items) -> Loose
    ensures { result ≡ loose_of (rotated (state_of st.now sm) (head_of s.now m.head) (body_of s.now m.body) list) }
{
    let next = field::count_items(s, m.body.signers.commitment.items);
    Loose {
        prefix: field::copy_item(st, sm.head.prefix),
        latest: 1,
        witnessing: Witnessing {
            witnesses: list,
            toad: m.body.toad,
        },
        config: field::copy_config(st, sm.body.config),
        transferable: next != 0 && sm.last.transferable,
    }
}

fn reread(s: &[u8], m: StateMarks) -> Loose
    ensures { result ≡ loose_of (state_of s.now m) }
{
    Loose {
        prefix: field::copy_item(s, m.head.prefix),
        latest: m.latest,
        witnessing: Witnessing {
            witnesses: field::copy_items(s, m.body.additions),
            toad: m.body.toad,
        },
        config: field::copy_config(s, m.body.config),
        transferable: m.last.transferable,
    }
}

// ---- Writing it over the buffer

fn settle(
    x: Loose,
    point: &[u8],
    signers: &[u8],
    last: &[u8],
    state: &mut [u8],
    used: &mut usize,
) -> Result<(), Refusal>
    ensures { left (answered result) state.new used.new ≡ after_saving used.old accepted (assembled x point.now signers.now last.now state.old) }
{
    let size = snapshot::assemble(x, point, signers, last, state)?;
    *used = size;
    Ok(())
}

// "IC starts afresh, even over a state": where the checked path comes here, the event's own number is 0.
#[tactic(auto, using(crate::proofs::Parts::inception_runs, crate::proofs::Written::begun_settled))]
fn begin(state: &mut [u8], used: &mut usize, s: &[u8], m: EventMarks) -> Result<(), Refusal>
    requires got { Got (inception_places s.now 0) m }
    requires body { Body s.now }
    ensures { left (answered result) state.new used.new ≡ settled_in state.old used.old (took (genesis (head_of s.now m.head) (body_of s.now m.body))) }
{
    let x = begun(s, m);
    let end = m.body.additions.first - 1;
    settle(x, &s[33..82], &s[82..end], &s[33..82], state, used)
}

#[tactic(auto, using(crate::proofs::Held::run_4))]
fn rolled_in(
    state: &[u8],
    used: usize,
    sm: StateMarks,
    s: &[u8],
    m: EventMarks,
    list: Items,
) -> Loose
    requires { Keeps state.now used sm }
    ensures { result ≡ loose_of (rotated (state_at state.now used sm) (head_of s.now m.head) (body_of s.now m.body) list) }
{
    rolled(&state[4..used], sm, s, m, list)
}

#[tactic(auto, using(crate::proofs::Parts::rotation_runs, crate::proofs::Written::rolled_settled))]
fn roll(
    state: &mut [u8],
    used: &mut usize,
    sm: StateMarks,
    s: &[u8],
    m: EventMarks,
    list: Items,
) -> Result<(), Refusal>
    requires keeps { Keeps state.old used.old sm }
    requires got { Got (rotation_places s.now 0) m }
    requires body { Body s.now }
    requires list_value { list ≡ packed (new_witnesses (state_at state.old used.old sm) (body_of s.now m.body)) }
    requires count_bound { list.count ≤ 16 }
    ensures { left (answered result) state.new used.new ≡ settled_in state.old used.old (took (rotated (state_at state.old used.old sm) (head_of s.now m.head) (body_of s.now m.body) list)) }
{
    let x = rolled_in(state, *used, sm, s, m, list);
    let end = m.body.additions.first - 1;
    settle(x, &s[33..82], &s[115..end], &s[33..82], state, used)
}

// "Empty holder: KS is taken"
#[tactic(auto, using(crate::proofs::Parts::snapshot_runs, crate::proofs::Written::taken_settled))]
fn take_in(state: &mut [u8], used: &mut usize, s: &[u8], m: StateMarks) -> Result<(), Refusal>
    requires got { Got (snapshot_places s.now 0) m }
    requires body { Body s.now }
    ensures { left (answered result) state.new used.new ≡ settled_in state.old used.old (took (state_of s.now m)) }
{
    let x = reread(s, m);
    let end = m.body.additions.first - 1;
    let from = s.len() - 49;
    settle(x, &s[33..82], &s[83..end], &s[from..], state, used)
}

// Only the pointer moves, within the bytes that are used.
#[tactic(auto, using(crate::proofs::Parts::interaction_room, crate::proofs::Written::stepped_settled))]
fn step(state: &mut [u8], used: usize, sm: StateMarks, s: &[u8], m: EventMarks)
    requires keeps { Keeps state.old used sm }
    requires got { Got (interaction_places s.now 0) m }
    ensures { left accepted state.new used ≡ settled_in state.old used (took (stepped (state_at state.old used sm) (head_of s.now m.head))) }
{
    snapshot::step(&s[33..82], state);
}

// ---- The checked path

// "10 before the rest"
fn away(live: bool, which: Refusal) -> Refusal
    ensures { answer_of result ≡ pick live (answer_of which) (refused 10 0 0) }
{
    if live {
        which
    } else {
        Refusal::NonTransferableState
    }
}

#[tactic(auto, using(crate::proofs::Held::run_4))]
fn judge_rotation(
    state: &[u8],
    used: usize,
    sm: StateMarks,
    s: &[u8],
    m: EventMarks,
) -> Result<Items, Refusal>
    requires { Keeps state.now used sm }
    ensures { change_as result ≡ changed (rotates (state_at state.now used sm) (event_of Rotation s.now m)) (new_witnesses (state_at state.now used sm) (body_of s.now m.body)) }
{
    judge::rotate(&state[4..used], sm, s, m)
}

#[tactic(auto, using(crate::proofs::Held::run_4))]
fn judge_interaction(
    state: &[u8],
    used: usize,
    sm: StateMarks,
    s: &[u8],
    m: EventMarks,
) -> Result<(), Refusal>
    requires { Keeps state.now used sm }
    ensures { answered result ≡ interacts (state_at state.now used sm) (event_of Interaction s.now m) }
{
    judge::interact(&state[4..used], sm, s, m)
}

#[tactic(auto, using(crate::proofs::Answers::prefix_stands, crate::proofs::Answers::begins))]
fn offer_inception(
    state: &mut [u8],
    used: &mut usize,
    s: &[u8],
    m: EventMarks,
) -> Result<(), Refusal>
    requires got { Got (inception_places s.now 0) m }
    requires body { Body s.now }
    ensures { left (answered result) state.new used.new ≡ settled_in state.old used.old (judged nothing (event_of Inception s.now m)) }
{
    judge::incept(s, m)?;
    begin(state, used, s, m)
}

#[tactic(auto, using(crate::proofs::Answers::closed, crate::proofs::Answers::rotation_stands, crate::proofs::Answers::rotation_took, crate::proofs::Answers::new_list, crate::proofs::Answers::new_few))]
fn offer_rotation(
    state: &mut [u8],
    used: &mut usize,
    sm: StateMarks,
    s: &[u8],
    m: EventMarks,
) -> Result<(), Refusal>
    requires keeps { Keeps state.old used.old sm }
    requires got { Got (rotation_places s.now 0) m }
    requires body { Body s.now }
    ensures { left (answered result) state.new used.new ≡ settled_in state.old used.old (judged (holding (state_at state.old used.old sm)) (event_of Rotation s.now m)) }
{
    if !sm.last.transferable {
        return Err(Refusal::NonTransferableState);
    }
    let list = judge_rotation(state, *used, sm, s, m)?;
    roll(state, used, sm, s, m, list)
}

#[tactic(auto, using(crate::proofs::Answers::closed, crate::proofs::Answers::live_stands, crate::proofs::Answers::interaction_took))]
fn offer_interaction(
    state: &mut [u8],
    used: usize,
    sm: StateMarks,
    s: &[u8],
    m: EventMarks,
) -> Result<(), Refusal>
    requires keeps { Keeps state.old used sm }
    requires got { Got (interaction_places s.now 0) m }
    ensures { left (answered result) state.new used ≡ settled_in state.old used (judged (holding (state_at state.old used sm)) (event_of Interaction s.now m)) }
{
    if !sm.last.transferable {
        return Err(Refusal::NonTransferableState);
    }
    judge_interaction(state, used, sm, s, m)?;
    step(state, used, sm, s, m);
    Ok(())
}

#[tactic(auto, using(crate::proofs::Held::offer_unread, crate::proofs::Answers::away_left, crate::proofs::Answers::held_snapshot))]
fn offer_held(
    state: &mut [u8],
    used: &mut usize,
    sm: StateMarks,
    mark: u16,
    s: &[u8],
) -> Result<(), Refusal>
    requires keeps { Keeps state.old used.old sm }
    requires body { Body s.now }
    ensures { left (answered result) state.new used.new ≡ settled_in state.old used.old (content_judged (holding (state_at state.old used.old sm)) (content_of mark s.now)) }
{
    let live = sm.last.transferable;
    match found::by_mark(mark, s) {
        Ok(Content::Inception(_)) => Err(away(live, Refusal::DuplicateInception)),
        Ok(Content::Rotation(m)) => offer_rotation(state, used, sm, s, m),
        Ok(Content::Interaction(m)) => offer_interaction(state, *used, sm, s, m),
        Ok(Content::DelegatedInception) => Err(away(live, Refusal::EvidenceRequired)),
        Ok(Content::DelegatedRotation) => Err(away(live, Refusal::DelegatorUnknown)),
        Ok(Content::Snapshot(_)) => Err(Refusal::StateHeld),
        Err(r) => Err(r),
    }
}

#[tactic(auto, using(crate::proofs::Held::offer_unread, crate::proofs::Answers::no_rotation, crate::proofs::Answers::no_interaction, crate::proofs::Answers::no_delegated_inception, crate::proofs::Answers::no_delegated_rotation, crate::proofs::Answers::nothing_snapshot))]
fn offer_nothing(state: &mut [u8], used: &mut usize, mark: u16, s: &[u8]) -> Result<(), Refusal>
    requires { Body s.now }
    ensures { left (answered result) state.new used.new ≡ settled_in state.old used.old (content_judged nothing (content_of mark s.now)) }
{
    match found::by_mark(mark, s) {
        Ok(Content::Inception(m)) => offer_inception(state, used, s, m),
        Ok(Content::Rotation(_)) => Err(Refusal::NotInception),
        Ok(Content::Interaction(_)) => Err(Refusal::NotInception),
        Ok(Content::DelegatedInception) => Err(Refusal::EvidenceRequired),
        Ok(Content::DelegatedRotation) => Err(Refusal::NotInception),
        Ok(Content::Snapshot(m)) => take_in(state, used, s, m),
        Err(r) => Err(r),
    }
}

// A record that is not read: bytes that hold no state come before it.
#[tactic(auto, using(crate::proofs::Held::instead_told, crate::proofs::Held::instead_refused))]
fn instead(state: &[u8], used: usize, which: Refusal) -> Result<(), Refusal>
    ensures { answered result ≡ instead_of (kept_in state.now used) (answer_of which) }
{
    match found::in_buffer(state, used) {
        Ok(_) => Err(which),
        Err(r) => Err(r),
    }
}

#[tactic(auto, using(crate::proofs::Held::offer_unkept, crate::proofs::Held::kept_told))]
fn offer_to(state: &mut [u8], used: &mut usize, mark: u16, s: &[u8]) -> Result<(), Refusal>
    requires { Body s.now }
    ensures { left (answered result) state.new used.new ≡ on_state state.old used.old (λ h. content_judged h (content_of mark s.now)) (kept_in state.old used.old) }
{
    match found::in_buffer(state, *used) {
        Ok(Some(sm)) => offer_held(state, used, sm, mark, s),
        Ok(None) => offer_nothing(state, used, mark, s),
        Err(r) => Err(r),
    }
}

// How much of a body is looked at: "a body past the longest legal one is decided by its first bytes".
#[tactic(auto, using(crate::proofs::Held::enough_is, crate::proofs::Held::enough_within))]
fn enough(len: usize) -> usize
    ensures result_value { result ≡ deciding len }
    ensures within { result ≤ len }
{
    len.min(DECIDING)
}

// One record's body, by its mark, is offered to the state in the buffer: for a reader that holds a record in parts.
pub fn offer_body(state: &mut [u8], used: &mut usize, mark: u16, body: &[u8]) -> Answer
    ensures value { result ≡ (body_offered_in state.old used.old mark body.now).answer }
    ensures state_after { state.new ≡ (body_offered_in state.old used.old mark body.now).bytes }
    ensures used_after { used.new ≡ (body_offered_in state.old used.old mark body.now).used }
{
    let end = enough(body.len());
    answer::of(offer_to(state, used, mark, &body[..end]))
}

// The first record of `input` is offered to the state in the buffer; what stands behind that record is not looked at.
pub fn offer(state: &mut [u8], used: &mut usize, input: &[u8]) -> Answer
    ensures value { result ≡ (offered_in state.old used.old input.now).answer }
    ensures state_after { state.new ≡ (offered_in state.old used.old input.now).bytes }
    ensures used_after { used.new ≡ (offered_in state.old used.old input.now).used }
{
    let Some((mark, next)) = found::first_record(input) else {
        return answer::of(instead(state, *used, Refusal::Truncated));
    };
    offer_body(state, used, mark, &input[4..next])
}

// ---- The same without the checks

#[tactic(auto, using(crate::proofs::Held::run_4))]
fn fold_list(
    state: &[u8],
    used: usize,
    sm: StateMarks,
    s: &[u8],
    m: EventMarks,
) -> Result<Items, Refusal>
    requires { Keeps state.now used sm }
    ensures { change_as result ≡ change_of (new_witnesses (state_at state.now used sm) (body_of s.now m.body)) }
{
    let current = field::copy_items(&state[4..used], sm.body.additions);
    let cuts = field::copy_items(s, m.body.removals);
    let adds = field::copy_items(s, m.body.additions);
    member_set::update(current, cuts, adds)
}

#[tactic(auto, using(crate::proofs::Folds::roll_stands, crate::proofs::Folds::roll_took, crate::proofs::Folds::list_packed, crate::proofs::Folds::list_few))]
fn fold_rotation(
    state: &mut [u8],
    used: &mut usize,
    sm: StateMarks,
    s: &[u8],
    m: EventMarks,
) -> Result<(), Refusal>
    requires keeps { Keeps state.old used.old sm }
    requires got { Got (rotation_places s.now 0) m }
    requires body { Body s.now }
    ensures { left (answered result) state.new used.new ≡ settled_in state.old used.old (fold_of Rotation (holding (state_at state.old used.old sm)) (event_of Rotation s.now m)) }
{
    let list = fold_list(state, *used, sm, s, m)?;
    roll(state, used, sm, s, m, list)
}

#[tactic(auto, using(crate::proofs::Held::fold_unread, crate::proofs::Folds::fold_delegated_inception, crate::proofs::Folds::fold_delegated_rotation, crate::proofs::Folds::fold_unfit), unfolding(state::specs::State::is_held))]
fn fold_held(
    state: &mut [u8],
    used: &mut usize,
    sm: StateMarks,
    mark: u16,
    s: &[u8],
) -> Result<(), Refusal>
    requires keeps { Keeps state.old used.old sm }
    requires body { Body s.now }
    ensures { left (answered result) state.new used.new ≡ settled_in state.old used.old (content_folded (holding (state_at state.old used.old sm)) (content_of mark s.now)) }
{
    match found::by_mark(mark, s) {
        Ok(Content::Inception(m)) => begin(state, used, s, m),
        Ok(Content::Rotation(m)) => fold_rotation(state, used, sm, s, m),
        Ok(Content::Interaction(m)) => {
            step(state, *used, sm, s, m);
            Ok(())
        }
        Ok(Content::DelegatedInception) => Err(Refusal::EvidenceRequired),
        Ok(Content::DelegatedRotation) => Err(Refusal::EvidenceRequired),
        Ok(Content::Snapshot(_)) => Err(Refusal::UnknownMark),
        Err(r) => Err(r),
    }
}

#[tactic(auto, using(crate::proofs::Held::fold_unread, crate::proofs::Folds::fold_no_rotation, crate::proofs::Folds::fold_no_interaction, crate::proofs::Folds::fold_delegated_inception, crate::proofs::Folds::fold_delegated_rotation, crate::proofs::Folds::fold_unfit), unfolding(state::specs::State::is_held))]
fn fold_nothing(state: &mut [u8], used: &mut usize, mark: u16, s: &[u8]) -> Result<(), Refusal>
    requires { Body s.now }
    ensures { left (answered result) state.new used.new ≡ settled_in state.old used.old (content_folded nothing (content_of mark s.now)) }
{
    match found::by_mark(mark, s) {
        Ok(Content::Inception(m)) => begin(state, used, s, m),
        Ok(Content::Rotation(_)) => Err(Refusal::NotInception),
        Ok(Content::Interaction(_)) => Err(Refusal::NotInception),
        Ok(Content::DelegatedInception) => Err(Refusal::EvidenceRequired),
        Ok(Content::DelegatedRotation) => Err(Refusal::EvidenceRequired),
        Ok(Content::Snapshot(_)) => Err(Refusal::UnknownMark),
        Err(r) => Err(r),
    }
}

#[tactic(auto, using(crate::proofs::Held::fold_unkept, crate::proofs::Held::kept_told))]
fn fold_to(state: &mut [u8], used: &mut usize, mark: u16, s: &[u8]) -> Result<(), Refusal>
    requires { Body s.now }
    ensures { left (answered result) state.new used.new ≡ on_state state.old used.old (λ h. content_folded h (content_of mark s.now)) (kept_in state.old used.old) }
{
    match found::in_buffer(state, *used) {
        Ok(Some(sm)) => fold_held(state, used, sm, mark, s),
        Ok(None) => fold_nothing(state, used, mark, s),
        Err(r) => Err(r),
    }
}

// One record's body, by its mark. "Events are IC, RO, IX, DI and DR; a KS is none": its body is not read.
pub fn fold_body(state: &mut [u8], used: &mut usize, mark: u16, body: &[u8]) -> Answer
    ensures value { result ≡ (body_folded_in state.old used.old mark body.now).answer }
    ensures state_after { state.new ≡ (body_folded_in state.old used.old mark body.now).bytes }
    ensures used_after { used.new ≡ (body_folded_in state.old used.old mark body.now).used }
{
    if mark == KS {
        return answer::of(instead(state, *used, Refusal::UnknownMark));
    }
    let end = enough(body.len());
    answer::of(fold_to(state, used, mark, &body[..end]))
}

// For a history that was checked before.
pub fn fold(state: &mut [u8], used: &mut usize, input: &[u8]) -> Answer
    ensures value { result ≡ (folded_in state.old used.old input.now).answer }
    ensures state_after { state.new ≡ (folded_in state.old used.old input.now).bytes }
    ensures used_after { used.new ≡ (folded_in state.old used.old input.now).used }
{
    let Some((mark, next)) = found::first_record(input) else {
        return answer::of(instead(state, *used, Refusal::Truncated));
    };
    fold_body(state, used, mark, &input[4..next])
}

// 0 with the state's number; 8 where none is held.
#[tactic(auto, using(crate::proofs::Folds::asked_state, crate::proofs::Folds::asked_nothing, crate::proofs::Folds::asked_bad))]
pub fn ask(state: &[u8]) -> Answer
    ensures { result ≡ asked state.now }
{
    match found::in_bytes(state) {
        Ok(Some(m)) => Answer {
            number: 0,
            a: m.head.sn,
            b: number::from_u64(0),
        },
        Ok(None) => Answer::from(Refusal::NotInception),
        Err(r) => Answer::from(r),
    }
}
