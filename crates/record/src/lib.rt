// The bodies of records, scanned into marks. The signatures of an event stay where they stand; a snapshot is copied as a state.
#![tactic(auto)]

ghost use Rattle.std.specs.Prelude.{◌≡◌};
ghost use Rattle.event.specs.declared.Ilk.TheVariants.{Inception, Rotation, Interaction};
ghost use Rattle.layout.specs.Records.{inception_at, rotation_at, interaction_at, snapshot_at};
ghost use Rattle.cursor.specs.Cursor.{had, scanned};
ghost use Rattle.cursor.specs.Spans.{mapped};
ghost use Rattle.evidence.specs.Evidence.{evidence_of};
ghost use Rattle.wire.specs.Wire.{sigers_of};
ghost use Rattle.record.specs.Marks.{tail_places, inception_places, rotation_places, interaction_places, last_places, snapshot_places, state_of, event_of};

use answer::Refusal;
use authority::Witnessing;
use cursor::Listing;
use evidence::Evidence;
use item::Kind;
use number::Number;
use parts::{BodyMarks, HeadMarks};
use state::{EstablishmentRef, KeyState};

#[derive(Clone, Copy)]
pub struct TailMarks {
    pub anchors: u32,
    pub sigs: Listing,
    pub receipts: Listing,
}

#[derive(Clone, Copy)]
pub struct EventMarks {
    pub head: HeadMarks,
    pub body: BodyMarks,
    pub tail: TailMarks,
}

// What a snapshot has behind its config.
#[derive(Clone, Copy)]
pub struct LastMarks {
    pub transferable: bool,
    pub sn: Number,
    pub said: usize,
}

#[derive(Clone, Copy)]
pub struct StateMarks {
    pub head: HeadMarks,
    pub latest: u8,
    pub body: BodyMarks,
    pub last: LastMarks,
}

// "anchor count u32, signatures, receipts", and nothing behind them
#[tactic(auto, unfolding(crate::specs::Marks::tail_places, format::specs::Parse::ended))]
fn scan_tail(s: &[u8], at: usize) -> Result<(TailMarks, usize), Refusal>
    ensures { scanned result ≡ tail_places s.now at }
{
    let Some((anchors, p)) = cursor::read_u32(s, at) else {
        return Err(Refusal::BadField);
    };
    let (sigs, q) = wire::scan(s, p)?;
    let (receipts, end) = wire::scan(s, q)?;
    if end != s.len() {
        return Err(Refusal::BadField);
    }
    let tail = TailMarks {
        anchors,
        sigs,
        receipts,
    };
    Ok((tail, end))
}

#[tactic(auto, unfolding(crate::specs::Marks::inception_places))]
fn inception(s: &[u8], at: usize) -> Result<(EventMarks, usize), Refusal>
    ensures { scanned result ≡ inception_places s.now at }
{
    let Some((head, p)) = parts::scan_first_head(s, at) else {
        return Err(Refusal::BadField);
    };
    let (body, q) = parts::scan_inception_body(s, p)?;
    let (tail, next) = scan_tail(s, q)?;
    Ok((EventMarks { head, body, tail }, next))
}

#[tactic(auto, using(crate::proofs::Laws::inception_read))]
pub fn scan_inception(s: &[u8], at: usize) -> Result<(EventMarks, usize), Refusal>
    ensures result_value { scanned result ≡ inception_places s.now at }
    ensures result_value_2 { mapped (event_of Inception s.now) (scanned result) ≡ inception_at s.now at }
{
    inception(s, at)
}

#[tactic(auto, unfolding(crate::specs::Marks::rotation_places))]
fn rotation(s: &[u8], at: usize) -> Result<(EventMarks, usize), Refusal>
    ensures { scanned result ≡ rotation_places s.now at }
{
    let Some((head, p)) = parts::scan_later_head(s, at) else {
        return Err(Refusal::BadField);
    };
    let (body, q) = parts::scan_rotation_body(s, p)?;
    let (tail, next) = scan_tail(s, q)?;
    Ok((EventMarks { head, body, tail }, next))
}

#[tactic(auto, using(crate::proofs::Laws::rotation_read))]
pub fn scan_rotation(s: &[u8], at: usize) -> Result<(EventMarks, usize), Refusal>
    ensures result_value { scanned result ≡ rotation_places s.now at }
    ensures result_value_2 { mapped (event_of Rotation s.now) (scanned result) ≡ rotation_at s.now at }
{
    rotation(s, at)
}

#[tactic(auto, unfolding(crate::specs::Marks::interaction_places))]
fn interaction(s: &[u8], at: usize) -> Result<(EventMarks, usize), Refusal>
    ensures { scanned result ≡ interaction_places s.now at }
{
    let Some((head, p)) = parts::scan_later_head(s, at) else {
        return Err(Refusal::BadField);
    };
    let (tail, next) = scan_tail(s, p)?;
    let body = parts::no_body();
    Ok((EventMarks { head, body, tail }, next))
}

#[tactic(auto, using(crate::proofs::Laws::interaction_read))]
pub fn scan_interaction(s: &[u8], at: usize) -> Result<(EventMarks, usize), Refusal>
    ensures result_value { scanned result ≡ interaction_places s.now at }
    ensures result_value_2 { mapped (event_of Interaction s.now) (scanned result) ≡ interaction_at s.now at }
{
    interaction(s, at)
}

// "transferable 0 or 1, last establishment sn and said", and nothing behind them
#[tactic(auto, unfolding(crate::specs::Marks::last_places, format::specs::Parse::ended))]
fn scan_last(s: &[u8], at: usize) -> Option<(LastMarks, usize)>
    ensures { had result ≡ last_places s.now at }
{
    let Some((transferable, p)) = field::read_flag(s, at) else {
        return None;
    };
    let Some((sn, q)) = field::read_sn(s, p) else {
        return None;
    };
    let Some((said, end)) = field::scan_item(s, q, Kind::Said) else {
        return None;
    };
    if end != s.len() {
        return None;
    }
    let last = LastMarks {
        transferable,
        sn,
        said,
    };
    Some((last, end))
}

// A snapshot has what an inception sets up between its latest type and its flag.
#[tactic(auto, unfolding(crate::specs::Marks::snapshot_places, layout::specs::Records::latest_at))]
fn snapshot(s: &[u8], at: usize) -> Result<(StateMarks, usize), Refusal>
    ensures { scanned result ≡ snapshot_places s.now at }
{
    let Some((head, p)) = parts::scan_first_head(s, at) else {
        return Err(Refusal::BadField);
    };
    let Some((latest, q)) = cursor::read_u8(s, p) else {
        return Err(Refusal::BadField);
    };
    if 2 < latest {
        return Err(Refusal::BadField);
    }
    let (body, r) = parts::scan_inception_body(s, q)?;
    let Some((last, next)) = scan_last(s, r) else {
        return Err(Refusal::BadField);
    };
    let state = StateMarks {
        head,
        latest,
        body,
        last,
    };
    Ok((state, next))
}

#[tactic(auto, using(crate::proofs::Laws::snapshot_read))]
pub fn scan_snapshot(s: &[u8], at: usize) -> Result<(StateMarks, usize), Refusal>
    ensures result_value { scanned result ≡ snapshot_places s.now at }
    ensures result_value_2 { mapped (state_of s.now) (scanned result) ≡ snapshot_at s.now at }
{
    snapshot(s, at)
}

pub fn copy_state(s: &[u8], m: StateMarks) -> KeyState
    ensures { result ≡ state_of s.now m }
{
    let head = parts::copy_head(s, m.head);
    let body = parts::copy_body(s, m.body);
    KeyState {
        prefix: head.prefix,
        sn: head.sn,
        said: head.said,
        latest: m.latest,
        authority: body.authority,
        commitment: body.commitment,
        witnessing: Witnessing {
            witnesses: body.additions,
            toad: body.toad,
        },
        config: body.config,
        transferable: m.last.transferable,
        last: EstablishmentRef {
            sn: m.last.sn,
            said: field::copy_item(s, m.last.said),
        },
    }
}

// Of up to 48 signatures and 48 receipts, counted where they stand.
pub fn gather(s: &[u8], t: TailMarks, keys: usize, next: usize) -> Evidence
    ensures { result ≡ evidence_of keys next (sigers_of s.now t.sigs.count t.sigs.first) (sigers_of s.now t.receipts.count t.receipts.first) }
{
    let own = wire::count(s, t.sigs, keys, next);
    let seen = wire::count(s, t.receipts, 16, 0);
    Evidence {
        verified: own.verified,
        exposed: own.exposed,
        receipted: seen.verified,
    }
}
