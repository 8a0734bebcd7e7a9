// What bytes hold, by places: a record's body by its mark, the first record of a byte string, the state in a buffer. Nothing is copied, nothing is judged.
#![tactic(auto)]

ghost use Rattle.std.specs.Prelude.{◌≡◌, ◌+◌, ◌*◌, length, take};
ghost use Rattle.layout.specs.Records.{inception_at, rotation_at, interaction_at, snapshot_at, as_event, as_snapshot, content_of, first_of, next_in};
ghost use Rattle.found.specs.Kept.{state_in, kept_in};
ghost use Rattle.found.specs.Found.{content_is, Placed, first_is, Within, kept_is, Framed, Room};

use answer::Refusal;
use record::{EventMarks, StateMarks};

// The body of a delegated event is not read.
#[derive(Clone, Copy)]
pub enum Content {
    Inception(EventMarks),
    Rotation(EventMarks),
    Interaction(EventMarks),
    DelegatedInception,
    DelegatedRotation,
    Snapshot(StateMarks),
}

// The marks: their two letters as a big-endian number.
const IC: u16 = 0x4943;

const RO: u16 = 0x524F;

const IX: u16 = 0x4958;

const DI: u16 = 0x4449;

const DR: u16 = 0x4452;

const KS: u16 = 0x4B53;

// Each scan has a function of its own, and a `match` in place of `?`, here and in in_place: a function pays at entry for the room of
// all that it may hold, and `?` holds the marks once more.
fn inception(s: &[u8]) -> Result<Content, Refusal>
    ensures result_value { content_is s.now result ≡ as_event (inception_at s.now 0) }
    ensures placed { Placed s.now result }
{
    match record::scan_inception(s, 0) {
        Ok((m, _)) => Ok(Content::Inception(m)),
        Err(r) => Err(r),
    }
}

fn rotation(s: &[u8]) -> Result<Content, Refusal>
    ensures result_value { content_is s.now result ≡ as_event (rotation_at s.now 0) }
    ensures placed { Placed s.now result }
{
    match record::scan_rotation(s, 0) {
        Ok((m, _)) => Ok(Content::Rotation(m)),
        Err(r) => Err(r),
    }
}

fn interaction(s: &[u8]) -> Result<Content, Refusal>
    ensures result_value { content_is s.now result ≡ as_event (interaction_at s.now 0) }
    ensures placed { Placed s.now result }
{
    match record::scan_interaction(s, 0) {
        Ok((m, _)) => Ok(Content::Interaction(m)),
        Err(r) => Err(r),
    }
}

fn snapshot(s: &[u8]) -> Result<Content, Refusal>
    ensures result_value { content_is s.now result ≡ as_snapshot (snapshot_at s.now 0) }
    ensures placed { Placed s.now result }
{
    match record::scan_snapshot(s, 0) {
        Ok((m, _)) => Ok(Content::Snapshot(m)),
        Err(r) => Err(r),
    }
}

// A body by its mark. "DI and DR delegated (body not read)"
#[tactic(auto, unfolding(layout::specs::Records::content_of))]
pub fn by_mark(mark: u16, s: &[u8]) -> Result<Content, Refusal>
    ensures result_value { content_is s.now result ≡ content_of mark s.now }
    ensures placed { Placed s.now result }
{
    match mark {
        IC => inception(s),
        RO => rotation(s),
        IX => interaction(s),
        DI => Ok(Content::DelegatedInception),
        DR => Ok(Content::DelegatedRotation),
        KS => snapshot(s),
        _ => Err(Refusal::UnknownMark),
    }
}

// The mark, and where the next record starts; none where the bytes are cut short.
#[tactic(auto, using(crate::proofs::Laws::framing))]
pub fn first_record(s: &[u8]) -> Option<(u16, usize)>
    ensures result_value { first_is s.now result ≡ first_of s.now }
    ensures within { Within s.now result }
{
    let Some((mark, at)) = cursor::read_u16(s, 0) else {
        return None;
    };
    let Some((n, body)) = cursor::read_u16(s, at) else {
        return None;
    };
    let next = body + n as usize;
    if s.len() < next {
        return None;
    }
    Some((mark, next))
}

// How many bytes the first record takes, refused or not; all of them where it is cut short.
pub fn length(s: &[u8]) -> usize
    ensures { result ≡ next_in s.now (first_of s.now) }
{
    match first_record(s) {
        Some((_, next)) => next,
        None => s.len(),
    }
}

// What a state's bytes hold. A body's own refusal comes before the 3 of bytes behind its record.
#[tactic(auto, using(crate::proofs::Laws::keeping))]
pub fn in_bytes(s: &[u8]) -> Result<Option<StateMarks>, Refusal>
    ensures result_value { kept_is s.now result ≡ state_in s.now }
    ensures framed { Framed s.now result }
{
    if s.is_empty() {
        return Ok(None);
    }
    let Some((mark, next)) = first_record(s) else {
        return Err(Refusal::Truncated);
    };
    if mark != KS {
        return Err(Refusal::UnknownMark);
    }
    match record::scan_snapshot(&s[4..next], 0) {
        Ok(_) if next != s.len() => Err(Refusal::BadField),
        Ok((m, _)) => Ok(Some(m)),
        Err(r) => Err(r),
    }
}

// What the used bytes of a buffer hold.
#[tactic(auto, using(crate::proofs::Laws::kept_over, crate::proofs::Laws::kept_within))]
pub fn in_buffer(buf: &[u8], used: usize) -> Result<Option<StateMarks>, Refusal>
    ensures result_value { kept_is (take used buf.now) result ≡ kept_in buf.now used }
    ensures framed { Framed (take used buf.now) result }
    ensures room { Room used (length buf.now) result }
{
    if buf.len() < used {
        return Err(Refusal::Truncated);
    }
    in_bytes(&buf[..used])
}
