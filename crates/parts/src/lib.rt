// The parts that records share: heads, and what an inception, a rotation and a snapshot set up. They are scanned into marks,
// which are numbers and places only, and copied after. What is scanned comes with the place behind it.
#![tactic(auto)]

ghost use Rattle.std.specs.Prelude.{◌≡◌};
ghost use Rattle.cursor.specs.Cursor.{had, scanned};
ghost use Rattle.parts.specs.Parts.{first_head_places, later_head_places, quorum_places, signers_places, inception_body_places, rotation_body_places, no_body_marks};
ghost use Rattle.parts.specs.Parts.{head_of, authority_of, commitment_of, body_of};

use answer::Refusal;
use authority::{Authority, Commitment};
use cursor::Listing;
use event::{Body, Head};
use item::Kind;
use number::Number;
use threshold_field::Marks;

// An inception has no prior: its place is the end, where copying gives zeros.
#[derive(Clone, Copy)]
pub struct HeadMarks {
    pub prefix: usize,
    pub sn: Number,
    pub said: usize,
    pub prior: usize,
}

// Items with the threshold over them: keys, or next digests.
#[derive(Clone, Copy)]
pub struct QuorumMarks {
    pub items: Listing,
    pub threshold: Marks,
}

// Who signs now, and who may sign next.
#[derive(Clone, Copy)]
pub struct SignersMarks {
    pub authority: QuorumMarks,
    pub commitment: QuorumMarks,
}

#[derive(Clone, Copy)]
pub struct BodyMarks {
    pub signers: SignersMarks,
    pub additions: Listing,
    pub removals: Listing,
    pub toad: u32,
    pub config: Listing,
}

// Nothing, nowhere.
const NONE: Listing = Listing { count: 0, first: 0 };

// "prefix, sn, said"
#[tactic(auto, unfolding(crate::specs::Parts::first_head_places))]
pub fn scan_first_head(s: &[u8], at: usize) -> Option<(HeadMarks, usize)>
    ensures { had result ≡ first_head_places s.now at }
{
    let Some((prefix, p)) = field::scan_item(s, at, Kind::Prefix) else {
        return None;
    };
    let Some((sn, q)) = field::read_sn(s, p) else {
        return None;
    };
    let Some((said, next)) = field::scan_item(s, q, Kind::Said) else {
        return None;
    };
    let head = HeadMarks {
        prefix,
        sn,
        said,
        prior: s.len(),
    };
    Some((head, next))
}

// "prefix, sn, said, prior"
#[tactic(auto, unfolding(crate::specs::Parts::later_head_places))]
pub fn scan_later_head(s: &[u8], at: usize) -> Option<(HeadMarks, usize)>
    ensures { had result ≡ later_head_places s.now at }
{
    let (head, p) = scan_first_head(s, at)?;
    let Some((prior, next)) = field::scan_item(s, p, Kind::Said) else {
        return None;
    };
    Some((HeadMarks { prior, ..head }, next))
}

// "keys, threshold", or "next, next threshold"
#[tactic(auto, unfolding(crate::specs::Parts::quorum_places))]
fn scan_quorum(s: &[u8], at: usize, kind: Kind) -> Result<(QuorumMarks, usize), Refusal>
    ensures { scanned result ≡ quorum_places kind s.now at }
{
    let (items, p) = field::scan_items(s, at, kind)?;
    let (threshold, next) = threshold_field::scan(s, p)?;
    Ok((QuorumMarks { items, threshold }, next))
}

// "keys, threshold, next, next threshold"
#[tactic(auto, unfolding(crate::specs::Parts::signers_places))]
fn scan_signers(s: &[u8], at: usize) -> Result<(SignersMarks, usize), Refusal>
    ensures { scanned result ≡ signers_places s.now at }
{
    let (authority, p) = scan_quorum(s, at, Kind::Key)?;
    let (commitment, next) = scan_quorum(s, p, Kind::Said)?;
    let signers = SignersMarks {
        authority,
        commitment,
    };
    Ok((signers, next))
}

// "keys, threshold, next, next threshold, witnesses, toad u32, config"
#[tactic(auto, unfolding(crate::specs::Parts::inception_body_places))]
pub fn scan_inception_body(s: &[u8], at: usize) -> Result<(BodyMarks, usize), Refusal>
    ensures { scanned result ≡ inception_body_places s.now at }
{
    let (signers, p) = scan_signers(s, at)?;
    let (witnesses, q) = field::scan_items(s, p, Kind::Key)?;
    let Some((toad, r)) = cursor::read_u32(s, q) else {
        return Err(Refusal::BadField);
    };
    let (config, next) = field::scan_config(s, r)?;
    let body = BodyMarks {
        signers,
        additions: witnesses,
        removals: NONE,
        toad,
        config,
    };
    Ok((body, next))
}

// "keys, threshold, next, next threshold, additions, removals, toad"
#[tactic(auto, unfolding(crate::specs::Parts::rotation_body_places))]
pub fn scan_rotation_body(s: &[u8], at: usize) -> Result<(BodyMarks, usize), Refusal>
    ensures { scanned result ≡ rotation_body_places s.now at }
{
    let (signers, p) = scan_signers(s, at)?;
    let (additions, q) = field::scan_items(s, p, Kind::Key)?;
    let (removals, r) = field::scan_items(s, q, Kind::Key)?;
    let Some((toad, next)) = cursor::read_u32(s, r) else {
        return Err(Refusal::BadField);
    };
    let body = BodyMarks {
        signers,
        additions,
        removals,
        toad,
        config: NONE,
    };
    Ok((body, next))
}

pub fn no_body() -> BodyMarks
    ensures { result ≡ no_body_marks }
{
    let quorum = QuorumMarks {
        items: NONE,
        threshold: Marks {
            tag: 0,
            simple: 0,
            clauses: 0,
            sizes: 0,
            total: 0,
            weights: 0,
        },
    };
    BodyMarks {
        signers: SignersMarks {
            authority: quorum,
            commitment: quorum,
        },
        additions: NONE,
        removals: NONE,
        toad: 0,
        config: NONE,
    }
}

pub fn copy_head(s: &[u8], m: HeadMarks) -> Head
    ensures { result ≡ head_of s.now m }
{
    Head {
        prefix: field::copy_item(s, m.prefix),
        sn: m.sn,
        said: field::copy_item(s, m.said),
        prior: field::copy_item(s, m.prior),
    }
}

// Twice, since the two structs name their items differently: keys, and next digests.
fn copy_authority(s: &[u8], m: QuorumMarks) -> Authority
    ensures { result ≡ authority_of s.now m }
{
    Authority {
        keys: field::copy_items(s, m.items),
        threshold: threshold_field::copy(s, m.threshold),
    }
}

fn copy_commitment(s: &[u8], m: QuorumMarks) -> Commitment
    ensures { result ≡ commitment_of s.now m }
{
    Commitment {
        next: field::copy_items(s, m.items),
        threshold: threshold_field::copy(s, m.threshold),
    }
}

pub fn copy_body(s: &[u8], m: BodyMarks) -> Body
    ensures { result ≡ body_of s.now m }
{
    Body {
        authority: copy_authority(s, m.signers.authority),
        commitment: copy_commitment(s, m.signers.commitment),
        additions: field::copy_items(s, m.additions),
        removals: field::copy_items(s, m.removals),
        toad: m.toad,
        config: field::copy_config(s, m.config),
    }
}
