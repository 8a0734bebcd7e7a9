// An answer: document 01's number with its two details. A refusal by its name, with what the table names of it.
#![tactic(auto)]

ghost use Rattle.std.specs.Prelude.{◌≡◌};
ghost use Rattle.answer.specs.Answer.{refused, accepted};
ghost use Rattle.answer.specs.Refusal.{answer_of, answered};

use number::Number;

// What is reported, and what C gets: a number of the table.
#[derive(Clone, Copy)]
pub struct Answer {
    pub number: u8,
    pub a: Number,
    pub b: Number,
}

// How many places counted, and the first clause that is short, counted from 1, or 0 where there is none to name.
#[derive(Clone, Copy, PartialEq, Eq)]
pub struct TooFew {
    pub counted: u32,
    pub clause: usize,
}

// Every refusal of document 01's table, in its order. 29 is reserved: no check gives it (crate reserved).
#[derive(Clone, Copy)]
pub enum Refusal {
    Truncated,
    UnknownMark,
    BadField,
    TooMany,
    StateHeld,
    EvidenceRequired,
    DelegatorUnknown,
    NotInception,
    DuplicateInception,
    NonTransferableState,
    NonZeroGenesisSn { sn: Number },
    BasicKeyCount { keys: usize },
    BasicThreshold,
    BasicKeyMismatch,
    NonTransferableNextKeys,
    NonTransferableWitnesses,
    NonTransferableAnchors,
    // "1 witnesses, 2 removals, 3 additions"
    Duplicate { list: u8 },
    TransferableWitness { list: u8 },
    CutAddOverlap,
    RemovalNotCurrent,
    AdditionAlreadyPresent,
    BelowMinimum,
    ExceedsKeyCount { required: u64, keys: u64 },
    EmptyClauseList,
    EmptyClause,
    MissingSignatures(TooFew),
    PriorNextThresholdUnsatisfied(TooFew),
    NonTransferableCommitsNextKeys,
    WitnessThresholdZeroWithWitnesses { witnesses: u64 },
    WitnessThresholdExceeded { toad: u32, witnesses: u64 },
    InsufficientWitnessReceipts { valid: u32, required: u32 },
    IdentifierMismatch,
    SequenceNumberOverflow,
    OutOfOrder { expected: Number, actual: Number },
    PriorDigestMismatch,
    InteractionOnEstablishmentOnly,
    TooManyWitnesses { count: usize },
    // Of direct calls only.
    Overflow { witnesses: u64 },
    OutOfRange { toad: u32, witnesses: u64 },
    NoRoom { needed: usize },
}

pub fn accept() -> Answer
    ensures { result ≡ accepted }
{
    refuse(0, 0, 0)
}

pub fn refuse(which: u8, a: u64, b: u64) -> Answer
    ensures { result ≡ refused which a b }
{
    Answer {
        number: which,
        a: number::from_u64(a),
        b: number::from_u64(b),
    }
}

impl From<Refusal> for Answer {
    ghost from_gives = { λ r x. x ≡ answer_of r };

    fn from(r: Refusal) -> Answer {
        match r {
            Refusal::Truncated => refuse(1, 0, 0),
            Refusal::UnknownMark => refuse(2, 0, 0),
            Refusal::BadField => refuse(3, 0, 0),
            Refusal::TooMany => refuse(4, 0, 0),
            Refusal::StateHeld => refuse(5, 0, 0),
            Refusal::EvidenceRequired => refuse(6, 0, 0),
            Refusal::DelegatorUnknown => refuse(7, 0, 0),
            Refusal::NotInception => refuse(8, 0, 0),
            Refusal::DuplicateInception => refuse(9, 0, 0),
            Refusal::NonTransferableState => refuse(10, 0, 0),
            Refusal::NonZeroGenesisSn { sn } => Answer {
                number: 11,
                a: sn,
                b: number::from_u64(0),
            },
            Refusal::BasicKeyCount { keys } => refuse(12, keys as u64, 0),
            Refusal::BasicThreshold => refuse(13, 0, 0),
            Refusal::BasicKeyMismatch => refuse(14, 0, 0),
            Refusal::NonTransferableNextKeys => refuse(15, 0, 0),
            Refusal::NonTransferableWitnesses => refuse(16, 0, 0),
            Refusal::NonTransferableAnchors => refuse(17, 0, 0),
            Refusal::Duplicate { list } => refuse(18, list as u64, 0),
            Refusal::TransferableWitness { list } => refuse(19, list as u64, 0),
            Refusal::CutAddOverlap => refuse(20, 0, 0),
            Refusal::RemovalNotCurrent => refuse(21, 0, 0),
            Refusal::AdditionAlreadyPresent => refuse(22, 0, 0),
            Refusal::BelowMinimum => refuse(23, 0, 0),
            Refusal::ExceedsKeyCount { required, keys } => refuse(24, required, keys),
            Refusal::EmptyClauseList => refuse(25, 0, 0),
            Refusal::EmptyClause => refuse(26, 0, 0),
            Refusal::MissingSignatures(few) => refuse(27, few.counted as u64, few.clause as u64),
            Refusal::PriorNextThresholdUnsatisfied(few) => refuse(
                28,
                few.counted as u64,
                few.clause as u64,
            ),
            Refusal::NonTransferableCommitsNextKeys => refuse(29, 0, 0),
            Refusal::WitnessThresholdZeroWithWitnesses { witnesses } => refuse(30, witnesses, 0),
            Refusal::WitnessThresholdExceeded { toad, witnesses } => refuse(
                31,
                toad as u64,
                witnesses,
            ),
            Refusal::InsufficientWitnessReceipts { valid, required } => refuse(
                32,
                valid as u64,
                required as u64,
            ),
            Refusal::IdentifierMismatch => refuse(33, 0, 0),
            Refusal::SequenceNumberOverflow => refuse(34, 0, 0),
            Refusal::OutOfOrder { expected, actual } => Answer {
                number: 35,
                a: expected,
                b: actual,
            },
            Refusal::PriorDigestMismatch => refuse(36, 0, 0),
            Refusal::InteractionOnEstablishmentOnly => refuse(37, 0, 0),
            Refusal::TooManyWitnesses { count } => refuse(38, count as u64, 0),
            Refusal::Overflow { witnesses } => refuse(39, witnesses, 0),
            Refusal::OutOfRange { toad, witnesses } => refuse(40, toad as u64, witnesses),
            Refusal::NoRoom { needed } => refuse(41, needed as u64, 0),
        }
    }
}

// What a check found, as the answer that is given.
pub fn of(found: Result<(), Refusal>) -> Answer
    ensures { result ≡ answered found }
{
    match found {
        Ok(()) => accept(),
        Err(r) => Answer::from(r),
    }
}
