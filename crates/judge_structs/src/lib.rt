// The checks of `rules` on an event as structs, in document 01's order, on the sets of places that the signatures and receipts
// came to.
#![tactic(auto)]

ghost use Rattle.std.specs.Prelude.{◌≡◌, [], ◌∷◌};
ghost use Rattle.answer.specs.Answer.{first_refusal};
ghost use Rattle.answer.specs.Refusal.{answered};
ghost use Rattle.items.specs.Items.{listed};
ghost use Rattle.member_set.specs.Members.{witness_faults, change_as};
ghost use Rattle.evidence.specs.Evidence.{signed_on, exposed_on, receipted_on};
ghost use Rattle.rules.specs.Rules.{genesis_head, of_prefix, identity_of, own_form, next_form, toad_fits};
ghost use Rattle.rules.specs.Rules.{inception, new_witnesses, changed, rotation, interaction};

use answer::Refusal;
use authority::{Authority, Commitment};
use event::{Body, Head};
use evidence::Evidence;
use items::Items;
use state::KeyState;

fn own_form(a: Authority) -> Result<(), Refusal>
    ensures { answered result ≡ own_form a }
{
    threshold::form(a.threshold, a.keys.count)
}

// "next threshold if next is not empty"
fn next_form(c: Commitment) -> Result<(), Refusal>
    ensures { answered result ≡ next_form c }
{
    if c.next.count == 0 {
        return Ok(());
    }
    threshold::form(c.threshold, c.next.count)
}

fn identity(h: Head, b: Body, anchors: u32) -> Result<(), Refusal>
    ensures { answered result ≡ identity_of h b anchors }
{
    inception::check_identity(
        h.prefix,
        b.authority.keys,
        b.authority.threshold,
        b.commitment.next.count,
        b.additions.count,
        anchors,
    )
}

// 3 for a prefix that is none; 11; 12 to 17; 18, 19.
#[tactic(auto, using(answer::proofs::Results::refuses), unfolding(answer::specs::Answer::first_refusal))]
fn inception_start(h: Head, b: Body, anchors: u32) -> Result<(), Refusal>
    ensures { answered result ≡ first_refusal (genesis_head h.prefix h.sn ∷ identity_of h b anchors ∷ witness_faults 1 (listed b.additions) ∷ []) }
{
    rules::genesis(h.prefix, h.sn)?;
    identity(h, b, anchors)?;
    member_set::check_witnesses(b.additions, 1)
}

// The own threshold; 27; the next threshold.
#[tactic(auto, using(answer::proofs::Results::refuses), unfolding(answer::specs::Answer::first_refusal))]
fn inception_keys(b: Body, v: Evidence) -> Result<(), Refusal>
    ensures { answered result ≡ first_refusal (own_form b.authority ∷ signed_on b.authority.threshold v ∷ next_form b.commitment ∷ []) }
{
    own_form(b.authority)?;
    evidence::signed(b.authority.threshold, v)?;
    next_form(b.commitment)
}

// 30 or 31; 32.
#[tactic(auto, using(answer::proofs::Results::refuses), unfolding(answer::specs::Answer::first_refusal))]
fn inception_witnesses(b: Body, v: Evidence) -> Result<(), Refusal>
    ensures { answered result ≡ first_refusal (toad_fits b b.additions.count ∷ receipted_on b.toad v b.additions.count ∷ []) }
{
    toad::check_witness_threshold(b.toad, b.additions.count)?;
    evidence::receipted(b.toad, v, b.additions.count)
}

// 29 has no check: 12 to 15 come first (reserved/proofs/Laws).
#[tactic(auto, using(crate::proofs::Laws::start_stops, crate::proofs::Laws::keys_stop, crate::proofs::Laws::witnesses_answer))]
pub fn incept(h: Head, b: Body, anchors: u32, v: Evidence) -> Result<(), Refusal>
    ensures { answered result ≡ of_prefix h.prefix (inception h b anchors (signed_on b.authority.threshold v) (receipted_on b.toad v)) }
{
    inception_start(h, b, anchors)?;
    inception_keys(b, v)?;
    inception_witnesses(b, v)
}

// The own threshold; the next threshold; 27; 28 against what the state committed to.
#[tactic(auto, using(answer::proofs::Results::refuses), unfolding(answer::specs::Answer::first_refusal))]
fn rotation_keys(b: Body, committed: Commitment, v: Evidence) -> Result<(), Refusal>
    ensures { answered result ≡ first_refusal (own_form b.authority ∷ next_form b.commitment ∷ signed_on b.authority.threshold v ∷ exposed_on committed.threshold v ∷ []) }
{
    own_form(b.authority)?;
    next_form(b.commitment)?;
    evidence::signed(b.authority.threshold, v)?;
    evidence::exposed(committed.threshold, v)
}

#[tactic(auto, using(crate::proofs::Laws::chain_stops, crate::proofs::Laws::opening_stops, crate::proofs::Laws::rewitness_answers), unfolding(rules::specs::Rules::rewitness))]
pub fn rotate(s: KeyState, h: Head, b: Body, v: Evidence) -> Result<Items, Refusal>
    ensures { change_as result ≡ changed (rotation s h b (signed_on b.authority.threshold v) (exposed_on s.commitment.threshold v) (receipted_on b.toad v)) (new_witnesses s b) }
{
    rules::chain(s.prefix, s.sn, s.said, h)?;
    rotation_keys(b, s.commitment, v)?;
    rules::rewitnessed(s.witnessing.witnesses, b.removals, b.additions, b.toad, v)
}

#[tactic(auto, using(answer::proofs::Results::refuses), unfolding(answer::specs::Answer::first_refusal, rules::specs::Rules::interaction))]
pub fn interact(s: KeyState, h: Head, v: Evidence) -> Result<(), Refusal>
    ensures { answered result ≡ interaction s h (signed_on s.authority.threshold v) (receipted_on s.witnessing.toad v) }
{
    rules::only_establishment(s.config)?;
    rules::chain(s.prefix, s.sn, s.said, h)?;
    evidence::signed(s.authority.threshold, v)?;
    evidence::receipted(s.witnessing.toad, v, s.witnessing.witnesses.count)
}
