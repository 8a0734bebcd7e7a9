// Saving: the KS record of a held state, or one put together from runs of bytes, written over the start of a lent buffer.
#![tactic(auto)]

ghost use Rattle.std.specs.Prelude.{◌≡◌, ◌≤◌, ◌+◌, true, length};
ghost use Rattle.snapshot.specs.Bytes.{frame_bytes, words_bytes, item_bytes, each, items_bytes, counted, config_bytes, weight_bytes, threshold_bytes, standing_bytes, Sized};
ghost use Rattle.snapshot.specs.Saved.{point_bytes, group_bytes, head_bytes, tail_bytes, body_bytes, encoded, saved, saved_as};
ghost use Rattle.snapshot.specs.Assembled.{framed, joined, front_bytes, back_bytes, fitting, assembled, pointed};
ghost use Rattle.writer.specs.Writing.{Room, over};
ghost use Rattle.threshold.specs.Threshold.{shape_of};
ghost use Rattle.shape.specs.State.{state_shape};

use answer::Refusal;
use authority::Witnessing;
use config::Config;
use item::Item;
use items::Items;
use number::Number;
use state::{Holder, KeyState};
use threshold::Threshold;
use weight::Weight;

// Each `put` writes from a place on where its caller has room, and gives the place behind what it wrote.
#[tactic(auto, using(writer::proofs::Laws::pieces), unfolding(crate::specs::Bytes::words_bytes, writer::specs::Writing::put))]
fn put_words(buf: &mut [u8], at: usize, a: u64, b: u64) -> usize
    requires { Room (words_bytes a b) at buf.old }
    ensures value { result ≡ at + length (words_bytes a b) }
    ensures buf_after { buf.new ≡ over at (words_bytes a b) buf.old }
{
    let p = writer::number(buf, at, 8, a);
    writer::number(buf, p, 8, b)
}

#[tactic(auto, using(writer::proofs::Laws::pieces), unfolding(crate::specs::Bytes::item_bytes, writer::specs::Writing::put))]
fn put_item(buf: &mut [u8], at: usize, x: Item) -> usize
    requires { Room (item_bytes x) at buf.old }
    ensures value { result ≡ at + length (item_bytes x) }
    ensures buf_after { buf.new ≡ over at (item_bytes x) buf.old }
{
    let p = writer::byte(buf, at, x.code);
    writer::bytes(buf, p, &x.raw)
}

fn put_items(buf: &mut [u8], at: usize, l: Items) -> usize
    requires count_bound { l.count ≤ 16 }
    requires room { Room (items_bytes l) at buf.old }
    ensures value { result ≡ at + length (items_bytes l) }
    ensures buf_after { buf.new ≡ over at (items_bytes l) buf.old }
{
    let mut p = writer::byte(buf, at, l.count as u8);
    for x in &l.at[..l.count] {
        p = put_item(buf, p, *x);
    }
    p
}

#[tactic(auto, using(writer::proofs::Laws::pieces), unfolding(crate::specs::Bytes::counted, writer::specs::Writing::put))]
fn put_counted(buf: &mut [u8], at: usize, src: &[u8]) -> usize
    requires src_len_bound { length src.now ≤ 16 }
    requires room { Room (counted src.now) at buf.old }
    ensures value { result ≡ at + length (counted src.now) }
    ensures buf_after { buf.new ≡ over at (counted src.now) buf.old }
{
    let p = writer::byte(buf, at, src.len() as u8);
    writer::bytes(buf, p, src)
}

fn put_weights(buf: &mut [u8], at: usize, weights: &[Weight]) -> usize
    requires { Room (each weight_bytes weights.now) at buf.old }
    ensures value { result ≡ at + length (each weight_bytes weights.now) }
    ensures buf_after { buf.new ≡ over at (each weight_bytes weights.now) buf.old }
{
    let mut p = at;
    for w in weights {
        p = put_words(buf, p, w.num, w.den);
    }
    p
}

#[tactic(auto, using(writer::proofs::Laws::pieces, crate::proofs::Shapes::is_weighted), unfolding(crate::specs::Bytes::threshold_bytes, writer::specs::Writing::put))]
fn put_threshold(buf: &mut [u8], at: usize, t: Threshold) -> usize
    requires t_value { shape_of t ≡ 0 }
    requires room { Room (threshold_bytes t) at buf.old }
    ensures value { result ≡ at + length (threshold_bytes t) }
    ensures buf_after { buf.new ≡ over at (threshold_bytes t) buf.old }
{
    if t.tag == 0 {
        let p = writer::byte(buf, at, 0);
        return writer::number(buf, p, 8, t.simple);
    }
    let total = threshold::weights_in(t.sizes, t.clauses);
    let p = writer::byte(buf, at, 1);
    let q = put_counted(buf, p, &t.sizes[..t.clauses]);
    put_weights(buf, q, &t.weights[..total])
}

#[tactic(auto, using(writer::proofs::Laws::pieces), unfolding(crate::specs::Bytes::config_bytes))]
fn put_config(buf: &mut [u8], at: usize, c: Config) -> usize
    requires count_bound { c.count ≤ 8 }
    requires room { Room (config_bytes c) at buf.old }
    ensures value { result ≡ at + length (config_bytes c) }
    ensures buf_after { buf.new ≡ over at (config_bytes c) buf.old }
{
    put_counted(buf, at, &c.traits[..c.count])
}

#[tactic(auto, using(writer::proofs::Laws::pieces), unfolding(crate::specs::Saved::point_bytes))]
fn put_point(buf: &mut [u8], at: usize, sn: Number, said: Item) -> usize
    requires { Room (point_bytes sn said) at buf.old }
    ensures value { result ≡ at + length (point_bytes sn said) }
    ensures buf_after { buf.new ≡ over at (point_bytes sn said) buf.old }
{
    let p = put_words(buf, at, sn.high, sn.low);
    put_item(buf, p, said)
}

#[tactic(auto, using(writer::proofs::Laws::pieces), unfolding(crate::specs::Saved::group_bytes))]
fn put_group(buf: &mut [u8], at: usize, l: Items, t: Threshold) -> usize
    requires count_bound { l.count ≤ 16 }
    requires t_value { shape_of t ≡ 0 }
    requires room { Room (group_bytes l t) at buf.old }
    ensures value { result ≡ at + length (group_bytes l t) }
    ensures buf_after { buf.new ≡ over at (group_bytes l t) buf.old }
{
    let p = put_items(buf, at, l);
    put_threshold(buf, p, t)
}

#[tactic(auto, using(writer::proofs::Laws::pieces), unfolding(crate::specs::Saved::head_bytes))]
fn put_head(buf: &mut [u8], at: usize, s: KeyState) -> usize
    requires { Room (head_bytes s) at buf.old }
    ensures value { result ≡ at + length (head_bytes s) }
    ensures buf_after { buf.new ≡ over at (head_bytes s) buf.old }
{
    let p = put_item(buf, at, s.prefix);
    put_point(buf, p, s.sn, s.said)
}

// "witnesses, toad, config, transferable 0 or 1"
#[tactic(auto, using(writer::proofs::Laws::pieces), unfolding(crate::specs::Bytes::standing_bytes, writer::specs::Writing::put))]
fn put_standing(buf: &mut [u8], at: usize, w: Witnessing, c: Config, transferable: bool) -> usize
    requires count_bound { w.witnesses.count ≤ 16 }
    requires count_bound_2 { c.count ≤ 8 }
    requires room { Room (standing_bytes w c transferable) at buf.old }
    ensures value { result ≡ at + length (standing_bytes w c transferable) }
    ensures buf_after { buf.new ≡ over at (standing_bytes w c transferable) buf.old }
{
    let p = put_items(buf, at, w.witnesses);
    let q = writer::number(buf, p, 4, u64::from(w.toad));
    let r = put_config(buf, q, c);
    writer::byte(buf, r, u8::from(transferable))
}

#[tactic(auto, using(writer::proofs::Laws::pieces, crate::proofs::Size::tail_parts))]
fn put_tail(buf: &mut [u8], at: usize, s: KeyState) -> usize
    requires s_value { state_shape s ≡ 0 }
    requires room { Room (tail_bytes s) at buf.old }
    ensures value { result ≡ at + length (tail_bytes s) }
    ensures buf_after { buf.new ≡ over at (tail_bytes s) buf.old }
{
    let p = put_standing(buf, at, s.witnessing, s.config, s.transferable);
    put_point(buf, p, s.last.sn, s.last.said)
}

#[tactic(auto, using(writer::proofs::Laws::pieces), unfolding(crate::specs::Saved::body_bytes, writer::specs::Writing::put))]
fn put_body(buf: &mut [u8], at: usize, s: KeyState) -> usize
    requires s_value { state_shape s ≡ 0 }
    requires room { Room (body_bytes s) at buf.old }
    ensures value { result ≡ at + length (body_bytes s) }
    ensures buf_after { buf.new ≡ over at (body_bytes s) buf.old }
{
    let p = put_head(buf, at, s);
    let q = writer::byte(buf, p, s.latest);
    let r = put_group(buf, q, s.authority.keys, s.authority.threshold);
    let e = put_group(buf, r, s.commitment.next, s.commitment.threshold);
    put_tail(buf, e, s)
}

// How many bytes the puts of the same names write.
fn items_size(l: Items) -> usize
    requires { l.count ≤ 16 }
    ensures { Sized (items_bytes l) 529 result }
{
    1 + 33 * l.count
}

#[tactic(auto, using(crate::proofs::Shapes::is_weighted))]
fn threshold_size(t: Threshold) -> usize
    requires { shape_of t ≡ 0 }
    ensures { Sized (threshold_bytes t) 274 result }
{
    if t.tag == 0 {
        return 9;
    }
    2 + t.clauses + 16 * threshold::weights_in(t.sizes, t.clauses)
}

fn group_size(l: Items, t: Threshold) -> usize
    requires count_bound { l.count ≤ 16 }
    requires t_value { shape_of t ≡ 0 }
    ensures { Sized (group_bytes l t) 803 result }
{
    items_size(l) + threshold_size(t)
}

fn body_size(s: KeyState) -> usize
    requires { state_shape s ≡ 0 }
    ensures { Sized (body_bytes s) 2281 result }
{
    let own = group_size(s.authority.keys, s.authority.threshold);
    let next = group_size(s.commitment.next, s.commitment.threshold);
    138 + own + next + items_size(s.witnessing.witnesses) + s.config.count
}

// "A record is a two-byte ASCII mark, a u16 body length, the body": the first four bytes.
#[tactic(auto, using(writer::proofs::Laws::pieces, crate::proofs::Size::frame_over), unfolding(writer::specs::Writing::put))]
fn put_frame(buf: &mut [u8], size: usize) -> usize
    requires { 4 ≤ length buf.old }
    ensures value { result ≡ 4 }
    ensures buf_after { buf.new ≡ over 0 (frame_bytes size) buf.old }
{
    let p = writer::bytes(buf, 0, b"KS");
    writer::number(buf, p, 2, size as u64)
}

#[tactic(auto, using(writer::proofs::Laws::pieces, crate::proofs::Size::encoded_size, crate::proofs::Size::encoded_over))]
fn put_record(buf: &mut [u8], s: KeyState, size: usize)
    requires s_value { state_shape s ≡ 0 }
    requires size_value { size ≡ length (body_bytes s) }
    requires room { Room (encoded s) 0 buf.old }
    ensures { buf.new ≡ over 0 (encoded s) buf.old }
{
    let p = put_frame(buf, size);
    put_body(buf, p, s);
}

// 3 or 4 for the state's own shape, 8 for an empty holder, 41 with the bytes needed for a buffer that is too short: then no
// byte is touched. Otherwise the record's whole length.
#[tactic(auto, using(writer::proofs::Laws::pieces, crate::proofs::Size::encoded_size, answer::proofs::Results::refuses), unfolding(crate::specs::Saved::saved, state::specs::State::is_held, shape::specs::State::holder_shape))]
pub fn save(h: Holder, buf: &mut [u8]) -> Result<usize, Refusal>
    ensures value { saved_as result ≡ (saved h buf.old).0 }
    ensures buf_after { buf.new ≡ (saved h buf.old).1 }
{
    shape::of_holder(h)?;
    if !h.held {
        return Err(Refusal::NotInception);
    }
    let size = body_size(h.state);
    let needed = 4 + size;
    if buf.len() < needed {
        return Err(Refusal::NoRoom { needed });
    }
    put_record(buf, h.state, size);
    Ok(needed)
}

// The fields of a snapshot that are not taken over as bytes.
#[derive(Clone, Copy)]
pub struct Loose {
    pub prefix: Item,
    pub latest: u8,
    pub witnessing: Witnessing,
    pub config: Config,
    pub transferable: bool,
}

#[tactic(auto, using(writer::proofs::Laws::pieces), unfolding(crate::specs::Assembled::front_bytes, writer::specs::Writing::put))]
fn put_front(buf: &mut [u8], at: usize, x: Loose, point: &[u8], signers: &[u8]) -> usize
    requires { Room (front_bytes x.prefix point.now x.latest signers.now) at buf.old }
    ensures value { result ≡ at + length (front_bytes x.prefix point.now x.latest signers.now) }
    ensures buf_after { buf.new ≡ over at (front_bytes x.prefix point.now x.latest signers.now) buf.old }
{
    let p = put_item(buf, at, x.prefix);
    let q = writer::bytes(buf, p, point);
    let r = writer::byte(buf, q, x.latest);
    writer::bytes(buf, r, signers)
}

#[tactic(auto, using(writer::proofs::Laws::pieces, crate::proofs::Size::back_parts), unfolding(writer::specs::Writing::put))]
fn put_back(buf: &mut [u8], at: usize, x: Loose, last: &[u8]) -> usize
    requires count_bound { x.witnessing.witnesses.count ≤ 16 }
    requires count_bound_2 { x.config.count ≤ 8 }
    requires room { Room (back_bytes x.witnessing x.config x.transferable last.now) at buf.old }
    ensures value { result ≡ at + length (back_bytes x.witnessing x.config x.transferable last.now) }
    ensures buf_after { buf.new ≡ over at (back_bytes x.witnessing x.config x.transferable last.now) buf.old }
{
    let p = put_standing(buf, at, x.witnessing, x.config, x.transferable);
    writer::bytes(buf, p, last)
}

#[tactic(auto, using(writer::proofs::Laws::pieces, crate::proofs::Assembled::all_fit, crate::proofs::Size::framed_over, crate::proofs::Assembled::joined_parts))]
fn put_joined(buf: &mut [u8], x: Loose, size: usize, point: &[u8], signers: &[u8], last: &[u8])
    requires last_value { fitting x point.now signers.now last.now ≡ true }
    requires size_value { size ≡ length (joined x point.now signers.now last.now) }
    requires room { Room (framed (joined x point.now signers.now last.now)) 0 buf.old }
    ensures { buf.new ≡ over 0 (framed (joined x point.now signers.now last.now)) buf.old }
{
    let p = put_frame(buf, size);
    let q = put_front(buf, p, x, point, signers);
    put_back(buf, q, x, last);
}

#[tactic(auto, unfolding(crate::specs::Assembled::fitting))]
fn fits(x: Loose, point: &[u8], signers: &[u8], last: &[u8]) -> bool
    ensures { result ≡ fitting x point.now signers.now last.now }
{
    x.witnessing.witnesses.count <= 16
        && x.config.count <= 8
        && point.len() <= 49
        && last.len() <= 49
        && signers.len() <= 65535
}

#[tactic(auto, using(crate::proofs::Assembled::all_fit))]
fn joined_size(x: Loose, point: &[u8], signers: &[u8], last: &[u8]) -> usize
    requires { fitting x point.now signers.now last.now ≡ true }
    ensures { Sized (joined x point.now signers.now last.now) 66210 result }
{
    let witnesses = items_size(x.witnessing.witnesses);
    40 + witnesses + x.config.count + point.len() + signers.len() + last.len()
}

// 4 for counts and runs that no snapshot has, 41 with the bytes needed for a buffer that is too short: then no byte is touched.
// Otherwise the record's whole length.
#[tactic(auto, using(writer::proofs::Laws::pieces), unfolding(crate::specs::Assembled::assembled, crate::specs::Assembled::placed))]
pub fn assemble(
    x: Loose,
    point: &[u8],
    signers: &[u8],
    last: &[u8],
    buf: &mut [u8],
) -> Result<usize, Refusal>
    ensures value { saved_as result ≡ (assembled x point.now signers.now last.now buf.old).0 }
    ensures buf_after { buf.new ≡ (assembled x point.now signers.now last.now buf.old).1 }
{
    if !fits(x, point, signers, last) {
        return Err(Refusal::TooMany);
    }
    let size = joined_size(x, point, signers, last);
    let whole = 4 + size;
    if buf.len() < whole {
        return Err(Refusal::NoRoom { needed: whole });
    }
    put_joined(buf, x, size, point, signers, last);
    Ok(whole)
}

// "sn, latest said" and the type of an interaction, over those that stand in a record; a run of another length, or a buffer
// that has no such bytes, is left as it is.
#[tactic(auto, using(writer::proofs::Laws::pieces), unfolding(crate::specs::Assembled::pointed, writer::specs::Writing::put))]
pub fn step(point: &[u8], buf: &mut [u8])
    ensures { buf.new ≡ pointed point.now buf.old }
{
    if point.len() != 49 || buf.len() < 87 {
        return;
    }
    let p = writer::bytes(buf, 37, point);
    writer::byte(buf, p, 2);
}
