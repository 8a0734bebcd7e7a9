// Places below 16 as bits of a u16, and how many there are.
#![tactic(auto)]

ghost use Rattle.std.specs.Prelude.{◌≡◌, false, ltb, length};
ghost use Rattle.lists.specs.Lists.{pick};
ghost use Rattle.places.specs.Places.{with_place, cut_to, set_of, among, bit_at, places_in};

pub fn with_place(set: u16, place: u32) -> u16
    ensures { result ≡ with_place set place }
{
    if place < 16 { set | (1 << place) } else { set }
}

pub fn has(set: u16, place: u32) -> bool
    ensures { result ≡ pick (ltb place 16) (bit_at set place) false }
{
    place < 16 && (set >> place) % 2 == 1
}

pub fn cut_to(set: u16, n: usize) -> u16
    ensures { result ≡ cut_to n set }
{
    if n < 16 { set % (1 << n) } else { set }
}

#[tactic(auto, using(crate::proofs::Laws::ones_places))]
pub fn size(set: u16) -> u32
    ensures { result ≡ length (places_in set) }
{
    u16::count_ones(set)
}

// The places below 16 that a lent list names.
#[tactic(auto, using(crate::proofs::Laws::among_none, crate::proofs::Laws::among_next))]
pub fn set_of(ps: &[u32]) -> u16
    ensures { result ≡ set_of 16 (among ps.now) }
{
    let mut set = 0;
    for place in ps {
        set = with_place(set, *place);
    }
    set
}
