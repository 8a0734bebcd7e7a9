// Big-endian numbers and runs of bytes at a place of a lent slice. Every function here takes any place.
#![tactic(auto)]

ghost use Rattle.std.specs.Prelude.{◌≡◌, ◌+◌, ◌*◌, ◌<◌, ◌≤◌, MatchOption, leb, length, take, drop};
ghost use Rattle.lists.specs.Lists.{both};
ghost use Rattle.format.specs.Parse.{byte_at, num_at, raw_at};
ghost use Rattle.cursor.specs.Cursor.{had, raw_of};

// A list's count, and the place of its first field.
#[derive(Clone, Copy)]
pub struct Listing {
    pub count: usize,
    pub first: usize,
}

// n bytes at a place, or none where they run out.
pub fn bytes(s: &[u8], at: usize, n: usize) -> Option<&[u8]>
    ensures { MatchOption result (length s.now < at + n) (λ part. (at + n ≤ length s.now) × (part.now ≡ take n (drop at s.now))) }
{
    s.get(at..)?.get(..n)
}

// Whether a list of at most so many fields, each of a width, stands where it is said to.
pub fn stands(s: &[u8], l: Listing, width: usize, most: usize) -> bool
    ensures { result ≡ both (leb l.count most) (leb (l.first + l.count * width) (length s.now)) }
{
    let Some(size) = l.count.checked_mul(width) else {
        return false;
    };
    l.count <= most && bytes(s, l.first, size).is_some()
}

fn array_at<const N: usize>(s: &[u8], at: usize) -> Option<&[u8; N]>
    ensures { MatchOption result (length s.now < at + N) (λ part. (at + N ≤ length s.now) × (part.now ≡ take N (drop at s.now))) }
{
    s.get(at..)?.first_chunk()
}

// N bytes and the place behind them, or none where they run out.
fn read<const N: usize>(s: &[u8], at: usize) -> Option<([u8; N], usize)>
    ensures { had result ≡ raw_at N s.now at }
{
    let part = array_at(s, at)?;
    Some((*part, at + N))
}

pub fn read_u8(s: &[u8], at: usize) -> Option<(u8, usize)>
    ensures { had result ≡ byte_at s.now at }
{
    let b = s.get(at)?;
    Some((*b, at + 1))
}

// One function a type: each is its type's own `from_be_bytes`, and its clause its own number of bytes.
pub fn read_u16(s: &[u8], at: usize) -> Option<(u16, usize)>
    ensures { had result ≡ num_at 2 s.now at }
{
    let (bytes, next) = read::<2>(s, at)?;
    Some((u16::from_be_bytes(bytes), next))
}

pub fn read_u32(s: &[u8], at: usize) -> Option<(u32, usize)>
    ensures { had result ≡ num_at 4 s.now at }
{
    let (bytes, next) = read::<4>(s, at)?;
    Some((u32::from_be_bytes(bytes), next))
}

pub fn read_u64(s: &[u8], at: usize) -> Option<(u64, usize)>
    ensures { had result ≡ num_at 8 s.now at }
{
    let (bytes, next) = read::<8>(s, at)?;
    Some((u64::from_be_bytes(bytes), next))
}

// N bytes, or zeros where they run out.
pub fn copy_raw<const N: usize>(s: &[u8], at: usize) -> [u8; N]
    ensures { result ≡ raw_of N s.now at }
{
    let mut raw = [0u8; N];
    if let Some(part) = array_at::<N>(s, at) {
        raw.copy_from_slice(part);
    }
    raw
}
