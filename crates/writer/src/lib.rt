// Bytes written over a lent buffer from a place on. Every function here takes any place: a writer gives the place behind what it
// wrote; where that has no room it writes nothing and gives the place back.
#![tactic(auto)]

ghost use Rattle.std.specs.Prelude.{◌≡◌, [], ◌∷◌, ◌+◌, leb, length};
ghost use Rattle.writer.specs.Writing.{be, put};

// Whether n bytes have room from `at` on. Their sum is not made: it could be too large.
pub fn room(buf: &[u8], at: usize, n: usize) -> bool
    ensures { result ≡ leb (at + n) (length buf.now) }
{
    n <= buf.len() && at <= buf.len() - n
}

#[tactic(auto, unfolding(crate::specs::Writing::put, crate::specs::Writing::over))]
pub fn byte(buf: &mut [u8], at: usize, b: u8) -> usize
    ensures value { result ≡ (put (b ∷ []) at buf.old).0 }
    ensures buf_after { buf.new ≡ (put (b ∷ []) at buf.old).1 }
{
    if buf.len() <= at {
        return at;
    }
    buf[at] = b;
    at + 1
}

// Byte by byte: `copy_from_slice` calls memmove, and the archive for C calls nothing but memcpy and memset.
#[tactic(auto, using(crate::proofs::Laws::over_copied, crate::proofs::Laws::over_all), unfolding(crate::specs::Writing::put))]
pub fn bytes(buf: &mut [u8], at: usize, src: &[u8]) -> usize
    ensures value { result ≡ (put src.now at buf.old).0 }
    ensures buf_after { buf.new ≡ (put src.now at buf.old).1 }
{
    let n = src.len();
    if !room(buf, at, n) {
        return at;
    }
    for i in 0..n {
        buf[at + i] = src[i];
    }
    at + n
}

// "Numbers are big-endian": the last byte is the lowest.
#[tactic(auto, using(crate::proofs::Laws::length_be, crate::proofs::Laws::over_be, crate::proofs::Laws::over_be_none), unfolding(crate::specs::Writing::put))]
pub fn number(buf: &mut [u8], at: usize, width: usize, v: u64) -> usize
    ensures value { result ≡ (put (be width v) at buf.old).0 }
    ensures buf_after { buf.new ≡ (put (be width v) at buf.old).1 }
{
    if !room(buf, at, width) {
        return at;
    }
    let mut rest = v;
    for i in (0..width).rev() {
        buf[at + i] = (rest % 256) as u8;
        rest /= 256;
    }
    at + width
}
