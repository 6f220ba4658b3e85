// Bytes compared, a part of a slice, and bytes put into a lent slice.

#![tactic(auto)]

ghost use Rattle.std.specs.Prelude.{◌≡◌, min, take};
ghost use Rattle.std.proofs.Math.Seq.{slice};
ghost use Rattle.rules.specs.Bytes.{same_bytes};
ghost use Rattle.base_numerals.specs.PutBytes.{Put};

use base_quantities::Place;

// Equal byte for byte.
pub fn same_bytes(a: &[u8], b: &[u8]) -> bool
    ensures { result ≡ same_bytes a.now b.now }
{
    a == b
}

// The smaller of two bytes. Written out, and not `min` of std: the hot loops of read_lines and find_lines call it, and must stay as fast.
pub fn smaller(a: u8, b: u8) -> u8
    ensures { result ≡ min a b }
{
    if a < b {
        return a;
    }
    b
}

// The first `size` bytes, or all.
pub fn front(s: &[u8], size: usize) -> &[u8]
    ensures { result.now ≡ take size s.now }
{
    if s.len() <= size {
        return s;
    }
    &s[0..size]
}

// The bytes from one place to another, of those that are there.
pub fn part(s: &[u8], from: Place, to: Place) -> &[u8]
    ensures { result.now ≡ slice from.0 to.0 s.now }
{
    let a = from.0;
    let before = front(s, to.0);
    if before.len() <= a {
        return &before[0..0];
    }
    &before[a..]
}

// What src holds at the front of out: how many; or 0, and nothing changed, where they don't fit.
pub fn put<T: Copy>(out: &mut [T], src: &[T]) -> usize
    ensures { Put src.now out.old result out.new }
{
    if out.len() < src.len() {
        return 0;
    }
    for i in 0..src.len() {
        out[i] = src[i];
    }
    src.len()
}
