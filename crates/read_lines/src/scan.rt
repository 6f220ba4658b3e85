// The search for the first byte of a kind, by blocks of 64 bytes: no test leaves a block early, so it compiles to vector code.
ghost use Rattle.std.specs.Prelude.{◌≡◌, cond, ◌+◌, ◌-◌, ◌≤◌, length, drop};
ghost use Rattle.read_lines.specs.LineLengths.{run, outside, stops_at};
ghost use Rattle.read_lines.specs.LineAnswers.{BlockIs};

use base_quantities::Place;

// b is below a blank or above `high`.
fn outside(b: u8, high: u8) -> bool
    ensures { result ≡ outside high b }
{
    b < b' ' || high < b
}

// i where b is below a blank or above `high`, else 255.
fn place_of(b: u8, i: u8, high: u8) -> u8
    ensures { result ≡ cond (outside high b) i 255 }
{
    if outside(b, high) {
        return i;
    }
    255
}

// How many of the 64 bytes from there on stand before the first that is below a blank or above `high`; 255 where none is.
fn block(s: &[u8], start: Place, high: u8) -> usize
    requires { start.0 + 64 ≤ length s.now }
    ensures { BlockIs s.now start.0 high result }
{
    let at = start.0;
    let mut first: u8 = 255;
    // Always 64 times, and with no early exit: so it compiles to vector code.
    for i in 0..64 {
        first = base_slices::smaller(place_of(s[at + i], i as u8, high), first);
    }
    first as usize
}

// The first byte from there on that is below a blank or above `high`, byte by byte.
fn end_by_bytes(s: &[u8], start: Place, high: u8) -> Place
    ensures { (result.0 ≡ start.0 + run (stops_at high) (drop start.0 s.now)) × (result.0 ≤ length s.now + (start.0 - length s.now)) }
{
    for i in start.0..s.len() {
        if outside(s[i], high) {
            return Place(i);
        }
    }
    Place(start.0.max(s.len()))
}

// The first byte from there on that is below a blank or above `high`.
pub fn plain_end(s: &[u8], start: Place, high: u8) -> Place
    ensures { (result.0 ≡ start.0 + run (stops_at high) (drop start.0 s.now)) × (result.0 ≤ length s.now + (start.0 - length s.now)) }
{
    let mut i = start.0;
    // No `for`: a step is a block, and the bytes after the last block go one by one.
    while i < s.len() {
        if s.len() - i < 64 {
            return end_by_bytes(s, Place(i), high);
        }
        let n = block(s, Place(i), high);
        if n < 64 {
            return Place(i + n);
        }
        i += 64;
    }
    Place(i)
}
