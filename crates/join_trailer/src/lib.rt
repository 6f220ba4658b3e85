// A fresh 99, how many records a part has, and whether a result fits.

#![tactic(auto)]

ghost use Rattle.std.specs.Prelude.{◌≡◌, ◌≤◌, length, take};
ghost use Rattle.rules.specs.Lines.{lines_of};
ghost use Rattle.rules.specs.Combine.{has_room};
ghost use Rattle.base_quantities.specs.QuantityMeanings.{sum_meant};
ghost use Rattle.base_refusals.specs.RefusalMeaning.{outcome_of};
ghost use Rattle.base_numerals.specs.PutBytes.{Put};
ghost use Rattle.join_trailer.specs.FreshTrailer.{last_line, trailer_of};

use base_limits::LONGEST_FILE;
use base_quantities::{Count, Place, Records, Units};
use base_refusals::{Reason, Refusal};

// A fresh 99: its bytes, zeros after them, and how many they are; in an array, since no memory is allocated here.
#[derive(Clone, Copy)]
pub struct Trailer {
    pub bytes: [u8; 80],
    pub length: usize,
}

impl Trailer {
    // The line's bytes.
    pub fn line(&self) -> &[u8]
        ensures { result.now ≡ take self.now.length self.now.bytes }
    {
        base_slices::front(&self.bytes, self.length)
    }
}

// A 99 with these numbers at the front of out: how many bytes.
fn put_trailer(out: &mut [u8], total: Units, groups: Count, records: Records) -> usize
    requires { length (last_line (sum_meant total) groups.0 records.0) ≤ length out.old }
    ensures { Put (last_line (sum_meant total) groups.0 records.0) out.old result out.new }
{
    let mut o = base_slices::put(out, b"99,");
    o += base_numerals::put_total(&mut out[o..], total);
    o += base_numerals::put_digits_after(&mut out[o..], b',', groups.0);
    o += base_numerals::put_digits_after(&mut out[o..], b',', records.0);
    o += base_slices::put(&mut out[o..], b"/\n");
    o
}

// The fresh 99 with this total, so many groups and so many records, itself included.
pub fn fresh_trailer(total: Units, groups: Count, records: Records) -> Trailer
    ensures { (result ≡ trailer_of (last_line (sum_meant total) groups.0 records.0)) × (result.length ≤ 80) × (length result.bytes ≡ 80) }
{
    let mut bytes = [0u8; 80];
    let length = put_trailer(&mut bytes, total, groups, records);
    Trailer { bytes, length }
}

// How many lines stand in these bytes. By a place, since lines have no iterator here.
pub fn count_lines(s: &[u8]) -> Records
    ensures { (result.0 ≡ length (lines_of s.now)) × (result.0 ≤ length s.now) }
{
    let mut n: u64 = 0;
    let mut at: usize = 0;
    while at < s.len() {
        at = read_lines::next_line(s, Place(at)).0;
        n += 1;
    }
    Records(n)
}

// A result of this length is not too long, and fits into so much room.
pub fn fits(length: usize, room: usize) -> Result<(), Refusal>
    ensures { outcome_of (λ done. done) result ≡ has_room length room }
{
    if LONGEST_FILE < length {
        return Err(Reason::ResultTooLong.nowhere());
    }
    if room < length {
        return Err(Reason::NoRoom.nowhere());
    }
    Ok(())
}
