// The groups of an accepted file that are for one receiver: their totals and records, from what their 98s state, and their bytes, copied.

#![tactic(auto)]

ghost use Rattle.std.specs.Prelude.{◌≡◌, drop};
ghost use Rattle.rules.specs.Lines.{lines_of};
ghost use Rattle.base_quantities.specs.QuantityMeanings.{sum_meant};
ghost use Rattle.join_groups.specs.StatedNumbers.{stated_total, stated_records};
ghost use Rattle.join_groups.specs.GroupsTaken.{groups_taken, tally_of, slice_put};

use base_codes::Code;
use base_quantities::{Count, Place, Records, Units};
use find_field::Sought;

// What groups add: how many they are, their bytes, their total and their records.
#[derive(Clone, Copy)]
pub struct Tally {
    pub groups: Count,
    pub bytes: usize,
    pub total: Units,
    pub records: Records,
}

// What a group's 98 states: its total and its number of records.
#[derive(Clone, Copy)]
struct GroupTrailer {
    total: Units,
    records: Records,
}

// What the 98 in these bytes states; 0 where no such field is found. The search for its total ends at its first field, so that the 98 is passed over once.
fn read_trailer(rec: &[u8]) -> GroupTrailer
    ensures { (sum_meant result.total ≡ stated_total (lines_of rec.now)) × (result.records.0 ≡ stated_records (lines_of rec.now)) }
{
    let total = base_amounts::amount_in(find_field::field(rec, Code::GroupTrailer, Sought::Total));
    let records = base_digits::value(find_field::field(rec, Code::GroupTrailer, Sought::Records));
    GroupTrailer {
        total: base_amounts::adds(total),
        records: Records(records),
    }
}

// What the groups for this name add, of the groups from `from` on; and at the front of out, one after the other, the bytes of each that still fits.
pub fn take_groups(name: &[u8], file: &[u8], from: Place, out: &mut [u8]) -> Tally
    ensures { (result ≡ tally_of (groups_taken name.now (drop from.0 file.now))) × (out.new ≡ slice_put (groups_taken name.now (drop from.0 file.now)) out.old) }
{
    let mut tally = Tally {
        groups: Count(0),
        bytes: 0,
        total: Units::none(),
        records: Records(0),
    };
    let mut at = from;
    let mut o = 0;
    // By a place, since groups have no iterator here: each starts where the one before ends.
    while read_lines::begins(file, at, Code::GroupHeader) {
        let last = find_lines::next_line_of(file, at, Code::GroupTrailer, Code::FileTrailer);
        let end = read_lines::record_end(file, last);
        let header = read_lines::record_end(file, at);
        if join_receivers::is_for(name, &file[at.0..header.0]) {
            o += base_slices::put(&mut out[o..], &file[at.0..end.0]);
            let trailer = read_trailer(&file[last.0..end.0]);
            tally.groups.0 += 1;
            tally.bytes += end.0 - at.0;
            tally.total = tally.total.add(trailer.total);
            tally.records = tally.records.add(trailer.records);
        }
        at = end;
    }
    tally
}
