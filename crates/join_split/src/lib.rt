// A file split for one receiver: measured first, then written.

#![tactic(auto)]

ghost use Rattle.std.specs.Prelude.{◌≡◌, ◌≤◌, length};
ghost use Rattle.rules.specs.Combine.{has_room};
ghost use Rattle.rules.specs.Split as rules;
ghost use Rattle.base_refusals.specs.RefusalMeaning.{outcome_of};
ghost use Rattle.base_numerals.specs.PutBytes.{Put};
ghost use Rattle.join_split.specs.SplitAnswers.{answer_meant, Opens, RestIs, split_result};

use base_limits::LONGEST_FILE;
use base_quantities::{Place, Records};
use base_refusals::{Reason, Refusal};
use join_trailer::Trailer;

// No fresh 99 of a file is longer.
const MOST_LAST: usize = 64;

// What stands after the header of a split: so many bytes of groups, and a 99.
#[derive(Clone, Copy)]
struct Rest {
    bytes: usize,
    last: Trailer,
}

// An accepted file, of which so many bytes are its header, and the name that it is split for.
#[derive(Clone, Copy)]
struct Asked<'a> {
    name: &'a [u8],
    file: &'a [u8],
    header: usize,
    ghost opens: { Opens file.now header },
}

// The name may be asked for.
fn is_asked(name: &[u8]) -> bool
    ensures { result ≡ rules.is_name name.now }
{
    read_values::is_name(name) && read_values::is_clean(name)
}

impl Asked<'_> {
    // The groups for the name at the front of out, where it has room for them, and the 99 after them.
    fn take_rest(&self, out: &mut [u8]) -> Rest
        ensures { RestIs self.now.name.now self.now.file.now out.old result.bytes result.last out.new }
    {
        let tally = join_groups::take_groups(self.name, self.file, Place(self.header), out);
        let records = join_trailer::count_lines(&self.file[..self.header]).add(tally.records);
        Rest {
            bytes: tally.bytes,
            last: join_trailer::fresh_trailer(tally.total, tally.groups, records.add(Records(1))),
        }
    }

    // How many bytes the split has.
    fn size(&self) -> usize
        ensures { result ≡ length (split_result self.now.name.now self.now.file.now) }
    {
        let rest = self.take_rest(&mut []);
        self.header + rest.bytes + rest.last.length
    }

    // Refused where the split is too long, or longer than this room. Where even the whole file and a 99 fit, nothing is measured.
    fn fits(&self, room: usize) -> Result<(), Refusal>
        ensures { outcome_of (λ done. done) result ≡ has_room (length (split_result self.now.name.now self.now.file.now)) room }
    {
        let most = self.file.len() + MOST_LAST;
        if most <= room && most <= LONGEST_FILE {
            return Ok(());
        }
        join_trailer::fits(self.size(), room)
    }

    // The split at the front of out: how many bytes.
    fn write(&self, out: &mut [u8]) -> usize
        requires { length (split_result self.now.name.now self.now.file.now) ≤ length out.old }
        ensures { Put (split_result self.now.name.now self.now.file.now) out.old result out.new }
    {
        let mut o = base_slices::put(out, &self.file[..self.header]);
        let rest = self.take_rest(&mut out[o..]);
        o += rest.bytes;
        o += base_slices::put(&mut out[o..], rest.last.line());
        o
    }
}

// The file with the groups for this name alone: 16, the reader's refusal, 18, 15.
pub fn split(name: &[u8], file: &[u8], out: &mut [u8]) -> Result<usize, Refusal>
    ensures { answer_meant result out.new ≡ rules.split name.now file.now out.old }
{
    if !is_asked(name) {
        return Err(Reason::NotAName.nowhere());
    }
    read_file::read(file)?;
    let header = read_lines::record_end(file, Place(0)).0;
    let asked = Asked { name, file, header };
    asked.fits(out.len())?;
    Ok(asked.write(out))
}
