// The fields of the record that begins at a byte: of each its kind, its place in the file and its length. The file is not judged.

#![tactic(auto)]

ghost use Rattle.std.specs.Prelude.{◌≡◌, ◌*◌, leb, drop};
ghost use Rattle.rules.specs.HandedOut.{fields_of_record};
ghost use Rattle.base_codes.specs.CodeMeaning.{code_meant};
ghost use Rattle.part_fields.specs.FieldAnswers.{Gives, fields_meant};

use base_codes::Code;
use base_quantities::Place;
use base_refusals::{Reason, Refusal};
use find_walk::{FieldCount, Reached};

// No kind of field has this number.
const NO_KIND: u64 = 0;

// So many fields find room in the space of a call's own.
const HELD: usize = 16;

// Three numbers a field find room.
fn has_room(fields: usize, room: usize) -> bool
    ensures { result ≡ leb (3 * fields) room }
{
    fields <= room / 3
}

// The fields of the record of this code that starts there, put into the slice at once; or, first, why not.
fn fields_of(file: &[u8], start: Place, code: Code, out: &mut [u64]) -> Result<FieldCount, Refusal>
    ensures { Gives (drop start.0 file.now) start.0 (code_meant code) out.old out.new result }
{
    let mut held = [0u64; 48]; // an array, since no memory is allocated here: three numbers for each of 16 fields
    let Reached::Over(count) = find_walk::walk_to(file, start, 1, code, NO_KIND, &mut held)? else {
        return Err(Reason::NoRoom.nowhere()); // never: there is no such kind
    };
    let n = count.0 as usize;
    if !has_room(n, out.len()) {
        return Err(Reason::NoRoom.nowhere());
    }
    if n <= HELD {
        base_slices::put(out, &held[..3 * n]);
        return Ok(count);
    }
    find_walk::walk_to(file, start, 1, code, NO_KIND, out)?;
    Ok(count)
}

// The fields of the record that begins there: their numbers at the front of the slice, three a field.
pub fn fields_at(file: &[u8], start: Place, out: &mut [u64]) -> Result<FieldCount, Refusal>
    ensures { fields_meant result out.new ≡ fields_of_record file.now start.0 out.old }
{
    if file.len() <= start.0 {
        return Err(Reason::NoSuchPart.nowhere());
    }
    let Some(code) = read_lines::code_at(file, start) else {
        return Err(Reason::NoRecordCode.at(start));
    };
    fields_of(file, start, code, out)
}
