// The record that begins at a byte: its code, its lines and its length. The file is not judged.

#![tactic(auto)]

ghost use Rattle.part_records.specs.RecordsFound.{Finds};

use base_codes::Code;
use base_quantities::{Place, Records};
use base_refusals::{Reason, Refusal};

// A record's code, how many lines it has, and its length with line ends.
#[derive(Clone, Copy)]
pub struct Record {
    pub code: Code,
    pub lines: Records,
    pub length: usize,
}

// The record that begins there, with all 88 lines after its first.
pub fn record_at(file: &[u8], start: Place) -> Result<Record, Refusal>
    ensures { Finds file.now start.0 result }
{
    if file.len() <= start.0 {
        return Err(Reason::NoSuchPart.nowhere());
    }
    let Some(code) = read_lines::code_at(file, start) else {
        return Err(Reason::NoRecordCode.at(start));
    };
    let further = read_lines::further_lines(file, read_lines::next_line(file, start));
    Ok(Record {
        code,
        lines: Records(further.count.0 + 1),
        length: further.end.0 - start.0,
    })
}
