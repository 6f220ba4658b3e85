// A detail by number: its type, its amount and its first text piece, which is a slice of the lent file itself.

#![tactic(auto)]

ghost use Rattle.std.specs.Prelude.{◌≡◌, ◌+◌, ◌≤◌, length};
ghost use Rattle.rules.specs.Outcome.{or_else};
ghost use Rattle.rules.specs.Parts as rules;
ghost use Rattle.rules.specs.Answers.{detail_of_file, no_detail};
ghost use Rattle.part_details.specs.DetailMeaning.{detail_meant, TextStands};
ghost use Rattle.part_details.specs.TextPlace.{TextIs};

use base_amounts::Amount;
use base_codes::Code;
use base_quantities::Place;
use base_refusals::Refusal;
use find_field::Sought;
use part_groups::Part;

// A detail's type, its amount as it was given, and where its first text piece stands in the file, an empty one where it has none: by an Option none and an empty one would
// mean the same to C, and there would be two answers (`detail-one` in c_laws/proofs/OneAnswer.antt).
#[derive(Clone, Copy)]
pub struct DetailAnswer {
    pub type_code: u64,
    pub amount: Amount,
    pub text: Part,
}

// Where the first text piece of the detail that is this part stands in the file; an empty one at 0 where that is a lone slash, at the part's start where the record has no such field, as every accepted 16 has.
fn text_in(file: &[u8], part: Part) -> Part
    requires { part.start.0 + part.length ≤ length file.now }
    ensures { TextIs file.now part.start.0 part.length result }
{
    let rec = part.bytes(file);
    match find_field::seek(rec, Code::Detail, Sought::Text) {
        None => Part {
            start: part.start,
            length: 0,
        },
        Some(text) => {
            let start = text.start.0;
            let end = start + text.length;
            if read_values::is_one_of(&rec[start..end], b'/', b'/') {
                return Part {
                    start: Place(0),
                    length: 0,
                };
            }
            Part {
                start: Place(part.start.0 + start),
                length: text.length,
            }
        }
    }
}

// The detail of this number in that account: reader's refusal, 17.
pub fn detail(file: &[u8], g: u64, a: u64, n: u64) -> Result<DetailAnswer, Refusal>
    ensures told { detail_meant result ≡ detail_of_file file.now g a n }
    ensures text { TextStands file.now result (or_else (rules.detail_at file.now g a n) no_detail).text_bytes }
{
    let part = part_groups::find_detail(file, g, a, n)?;
    let rec = part.bytes(file);
    Ok(DetailAnswer {
        type_code: find_field::type_of(rec),
        amount: find_field::amount_of(rec),
        text: text_in(file, part),
    })
}

// The detail's first text piece, in the file; empty if none, and when refused.
pub fn detail_text(file: &[u8], g: u64, a: u64, n: u64) -> &[u8]
    ensures { result.now ≡ (or_else (rules.detail_at file.now g a n) no_detail).text_bytes }
{
    match detail(file, g, a, n) {
        Ok(found) => found.text.bytes(file),
        Err(_) => &file[..0],
    }
}
