// The first field of a kind in a record: where it stands, and its length; and what a detail's type and amount say.

#![tactic(auto)]

ghost use Rattle.std.specs.Prelude.{◌≡◌};
ghost use Rattle.rules.specs.Numbers.{number};
ghost use Rattle.rules.specs.Amounts.{amount_in};
ghost use Rattle.rules.specs.Lines.{lines_of};
ghost use Rattle.rules.specs.Grammar.{detail_type, amount, kind_number, fields_of};
ghost use Rattle.base_amounts.specs.AmountsRead.{amount_meant};
ghost use Rattle.base_codes.specs.CodeMeaning.{code_meant};
ghost use Rattle.find_field.specs.FieldSearch.{in_detail, seek_lines};
ghost use Rattle.find_field.specs.SoughtKinds.{kind_meant, Spots};

use base_amounts::Amount;
use base_codes::Code;
use base_quantities::Place;
use find_walk::Reached;

// The kinds of field that can be sought, by their numbers: a detail's type, its amount, and its first text piece; a group's receiver; a trailer's total and its
// number of records.
#[derive(Clone, Copy)]
pub enum Sought {
    Type = 20,
    Amount = 17,
    Text = 21,
    Receiver = 3,
    Total = 27,
    Records = 29,
}

// Where a field starts, and its length.
#[derive(Clone, Copy)]
pub struct Spot {
    pub start: Place,
    pub length: usize,
}

// The number of the kind that is sought.
fn kind_sought(sought: Sought) -> u64
    ensures { result ≡ kind_number (kind_meant sought) }
{
    sought as u64
}

// The field sought in a record of this code; none where the walk ends, or is refused, before one is met.
pub fn seek(rec: &[u8], code: Code, sought: Sought) -> Option<Spot>
    ensures { Spots rec.now (code_meant code) sought result }
{
    let kind = kind_sought(sought);
    match find_walk::walk_to(rec, Place(0), rec.len(), code, kind, &mut []) {
        Ok(Reached::Field(start, length)) => Some(Spot { start, length }),
        Ok(Reached::Over(_)) => None,
        Err(_) => None, // an arm of its own: of the second alternative of a pattern the proof can't name what was answered
    }
}

// The field sought in a record of this code; an empty part where there is none.
pub fn field(rec: &[u8], code: Code, sought: Sought) -> &[u8]
    ensures { result.now ≡ (seek_lines (kind_meant sought) (fields_of (code_meant code)) (lines_of rec.now)).bytes }
{
    let Some(spot) = seek(rec, code, sought) else {
        return &rec[..0];
    };
    let from = spot.start.0;
    &rec[from..from + spot.length]
}

// The number that a detail's type stands for.
pub fn type_of(rec: &[u8]) -> u64
    ensures { result ≡ number (in_detail detail_type rec.now).bytes }
{
    base_digits::value(field(rec, Code::Detail, Sought::Type))
}

// A detail's amount, as it was given.
pub fn amount_of(rec: &[u8]) -> Amount
    ensures { amount_meant result ≡ amount_in (in_detail amount rec.now).bytes }
{
    base_amounts::amount_in(field(rec, Code::Detail, Sought::Amount))
}
