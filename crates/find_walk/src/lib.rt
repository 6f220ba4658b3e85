// The walk over a record's fields up to one of a kind, or to its end: the numbers of each field that it passes, and where it ends.

#![tactic(auto)]

ghost use Rattle.std.specs.Prelude.{◌≡◌, cond, ◌&&◌, ◌∷◌, ◌++◌, ◌+◌, ◌≤◌, ◌<◌, eqb, length, take, drop};
ghost use Rattle.rules.specs.Bytes.{slash, just};
ghost use Rattle.base_codes.specs.CodeMeaning.{code_meant};
ghost use Rattle.find_walk.specs.WalkEnds.{PutsThree, WalksTo};

use base_codes::Code;
use base_quantities::Place;
use base_refusals::Refusal;
use find_next::FieldStep;
use read_wanted::want;

// A text's kind.
const TEXT: u64 = 21;

// How many fields.
#[derive(Clone, Copy)]
pub struct FieldCount(pub u64);

// Where a walk ends: the record is over, after so many fields; or it meets the field sought, by its start in the record and its length.
#[derive(Clone, Copy)]
pub enum Reached {
    Over(FieldCount),
    Field(Place, usize),
}

// The refusal of a record that starts there, with its place in the file.
fn refused_there(start: Place, why: Refusal) -> Refusal
    requires { start.0 + why.place.0 < 18446744073709551616 }
    ensures { result ≡ record { reason = why.reason; place = record { 0 = start.0 + why.place.0 } } }
{
    why.reason.at(Place(start.0 + why.place.0))
}

// The length that is handed out of a field of this kind: "/" is no text, a text of length 0.
#[tactic(auto, unfolding(rules::specs::Bytes::one_of))]
fn handed_length(kind: u64, f: &[u8]) -> usize
    ensures { result ≡ cond (eqb 21 kind && just slash f.now) 0 (length f.now) }
{
    match f {
        [b'/'] if kind == TEXT => 0,
        _ => f.len(),
    }
}

// Puts the numbers of a field of the record that starts there from `at` on, if there is room for them, and answers where the next ones go.
fn put_next(
    rec: &[u8],
    start: Place,
    kind: u64,
    field: FieldStep,
    out: &mut [u64],
    at: usize,
) -> usize
    requires { (field.start.0 + field.length ≤ length rec.now) × (at ≤ length out.old) × (start.0 + field.start.0 < 18446744073709551616) }
    ensures { PutsThree at kind (start.0 + field.start.0) (cond (eqb 21 kind && just slash (take field.length (drop field.start.0 rec.now))) 0 (length (take field.length (drop field.start.0 rec.now)))) out.old out.new result }
{
    if out.len() - at < 3 {
        return at;
    }
    let from = field.start.0;
    let length = handed_length(kind, &rec[from..from + field.length]);
    let numbers = [kind, (start.0 + from) as u64, length as u64];
    out[at..at + 3].copy_from_slice(&numbers);
    at + 3
}

// The walk over the record of this code that starts there and has `least` bytes or more, up to a field of the kind with this number (0: none has it). The
// numbers of the fields before it, three each, are put at the front of the slice, as many as find room.
pub fn walk_to(
    file: &[u8],
    start: Place,
    least: usize,
    code: Code,
    sought: u64,
    out: &mut [u64],
) -> Result<Reached, Refusal>
    ensures { WalksTo (drop start.0 file.now) start.0 least (code_meant code) sought out.old out.new result }
{
    let rec = base_slices::part(file, start, Place(file.len()));
    let mut walk = find_next::before_record(want::first_want(code));
    let mut n: u64 = 0;
    let mut at: usize = 0;
    // No `for`: each step is the walk after the field before.
    loop {
        let step = match find_next::next_field(rec, least, walk) {
            Err(why) => return Err(refused_there(start, why)),
            Ok(None) => return Ok(Reached::Over(FieldCount(n))),
            Ok(Some(step)) => step,
        };
        let kind = read_kinds::kind_number(walk.want);
        if kind == sought {
            return Ok(Reached::Field(step.start, step.length));
        }
        at = put_next(rec, start, kind, step, out, at);
        n += 1;
        walk = step.after;
    }
}
