// The walk over a record that yields one field after the other: for the search for a field, and for handing all of them out.

#![tactic(auto)]

ghost use Rattle.std.specs.Prelude.{ℕ, ◌≡◌, drop};
ghost use Rattle.rules.specs.Bytes.{Bytes};
ghost use Rattle.rules.specs.Lines.{lines_of};
ghost use Rattle.read_wanted.specs.Wants.{wanted_of};
ghost use Rattle.find_next.specs.FieldTrace.{trace_lines};
ghost use Rattle.find_next.specs.CursorMeaning.{own_lines, own_line, trace_of, Inside, TakesNext, Ends, Enters, Steps};

use base_codes::Code;
use base_quantities::Place;
use base_refusals::{Reason, Refusal};
use read_wanted::want;
use read_wanted::want::Want;

// Where the walk over a record stands: what is wanted next, the place of the next field and its line's end (a field past the end: the line is over), the
// start of the next line, and the last slash that ended a line.
#[derive(Clone, Copy)]
pub struct Cursor {
    pub want: Want,
    pub at: Place,
    pub end: Place,
    pub line: Place,
    pub slash: Place,
}

// A field, by its start and length, with the walk after it. Places are counted from the record's start.
#[derive(Clone, Copy)]
pub struct FieldStep {
    pub start: Place,
    pub length: usize,
    pub after: Cursor,
}

// The walk before the line there, with this wanted and the last slash that ended a line.
fn before_line(want: Want, line: Place, slash: Place) -> Cursor
    ensures { result ≡ record { want = want; at = record { 0 = 1 }; end = record { 0 = 0 }; line = line; slash = slash } }
{
    Cursor {
        want,
        at: Place(1),
        end: Place(0),
        line,
        slash,
    }
}

// The walk before a record's first line, where this is wanted first.
pub fn before_record(first: Want) -> Cursor
    ensures { (result.want ≡ first) × ((rec : Bytes) (least : ℕ) → (trace_of rec least result ≡ trace_lines 0 (wanted_of first) 0 (own_lines least 0 (lines_of rec))) × Inside rec result) }
{
    before_line(first, Place(0), Place(0))
}

// The next field of the line that the walk stands in; or it is refused.
fn field_here(rec: &[u8], walk: Cursor) -> Result<FieldStep, Refusal>
    ensures { TakesNext rec.now walk result }
{
    let start = walk.at;
    let a = start.0;
    let left = base_slices::part(rec, start, walk.end);
    let text = want::is_text(walk.want);
    let Some(n) = read_field_ends::field_extent(text, left) else {
        return Err(Reason::LineBadlyEnded.at(Place(a + left.len())));
    };
    // A match and no `map_err`: what a closure answers does not reach the proof as an equation.
    let next = match read_fields::take_detail_first(walk.want, &left[..n]) {
        Err(reason) => return Err(reason.at(start)),
        Ok(next) => next,
    };
    if text {
        return Ok(FieldStep {
            start,
            length: n,
            after: before_line(next, walk.line, walk.slash),
        });
    }
    let f = n + 1;
    if left[n] != b'/' {
        let after = Cursor {
            want: next,
            at: Place(a + f),
            ..walk
        };
        return Ok(FieldStep {
            start,
            length: n,
            after,
        });
    }
    let t = f + read_field_ends::blanks_len(&left[f..]);
    if t < left.len() {
        return Err(Reason::LineBadlyEnded.at(Place(a + t)));
    }
    let after = before_line(next, walk.line, Place(a + n));
    Ok(FieldStep {
        start,
        length: n,
        after,
    })
}

// A line of the record starts there: one that starts among its first `least` bytes, or an 88 line.
fn is_own(rec: &[u8], least: usize, start: Place) -> bool
    ensures { result ≡ own_line least start.0 (drop start.0 rec.now) }
{
    start.0 < rec.len() && (start.0 < least || read_lines::begins(rec, start, Code::Continuation))
}

// What is wanted may be missing where the record has no further line; or it is refused.
fn at_end(want: Want, slash: Place) -> Result<(), Refusal>
    ensures { Ends want slash result }
{
    if want::may_lack(want) {
        return Ok(());
    }
    Err(Reason::WrongField.at(slash))
}

// The walk before the next field's bytes: in its line or, where that is over, after the code of the next one; none where the record is over.
fn in_line(rec: &[u8], least: usize, walk: Cursor) -> Result<Option<Cursor>, Refusal>
    ensures { Enters rec.now least walk result }
{
    if walk.at.0 <= walk.end.0 {
        return Ok(Some(walk));
    }
    let start = walk.line;
    if !is_own(rec, least, start) {
        at_end(walk.want, walk.slash)?;
        return Ok(None);
    }
    let end = read_lines::body_end(rec, start);
    let at = Place(start.0 + 3);
    if end.0 < at.0 {
        return Err(Reason::LineBadlyEnded.at(at));
    }
    let line = Place(end.0 + read_lines::end_len(rec, end));
    Ok(Some(Cursor {
        at,
        end,
        line,
        ..walk
    }))
}

// The next field of the record in front of rec, which has `least` bytes or more, where the walk over it stands so; none where the record is over.
pub fn next_field(rec: &[u8], least: usize, walk: Cursor) -> Result<Option<FieldStep>, Refusal>
    ensures { Steps rec.now least walk result }
{
    let Some(here) = in_line(rec, least, walk)? else {
        return Ok(None);
    };
    Ok(Some(field_here(rec, here)?))
}
