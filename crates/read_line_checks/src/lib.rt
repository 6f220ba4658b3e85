// Refusals 3, 4 and 5: each line of a record in file order.

#![tactic(auto)]

ghost use Rattle.std.specs.Prelude.{◌≡◌, ◌<◌, Ok, length, drop};
ghost use Rattle.rules.specs.Lines.{lines_of};
ghost use Rattle.rules.specs.Verdict.{none_longer};
ghost use Rattle.read_line_checks.specs.LineChecks.{checked_of, place_within, CleanIs, LineIs, ScanIs};

use base_codes::Code;
use base_quantities::{Place, Records};
use base_refusals::{Reason, Refusal};

// A line's code, and the place after the line.
#[derive(Clone, Copy)]
struct GoodLine {
    code: Code,
    next: Place,
}

// A record's code, how many lines it has, and how many bytes.
#[derive(Clone, Copy)]
pub struct Scanned {
    pub code: Code,
    pub records: Records,
    pub size: usize,
}

// 3, 4 of the line that starts there; or where it ends, without its end.
fn clean_line(s: &[u8], start: Place, limit: usize) -> Result<Place, Refusal>
    requires { start.0 < length s.now }
    ensures { CleanIs result start.0 limit (drop start.0 s.now) }
{
    let at = start.0;
    let i = read_lines::scan::plain_end(s, start, b'~').0;
    let e = read_lines::body_end(s, Place(i)).0;
    if limit < e - at {
        return Err(Reason::LineTooLong.at(Place(at + limit)));
    }
    if i < e {
        return Err(Reason::ByteNotAllowed.at(Place(i)));
    }
    Ok(Place(e))
}

// 3, 4, 5 of the line that starts there.
fn good_line(s: &[u8], start: Place, limit: usize) -> Result<GoodLine, Refusal>
    requires { start.0 < length s.now }
    ensures { LineIs result start.0 limit (drop start.0 s.now) }
{
    let e = clean_line(s, start, limit)?;
    let Some(code) = read_lines::code_at(s, start) else {
        return Err(Reason::NoRecordCode.at(start));
    };
    Ok(GoodLine {
        code,
        next: Place(e.0 + read_lines::end_len(s, e)),
    })
}

// 3, 4, 5 of the 88 lines that follow a good first line.
fn scan_further(s: &[u8], limit: usize, first: GoodLine) -> Result<Option<Scanned>, Refusal>
    requires { (0 < length s.now) × LineIs (Ok first) 0 limit s.now }
    ensures { ScanIs result limit s.now }
{
    let mut at = first.next.0;
    let mut n: u64 = 1;
    // No `for`: a step goes as far as the line does.
    while read_lines::begins(s, Place(at), Code::Continuation) {
        let e = clean_line(s, Place(at), limit)?;
        at = e.0 + read_lines::end_len(s, e);
        n += 1;
    }
    Ok(Some(Scanned {
        code: first.code,
        records: Records(n),
        size: at,
    }))
}

// 3, 4, 5 of each line of the record in front of s; none is left where s is empty.
pub fn scan_record(s: &[u8], limit: usize) -> Result<Option<Scanned>, Refusal>
    ensures { ScanIs result limit s.now }
{
    if s.len() == 0 {
        return Ok(None);
    }
    let first = good_line(s, Place(0), limit)?;
    scan_further(s, limit, first)
}

// 3 alone, of each line.
pub fn none_longer(s: &[u8], limit: usize) -> Result<(), Refusal>
    ensures { (checked_of result ≡ none_longer 0 limit (lines_of s.now)) × place_within result (length s.now) }
{
    let mut start: usize = 0;
    // No `for`: a step goes as far as the line does.
    while start < s.len() {
        let e = read_lines::body_end(s, Place(start)).0;
        if limit < e - start {
            return Err(Reason::LineTooLong.at(Place(start + limit)));
        }
        start = e + read_lines::end_len(s, Place(e));
    }
    Ok(())
}
