// Lines and records of a file: where they end, and a line's code. `scan` finds the first byte outside a range, block by block.

#![tactic(auto)]

ghost use Rattle.std.specs.Prelude.{◌≡◌, [], ◌∷◌, ◌+◌, ◌-◌, ◌≤◌, length, take, drop};
ghost use Rattle.rules.specs.Bytes.{comma, same_bytes};
ghost use Rattle.rules.specs.Lines.{lines_of, code_bytes, code_of, record_size};
ghost use Rattle.base_codes.specs.CodeMeaning.{code_meant};
ghost use Rattle.read_lines.specs.LineLengths.{body_len, end_len, line_len, first_line, first_record};
ghost use Rattle.read_lines.specs.LineAnswers.{code_found, LinesAre};

use base_codes::Code;
use base_quantities::{Place, Records};

pub mod scan;

// Some lines: how many, and where they end.
#[derive(Clone, Copy)]
pub struct Lines {
    pub count: Records,
    pub end: Place,
}

// How many bytes of a line's end stand there: LF, or CR and LF, or none.
pub fn end_len(s: &[u8], start: Place) -> usize
    ensures { result ≡ end_len (drop start.0 s.now) }
{
    let at = start.0;
    if s.len() <= at {
        return 0;
    }
    if s[at] == b'\n' {
        return 1;
    }
    if s[at] == b'\r' && 1 < s.len() - at && s[at + 1] == b'\n' {
        return 2;
    }
    0
}

// Where the line that starts there ends, without its end.
pub fn body_end(s: &[u8], start: Place) -> Place
    ensures { (result.0 ≡ start.0 + body_len (drop start.0 s.now)) × (result.0 ≤ length s.now + (start.0 - length s.now)) }
{
    let mut i = start.0;
    // No `for`: a step goes as far as the next byte that may end a line.
    while i < s.len() {
        if 0 < end_len(s, Place(i)) {
            return Place(i);
        }
        i = scan::plain_end(s, Place(i + 1), 255).0;
    }
    Place(i)
}

// Where the line that starts there ends among the first `size` bytes; after them more bytes help to search by blocks.
pub fn body_end_in(s: &[u8], size: usize, start: Place) -> Place
    ensures { result.0 ≡ start.0 + body_len (drop start.0 (take size s.now)) }
{
    let e = body_end(s, start);
    if e.0 + end_len(s, e) <= size {
        return e;
    }
    body_end(base_slices::front(s, size), start)
}

// Where the line after the one that starts there starts.
pub fn next_line(s: &[u8], start: Place) -> Place
    ensures { (result.0 ≡ start.0 + line_len (drop start.0 s.now)) × (result.0 ≤ length s.now + (start.0 - length s.now)) }
{
    let e = body_end(s, start);
    Place(e.0 + end_len(s, e))
}

// x, y and a comma stand there.
pub fn begins_with(s: &[u8], start: Place, x: u8, y: u8) -> bool
    ensures { result ≡ same_bytes (x ∷ y ∷ comma ∷ []) (take 3 (drop start.0 s.now)) }
{
    let at = start.0;
    at < s.len() && 2 < s.len() - at && s[at] == x && s[at + 1] == y && s[at + 2] == b','
}

// A line of this code starts there.
pub fn begins(s: &[u8], start: Place, code: Code) -> bool
    ensures { result ≡ same_bytes (code_bytes (code_meant code)) (take 3 (drop start.0 s.now)) }
{
    let d = base_codes::digits_of(code);
    begins_with(s, start, d.0, d.1)
}

// The codes: the records' by their numbers, then 88.
const CODES: [Code; 8] = [
    Code::FileHeader,
    Code::GroupHeader,
    Code::AccountHeader,
    Code::Detail,
    Code::AccountTrailer,
    Code::GroupTrailer,
    Code::FileTrailer,
    Code::Continuation,
];

// The code of the line that starts there, if it has one. Drawn into each caller: the reader asks it of every record.
#[inline(always)]
pub fn code_at(s: &[u8], start: Place) -> Option<Code>
    ensures { code_found result ≡ code_of (first_line (drop start.0 s.now)) }
{
    for code in CODES {
        if begins(s, start, code) {
            return Some(code);
        }
    }
    None
}

// The 88 lines from a place on.
pub fn further_lines(s: &[u8], start: Place) -> Lines
    ensures { LinesAre result start.0 s.now }
{
    let mut end = start;
    let mut n: u64 = 0;
    // No `for`: a step goes as far as the line does.
    while begins(s, end, Code::Continuation) {
        end = next_line(s, end);
        n += 1;
    }
    Lines {
        count: Records(n),
        end,
    }
}

// Where the record that starts there ends: after its first line and all 88 lines after it.
pub fn record_end(s: &[u8], start: Place) -> Place
    ensures { (result.0 ≡ start.0 + record_size (first_record (lines_of (drop start.0 s.now)))) × (result.0 ≤ length s.now + (start.0 - length s.now)) }
{
    further_lines(s, next_line(s, start)).end
}
