// Parts of a file by number: its groups, a group's accounts, an account's details. A part is a slice of the lent file itself.

#![tactic(auto)]

ghost use Rattle.std.specs.Prelude.{◌≡◌, ◌+◌, ◌≤◌, Ok, length, take, drop};
ghost use Rattle.rules.specs.Outcome.{refusal_of};
ghost use Rattle.rules.specs.Parts as rules;
ghost use Rattle.rules.specs.Answers.{part_answer, group_part, account_part};
ghost use Rattle.base_codes.specs.CodeMeaning.{code_meant};
ghost use Rattle.part_groups.specs.PartMeaning.{part_meant, refusal_told, Inside, bytes_at};
ghost use Rattle.part_groups.specs.PartsEnclosed.{EndsAt, Finds, FindsWithin};

use base_codes::Code;
use base_quantities::Place;
use base_refusals::{Reason, Refusal};

// Where a part starts in the file, and its length.
#[derive(Clone, Copy)]
pub struct Part {
    pub start: Place,
    pub length: usize,
}

impl Part {
    // The part's bytes, of those that the file has.
    pub fn bytes(self, file: &[u8]) -> &[u8]
        ensures { result.now ≡ take self.length (drop self.start.0 file.now) }
    {
        let rest = base_slices::part(file, self.start, Place(file.len()));
        base_slices::front(rest, self.length)
    }
}

// Where the part that opens there ends: where the next one opens, or the envelope's last record begins, of the other code; 17 where none opens there.
fn part_end(s: &[u8], start: Place, opening: Code, closing: Code) -> Result<Place, Refusal>
    requires { start.0 ≤ length s.now }
    ensures { EndsAt (code_meant opening) (code_meant closing) s.now start.0 result }
{
    if !read_lines::begins(s, start, opening) {
        return Err(Reason::NoSuchPart.nowhere());
    }
    let first_end = read_lines::record_end(s, start);
    Ok(find_lines::next_line_of(s, first_end, opening, closing))
}

// The part of this number in an envelope: after its first record, so many parts are passed.
fn nth_part(s: &[u8], opening: Code, closing: Code, n: u64) -> Result<Part, Refusal>
    ensures { Finds (code_meant opening) (code_meant closing) s.now n (part_meant result) }
{
    let mut start = read_lines::record_end(s, Place(0));
    for _ in 0..n {
        start = part_end(s, start, opening, closing)?;
    }
    let end = part_end(s, start, opening, closing)?;
    Ok(Part {
        start,
        length: end.0 - start.0,
    })
}

// The same in a part of the file: the middle of the file is handed on, and the place answered there is counted from the file's start.
fn part_within(
    file: &[u8],
    outer: Part,
    opening: Code,
    closing: Code,
    n: u64,
) -> Result<Part, Refusal>
    requires { outer.start.0 + outer.length ≤ length file.now }
    ensures { FindsWithin (code_meant opening) (code_meant closing) file.now (part_meant (Ok outer)) n (part_meant result) }
{
    let inner = nth_part(outer.bytes(file), opening, closing, n)?;
    Ok(Part {
        start: Place(outer.start.0 + inner.start.0),
        length: inner.length,
    })
}

// Where the group of this number stands, from its 02 to the end of its 98's last line: reader's refusal, 17.
pub fn find_group(file: &[u8], n: u64) -> Result<Part, Refusal>
    ensures found { part_meant result ≡ group_part file.now n }
    ensures inside { Inside file.now (part_meant result) }
{
    read_file::read(file)?;
    nth_part(file, Code::GroupHeader, Code::FileTrailer, n)
}

// Where the account of this number in that group stands, from its 03 to the end of its 49's last line.
pub fn find_account(file: &[u8], g: u64, n: u64) -> Result<Part, Refusal>
    ensures found { part_meant result ≡ account_part file.now g n }
    ensures inside { Inside file.now (part_meant result) }
{
    part_within(
        file,
        find_group(file, g)?,
        Code::AccountHeader,
        Code::GroupTrailer,
        n,
    )
}

// Where the detail of this number in that account stands: its 16, to the end of its last line.
pub fn find_detail(file: &[u8], g: u64, a: u64, n: u64) -> Result<Part, Refusal>
    ensures found { part_meant result ≡ part_answer (rules.detail_part_at file.now g a n) }
    ensures inside { Inside file.now (part_meant result) }
{
    part_within(
        file,
        find_account(file, g, a)?,
        Code::Detail,
        Code::AccountTrailer,
        n,
    )
}

// The bytes of the part that a call found in the file; none where it is refused.
fn bytes_of(file: &[u8], found: Result<Part, Refusal>) -> &[u8]
    requires { Inside file.now (part_meant found) }
    ensures { result.now ≡ bytes_at file.now (part_meant found) }
{
    match found {
        Ok(part) => part.bytes(file),
        Err(_) => &file[..0],
    }
}

// The group's part of the file; empty when refused.
pub fn group(file: &[u8], n: u64) -> &[u8]
    ensures { result.now ≡ rules.part_bytes (rules.group_at file.now n) }
{
    bytes_of(file, find_group(file, n))
}

// The account's part of the file; empty when refused.
pub fn account(file: &[u8], g: u64, n: u64) -> &[u8]
    ensures { result.now ≡ rules.part_bytes (rules.account_at file.now g n) }
{
    bytes_of(file, find_account(file, g, n))
}

// Why there is no such group; none where there is one.
pub fn group_refusal(file: &[u8], n: u64) -> Option<Refusal>
    ensures { refusal_told result ≡ refusal_of (rules.group_at file.now n) }
{
    find_group(file, n).err()
}

// Why there is no such account; none where there is one.
pub fn account_refusal(file: &[u8], g: u64, n: u64) -> Option<Refusal>
    ensures { refusal_told result ≡ refusal_of (rules.account_at file.now g n) }
{
    find_account(file, g, n).err()
}
