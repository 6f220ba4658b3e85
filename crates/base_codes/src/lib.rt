// The codes of records, one type for every crate that reads or writes them, and the two digits of each.

#![tactic(auto)]

ghost use Rattle.std.specs.Prelude.{◌≡◌};
ghost use Rattle.rules.specs.Lines.{code_bytes, code_number};
ghost use Rattle.base_codes.specs.CodeMeaning.{code_meant, bytes_meant};

// What kind of record a line begins, or that it carries on the one before it.
#[derive(Clone, Copy, PartialEq, Eq)]
pub enum Code {
    FileHeader,
    GroupHeader,
    AccountHeader,
    Detail,
    AccountTrailer,
    GroupTrailer,
    FileTrailer,
    Continuation,
}

// The two digits of a code.
#[derive(Clone, Copy)]
pub struct Digits(pub u8, pub u8);

// The code's two digits as a number. A match, and no discriminants with `as`: those must differ, and that the numbers do is proved here and not presumed (must-fail/file_ends_as_a_group.edit).
pub fn number_of(code: Code) -> u8
    ensures { result ≡ code_number (code_meant code) }
{
    match code {
        Code::FileHeader => 1,
        Code::GroupHeader => 2,
        Code::AccountHeader => 3,
        Code::Detail => 16,
        Code::AccountTrailer => 49,
        Code::GroupTrailer => 98,
        Code::FileTrailer => 99,
        Code::Continuation => 88,
    }
}

// A code's digits.
pub fn digits_of(code: Code) -> Digits
    ensures { bytes_meant result ≡ code_bytes (code_meant code) }
{
    let n = number_of(code);
    let first = b'0' + n / 10;
    let second = b'0' + n % 10;
    Digits(first, second)
}
