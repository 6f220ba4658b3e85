// Refusal 6: which record may come next, whether the file may end, and what is open after a record.

#![tactic(auto)]

ghost use Rattle.std.specs.Prelude.{◌≡◌};
ghost use Rattle.rules.specs.Order.{may_follow, among, ended, group_open, account_open};
ghost use Rattle.base_codes.specs.CodeMeaning.{code_meant};
ghost use Rattle.read_order.specs.ExpectedCodes.{expected_meant};

use base_codes::Code;

// The codes that may come next.
#[derive(Clone, Copy)]
pub enum Expected {
    Nothing,
    One(Code),
    Either(Code, Code),
}

// The codes that may follow this one.
pub fn expected_after(code: Code) -> Expected
    ensures { expected_meant result ≡ may_follow (code_meant code) }
{
    match code {
        Code::FileHeader | Code::GroupTrailer => Expected::Either(
            Code::GroupHeader,
            Code::FileTrailer,
        ),
        Code::GroupHeader => Expected::One(Code::AccountHeader),
        Code::AccountHeader | Code::Detail => Expected::Either(Code::Detail, Code::AccountTrailer),
        Code::AccountTrailer => Expected::Either(Code::AccountHeader, Code::GroupTrailer),
        Code::FileTrailer | Code::Continuation => Expected::Nothing,
    }
}

// A record of this code may come now.
pub fn allows(expected: Expected, code: Code) -> bool
    ensures { result ≡ among (code_meant code) (expected_meant expected) }
{
    match expected {
        Expected::Nothing => false,
        Expected::One(only) => code == only,
        Expected::Either(one, other) => code == one || code == other,
    }
}

// Nothing may come any more: the 99 was there.
pub fn has_ended(expected: Expected) -> bool
    ensures { result ≡ ended (expected_meant expected) }
{
    matches!(expected, Expected::Nothing)
}

// After a record of this code a group is open.
pub fn group_open(code: Code) -> bool
    ensures { result ≡ group_open (code_meant code) }
{
    !matches!(
        code,
        Code::FileHeader | Code::GroupTrailer | Code::FileTrailer
    )
}

// After a record of this code an account is open.
pub fn account_open(code: Code) -> bool
    ensures { result ≡ account_open (code_meant code) }
{
    matches!(
        code,
        Code::AccountHeader | Code::Detail | Code::Continuation
    )
}
