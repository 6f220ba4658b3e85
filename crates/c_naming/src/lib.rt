// The call for C that tells what a type code is for. include/bai2.h declares it.

#![tactic(auto, unfolding(rules::specs::Answers::code_answer, rules::specs::Answers::code_figures))]

ghost use Rattle.std.specs.Prelude.{◌≡◌};
ghost use Rattle.rules.specs.Answers.{code_answer};
ghost use Rattle.c_naming.specs.CNamed.{code_meant};

use name_codes::CodeClass;

// What the uniform list says of a type code.
#[repr(C)]
#[derive(Clone, Copy)]
pub struct Bai2Code {
    pub listed: u64,
    pub status: u64,
    pub summary: u64,
    pub detail: u64,
    pub side: u64,
}

// The sides.
const NEITHER: u64 = 0;

const CREDIT: u64 = 1;

const DEBIT: u64 = 2;

// The figures of a listed code.
fn listed(status: u64, summary: u64, detail: u64, side: u64) -> Bai2Code
    ensures { code_meant result ≡ record { listed = 1; status = status; summary = summary; detail = detail; side = side } }
{
    Bai2Code {
        listed: 1,
        status,
        summary,
        detail,
        side,
    }
}

// What the uniform list says of a code; all 0 for one that is not listed.
#[unsafe(no_mangle)]
pub extern "C" fn bai2_code_of(code: u64) -> Bai2Code
    ensures { code_meant result ≡ code_answer code }
{
    match name_codes::code_class(code) {
        CodeClass::Unlisted => Bai2Code {
            listed: 0,
            status: 0,
            summary: 0,
            detail: 0,
            side: 0,
        },
        CodeClass::Status => listed(1, 0, 0, NEITHER),
        CodeClass::CreditSummary => listed(0, 1, 0, CREDIT),
        CodeClass::CreditDetail => listed(0, 0, 1, CREDIT),
        CodeClass::DebitSummary => listed(0, 1, 0, DEBIT),
        CodeClass::DebitDetail => listed(0, 0, 1, DEBIT),
        CodeClass::NonMonetary => listed(0, 0, 1, NEITHER),
    }
}
