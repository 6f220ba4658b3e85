// The calls for C that read: numbers and byte slices in, numbers out. include/bai2.h declares them.

#![tactic(auto)]

ghost use Rattle.std.specs.Prelude.{◌≡◌, ◌+◌, ◌≤◌};
ghost use Rattle.rules.specs.Numbers.{as_integer};
ghost use Rattle.rules.specs.Limits.{most};
ghost use Rattle.rules.specs.Verdict.{judge};
ghost use Rattle.base_quantities.specs.QuantityMeanings.{sum_meant};
ghost use Rattle.c_reading.specs.CAnswers.{summary_figures, read_meant};

use base_quantities::Units;

pub mod cutting;
pub mod handing;

// What reading a file answers.
#[repr(C)]
#[derive(Clone, Copy)]
pub struct Bai2Summary {
    pub number: u64,
    pub place: u64,
    pub total: i64,
    pub groups: u64,
    pub accounts: u64,
    pub details: u64,
    pub records: u64,
}

// A sum as one signed number.
fn total_of(sum: Units) -> i64
    requires { sum.0 + sum.1 ≤ most }
    ensures { result ≡ as_integer (sum_meant sum) }
{
    let pluses = sum.0;
    let minuses = sum.1;
    if pluses < minuses {
        return -((minuses - pluses) as i64);
    }
    (pluses - minuses) as i64
}

// A file's summary, or its refusal.
#[unsafe(no_mangle)]
pub extern "C" fn bai2_read(file: &[u8]) -> Bai2Summary
    ensures { read_meant result ≡ summary_figures (judge file.now) }
{
    match read_file::read(file) {
        Ok(s) => Bai2Summary {
            number: 0,
            place: 0,
            total: total_of(s.total),
            groups: s.groups.0,
            accounts: s.accounts.0,
            details: s.details.0,
            records: s.records.0,
        },
        Err(why) => Bai2Summary {
            number: why.reason.number(),
            place: why.place.0 as u64,
            total: 0,
            groups: 0,
            accounts: 0,
            details: 0,
            records: 0,
        },
    }
}
