// What records add up to, for the reader and the writer: a file's summary, a group's, an account's; what each record adds, and two summaries in one.

#![tactic(auto)]

ghost use Rattle.std.specs.Prelude.{◌≡◌, ◌+◌, if◌then◌else◌};
ghost use Rattle.rules.specs.Totals.{no_summary, ◌⊞◌};
ghost use Rattle.rules.specs.Totals as totals;
ghost use Rattle.base_codes.specs.CodeMeaning.{code_meant};
ghost use Rattle.base_quantities.specs.QuantityMeanings.{sum_meant};
ghost use Rattle.base_totals.specs.SummaryMeaning.{nothing_yet, summary_meant, wrapped_summary};

use base_codes::Code;
use base_quantities::{Count, Records, Units};

// A file's total and its numbers of groups, accounts, details and records; likewise a group's, an account's, a record's.
#[derive(Clone, Copy)]
pub struct Summary {
    pub total: Units,
    pub groups: Count,
    pub accounts: Count,
    pub details: Count,
    pub records: Records,
}

// The summary of no records.
pub fn no_summary() -> Summary
    ensures { result ≡ nothing_yet }
{
    Summary {
        total: Units(0, 0),
        groups: Count(0),
        accounts: Count(0),
        details: Count(0),
        records: Records(0),
    }
}

// 1 where the codes are the same, else 0.
fn one(code: Code, of: Code) -> Count
    ensures { result.0 ≡ totals.one (code_meant code) (code_meant of) }
{
    if code == of {
        return Count(1);
    }
    Count(0)
}

// What so many lines of a record of this code add, with this sum of amounts.
pub fn adding(code: Code, total: Units, records: Records) -> Summary
    ensures { summary_meant result ≡ totals.adding (code_meant code) (sum_meant total) records.0 }
{
    Summary {
        total,
        groups: one(code, Code::GroupHeader),
        accounts: one(code, Code::AccountHeader),
        details: one(code, Code::Detail),
        records,
    }
}

// Both summaries in one; a number past the largest of 64 bits wraps.
pub fn add(a: Summary, b: Summary) -> Summary
    ensures { summary_meant result ≡ wrapped_summary (summary_meant a ⊞ summary_meant b) }
{
    Summary {
        total: a.total.add(b.total),
        groups: a.groups.add(b.groups),
        accounts: a.accounts.add(b.accounts),
        details: a.details.add(b.details),
        records: Records(a.records.0.wrapping_add(b.records.0)),
    }
}

// The summary of a group or account that is open; none where it is not.
pub fn while_open(is_open: bool, summary: Summary) -> Summary
    ensures { summary_meant result ≡ (if is_open then summary_meant summary else no_summary) }
{
    if is_open {
        return summary;
    }
    no_summary()
}
