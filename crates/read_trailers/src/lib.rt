// What a trailer is held to against the summary of what it encloses: refusals 14, 11, 12 and 13.

#![tactic(auto)]

ghost use Rattle.std.specs.Prelude.{◌≡◌};
ghost use Rattle.rules.specs.Outcome.{check};
ghost use Rattle.base_codes.specs.CodeMeaning.{code_meant};
ghost use Rattle.base_refusals.specs.RefusalMeaning.{reason_number};
ghost use Rattle.read_line_checks.specs.LineChecks.{checked_of};
ghost use Rattle.base_totals.specs.SummaryMeaning.{summary_meant};
ghost use Rattle.read_trailers.specs.TrailerChecks.{within_k, total_k, count_k, records_k, trailer_k, account_k, balanced_k};

use base_codes::Code;
use base_limits::MOST;
use base_quantities::{Count, Place};
use base_refusals::{Reason, Refusal};
use base_totals::Summary;
use read_kept::Kept;

// Refused for this reason at this place, where a check does not hold.
fn require(holds: bool, reason: Reason, place: Place) -> Result<(), Refusal>
    ensures { checked_of result ≡ check holds (reason_number reason) place.0 }
{
    if holds { Ok(()) } else { Err(reason.at(place)) }
}

// 14: a group's or file's sum, at the total.
#[tactic(auto, using(crate::proofs::TrailerLaws::within_diff), unfolding(crate::specs::TrailerChecks::within_k))]
fn sum_within(s: Summary, kept: Kept) -> Result<(), Refusal>
    ensures { checked_of result ≡ within_k (summary_meant s) kept }
{
    let sum = s.total;
    let within = sum.0.abs_diff(sum.1) <= MOST;
    require(within, Reason::SumTooLarge, kept.total.at)
}

// 11: a trailer's total.
#[tactic(auto, using(crate::proofs::TrailerLaws::minus_right, crate::proofs::TrailerLaws::minus_wrong, crate::proofs::TrailerLaws::plus_right, crate::proofs::TrailerLaws::plus_wrong), unfolding(crate::specs::TrailerChecks::total_k))]
fn right_total(s: Summary, kept: Kept) -> Result<(), Refusal>
    ensures { checked_of result ≡ total_k (summary_meant s) kept }
{
    let sum = s.total;
    let magnitude = kept.total.value;
    let right = if kept.total_negative {
        sum.0 <= sum.1 && sum.1 - sum.0 == magnitude.0
    } else {
        sum.1 <= sum.0 && sum.0 - sum.1 == magnitude.0
    };
    require(right, Reason::WrongTotal, kept.total.at)
}

// 12: a trailer's count of accounts or groups.
#[tactic(auto, unfolding(crate::specs::TrailerChecks::count_k))]
fn right_count(n: Count, kept: Kept) -> Result<(), Refusal>
    ensures { checked_of result ≡ count_k n.0 kept }
{
    require(n.0 == kept.count.value.0, Reason::WrongCount, kept.count.at)
}

// 13: a trailer's record count.
#[tactic(auto, unfolding(crate::specs::TrailerChecks::records_k))]
fn right_records(s: Summary, kept: Kept) -> Result<(), Refusal>
    ensures { checked_of result ≡ records_k (summary_meant s) kept }
{
    require(
        s.records.0 == kept.records.value.0,
        Reason::WrongRecordCount,
        kept.records.at,
    )
}

// The 98 of a group with n accounts, or the 99 of a file with n groups.
#[tactic(auto, unfolding(crate::specs::TrailerChecks::trailer_k))]
fn right_trailer(s: Summary, n: Count, kept: Kept) -> Result<(), Refusal>
    ensures { checked_of result ≡ trailer_k (summary_meant s) n.0 kept }
{
    sum_within(s, kept)?;
    right_total(s, kept)?;
    right_count(n, kept)?;
    right_records(s, kept)
}

// The 49 of an account.
#[tactic(auto, unfolding(crate::specs::TrailerChecks::account_k))]
fn right_account(s: Summary, kept: Kept) -> Result<(), Refusal>
    ensures { checked_of result ≡ account_k (summary_meant s) kept }
{
    right_total(s, kept)?;
    right_records(s, kept)
}

// A trailer against the summaries of its account, its group and the file, itself included.
#[tactic(auto, unfolding(crate::specs::TrailerChecks::balanced_k))]
pub fn balance(
    code: Code,
    account: Summary,
    group: Summary,
    file: Summary,
    kept: Kept,
) -> Result<(), Refusal>
    ensures { checked_of result ≡ balanced_k (code_meant code) (summary_meant account) (summary_meant group) (summary_meant file) kept }
{
    match code {
        Code::AccountTrailer => right_account(account, kept),
        Code::GroupTrailer => right_trailer(group, group.accounts, kept),
        Code::FileTrailer => right_trailer(file, file.groups, kept),
        Code::FileHeader
        | Code::GroupHeader
        | Code::AccountHeader
        | Code::Detail
        | Code::Continuation => Ok(()),
    }
}
