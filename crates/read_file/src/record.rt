// One record, in document 01's order: 3, 4, 5; 6; 7, 8, 9; the header's own lines against L; 10; 14, 11, 12, 13.
ghost use Rattle.std.specs.Prelude.{◌≡◌, ◌+◌, ◌≤◌, length};
ghost use Rattle.rules.specs.Lines.{lines_of};
ghost use Rattle.rules.specs.Verdict.{own_lines};
ghost use Rattle.rules.specs.Limits.{longest_file};
ghost use Rattle.base_codes.specs.CodeMeaning.{code_meant};
ghost use Rattle.base_totals.specs.SummaryMeaning.{summary_meant};
ghost use Rattle.read_line_checks.specs.LineChecks.{checked_of, place_within};
ghost use Rattle.read_file.specs.RecordSteps.{limit_k};
ghost use Rattle.read_file.specs.FileAnswers.{NextIs, Settling, SettledIs, StepIs};
ghost use Rattle.read_file.specs.FileMeanings.{Held};

use crate::state::State;
use base_codes::Code;
use base_quantities::{Magnitude, Place};
use base_refusals::{Reason, Refusal};
use base_totals::Summary;
use read_kept::Kept;
use read_line_checks::Scanned;
use read_wanted::want;

// The state after a record, and how many bytes it has.
#[derive(Clone, Copy)]
pub struct Stepped {
    pub state: State,
    pub size: usize,
}

// L, where a header gives it; else the limit that held before.
#[tactic(auto, using(base_codes::proofs::SameCodes::same_codes), unfolding(crate::specs::RecordSteps::limit_k))]
fn limit_after(code: Code, limit: usize, kept: Kept) -> usize
    ensures { result ≡ limit_k (code_meant code) limit kept }
{
    if code == Code::FileHeader {
        return kept.length.unwrap_or(limit);
    }
    limit
}

// 3, of the header's own lines against L.
#[tactic(auto, using(base_codes::proofs::SameCodes::same_codes), unfolding(rules::specs::Verdict::own_lines))]
fn own_lines(code: Code, limit: usize, rec: &[u8]) -> Result<(), Refusal>
    ensures { (checked_of result ≡ own_lines (code_meant code) limit (lines_of rec.now)) × place_within result (length rec.now) }
{
    if code == Code::FileHeader {
        return read_line_checks::none_longer(rec, limit);
    }
    Ok(())
}

// The state after a record of this code: these are the summaries of the file, the open group and the open account, the record included.
fn next_state(code: Code, limit: usize, file: Summary, group: Summary, account: Summary) -> State
    ensures { NextIs result (code_meant code) limit file (summary_meant group) (summary_meant account) }
{
    State {
        expected: read_order::expected_after(code),
        limit,
        file,
        group: base_totals::while_open(read_order::group_open(code), group),
        account: base_totals::while_open(read_order::account_open(code), account),
    }
}

// After the fields of a record with so many lines: its header's own lines, 10, then a trailer's 14, 11, 12, 13.
fn settle(st: State, rec: &[u8], scanned: Scanned, kept: Kept) -> Result<State, Refusal>
    requires { Settling st rec.now scanned.records.0 kept }
    ensures { SettledIs result st rec.now (code_meant scanned.code) scanned.records.0 kept }
{
    let code = scanned.code;
    let limit = limit_after(code, st.limit, kept);
    own_lines(code, limit, rec)?;
    if let Some(past) = kept.past {
        return Err(Reason::AmountsTooLarge.at(past));
    }
    let this = base_totals::adding(code, kept.sum, scanned.records);
    let file = base_totals::add(st.file, this);
    let group = base_totals::add(st.group, this);
    let account = base_totals::add(st.account, this);
    read_trailers::balance(code, account, group, file, kept)?;
    Ok(next_state(code, limit, file, group, account))
}

// The record in front of the rest of the file, if there is one; a refusal with its place in the record.
pub(crate) fn step(st: State, rest: &[u8]) -> Result<Option<Stepped>, Refusal>
    requires { (Held st) × (st.file.records.0 + length rest.now ≤ longest_file) }
    ensures { StepIs result st rest.now }
{
    let Some(scanned) = read_line_checks::scan_record(rest, st.limit)? else {
        return Ok(None);
    };
    if !read_order::allows(st.expected, scanned.code) {
        return Err(Reason::RecordOutOfOrder.at(Place(0)));
    }
    let total = st.file.total;
    let before = Magnitude(total.0 + total.1);
    let kept = read_walk::walk_record(rest, scanned.size, want::first_want(scanned.code), before)?;
    let rec = &rest[..scanned.size];
    let state = settle(st, rec, scanned, kept)?;
    Ok(Some(Stepped {
        state,
        size: scanned.size,
    }))
}
