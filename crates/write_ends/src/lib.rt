// The ends of the writer of document 01: each call takes the state by value and hands back the state after it, or why it is refused. The line is drafted in a
// space of its own, by `write_records`; `write_commit` decides whether it is written.

#![tactic(auto)]

ghost use Rattle.std.specs.Prelude.{◌≡◌};
ghost use Rattle.rules.specs.Writer as rules;
ghost use Rattle.base_codes.specs.CodeMeaning.{code_meant};
ghost use Rattle.base_totals.specs.SummaryMeaning.{summary_meant};
ghost use Rattle.write_state.specs.WriterMeaning.{writer_meant, written_meant};
ghost use Rattle.write_ends.specs.EndLines.{ended};

use base_codes::Code;
use base_quantities::{Count, Records, Units};
use base_refusals::Refusal;
use base_totals::Summary;
use write_state::{Writer, Written};

// The line 49.
pub fn end_account(w: Writer, out: &mut [u8]) -> Result<Written, Refusal>
    ensures { written_meant w result out.new ≡ rules.write (writer_meant w) rules.end_account out.old }
{
    let account = w.account;
    let records = account.records.add(Records(1));
    let line = write_records::account_end(account.total, records);
    write_commit::commit(w, Code::AccountTrailer, &line, Units::none(), false, out)
}

// The line 98 or 99: the total, this count, and the records with itself.
fn end(
    w: Writer,
    code: Code,
    summary: Summary,
    count: Count,
    out: &mut [u8],
) -> Result<Written, Refusal>
    ensures { written_meant w result out.new ≡ ended (writer_meant w) (code_meant code) (summary_meant summary) count.0 out.old }
{
    let records = summary.records.add(Records(1));
    let line = write_records::trailer(code, summary.total, count, records);
    write_commit::commit(w, code, &line, Units::none(), false, out)
}

// The line 98.
pub fn end_group(w: Writer, out: &mut [u8]) -> Result<Written, Refusal>
    ensures { written_meant w result out.new ≡ rules.write (writer_meant w) rules.end_group out.old }
{
    let group = w.group;
    end(w, Code::GroupTrailer, group, group.accounts, out)
}

// The line 99.
pub fn end_file(w: Writer, out: &mut [u8]) -> Result<Written, Refusal>
    ensures { written_meant w result out.new ≡ rules.write (writer_meant w) rules.end_file out.old }
{
    let file = w.file;
    end(w, Code::FileTrailer, file, file.groups, out)
}
