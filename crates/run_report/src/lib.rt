// The line that the program `summary` writes: a file's summary, its refusal, or that there are too many bytes.

#![tactic(auto)]

ghost use Rattle.std.specs.Prelude.{◌≤◌, length};
ghost use Rattle.rules.specs.Outcome.{refused, fine};
ghost use Rattle.rules.specs.Report.{as_line, verdict_words, report};
ghost use Rattle.base_numerals.specs.PutBytes.{Put};
ghost use Rattle.base_refusals.specs.RefusalMeaning.{refusal_meant};
ghost use Rattle.base_totals.specs.SummaryMeaning.{summary_meant};
ghost use Rattle.read_file.specs.FileMeanings.{verdict_meant};
ghost use Rattle.run_report.specs.PutLines.{counts, longest_report, PutLine};

use base_limits::MOST_INPUT;
use base_refusals::Refusal;
use base_totals::Summary;

// The longest line: `ok`, five numbers of up to 20 digits, each after a blank and the first with a sign, and a line feed.
pub const LONGEST_REPORT: usize = 109;

// A summary's four counts, each after a blank, at the front of out: how many bytes.
fn put_counts(out: &mut [u8], summary: Summary) -> usize
    requires { length (counts (summary_meant summary)) ≤ length out.old }
    ensures { Put (counts (summary_meant summary)) out.old result out.new }
{
    let mut o = base_numerals::put_digits_after(out, b' ', summary.groups.0);
    o += base_numerals::put_digits_after(&mut out[o..], b' ', summary.accounts.0);
    o += base_numerals::put_digits_after(&mut out[o..], b' ', summary.details.0);
    o += base_numerals::put_digits_after(&mut out[o..], b' ', summary.records.0);
    o
}

// The line for a summary at the front of out: how many bytes.
fn put_summary(out: &mut [u8], summary: Summary) -> usize
    requires { longest_report ≤ length out.old }
    ensures { PutLine (as_line (verdict_words (fine (summary_meant summary)))) out.old result out.new }
{
    let mut o = base_slices::put(out, b"ok ");
    o += base_numerals::put_total(&mut out[o..], summary.total);
    o += put_counts(&mut out[o..], summary);
    o += base_slices::put(&mut out[o..], b"\n");
    o
}

// The line for a refusal at the front of out: how many bytes.
fn put_refusal(out: &mut [u8], why: Refusal) -> usize
    requires { longest_report ≤ length out.old }
    ensures { PutLine (as_line (verdict_words (refused (refusal_meant why)))) out.old result out.new }
{
    let mut o = base_slices::put(out, b"refused");
    o += base_numerals::put_digits_after(&mut out[o..], b' ', why.reason.number());
    o += base_numerals::put_digits_after(&mut out[o..], b' ', why.place.0 as u64);
    o += base_slices::put(&mut out[o..], b"\n");
    o
}

// The line for a verdict at the front of out: how many bytes.
fn put_verdict(out: &mut [u8], verdict: Result<Summary, Refusal>) -> usize
    requires { longest_report ≤ length out.old }
    ensures { PutLine (as_line (verdict_words (verdict_meant verdict))) out.old result out.new }
{
    match verdict {
        Ok(summary) => put_summary(out, summary),
        Err(why) => put_refusal(out, why),
    }
}

// The line for these bytes at the front of out: how many bytes; or 0, and nothing changed, where it doesn't fit.
pub fn report(input: &[u8], out: &mut [u8]) -> usize
    ensures { PutLine (report input.now) out.old result out.new }
{
    if MOST_INPUT < input.len() {
        return base_slices::put(out, b"too long\n");
    }
    let mut line = [0u8; LONGEST_REPORT];
    let length = put_verdict(&mut line, read_file::read(input));
    base_slices::put(out, &line[..length])
}
