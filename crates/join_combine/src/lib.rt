// Two files combined: A's header and groups, then B's groups, then a fresh 99; measured first, then written.

#![tactic(auto)]

ghost use Rattle.std.specs.Prelude.{◌≡◌, ◌++◌, ◌+◌, ◌-◌, ◌≤◌, T, length};
ghost use Rattle.rules.specs.Numbers.{◌⊕◌};
ghost use Rattle.rules.specs.Lines.{lines_of, record_size};
ghost use Rattle.rules.specs.Limits.{longest_file};
ghost use Rattle.rules.specs.Combine.{lines_within};
ghost use Rattle.rules.specs.Combine as rules;
ghost use Rattle.base_quantities.specs.QuantityMeanings.{sum_meant};
ghost use Rattle.base_numerals.specs.PutBytes.{Put};
ghost use Rattle.read_lines.specs.LineLengths.{first_record};
ghost use Rattle.base_totals.specs.SummaryMeaning.{summary_meant};
ghost use Rattle.read_file.specs.FileAnswers.{IsGood};
ghost use Rattle.join_combine.specs.CombineAnswers.{combined_meant, JudgedAs, combined_accepted, combined_fitting};

use base_quantities::{Count, Place, Records, Units};
use base_refusals::{Reason, Refusal};
use read_file::GoodFile;

// Why two files are not combined; and the file that the reader refused, 1 or 2, or 0, the number that the rules and C have for it.
#[derive(Clone, Copy)]
pub struct Refused {
    pub refusal: Refusal,
    pub file: u64,
}

// A file that the reader accepts, and what it told of it.
#[derive(Clone, Copy)]
struct Accepted<'a> {
    bytes: &'a [u8],
    good: GoodFile,
    ghost is_good: { IsGood good bytes.now },
}

impl From<Refusal> for Refused {
    ghost from_gives = { λ refusal e. e ≡ record { refusal = refusal; file = 0 } };

    // Neither file shows it alone.
    fn from(refusal: Refusal) -> Refused {
        Refused { refusal, file: 0 }
    }
}

// No line is over the limit, of lines none of which is over `known`.
fn within(s: &[u8], known: usize, limit: usize) -> bool
    requires { T (lines_within known (lines_of s.now)) }
    ensures { result ≡ lines_within limit (lines_of s.now) }
{
    known <= limit || read_line_checks::none_longer(s, limit).is_ok()
}

// How many records two files of so many have without those in these three parts.
fn records_left(m: Records, n: Records, x: &[u8], y: &[u8], z: &[u8]) -> Records
    requires { (m.0 ≤ longest_file) × (n.0 ≤ longest_file) × (length x.now ≤ longest_file) × (length y.now ≤ longest_file) × (length z.now ≤ longest_file) }
    ensures { result.0 ≡ (m.0 + n.0) - (length (lines_of x.now) + length (lines_of y.now) + length (lines_of z.now)) }
{
    let gone = join_trailer::count_lines(x)
        .add(join_trailer::count_lines(y))
        .add(join_trailer::count_lines(z));
    Records(m.add(n).0.saturating_sub(gone.0))
}

// These three parts in a row at the front of out: how many bytes.
fn put_three(x: &[u8], y: &[u8], z: &[u8], out: &mut [u8]) -> usize
    requires { length (x.now ++ (y.now ++ z.now)) ≤ length out.old }
    ensures { Put (x.now ++ (y.now ++ z.now)) out.old result out.new }
{
    let mut o = base_slices::put(out, x);
    o += base_slices::put(&mut out[o..], y);
    o += base_slices::put(&mut out[o..], z);
    o
}

// A up to its 99, B from after its header up to its 99, and a fresh 99 with this total: 18, 15.
fn combine_fitting(
    a: &Accepted,
    b: &Accepted,
    header: usize,
    total: Units,
    out: &mut [u8],
) -> Result<usize, Refused>
    requires { (header ≡ record_size (first_record (lines_of b.now.bytes.now))) × (sum_meant total ≡ sum_meant a.now.good.summary.total ⊕ sum_meant b.now.good.summary.total) }
    ensures { combined_meant result out.new ≡ combined_fitting a.now.bytes.now b.now.bytes.now out.old }
{
    let s = a.good.summary;
    let t = b.good.summary;
    let a99 = a.good.last.0;
    let b99 = b.good.last.0;
    let groups = Count(s.groups.0 + t.groups.0);
    let records = records_left(
        s.records,
        t.records,
        &a.bytes[a99..],
        &b.bytes[..header],
        &b.bytes[b99..],
    );
    let last = join_trailer::fresh_trailer(total, groups, records.add(Records(1)));
    let last = last.line();
    let length = a99 + (b99 - header) + last.len();
    join_trailer::fits(length, out.len())?;
    Ok(put_three(&a.bytes[..a99], &b.bytes[header..b99], last, out))
}

// Two accepted files: 10, 18, 15.
fn combine_accepted(a: &Accepted, b: &Accepted, out: &mut [u8]) -> Result<usize, Refused>
    ensures { combined_meant result out.new ≡ combined_accepted (summary_meant a.now.good.summary) (summary_meant b.now.good.summary) a.now.bytes.now b.now.bytes.now out.old }
{
    let sum = a.good.summary.total.join(b.good.summary.total);
    let total = sum.ok_or(Reason::AmountsTooLarge.nowhere())?;
    let header = read_lines::record_end(b.bytes, Place(0)).0;
    let groups = &b.bytes[header..b.good.last.0];
    if !within(groups, b.good.limit, a.good.limit) {
        return Err(Reason::ResultTooLong.nowhere().into());
    }
    combine_fitting(a, b, header, total, out)
}

// What the reader tells of an accepted file; or why it refuses the file, and the number by which combine names it.
fn judge(bytes: &[u8], file: u64) -> Result<GoodFile, Refused>
    ensures { JudgedAs result bytes.now file }
{
    // A match and no `map_err`: what a closure answers does not reach the proof as an equation.
    match read_file::judge_file(bytes) {
        Ok(good) => Ok(good),
        Err(refusal) => Err(Refused { refusal, file }),
    }
}

// Both files in one: A's refusal, B's, 10, 18, 15.
pub fn combine(a: &[u8], b: &[u8], out: &mut [u8]) -> Result<usize, Refused>
    ensures { combined_meant result out.new ≡ rules.combine a.now b.now out.old }
{
    let a = Accepted {
        bytes: a,
        good: judge(a, 1)?,
    };
    let b = Accepted {
        bytes: b,
        good: judge(b, 2)?,
    };
    combine_accepted(&a, &b, out)
}
