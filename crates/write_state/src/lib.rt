// The writer's state: what was written last, how many bytes stand, and the sums and counts that the trailers need; which states are sound, and
// which line is in turn.

#![tactic(auto)]

ghost use Rattle.std.specs.Prelude.{◌≡◌, leb};
ghost use Rattle.rules.specs.Numbers.{magnitudes};
ghost use Rattle.rules.specs.Writer.{fresh_writer, counted, sound, expected_in, in_turn, phase_after};
ghost use Rattle.base_codes.specs.CodeMeaning.{code_meant};
ghost use Rattle.base_quantities.specs.QuantityMeanings.{sum_meant};
ghost use Rattle.base_totals.specs.SummaryMeaning.{summary_meant};
ghost use Rattle.read_order.specs.ExpectedCodes.{expected_meant};
ghost use Rattle.write_state.specs.WriterMeaning.{phase_meant, writer_meant};

use base_codes::Code;
use base_limits::{LONGEST_FILE, MOST};
use base_quantities::{Magnitude, Place, Units};
use base_totals::Summary;
use read_order::Expected;

// What was written last: nothing; 01 or 98; 02; 03, 88 or 16; 49; 99. The numbers are those of include/bai2.h.
#[derive(Clone, Copy)]
pub enum Phase {
    Fresh = 0,
    BetweenGroups = 1,
    InGroup = 2,
    InAccount = 3,
    BetweenAccounts = 4,
    Finished = 5,
}

// items: a further item may come; size: the place after the bytes so far.
#[derive(Clone, Copy)]
pub struct Writer {
    pub phase: Phase,
    pub items: bool,
    pub size: Place,
    pub file: Summary,
    pub group: Summary,
    pub account: Summary,
}

// What an accepted call answers: the length of all bytes so far, and the state after it.
#[derive(Clone, Copy)]
pub struct Written {
    pub length: usize,
    pub writer: Writer,
}

impl Writer {
    // A writer that has written nothing.
    pub fn new() -> Writer
        ensures { writer_meant result ≡ fresh_writer }
    {
        let none = base_totals::no_summary();
        Writer {
            phase: Phase::Fresh,
            items: false,
            size: Place(0),
            file: none,
            group: none,
            account: none,
        }
    }
}

// ---- sound states

// No count is larger than the bytes so far are many.
fn counts_within(s: Summary, size: Place) -> bool
    ensures { result ≡ counted size.0 (summary_meant s) }
{
    let n = size.0 as u64;
    s.groups.0 <= n && s.accounts.0 <= n && s.details.0 <= n && s.records.0 <= n
}

// The magnitudes of a sum add up to at most this one.
fn sum_within(u: Units, most: Magnitude) -> bool
    ensures { result ≡ leb (magnitudes (sum_meant u)) most.0 }
{
    u.0 <= most.0 && u.1 <= most.0 - u.0
}

// The state's numbers are ones that calls can have made.
#[tactic(auto, unfolding(rules::specs::Writer::sound))]
pub fn is_sound(w: Writer) -> bool
    ensures { result ≡ sound (writer_meant w) }
{
    let (file, group, account) = (w.file, w.group, w.account);
    let sum = file.total;
    w.size.0 <= LONGEST_FILE
        && sum_within(sum, Magnitude(MOST))
        && sum_within(group.total, Magnitude(sum.0 + sum.1))
        && sum_within(account.total, Magnitude(sum.0 + sum.1))
        && counts_within(file, w.size)
        && counts_within(group, w.size)
        && counts_within(account, w.size)
}

// ---- turns

// The codes that may come in this phase: what the reader lets follow the line written last.
fn expected_in(phase: Phase) -> Expected
    ensures { expected_meant result ≡ expected_in (phase_meant phase) }
{
    match phase {
        Phase::Fresh => Expected::One(Code::FileHeader),
        Phase::BetweenGroups => read_order::expected_after(Code::GroupTrailer),
        Phase::InGroup => read_order::expected_after(Code::GroupHeader),
        Phase::InAccount => read_order::expected_after(Code::Detail),
        Phase::BetweenAccounts => read_order::expected_after(Code::AccountTrailer),
        Phase::Finished => read_order::expected_after(Code::FileTrailer),
    }
}

// A line of this code may come in this phase; a further item where a detail may, and only if items is true.
pub fn in_turn(code: Code, phase: Phase, items: bool) -> bool
    ensures { result ≡ in_turn (code_meant code) (phase_meant phase) items }
{
    let expected = expected_in(phase);
    if code == Code::Continuation {
        return items && read_order::allows(expected, Code::Detail);
    }
    read_order::allows(expected, code)
}

// The phase after a line of this code.
pub fn phase_after(code: Code) -> Phase
    ensures { phase_meant result ≡ phase_after (code_meant code) }
{
    match code {
        Code::FileHeader | Code::GroupTrailer => Phase::BetweenGroups,
        Code::GroupHeader => Phase::InGroup,
        Code::AccountHeader | Code::Detail | Code::Continuation => Phase::InAccount,
        Code::AccountTrailer => Phase::BetweenAccounts,
        Code::FileTrailer => Phase::Finished,
    }
}
