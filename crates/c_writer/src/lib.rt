// The writer's state and its answers as plain numbers, which C hands from call to call; amounts and counts that C gives or leaves out.

#![tactic(auto)]

ghost use Rattle.std.specs.Prelude.{◌≡◌, []};
ghost use Rattle.base_quantities.specs.QuantityMeanings.{signed_meant};
ghost use Rattle.write_line.specs.DraftMeaning.{amount_given, items_given};
ghost use Rattle.base_totals.specs.SummaryMeaning.{summary_meant};
ghost use Rattle.write_state.specs.declared.Writer as state;
ghost use Rattle.write_state.specs.WriterMeaning.{phase_meant, writer_meant, written_meant};
ghost use Rattle.c_writer.specs.WriterFigures.{summary_of, figures_of, phase_of, size_of, state_of, numbers_of, answer_of, signed_of, amount_asked, items_asked};

use base_limits::LONGEST_FILE;
use base_quantities::{Count, Magnitude, Place, Records, Signed, Units};
use base_refusals::Refusal;
use base_totals::Summary;
use write_line::Items;
use write_state::{Phase, Writer, Written};

// A summary in figures.
#[repr(C)]
#[derive(Clone, Copy)]
pub struct Figures {
    pub pluses: u64,
    pub minuses: u64,
    pub groups: u64,
    pub accounts: u64,
    pub details: u64,
    pub lines: u64,
}

// Where the writer stands: the bytes so far, what was written last, whether a further item may come, and the summaries.
#[repr(C)]
#[derive(Clone, Copy)]
pub struct Bai2Writer {
    pub size: u64,
    pub phase: u64,
    pub items: u64,
    pub file: Figures,
    pub group: Figures,
    pub account: Figures,
}

// What a call of the writer answers.
#[repr(C)]
#[derive(Clone, Copy)]
pub struct Bai2Written {
    pub number: u64,
    pub place: u64,
    pub length: u64,
    pub writer: Bai2Writer,
}

// ---- the state

impl From<Figures> for Summary {
    // The summary that the figures say.
    fn from(f: Figures) -> Summary
        ensures { summary_meant result ≡ summary_of f }
    {
        Summary {
            total: Units(f.pluses, f.minuses),
            groups: Count(f.groups),
            accounts: Count(f.accounts),
            details: Count(f.details),
            records: Records(f.lines),
        }
    }
}

impl From<Summary> for Figures {
    // A summary's figures.
    fn from(s: Summary) -> Figures
        ensures { result ≡ figures_of (summary_meant s) }
    {
        Figures {
            pluses: s.total.0,
            minuses: s.total.1,
            groups: s.groups.0,
            accounts: s.accounts.0,
            details: s.details.0,
            lines: s.records.0,
        }
    }
}

// The phase of this number of include/bai2.h; any other is taken for the last, and `size_of` refuses it. So there is a phase for each number, and no `TryFrom`.
#[tactic(auto, unfolding(crate::specs::WriterFigures::phase_of))]
fn phase_of(n: u64) -> Phase
    ensures { phase_meant result ≡ phase_of n }
{
    match n {
        0 => Phase::Fresh,
        1 => Phase::BetweenGroups,
        2 => Phase::InGroup,
        3 => Phase::InAccount,
        4 => Phase::BetweenAccounts,
        _ => Phase::Finished,
    }
}

// The place after the bytes so far; past any file where phase or items have no meaning.
#[tactic(auto, unfolding(crate::specs::WriterFigures::known, crate::specs::WriterFigures::size_of))]
fn size_of(w: Bai2Writer) -> Place
    ensures { result.0 ≡ size_of w }
{
    if 5 < w.phase || 1 < w.items {
        return Place(LONGEST_FILE + 1);
    }
    Place(w.size as usize)
}

// The state that the numbers say.
#[tactic(auto, unfolding(crate::specs::WriterFigures::state_of))]
pub fn state_of(w: Bai2Writer) -> Writer
    ensures { writer_meant result ≡ state_of w }
{
    Writer {
        phase: phase_of(w.phase),
        items: w.items == 1,
        size: size_of(w),
        file: Summary::from(w.file),
        group: Summary::from(w.group),
        account: Summary::from(w.account),
    }
}

// A state's numbers.
pub fn numbers_of(w: Writer) -> Bai2Writer
    ensures { result ≡ numbers_of (writer_meant w) }
{
    Bai2Writer {
        size: w.size.0 as u64,
        phase: w.phase as u64,
        items: u64::from(w.items),
        file: Figures::from(w.file),
        group: Figures::from(w.group),
        account: Figures::from(w.account),
    }
}

// The answer for C, at any state before the call: where it was refused, the numbers given stay.
#[tactic(auto, unfolding(crate::specs::WriterFigures::numbers_after), using(base_refusals::proofs::RefusalsBack::not_numbered_0))]
pub fn answered(given: Bai2Writer, r: Result<Written, Refusal>) -> Bai2Written
    ensures { (w : state.Writer) → result ≡ answer_of given (written_meant w r []) }
{
    match r {
        Ok(done) => Bai2Written {
            number: 0,
            place: 0,
            length: done.length as u64,
            writer: numbers_of(done.writer),
        },
        Err(why) => Bai2Written {
            number: why.reason.number(),
            place: why.place.0 as u64,
            length: 0,
            writer: given,
        },
    }
}

// ---- amounts and counts

// A number's sign and magnitude.
fn signed_of(n: i64) -> Signed
    ensures { signed_meant result ≡ signed_of n }
{
    Signed {
        negative: n < 0,
        magnitude: Magnitude(n.unsigned_abs()),
    }
}

// The amount, or none where none is given.
#[tactic(auto, unfolding(crate::specs::WriterFigures::or_none))]
pub fn amount_asked(given: u64, n: i64) -> Option<Signed>
    ensures { amount_given result ≡ amount_asked given n }
{
    (given != 0).then_some(signed_of(n))
}

// The number of items, or none where none is given.
#[tactic(auto, unfolding(crate::specs::WriterFigures::or_none))]
pub fn items_asked(given: u64, n: u64) -> Option<Items>
    ensures { items_given result ≡ items_asked given n }
{
    (given != 0).then_some(Items(n))
}
