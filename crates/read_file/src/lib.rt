// A file's verdict: `record` holds one record's checks in their order, `state` what is known between two records, and this file 1, 2 and a missing 99.

#![tactic(auto)]

ghost use Rattle.std.specs.Prelude.{◌≡◌};
ghost use Rattle.rules.specs.Verdict.{judge};
ghost use Rattle.read_file.specs.FileMeanings.{verdict_meant};
ghost use Rattle.read_file.specs.FileAnswers.{EndIs, JudgedIs};

use crate::state::State;
use base_limits::LONGEST_FILE;
use base_quantities::Place;
use base_refusals::{Reason, Refusal};
use base_totals::Summary;

mod record;
mod state;

// An accepted file: its summary, its longest line (L, or 4,096), and where its 99 starts.
#[derive(Clone, Copy)]
pub struct GoodFile {
    pub summary: Summary,
    pub limit: usize,
    pub last: Place,
}

// After the last record, which starts at `last`, of a file of this length: 6, where the 99 was not there.
#[tactic(auto, unfolding(crate::specs::FileAnswers::at_end))]
fn at_end(st: State, last: Place, length: usize) -> Result<GoodFile, Refusal>
    ensures { EndIs result st last.0 length }
{
    if read_order::has_ended(st.expected) {
        return Ok(GoodFile {
            summary: st.file,
            limit: st.limit,
            last,
        });
    }
    Err(Reason::RecordOutOfOrder.at(Place(length)))
}

// What is known of the file, if it is accepted.
pub fn judge_file(file: &[u8]) -> Result<GoodFile, Refusal>
    ensures { JudgedIs result file.now }
{
    if file.is_empty() {
        return Err(Reason::EmptyFile.nowhere());
    }
    if LONGEST_FILE < file.len() {
        return Err(Reason::FileTooLong.nowhere());
    }
    let mut st = state::start();
    let mut last: usize = 0;
    let mut at: usize = 0;
    // No `for`: a step is a record, as long as it is. A match and no `map_err`: the sum of the places needs what is known of `at`, which a closure would have to be told.
    loop {
        match record::step(st, &file[at..]) {
            Ok(Some(next)) => {
                st = next.state;
                last = at;
                at += next.size;
            }
            Ok(None) => return at_end(st, Place(last), file.len()),
            Err(why) => {
                return Err(why.reason.at(Place(at + why.place.0)));
            }
        }
    }
}

// A file's verdict: its summary, or a refusal with its place in the file.
pub fn read(file: &[u8]) -> Result<Summary, Refusal>
    ensures { verdict_meant result ≡ judge file.now }
{
    let good = judge_file(file)?;
    Ok(good.summary)
}
