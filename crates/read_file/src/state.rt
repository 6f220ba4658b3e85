// What is known between two records: what may come next, the longest line, and the summaries of the file, the open group and the open account.
ghost use Rattle.std.specs.Prelude.{◌≡◌};
ghost use Rattle.rules.specs.Verdict as verdict;
ghost use Rattle.read_file.specs.FileMeanings.{state_meant, Held};

use base_codes::Code;
use base_limits::LONGEST_LINE;
use base_totals::Summary;
use read_order::Expected;

#[derive(Clone, Copy)]
pub struct State {
    pub expected: Expected,
    pub limit: usize,
    pub file: Summary,
    pub group: Summary,
    pub account: Summary,
}

// The state before the first record.
pub fn start() -> State
    ensures { (state_meant result ≡ verdict.start) × Held result × (result.file.records.0 ≡ 0) }
{
    let none = base_totals::no_summary();
    State {
        expected: Expected::One(Code::FileHeader),
        limit: LONGEST_LINE,
        file: none,
        group: none,
        account: none,
    }
}
