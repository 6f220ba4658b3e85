// The walk over a record's lines and fields: refusals 7, 8 and 9, and what the later checks need.

#![tactic(auto)]

ghost use Rattle.std.specs.Prelude.{◌≡◌, Err, length, take};
ghost use Rattle.read_wanted.specs.Wants.{wanted_of};
ghost use Rattle.read_walk.specs.WalkKept.{point, end_k};
ghost use Rattle.read_walk.specs.WalkAnswers.{walked_of, Walks};

use base_quantities::{Magnitude, Place};
use base_refusals::{Reason, Refusal};
use read_kept::Kept;
use read_wanted::want;
use read_wanted::want::Want;

// After the record's last line, with this wanted, this kept and the last slash that ended a line: what is missing.
fn finish(want: Want, kept: Kept, slash: Place) -> Result<Kept, Refusal>
    ensures { walked_of result ≡ end_k (point (wanted_of want) kept slash.0) }
{
    if want::may_lack(want) {
        return Ok(kept);
    }
    Err(Reason::WrongField.at(slash))
}

// The walk over the record in front of rest stops at the first fault found; places are counted from the record's start. `before`: the magnitudes of the
// records before.
fn walk_lines(rest: &[u8], rec: &[u8], first: Want, before: Magnitude) -> Result<Kept, Refusal>
    requires { rec.now ≡ take (length rec.now) rest.now }
    ensures { Walks rec.now first before.0 result }
{
    let mut want = first;
    let mut kept = Kept::none(before);
    let mut slash = Place(0);
    let mut at: usize = 0;
    // No `for`: a step is a line, and below a field, as long as they are.
    while at < rec.len() {
        let e = read_lines::body_end_in(rest, rec.len(), Place(at)).0;
        let mut a = at + 3;
        at = e + read_lines::end_len(rec, Place(e));
        if e < a {
            return Err(Reason::LineBadlyEnded.at(Place(a)));
        }
        loop {
            let text = want::is_text(want);
            let Some(n) = read_field_ends::field_extent(text, &rec[a..e]) else {
                return Err(Reason::LineBadlyEnded.at(Place(e)));
            };
            let f = a + n;
            if read_kept::is_kept(want) {
                kept = kept.keep(want, Place(a), &rec[a..f]);
            }
            // A match and no `map_err`: what a closure answers does not reach the proof as an equation.
            match read_fields::take_detail_first(want, &rec[a..f]) {
                Err(reason) => return Err(reason.at(Place(a))),
                Ok(next) => want = next,
            }
            if text {
                break;
            }
            a = f + 1;
            if rec[f] == b'/' {
                let t = a + read_field_ends::blanks_len(&rec[a..e]);
                if t < e {
                    return Err(Reason::LineBadlyEnded.at(Place(t)));
                }
                slash = Place(f);
                break;
            }
        }
    }
    finish(want, kept, slash)
}

// The walk over a record, the first `size` bytes of what is left of the file; `before`: the magnitudes of the records before.
pub fn walk_record(
    rest: &[u8],
    size: usize,
    first: Want,
    before: Magnitude,
) -> Result<Kept, Refusal>
    ensures { Walks (take size rest.now) first before.0 result }
{
    walk_lines(rest, base_slices::front(rest, size), first, before)
}
