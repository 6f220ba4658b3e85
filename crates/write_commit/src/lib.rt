// A line written: the room that it needs, the state after it, and the order of refusals.

#![tactic(auto)]

ghost use Rattle.std.specs.Prelude.{◌≡◌, true, ◌+◌, ◌≤◌, length};
ghost use Rattle.rules.specs.Numbers.{magnitudes};
ghost use Rattle.rules.specs.Limits.{most, longest_file};
ghost use Rattle.rules.specs.Combine.{has_room};
ghost use Rattle.rules.specs.Writer.{sound, written_by};
ghost use Rattle.base_codes.specs.CodeMeaning.{code_meant};
ghost use Rattle.base_quantities.specs.QuantityMeanings.{sum_meant};
ghost use Rattle.base_refusals.specs.RefusalMeaning.{outcome_of};
ghost use Rattle.write_line.specs.DraftMeaning.{draft_of};
ghost use Rattle.write_state.specs.WriterMeaning.{writer_meant, written_meant};
ghost use Rattle.write_commit.specs.Commit.{state_after, room_for, committed};

use base_codes::Code;
use base_limits::LONGEST_FILE;
use base_quantities::{Place, Records, Units};
use base_refusals::{Reason, Refusal};
use write_line::Draft;
use write_state::{Writer, Written};

// 10, 18 or 15 where a line of n bytes that adds this sum has no room.
#[tactic(auto, using(crate::proofs::CommitLaws::room_is))]
fn line_fits(w: Writer, sum: Units, n: usize, room: usize) -> Result<(), Refusal>
    ensures { outcome_of (λ u. u) result ≡ room_for (writer_meant w) (sum_meant sum) n room }
{
    if w.file.total.join(sum).is_none() {
        return Err(Reason::AmountsTooLarge.nowhere());
    }
    size_fits(w.size, n, room)
}

// 18 or 15 where n bytes more don't fit the file or the slice.
fn size_fits(size: Place, n: usize, room: usize) -> Result<(), Refusal>
    ensures { outcome_of (λ u. u) result ≡ has_room (size.0 + n) room }
{
    let end = size.0;
    if LONGEST_FILE < end || LONGEST_FILE - end < n {
        return Err(Reason::ResultTooLong.nowhere());
    }
    if room < end + n {
        return Err(Reason::NoRoom.nowhere());
    }
    Ok(())
}

// The state after a line of n bytes that has room.
fn after_line(w: Writer, code: Code, sum: Units, items: bool, n: usize) -> Writer
    requires { (sound (writer_meant w) ≡ true) × (magnitudes (sum_meant sum) ≤ most) × (w.size.0 + n ≤ longest_file) }
    ensures { writer_meant result ≡ state_after (writer_meant w) (code_meant code) (sum_meant sum) items n }
{
    let size = w.size;
    let phase = write_state::phase_after(code);
    let this = base_totals::adding(code, sum, Records(1));
    let file = base_totals::add(w.file, this);
    let group = base_totals::add(w.group, this);
    let account = base_totals::add(w.account, this);
    Writer {
        phase,
        items,
        size: Place(size.0 + n),
        file,
        group: base_totals::while_open(read_order::group_open(code), group),
        account: base_totals::while_open(read_order::account_open(code), account),
    }
}

// The drafted line at the end of what stands, with its line end; or the first refusal of 19, 20, 10, 18, 15, and nothing changed.
pub fn commit(
    w: Writer,
    code: Code,
    line: &Draft,
    sum: Units,
    items: bool,
    out: &mut [u8],
) -> Result<Written, Refusal>
    ensures { written_meant w result out.new ≡ written_by (writer_meant w)
        (committed (writer_meant w) (code_meant code) (draft_of line.now) (sum_meant sum) items (length out.old))
        out.old }
{
    let size = w.size;
    if !write_state::is_sound(w) || !write_state::in_turn(code, w.phase, w.items) {
        return Err(Reason::OutOfTurn.nowhere());
    }
    if line.taken.is_err() {
        return Err(Reason::WrongFieldGiven.nowhere());
    }
    let body = base_slices::front(&line.line, line.len);
    let n = body.len() + 1;
    line_fits(w, sum, n, out.len())?;
    write_line::put_at(out, size, body);
    out[size.0 + body.len()] = b'\n';
    Ok(Written {
        length: size.0 + n,
        writer: after_line(w, code, sum, items, n),
    })
}
