// The writer of document 01: each call takes the state by value and hands back the state after it, or why it is refused. The line is drafted in a space
// of its own, by `write_records`; `write_commit` decides whether it is written.

#![tactic(auto)]

ghost use Rattle.std.specs.Prelude.{◌≡◌};
ghost use Rattle.write_line.specs.DraftMeaning.{amount_given};
ghost use Rattle.rules.specs.Writer as rules;
ghost use Rattle.write_state.specs.WriterMeaning.{writer_meant, written_meant};
ghost use Rattle.write_records.specs.ItemMeaning.{item_meant, item_given};

use base_codes::Code;
use base_quantities::Units;
use base_refusals::Refusal;
use write_records::{Detail, Group, Header, Item};
use write_state::{Writer, Written};

// The line 01.
pub fn header(w: Writer, header: Header, out: &mut [u8]) -> Result<Written, Refusal>
    ensures { written_meant w result out.new ≡ rules.write (writer_meant w)
        (rules.write_header header.entry.sender.now header.entry.receiver.now header.entry.date.now header.entry.time.now header.entry.file_number.now)
        out.old }
{
    let line = header.draft();
    write_commit::commit(w, Code::FileHeader, &line, Units::none(), false, out)
}

// The line 02.
pub fn group(w: Writer, group: Group, out: &mut [u8]) -> Result<Written, Refusal>
    ensures { written_meant w result out.new ≡ rules.write (writer_meant w)
        (rules.write_group group.entry.receiver.now group.entry.originator.now group.entry.status.now group.entry.date.now group.entry.time.now
        group.entry.currency.now group.entry.modifier.now)
        out.old }
{
    let line = group.draft();
    write_commit::commit(w, Code::GroupHeader, &line, Units::none(), false, out)
}

// The line 03, with an item or without one.
pub fn account(
    w: Writer,
    number: &[u8],
    currency: &[u8],
    item: Option<Item>,
    out: &mut [u8],
) -> Result<Written, Refusal>
    ensures { written_meant w result out.new ≡ rules.write (writer_meant w)
        (rules.write_account number.now currency.now (item_given item.entry))
        out.old }
{
    let item = item.unwrap_or(Item {
        type_code: b"",
        amount: None,
        count: None,
    });
    let line = write_records::account(number, currency, item);
    let sum = write_line::sum_given(item.amount);
    let items = !read_values::is_empty(item.type_code);
    write_commit::commit(w, Code::AccountHeader, &line, sum, items, out)
}

// A further item of the account: a line 88.
pub fn item(w: Writer, item: Item, out: &mut [u8]) -> Result<Written, Refusal>
    ensures { written_meant w result out.new ≡ rules.write (writer_meant w)
        (rules.write_item (item_meant item.entry))
        out.old }
{
    let sum = write_line::sum_given(item.amount);
    write_commit::commit(w, Code::Continuation, &item.draft(), sum, true, out)
}

// The line 16.
pub fn detail(w: Writer, detail: Detail, out: &mut [u8]) -> Result<Written, Refusal>
    ensures { written_meant w result out.new ≡ rules.write (writer_meant w)
        (rules.write_detail detail.entry.type_code.now (amount_given detail.entry.amount) detail.entry.bank_reference.now detail.entry.customer_reference.now
        detail.entry.text.now)
        out.old }
{
    let sum = write_line::sum_given(detail.amount);
    write_commit::commit(w, Code::Detail, &detail.draft(), sum, false, out)
}
