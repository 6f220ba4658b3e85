// The writer's calls for C: its state is plain numbers, which each call takes by value and hands back.

#![tactic(auto)]

ghost use Rattle.std.specs.Prelude.{◌≡◌};
ghost use Rattle.rules.specs.Writer as rules;
ghost use Rattle.c_writer.specs.WriterFigures.{numbers_of, replied, reply_to, amount_asked, item_of, item_asked};

use c_writer::{Bai2Writer, Bai2Written};
use write_records::{Detail, Group, Header, Item};
use write_state::Writer;

// A writer that has written nothing.
#[unsafe(no_mangle)]
pub extern "C" fn bai2_writer_new() -> Bai2Writer
    ensures { result ≡ numbers_of rules.fresh_writer }
{
    c_writer::numbers_of(Writer::new())
}

// The line 01.
#[unsafe(no_mangle)]
pub extern "C" fn bai2_write_header(
    writer: Bai2Writer,
    sender: &[u8],
    receiver: &[u8],
    date: &[u8],
    time: &[u8],
    file_number: &[u8],
    out: &mut [u8],
) -> Bai2Written
    ensures { replied result out.new ≡ reply_to writer (rules.write_header sender.now receiver.now date.now time.now file_number.now) out.old }
{
    let w = c_writer::state_of(writer);
    let header = Header {
        sender,
        receiver,
        date,
        time,
        file_number,
    };
    let r = write_calls::header(w, header, out);
    c_writer::answered(writer, r)
}

// The line 02.
#[unsafe(no_mangle)]
pub extern "C" fn bai2_write_group(
    writer: Bai2Writer,
    receiver: &[u8],
    originator: &[u8],
    status: &[u8],
    date: &[u8],
    time: &[u8],
    currency: &[u8],
    modifier: &[u8],
    out: &mut [u8],
) -> Bai2Written
    ensures { replied result out.new ≡ reply_to writer (rules.write_group receiver.now originator.now status.now date.now time.now currency.now modifier.now) out.old }
{
    let w = c_writer::state_of(writer);
    let group = Group {
        receiver,
        originator,
        status,
        date,
        time,
        currency,
        modifier,
    };
    let r = write_calls::group(w, group, out);
    c_writer::answered(writer, r)
}

// The line 03, with an item where item_given is not 0.
#[unsafe(no_mangle)]
pub extern "C" fn bai2_write_account(
    writer: Bai2Writer,
    account: &[u8],
    currency: &[u8],
    item_given: u64,
    type_code: &[u8],
    amount_given: u64,
    amount: i64,
    count_given: u64,
    count: u64,
    out: &mut [u8],
) -> Bai2Written
    ensures { replied result out.new ≡ reply_to writer (rules.write_account account.now currency.now (item_asked item_given (item_of type_code.now amount_given amount count_given count))) out.old }
{
    let w = c_writer::state_of(writer);
    let item = Item {
        type_code,
        amount: c_writer::amount_asked(amount_given, amount),
        count: c_writer::items_asked(count_given, count),
    };
    let item = (item_given != 0).then_some(item);
    let r = write_calls::account(w, account, currency, item, out);
    c_writer::answered(writer, r)
}

// A further item of the account: a line 88.
#[unsafe(no_mangle)]
pub extern "C" fn bai2_write_item(
    writer: Bai2Writer,
    type_code: &[u8],
    amount_given: u64,
    amount: i64,
    count_given: u64,
    count: u64,
    out: &mut [u8],
) -> Bai2Written
    ensures { replied result out.new ≡ reply_to writer (rules.write_item (item_of type_code.now amount_given amount count_given count)) out.old }
{
    let w = c_writer::state_of(writer);
    let item = Item {
        type_code,
        amount: c_writer::amount_asked(amount_given, amount),
        count: c_writer::items_asked(count_given, count),
    };
    let r = write_calls::item(w, item, out);
    c_writer::answered(writer, r)
}

// The line 16.
#[unsafe(no_mangle)]
pub extern "C" fn bai2_write_detail(
    writer: Bai2Writer,
    type_code: &[u8],
    amount_given: u64,
    amount: i64,
    bank_reference: &[u8],
    customer_reference: &[u8],
    text: &[u8],
    out: &mut [u8],
) -> Bai2Written
    ensures { replied result out.new ≡ reply_to writer (rules.write_detail type_code.now (amount_asked amount_given amount) bank_reference.now customer_reference.now text.now) out.old }
{
    let w = c_writer::state_of(writer);
    let detail = Detail {
        type_code,
        amount: c_writer::amount_asked(amount_given, amount),
        bank_reference,
        customer_reference,
        text,
    };
    let r = write_calls::detail(w, detail, out);
    c_writer::answered(writer, r)
}

// The line 49.
#[unsafe(no_mangle)]
pub extern "C" fn bai2_write_end_account(writer: Bai2Writer, out: &mut [u8]) -> Bai2Written
    ensures { replied result out.new ≡ reply_to writer rules.end_account out.old }
{
    let w = c_writer::state_of(writer);
    let r = write_ends::end_account(w, out);
    c_writer::answered(writer, r)
}

// The line 98.
#[unsafe(no_mangle)]
pub extern "C" fn bai2_write_end_group(writer: Bai2Writer, out: &mut [u8]) -> Bai2Written
    ensures { replied result out.new ≡ reply_to writer rules.end_group out.old }
{
    let w = c_writer::state_of(writer);
    let r = write_ends::end_group(w, out);
    c_writer::answered(writer, r)
}

// The line 99.
#[unsafe(no_mangle)]
pub extern "C" fn bai2_write_end_file(writer: Bai2Writer, out: &mut [u8]) -> Bai2Written
    ensures { replied result out.new ≡ reply_to writer rules.end_file out.old }
{
    let w = c_writer::state_of(writer);
    let r = write_ends::end_file(w, out);
    c_writer::answered(writer, r)
}
