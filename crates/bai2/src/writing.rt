// The exports that write.
ghost use Rattle.std.specs.Prelude.{◌≡◌};
ghost use Rattle.rules.specs.Writer as rules;
ghost use Rattle.c_writer.specs.WriterFigures.{numbers_of, replied, reply_to, amount_asked, item_of, item_asked};

use c_writer::{Bai2Writer, Bai2Written};

// A writer that has written nothing.
#[unsafe(no_mangle)]
pub extern "C" fn bai2_writer_new() -> Bai2Writer
    ensures { result ≡ numbers_of rules.fresh_writer }
{
    c_writing::bai2_writer_new()
}

// The line 01.
#[unsafe(no_mangle)]
pub extern "C" fn bai2_write_header(
    writer: Bai2Writer,
    sender: &[u8],
    receiver: &[u8],
    date: &[u8],
    time: &[u8],
    file_number: &[u8],
    out: &mut [u8],
) -> Bai2Written
    ensures { replied result out.new ≡ reply_to writer (rules.write_header sender.now receiver.now date.now time.now file_number.now) out.old }
{
    c_writing::bai2_write_header(writer, sender, receiver, date, time, file_number, out)
}

// The line 02.
#[unsafe(no_mangle)]
pub extern "C" fn bai2_write_group(
    writer: Bai2Writer,
    receiver: &[u8],
    originator: &[u8],
    status: &[u8],
    date: &[u8],
    time: &[u8],
    currency: &[u8],
    modifier: &[u8],
    out: &mut [u8],
) -> Bai2Written
    ensures { replied result out.new ≡ reply_to writer (rules.write_group receiver.now originator.now status.now date.now time.now currency.now modifier.now) out.old }
{
    c_writing::bai2_write_group(
        writer, receiver, originator, status, date, time, currency, modifier, out,
    )
}

// The line 03, with an item where item_given is not 0.
#[unsafe(no_mangle)]
pub extern "C" fn bai2_write_account(
    writer: Bai2Writer,
    account: &[u8],
    currency: &[u8],
    item_given: u64,
    type_code: &[u8],
    amount_given: u64,
    amount: i64,
    count_given: u64,
    count: u64,
    out: &mut [u8],
) -> Bai2Written
    ensures { replied result out.new ≡ reply_to writer (rules.write_account account.now currency.now (item_asked item_given (item_of type_code.now amount_given amount count_given count))) out.old }
{
    c_writing::bai2_write_account(
        writer,
        account,
        currency,
        item_given,
        type_code,
        amount_given,
        amount,
        count_given,
        count,
        out,
    )
}

// A further item of the account: a line 88.
#[unsafe(no_mangle)]
pub extern "C" fn bai2_write_item(
    writer: Bai2Writer,
    type_code: &[u8],
    amount_given: u64,
    amount: i64,
    count_given: u64,
    count: u64,
    out: &mut [u8],
) -> Bai2Written
    ensures { replied result out.new ≡ reply_to writer (rules.write_item (item_of type_code.now amount_given amount count_given count)) out.old }
{
    c_writing::bai2_write_item(
        writer,
        type_code,
        amount_given,
        amount,
        count_given,
        count,
        out,
    )
}

// The line 16.
#[unsafe(no_mangle)]
pub extern "C" fn bai2_write_detail(
    writer: Bai2Writer,
    type_code: &[u8],
    amount_given: u64,
    amount: i64,
    bank_reference: &[u8],
    customer_reference: &[u8],
    text: &[u8],
    out: &mut [u8],
) -> Bai2Written
    ensures { replied result out.new ≡ reply_to writer (rules.write_detail type_code.now (amount_asked amount_given amount) bank_reference.now customer_reference.now text.now) out.old }
{
    c_writing::bai2_write_detail(
        writer,
        type_code,
        amount_given,
        amount,
        bank_reference,
        customer_reference,
        text,
        out,
    )
}

// The line 49.
#[unsafe(no_mangle)]
pub extern "C" fn bai2_write_end_account(writer: Bai2Writer, out: &mut [u8]) -> Bai2Written
    ensures { replied result out.new ≡ reply_to writer rules.end_account out.old }
{
    c_writing::bai2_write_end_account(writer, out)
}

// The line 98.
#[unsafe(no_mangle)]
pub extern "C" fn bai2_write_end_group(writer: Bai2Writer, out: &mut [u8]) -> Bai2Written
    ensures { replied result out.new ≡ reply_to writer rules.end_group out.old }
{
    c_writing::bai2_write_end_group(writer, out)
}

// The line 99.
#[unsafe(no_mangle)]
pub extern "C" fn bai2_write_end_file(writer: Bai2Writer, out: &mut [u8]) -> Bai2Written
    ensures { replied result out.new ≡ reply_to writer rules.end_file out.old }
{
    c_writing::bai2_write_end_file(writer, out)
}
