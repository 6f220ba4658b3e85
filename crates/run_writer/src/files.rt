// Two files: K1, and one with every call of the writer.
use crate::amounts::{minus, plus};
use crate::printing::after;
use base_quantities::Signed;
use std::io;
use write_line::Items;
use write_records::{Detail, Group, Header, Item};
use write_state::Writer;

// K1 of document 01; the writer leaves the 16's funds empty.
pub fn k1(rt: &impl Print, out: &mut [u8]) -> io::Result<Writer> {
    let w = Writer::new();
    let w = after(
        rt,
        w,
        write_calls::header(
            w,
            Header {
                sender: b"122099999",
                receiver: b"123456789",
                date: b"040621",
                time: b"0200",
                file_number: b"1",
            },
            out,
        ),
    )?;
    let w = after(
        rt,
        w,
        write_calls::group(
            w,
            Group {
                receiver: b"031001234",
                originator: b"122099999",
                status: b"1",
                date: b"040620",
                time: b"2359",
                currency: b"",
                modifier: b"2",
            },
            out,
        ),
    )?;
    let w = status_account(rt, w, b"0975312468", b"USD", b"010", minus(500), out)?;
    let w = after(
        rt,
        w,
        write_calls::detail(
            w,
            Detail {
                type_code: b"165",
                amount: plus(1500),
                bank_reference: b"DD1620",
                customer_reference: b"",
                text: b"DEALER PAYMENTS",
            },
            out,
        ),
    )?;
    end_all(rt, w, out)
}

// An account with one item, a status.
fn status_account(
    rt: &impl Print,
    w: Writer,
    number: &[u8],
    currency: &[u8],
    type_code: &[u8],
    amount: Option<Signed>,
    out: &mut [u8],
) -> io::Result<Writer> {
    after(
        rt,
        w,
        write_calls::account(
            w,
            number,
            currency,
            Some(Item {
                type_code,
                amount,
                count: None,
            }),
            out,
        ),
    )
}

// The ends of account, group and file.
fn end_all(rt: &impl Print, w: Writer, out: &mut [u8]) -> io::Result<Writer> {
    let w = after(rt, w, write_ends::end_account(w, out))?;
    let w = after(rt, w, write_ends::end_group(w, out))?;
    after(rt, w, write_ends::end_file(w, out))
}

// A file of two groups with every call.
pub fn every_call(rt: &impl Print, out: &mut [u8]) -> io::Result<Writer> {
    let w = Writer::new();
    let w = after(
        rt,
        w,
        write_calls::header(
            w,
            Header {
                sender: b"BANK A",
                receiver: b"0087654",
                date: b"240229",
                time: b"2400",
                file_number: b"000000001",
            },
            out,
        ),
    )?;
    let w = two_accounts(rt, w, out)?;
    let w = after(
        rt,
        w,
        write_calls::group(
            w,
            Group {
                receiver: b"031001234",
                originator: b"BANK A",
                status: b"4",
                date: b"240229",
                time: b"9999",
                currency: b"",
                modifier: b"3",
            },
            out,
        ),
    )?;
    let w = status_account(rt, w, b"1", b"USD", b"905", minus(1_000_000), out)?;
    end_all(rt, w, out)
}

// A group for no receiver, with an account without items and one with items.
fn two_accounts(rt: &impl Print, w: Writer, out: &mut [u8]) -> io::Result<Writer> {
    let w = after(
        rt,
        w,
        write_calls::group(
            w,
            Group {
                receiver: b"",
                originator: b"BANK A",
                status: b"1",
                date: b"240228",
                time: b"",
                currency: b"USD",
                modifier: b"",
            },
            out,
        ),
    )?;
    let w = without_items(rt, w, out)?;
    let w = with_items(rt, w, out)?;
    after(rt, w, write_ends::end_group(w, out))
}

// An account without an item, and a detail without an amount.
fn without_items(rt: &impl Print, w: Writer, out: &mut [u8]) -> io::Result<Writer> {
    let w = after(rt, w, write_calls::account(w, b"0012345", b"", None, out))?;
    let w = after(
        rt,
        w,
        write_calls::detail(
            w,
            Detail {
                type_code: b"890",
                amount: None,
                bank_reference: b"",
                customer_reference: b"",
                text: b"PLEASE CALL 9/5, ROOM 7",
            },
            out,
        ),
    )?;
    after(rt, w, write_ends::end_account(w, out))
}

// An account with three items, a credit and a debit.
fn with_items(rt: &impl Print, w: Writer, out: &mut [u8]) -> io::Result<Writer> {
    let w = status_account(rt, w, b"0099887766", b"CAD", b"010", minus(250_075), out)?;
    let w = after(
        rt,
        w,
        write_calls::item(
            w,
            Item {
                type_code: b"100",
                amount: plus(300_000),
                count: Some(Items(2)),
            },
            out,
        ),
    )?;
    let w = after(
        rt,
        w,
        write_calls::item(
            w,
            Item {
                type_code: b"400",
                amount: plus(50_000),
                count: None,
            },
            out,
        ),
    )?;
    credit_and_debit(rt, w, out)
}

// A credit without text, a debit, and the account's end.
fn credit_and_debit(rt: &impl Print, w: Writer, out: &mut [u8]) -> io::Result<Writer> {
    let w = after(
        rt,
        w,
        write_calls::detail(
            w,
            Detail {
                type_code: b"165",
                amount: plus(300_000),
                bank_reference: b"DD1620",
                customer_reference: b"REF 7",
                text: b"",
            },
            out,
        ),
    )?;
    let w = after(
        rt,
        w,
        write_calls::detail(
            w,
            Detail {
                type_code: b"475",
                amount: plus(50_000),
                bank_reference: b"",
                customer_reference: b"",
                text: b"CHECK 000123",
            },
            out,
        ),
    )?;
    after(rt, w, write_ends::end_account(w, out))
}
