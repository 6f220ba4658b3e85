// Calls that are refused: 19, 20, 10 and 15. Each leaves all that was written as it stood.
use crate::amounts::{minus, plus};
use crate::printing::{after, print_answer, print_file};
use base_quantities::Signed;
use std::io;
use write_line::Items;
use write_records::{Detail, Group, Header, Item};
use write_state::Writer;

// A writer after a header, a group and an account without an item.
fn in_account(rt: &impl Print, out: &mut [u8]) -> io::Result<Writer> {
    let w = Writer::new();
    let w = after(
        rt,
        w,
        write_calls::header(
            w,
            Header {
                sender: b"A",
                receiver: b"B",
                date: b"240229",
                time: b"0000",
                file_number: b"0",
            },
            out,
        ),
    )?;
    let w = after(
        rt,
        w,
        write_calls::group(
            w,
            Group {
                receiver: b"B",
                originator: b"A",
                status: b"1",
                date: b"240229",
                time: b"",
                currency: b"",
                modifier: b"",
            },
            out,
        ),
    )?;
    after(rt, w, write_calls::account(w, b"7", b"", None, out))
}

// Prints what a header answers.
fn try_header(
    rt: &impl Print,
    tried: &[u8],
    w: Writer,
    sender: &[u8],
    date: &[u8],
    out: &mut [u8],
) -> io::Result<()> {
    print_answer(
        rt,
        tried,
        w,
        write_calls::header(
            w,
            Header {
                sender,
                receiver: b"B",
                date,
                time: b"0000",
                file_number: b"0",
            },
            out,
        ),
    )
}

// Prints what a further item answers.
fn try_item(rt: &impl Print, tried: &[u8], w: Writer, out: &mut [u8]) -> io::Result<()> {
    print_answer(
        rt,
        tried,
        w,
        write_calls::item(
            w,
            Item {
                type_code: b"010",
                amount: plus(1),
                count: None,
            },
            out,
        ),
    )
}

// Prints what a detail answers.
fn try_detail(
    rt: &impl Print,
    tried: &[u8],
    w: Writer,
    type_code: &[u8],
    amount: Option<Signed>,
    text: &[u8],
    out: &mut [u8],
) -> io::Result<()> {
    print_answer(
        rt,
        tried,
        w,
        write_calls::detail(
            w,
            Detail {
                type_code,
                amount,
                bank_reference: b"",
                customer_reference: b"",
                text,
            },
            out,
        ),
    )
}

// A detail without references and text.
fn short_detail(
    rt: &impl Print,
    w: Writer,
    type_code: &[u8],
    amount: Option<Signed>,
    out: &mut [u8],
) -> io::Result<Writer> {
    after(
        rt,
        w,
        write_calls::detail(
            w,
            Detail {
                type_code,
                amount,
                bank_reference: b"",
                customer_reference: b"",
                text: b"",
            },
            out,
        ),
    )
}

// 19: calls out of turn.
pub fn out_of_turn(rt: &impl Print, out: &mut [u8]) -> io::Result<()> {
    print_answer(
        rt,
        b"end of a file that was not begun",
        Writer::new(),
        write_ends::end_file(Writer::new(), out),
    )?;
    let w = in_account(rt, out)?;
    try_header(rt, b"second header", w, b"A", b"240229", out)?;
    print_answer(
        rt,
        b"end of a group with an open account",
        w,
        write_ends::end_group(w, out),
    )?;
    try_item(rt, b"item after an account with none", w, out)?;
    after_a_detail(rt, w, out)
}

// 19: after a detail no further item, after its account no detail.
fn after_a_detail(rt: &impl Print, w: Writer, out: &mut [u8]) -> io::Result<()> {
    let w = short_detail(rt, w, b"165", plus(1), out)?;
    try_item(rt, b"item after a detail", w, out)?;
    let w = after(rt, w, write_ends::end_account(w, out))?;
    try_detail(
        rt,
        b"detail after its account",
        w,
        b"165",
        plus(1),
        b"",
        out,
    )?;
    print_file(rt, w, out)
}

// 20: fields that the reader would refuse.
pub fn bad_fields(rt: &impl Print, out: &mut [u8]) -> io::Result<()> {
    try_header(
        rt,
        b"February 29, 2005",
        Writer::new(),
        b"A",
        b"050229",
        out,
    )?;
    try_header(
        rt,
        b"comma in a name",
        Writer::new(),
        b"A,B",
        b"240229",
        out,
    )?;
    let w = in_account(rt, out)?;
    try_detail(rt, b"minus of a credit", w, b"165", minus(1), b"", out)?;
    try_detail(rt, b"amount of a note", w, b"890", plus(0), b"", out)?;
    bad_details(rt, w, out)?;
    counted_status(rt, w, out)
}

// 20: a count beside a customised status.
fn counted_status(rt: &impl Print, w: Writer, out: &mut [u8]) -> io::Result<()> {
    let w = after(rt, w, write_ends::end_account(w, out))?;
    print_answer(
        rt,
        b"count of a customised status",
        w,
        write_calls::account(
            w,
            b"8",
            b"",
            Some(Item {
                type_code: b"905",
                amount: minus(1),
                count: Some(Items(1)),
            }),
            out,
        ),
    )
}

// 20: an amount that is too long, texts that the writer does not take, and a status.
fn bad_details(rt: &impl Print, w: Writer, out: &mut [u8]) -> io::Result<()> {
    try_detail(
        rt,
        b"amount of 19 digits",
        w,
        b"165",
        plus(1_000_000_000_000_000_000),
        b"",
        out,
    )?;
    try_detail(
        rt,
        b"text with a slash first",
        w,
        b"165",
        plus(1),
        b"/A",
        out,
    )?;
    try_detail(
        rt,
        b"text with a blank last",
        w,
        b"165",
        plus(1),
        b"A ",
        out,
    )?;
    try_detail(
        rt,
        b"customised status in a detail",
        w,
        b"905",
        plus(1),
        b"",
        out,
    )?;
    print_file(rt, w, out)
}

// 10 and 15: magnitudes that add up to too much, as in K12, and a slice too short.
pub fn too_much(rt: &impl Print, out: &mut [u8]) -> io::Result<()> {
    let w = in_account(rt, out)?;
    let w = short_detail(rt, w, b"165", plus(999_999_999_999_999_998), out)?;
    try_detail(
        rt,
        b"one more than all amounts may add up to",
        w,
        b"475",
        plus(2),
        b"",
        out,
    )?;
    let w = short_detail(rt, w, b"475", plus(1), out)?;
    let mut short = [0u8; 10];
    print_answer(
        rt,
        b"slice of 10 bytes",
        w,
        write_ends::end_account(w, &mut short[0..10]),
    )?;
    let w = after(rt, w, write_ends::end_account(w, out))?;
    print_file(rt, w, out)
}
