// What is printed: files, and answers in figures.
use base_refusals::Refusal;
use std::io;
use write_state::{Writer, Written};

// The bytes that stand.
pub fn print_file(rt: &impl Print, w: Writer, out: &[u8]) -> io::Result<()> {
    let size = w.size;
    rt.write_all(base_slices::front(out, size.0))
}

// A blank and a number.
fn print_figure(rt: &impl Print, n: u64) -> io::Result<()> {
    print!(rt; " {n}")
}

// What was tried; the answer's number, place and length; and how many bytes stand after it, of a call on the state w.
pub fn print_answer(
    rt: &impl Print,
    tried: &[u8],
    w: Writer,
    r: Result<Written, Refusal>,
) -> io::Result<()> {
    rt.write_all(tried)?;
    print!(rt; ":")?;
    let (number, place, length, after) = match r {
        Ok(done) => (0, 0, done.length, done.writer),
        Err(why) => (why.reason.number(), why.place.0, 0, w),
    };
    print_figure(rt, number)?;
    print_figure(rt, place as u64)?;
    print_figure(rt, length as u64)?;
    print_figure(rt, after.size.0 as u64)?;
    println!(rt)
}

// The state after a call on the state w; where the call was refused, that is printed.
pub fn after(rt: &impl Print, w: Writer, r: Result<Written, Refusal>) -> io::Result<Writer> {
    let Ok(done) = r else {
        print_answer(rt, b"refused", w, r)?;
        return Ok(w);
    };
    Ok(done.writer)
}
