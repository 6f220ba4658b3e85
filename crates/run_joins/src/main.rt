// Splits, combinations and parts of the files in data/: each call with its answer in figures, and below it the bytes that it gave.

#![tactic(auto)]

ghost use Rattle.std.specs.Prelude.{◌≤◌, IfOk, vec_len};

use base_amounts::Amount;
use base_refusals::Refusal;
use std::rt::{Files, Runtime};
use std::{fs, io};

// The most bytes that are read of a file, and the room for a result.
const ROOM: usize = 4096;

fn main(rt: HostRuntime) -> io::Result<()> {
    splits(&rt)?;
    combinations(&rt)?;
    groups(&rt)?;
    accounts(&rt)?;
    details(&rt)?;
    items(&rt)
}

// K2, K3, and splits that are refused.
fn splits(rt: &impl Runtime) -> io::Result<()> {
    let mut out = vec![in rt.alloc(); 0u8; ROOM]?;
    let mut exact = [0u8; 275];
    let mut short = [0u8; 274];
    split(rt, b"031001234", "k01.bai", &mut out)?;
    split(rt, b"31001234", "k01.bai", &mut out)?;
    split(rt, b"0087654", "two.bai", &mut out)?;
    split(rt, b"87654", "two.bai", &mut out)?;
    split(rt, b"0087654", "two.bai", &mut exact)?;
    split(rt, b"0087654", "two.bai", &mut short)?;
    split(rt, b"", "two.bai", &mut out)?;
    split(rt, b"0087654,", "k05.bai", &mut out)?;
    split(rt, b"031001234", "k05.bai", &mut out)
}

// One call of split.
fn split(rt: &impl Runtime, name: &[u8], path: &str, out: &mut [u8]) -> io::Result<()> {
    let file = load(rt, path)?;
    let length = join_split::split(name, file.as_slice(), out);
    print!(rt; "split ")?;
    say(rt, name)?;
    print!(rt; " {path}")?;
    answer(rt, length.err())?;
    given(rt, length.unwrap_or(0), out)
}

// K4, and combinations that are refused.
fn combinations(rt: &impl Runtime) -> io::Result<()> {
    let mut out = vec![in rt.alloc(); 0u8; ROOM]?;
    let mut exact = [0u8; 550];
    let mut short = [0u8; 549];
    combine(rt, "k01.bai", "k01.bai", &mut out)?;
    combine(rt, "two.bai", "k01.bai", &mut exact)?;
    combine(rt, "two.bai", "k01.bai", &mut short)?;
    combine(rt, "k05.bai", "k05.bai", &mut out)?;
    combine(rt, "k01.bai", "k05.bai", &mut out)?;
    combine(rt, "largest.bai", "k01.bai", &mut out)?;
    combine(rt, "l48.bai", "k01.bai", &mut out)?;
    combine(rt, "l48.bai", "two.bai", &mut out)
}

// One call of combine.
fn combine(rt: &impl Runtime, a: &str, b: &str, out: &mut [u8]) -> io::Result<()> {
    let first = load(rt, a)?;
    let second = load(rt, b)?;
    print!(rt; "combine {a} {b}")?;
    match join_combine::combine(first.as_slice(), second.as_slice(), out) {
        Ok(length) => {
            answer(rt, None)?;
            figure(rt, 0)?;
            given(rt, length, out)
        }
        Err(why) => {
            answer(rt, Some(why.refusal))?;
            figure(rt, why.file)?;
            given(rt, 0, out)
        }
    }
}

// The length and the bytes that a call wrote.
fn given(rt: &impl Print, length: usize, out: &[u8]) -> io::Result<()> {
    figure(rt, length as u64)?;
    println!(rt)?;
    if length <= out.len() {
        say(rt, &out[0..length])?;
    }
    Ok(())
}

// Groups of a file, and one past the last.
fn groups(rt: &impl Runtime) -> io::Result<()> {
    group(rt, "two.bai", 0)?;
    group(rt, "two.bai", 2)?;
    group(rt, "two.bai", 3)?;
    group(rt, "k05.bai", 0)
}

// One call for a group.
fn group(rt: &impl Runtime, path: &str, n: u64) -> io::Result<()> {
    let file = load(rt, path)?;
    print!(rt; "group {path}")?;
    figure(rt, n)?;
    answer(rt, part_groups::group_refusal(file.as_slice(), n))?;
    println!(rt)?;
    say(rt, part_groups::group(file.as_slice(), n))
}

// Accounts of groups, and one past the last.
fn accounts(rt: &impl Runtime) -> io::Result<()> {
    account(rt, "two.bai", 0, 1)?;
    account(rt, "two.bai", 1, 0)?;
    account(rt, "two.bai", 1, 1)?;
    account(rt, "two.bai", 3, 0)
}

// One call for an account.
fn account(rt: &impl Runtime, path: &str, g: u64, n: u64) -> io::Result<()> {
    let file = load(rt, path)?;
    print!(rt; "account {path}")?;
    figure(rt, g)?;
    figure(rt, n)?;
    answer(rt, part_groups::account_refusal(file.as_slice(), g, n))?;
    println!(rt)?;
    say(rt, part_groups::account(file.as_slice(), g, n))
}

// Details with an amount and a text, with neither, over two lines, and one past the last.
fn details(rt: &impl Runtime) -> io::Result<()> {
    detail(rt, "two.bai", 0, 0, 0)?;
    detail(rt, "two.bai", 0, 0, 1)?;
    detail(rt, "two.bai", 1, 0, 0)?;
    detail(rt, "two.bai", 0, 1, 0)?;
    detail(rt, "k05.bai", 0, 0, 0)
}

// One call for a detail: its type, how its amount was given and its magnitude, or three times 0; and its text.
fn detail(rt: &impl Runtime, path: &str, g: u64, a: u64, n: u64) -> io::Result<()> {
    let file = load(rt, path)?;
    let d = part_details::detail(file.as_slice(), g, a, n);
    print!(rt; "detail {path}")?;
    figure(rt, g)?;
    figure(rt, a)?;
    figure(rt, n)?;
    answer(rt, d.err())?;
    match d {
        Ok(told) => {
            figure(rt, told.type_code)?;
            say_amount(rt, told.amount)?;
        }
        Err(_) => print!(rt; " 0 0 0")?,
    }
    print!(rt; " \"")?;
    say(rt, part_details::detail_text(file.as_slice(), g, a, n))?;
    println!(rt; "\"")
}

// Items of a status with a minus, of a summary with a count over two lines, of the sole empty item, and one past the last.
fn items(rt: &impl Runtime) -> io::Result<()> {
    item(rt, "two.bai", 0, 0, 0)?;
    item(rt, "two.bai", 0, 1, 0)?;
    item(rt, "two.bai", 0, 1, 1)?;
    item(rt, "two.bai", 0, 1, 2)?;
    item(rt, "two.bai", 1, 0, 0)?;
    item(rt, "k05.bai", 0, 0, 0)
}

// One call for an item: its type, how its amount was given and its magnitude, and its item count or none; or three times 0.
fn item(rt: &impl Runtime, path: &str, g: u64, a: u64, n: u64) -> io::Result<()> {
    let file = load(rt, path)?;
    let i = part_items::item(file.as_slice(), g, a, n);
    print!(rt; "item {path}")?;
    figure(rt, g)?;
    figure(rt, a)?;
    figure(rt, n)?;
    answer(rt, i.err())?;
    match i {
        Ok(told) => {
            figure(rt, told.type_code)?;
            say_amount(rt, told.amount)?;
            if let Some(given) = told.count {
                figure(rt, given.0)?;
            }
        }
        Err(_) => print!(rt; " 0 0 0")?,
    }
    println!(rt)
}

// How an amount was given, by number, and its magnitude.
fn say_amount(rt: &impl Print, amount: Amount) -> io::Result<()> {
    let magnitude = base_amounts::magnitude_of(amount);
    figure(rt, base_amounts::form_of(amount))?;
    figure(rt, magnitude.0)
}

// The file's bytes, of those that are read.
fn load<R: Files + Alloc>(rt: &R, path: &str) -> io::Result<Vec<u8, R::A>>
    ensures { IfOk result (λ bytes. vec_len bytes ≤ ROOM) }
{
    let mut bytes = fs::read(rt, path)?;
    bytes.truncate(ROOM);
    Ok(bytes)
}

// A colon, and a refusal's number and place, or 0 and 0.
fn answer(rt: &impl Print, refused: Option<Refusal>) -> io::Result<()> {
    match refused {
        None => print!(rt; ": 0 0"),
        Some(why) => {
            print!(rt; ":")?;
            figure(rt, why.reason.number())?;
            figure(rt, why.place.0 as u64)
        }
    }
}

// A blank and a number.
fn figure(rt: &impl Print, n: u64) -> io::Result<()> {
    print!(rt; " {n}")
}

// Bytes to the standard output.
fn say(rt: &impl Print, bytes: &[u8]) -> io::Result<()> {
    rt.write_all(bytes)
}
