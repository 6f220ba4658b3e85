// For each argument, a file of data/: its name, a colon, and the line that `summary` writes for it.

#![tactic(auto)]

use base_limits::MOST_INPUT;
use run_report::LONGEST_REPORT;
use std::io::Read;
use std::rt::{Files, Runtime};
use std::{env, fs, io};

fn main(rt: HostRuntime) -> io::Result<()> {
    for path in env::args(&rt)?.skip(1) {
        judge_file(&rt, path.as_str())?;
    }
    Ok(())
}

// Writes the name of a file and its line; where it can't be read, why, to the standard error.
fn judge_file(rt: &impl Runtime, path: &str) -> io::Result<()> {
    match load(rt, path) {
        Ok(input) => {
            print!(rt; "{path}: ")?;
            write_line(rt, input.as_slice())
        }
        Err(error) => eprintln!(rt; "{path}: {error}"),
    }
}

// A file's bytes, up to one more than are judged.
fn load<R: Files + Alloc>(rt: &R, path: &str) -> io::Result<Vec<u8, R::A>> {
    let mut input = Vec::new(rt.alloc());
    fs::open(rt, path)?
        .take(MOST_INPUT as u64 + 1)
        .read_to_end(&mut input)?;
    Ok(input)
}

// Writes the line for these bytes.
fn write_line(rt: &impl Print, input: &[u8]) -> io::Result<()> {
    let mut line = [0u8; LONGEST_REPORT];
    let length = run_report::report(input, &mut line);
    rt.write_all(&line[..length])
}
