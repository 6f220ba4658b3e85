// Judges the BAI2 file on standard input, up to 65,536 bytes, and writes one line: its summary, its refusal, or that it is too long.

#![tactic(auto)]

use base_limits::MOST_INPUT;
use run_report::LONGEST_REPORT;
use std::io;
use std::io::Read;

fn main(rt: HostRuntime) -> io::Result<()> {
    let mut input = Vec::new(rt.alloc());
    let mut line = [0u8; LONGEST_REPORT];
    rt.reader()
        .take(MOST_INPUT as u64 + 1)
        .read_to_end(&mut input)?;
    let length = run_report::report(input.as_slice(), &mut line);
    rt.write_all(&line[..length])
}
