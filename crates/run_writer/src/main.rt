// Writes two files with every call of the writer, then tries calls that are refused. What it prints is held to `stdout`.

#![tactic(auto)]

mod amounts;
mod files;
mod printing;
mod refusals;

use std::io;

// The room for a file.
const ROOM: usize = 4096;

fn main(rt: HostRuntime) -> io::Result<()> {
    let mut out = vec![in rt.alloc(); 0u8; ROOM]?;
    let k1 = files::k1(&rt, &mut out)?;
    printing::print_file(&rt, k1, &out)?;
    let all = files::every_call(&rt, &mut out)?;
    printing::print_file(&rt, all, &out)?;
    refusals::out_of_turn(&rt, &mut out)?;
    refusals::bad_fields(&rt, &mut out)?;
    refusals::too_much(&rt, &mut out)
}
