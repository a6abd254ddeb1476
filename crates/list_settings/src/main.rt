// Reads a net from standard input and prints its radial settings, one line each, and their number.
#![tactic(auto)]

use anyhow::Context;
use console::{BUFFER, read_site};
use lines::Lines;
use std::io::Write;
use std::process::ExitCode;
use walk::Walk;

// What is said where a line does not fit into the buffer.
const TOO_SMALL: &str = "the buffer is too small";

fn main(rt: HostRuntime) -> anyhow::Result<ExitCode> {
    let Some(site) = read_site(&rt)? else {
        return Ok(ExitCode::FAILURE);
    };
    let mut buffer = vec![in rt.alloc(); 0u8; BUFFER]?;
    let mut lines = Lines::new(&site, buffer.as_mut_slice());
    lines.head().ok().context(TOO_SMALL)?;
    print(&rt, &mut lines)?;
    print_listing(&rt, Walk::new(&site), &mut lines)?;
    lines.total().ok().context(TOO_SMALL)?;
    print(&rt, &mut lines)?;
    Ok(ExitCode::SUCCESS)
}

// Prints a line for each exchange that tells a setting, a buffer at a time, until none is handed on.
fn print_listing(rt: &HostRuntime, mut walk: Walk, lines: &mut Lines) -> anyhow::Result<()> {
    while walk.advance(u64::MAX, lines).count > 0 {
        print(rt, lines)?;
    }
    Ok(())
}

// Prints what was written, and empties the buffer.
fn print(rt: &HostRuntime, lines: &mut Lines) -> anyhow::Result<()> {
    rt.stdout().write_all(lines.bytes())?;
    lines.clear();
    Ok(())
}
