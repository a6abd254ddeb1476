// Reads a net from standard input and writes the stream of its radial settings to standard output.
#![tactic(auto)]

use console::{BUFFER, read_site};
use roundtrip::Packer;
use std::io::Write;
use std::process::ExitCode;
use stream::Writer;

fn main(rt: HostRuntime) -> anyhow::Result<ExitCode> {
    let Some(site) = read_site(&rt)? else {
        return Ok(ExitCode::FAILURE);
    };
    let mut buffer = vec![in rt.alloc(); 0u8; BUFFER]?;
    let mut packer = Packer::new(&site);
    // Counted and left by `break`, since no promise of `fill` says that the packer gets done.
    for _ in 0..u64::MAX {
        let mut writer = Writer::new(buffer.as_mut_slice());
        packer.fill(&mut writer);
        rt.stdout().write_all(writer.bytes())?;
        if packer.is_done() {
            break;
        }
    }
    Ok(ExitCode::SUCCESS)
}
