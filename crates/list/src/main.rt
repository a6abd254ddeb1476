// Reads a net from standard input and says what was read and found.
#![tactic(auto)]

ghost use Rattle.std.specs.Iterator.{IsFinite};

use console::read_site;
use net::NetSource;
use std::fmt::Display;
use std::process::ExitCode;
use survey::Surveyed;

fn main(rt: HostRuntime) -> anyhow::Result<ExitCode> {
    let Some(site) = read_site(&rt)? else {
        return Ok(ExitCode::FAILURE);
    };
    describe(&rt, &site)?;
    Ok(ExitCode::SUCCESS)
}

// Prints the surveyed net in words.
fn describe(rt: &impl Print, site: &Surveyed) -> anyhow::Result<()> {
    println!(rt; "bars: {}", site.bars())?;
    print_numbers(
        rt,
        "links in service:",
        (1..=site.links()).filter(|link| site.is_in_service(*link)),
    )?;
    print_numbers(
        rt,
        "links out of service:",
        (1..=site.links()).filter(|link| !site.is_in_service(*link)),
    )?;
    print_numbers(rt, "start setting:", site.start_links().iter())?;
    print_numbers(rt, "bars by rank:", site.bars_by_rank().iter())?;
    print_numbers(rt, "links by rank:", site.links_by_rank().iter())?;
    Ok(())
}

// Prints a title and then numbers, on one line.
fn print_numbers<N: Display + Drop, I: Iterator<Item = N> + Drop>(
    rt: &impl Print,
    title: &str,
    numbers: I,
) -> anyhow::Result<()>
    requires can { I.can_next numbers }
    requires ends { IsFinite (I.remaining numbers) }
{
    print!(rt; "{title}")?;
    for number in numbers {
        print!(rt; " {number}")?;
    }
    println!(rt)?;
    Ok(())
}
