// What the programs share: a site read from standard input, a refusal printed, and how much is written at a time. Their first and
// last lines are their own: one function for them would take the rest as a closure, and ask of its caller that it may be called.
#![tactic(auto)]

ghost use Rattle.std.specs.Prelude.{◌≡◌, Some, None, IfOk, IfSome, MatchResult};
ghost use Rattle.net.specs.Settings.{Setting, Radial};
ghost use Rattle.survey.specs.Answers.{net_of};

use faults::Fault;
use intake::intake;
use std::io::Read;
use survey::Surveyed;
use text::{MOST_BYTES, MOST_NUMBERS};

// The bytes of output that a program gathers before it writes them: any head, line, exchange or end fits.
pub const BUFFER: usize = 65536;

// Reads a site from standard input. One that is handed on has a radial setting; another is refused on standard output, and there is none.
pub fn read_site(rt: &HostRuntime) -> anyhow::Result<Option<Surveyed>>
    ensures { IfOk result (λ found. IfSome found (λ site. (T : Setting) × Radial (net_of site) T)) }
{
    let mut bytes = Vec::new(rt.alloc());
    rt.stdin()
        .take(MOST_BYTES as u64 + 1)
        .read_to_end(&mut bytes)?;
    let row = Vec::with_capacity(rt.alloc(), MOST_NUMBERS)?;
    site_or_refusal(rt, intake(bytes.as_slice(), row))
}

// The site of an answer; of a refused one none, and its refusal is printed.
fn site_or_refusal(
    rt: &HostRuntime,
    answer: Result<Surveyed, Fault>,
) -> anyhow::Result<Option<Surveyed>>
    ensures { IfOk result (λ found. MatchResult answer (λ site. found ≡ Some site) (λ _. found ≡ None)) }
{
    match answer {
        Ok(site) => Ok(Some(site)),
        Err(fault) => {
            refuse(rt, fault)?;
            Ok(None)
        }
    }
}

// Prints a refusal on standard output, or want of memory on standard error.
fn refuse(rt: &HostRuntime, fault: Fault) -> anyhow::Result<()> {
    match fault.refusal() {
        Some(refusal) => rt.println(refusal)?,
        None => rt.eprintln("out of memory")?,
    }
    Ok(())
}
