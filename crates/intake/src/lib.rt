// The intake of a site: its text read, and the net surveyed.
#![tactic(auto)]

ghost use Rattle.std.specs.Prelude.{vec_capacity};
ghost use Rattle.intake.specs.Taken.{Takes};

use faults::Fault;
use net::{ListSource, NetSource};
use survey::{Surveyed, survey};
use text::read;

// Reads a text and surveys the net that it says. The row given is memory for the reading.
pub fn intake(bytes: &[u8], row: Vec<u32>) -> Result<Surveyed, Fault>
    ensures { Takes bytes.now (vec_capacity row) result }
{
    let text = read(bytes, row)?;
    let source = ListSource::new(text.bars(), text.row())?;
    survey(&source)
}
