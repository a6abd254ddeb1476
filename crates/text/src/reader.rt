// The text reader.
ghost use Rattle.std.specs.Prelude.{vec_capacity};
ghost use Rattle.text.specs.Form.{OneReading};
ghost use Rattle.text.specs.Readings.{Reads};

use crate::TextNet;
use crate::lines::{bars_line, link_line};
use faults::{Fault, TextFault};

// The most bytes of a text.
pub const MOST_BYTES: usize = 4096;

// The most numbers that a text gives for its row: after `bars 1` there is room for 1,022 lines of 4 bytes.
pub const MOST_NUMBERS: usize = 2044;

// Reads a text into bars and a row, which takes the memory of the row given. No text has two readings.
#[tactic(auto, using(crate::proofs::Unique::one_reading))]
pub fn read(text: &[u8], mut row: Vec<u32>) -> Result<TextNet, Fault>
    ensures answer { Reads text.now (vec_capacity row) result }
    ensures one { OneReading text.now }
{
    if text.len() > MOST_BYTES {
        return Err(Fault::Text(TextFault::TooLong));
    }
    let mut lines = text.split_inclusive(|byte| *byte == b'\n');
    let bars = lines
        .next()
        .and_then(bars_line)
        .ok_or(TextFault::NotInForm(1))?;
    row.clear();
    for (line, number) in lines.zip(2..) {
        let (a, b) = link_line(line).ok_or(TextFault::NotInForm(number))?;
        row.push(a)?;
        row.push(b)?;
    }
    Ok(TextNet { bars, row })
}
