// The text form of a net.
#![tactic(auto)]

ghost use Rattle.std.specs.Prelude.{◌≡◌};

mod lines;
mod numbers;
mod reader;

pub use reader::{MOST_BYTES, MOST_NUMBERS, read};

// What a text says: the number of bars, and a row of two numbers for each link, 0 0 where it is out of service, as a list source reads it.
#[derive(Drop)]
pub struct TextNet {
    bars: u32,
    row: Vec<u32>,
}

impl TextNet {
    // The number of bars.
    pub fn bars(&self) -> u32
        ensures { result ≡ self.now.bars }
    {
        self.bars
    }

    // Two numbers for each link.
    pub fn row(&self) -> &[u32]
        ensures { result.now ≡ self.now.row.items }
    {
        self.row.as_slice()
    }
}
