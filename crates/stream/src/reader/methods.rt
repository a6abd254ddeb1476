// Making a reader, and reading.
ghost use Rattle.std.specs.Prelude.{◌≡◌};
ghost use Rattle.stream.specs.Readers.{rest_of, place_of, Reads};

use super::Reader;
use crate::bodies::Body;
use crate::fronts::front;
use faults::StreamFault;

impl<'a> Reader<'a> {
    // A reader at the first of these bytes.
    pub fn new(bytes: &'a [u8]) -> Reader<'a>
        ensures rest { rest_of result ≡ bytes.now }
        ensures place { place_of result ≡ 0 }
    {
        Reader {
            rest: bytes,
            place: 0,
        }
    }

    // The next record with its place, none at the end; where no whole record stands, the reader stays and says why.
    pub fn next(&mut self) -> Result<Option<(u64, Body<'a>)>, StreamFault>
        ensures { Reads self.old result self.new }
    {
        let place = self.place;
        let Some((body, rest)) = front(self.rest, place)? else {
            return Ok(None);
        };
        self.place = place + (self.rest.len() - rest.len()) as u64;
        self.rest = rest;
        Ok(Some((place, body)))
    }
}
