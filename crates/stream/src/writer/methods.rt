// Making, writing and reading.
ghost use Rattle.std.specs.Prelude.{◌≡◌, ◌≤◌, [], length, IsOk};
ghost use Rattle.stream.specs.Records.{starts_bytes, head_bytes, end_bytes};
ghost use Rattle.stream.specs.Writers.{room_of, bytes_of, left_in, Wrote, Writes};

use super::Writer;
use crate::records::{end_record, head_fits, net_record, start_record};
use faults::CollectorFault;
use sheets::Sheet;

impl<'a> Writer<'a> {
    // A writer that has written nothing yet.
    pub fn new(buffer: &'a mut [u8]) -> Writer<'a>
        ensures nothing { bytes_of result ≡ [] }
        ensures room { room_of result ≡ length buffer.old }
        ensures left { left_in result ≡ length buffer.old }
    {
        Writer {
            sheet: Sheet::new(buffer),
        }
    }

    // The bytes written so far.
    pub fn bytes(&self) -> &[u8]
        ensures { result.now ≡ bytes_of self.now }
    {
        self.sheet.bytes()
    }

    // Writes the head: the net's bars and links, then its start links in their order; refused where they do not fit.
    pub fn head(&mut self, bars: u16, links: u16, starts: &[u16]) -> Result<(), CollectorFault>
        ensures { Writes (head_bytes bars links starts.now) self.old result self.new }
    {
        if !head_fits(starts.len(), self.sheet.left()) {
            return Err(CollectorFault::Full);
        }
        self.sheet.put(&net_record(bars, links))?;
        self.put_starts(starts)
    }

    // Writes the end: the settings told; refused where it does not fit.
    pub fn end(&mut self, settings: u64) -> Result<(), CollectorFault>
        ensures { Writes (end_bytes settings) self.old result self.new }
    {
        self.sheet.put(&end_record(settings))
    }

    // Writes the records of start links, which fit.
    fn put_starts(&mut self, starts: &[u16]) -> Result<(), CollectorFault>
        requires { length (starts_bytes starts.now) ≤ left_in self.old }
        ensures ok { IsOk result }
        ensures wrote { Wrote (starts_bytes starts.now) self.old self.new }
    {
        for start in starts {
            self.sheet.put(&start_record(*start))?;
        }
        Ok(())
    }
}
