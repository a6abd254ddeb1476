// Making, writing and reading a sheet.
ghost use Rattle.std.specs.Prelude.{◌≡◌, [], length};
ghost use Rattle.sheets.specs.Sheets.{room_on, bytes_on, left_on, WritesOn};

use super::Sheet;
use bytes::BufMut;
use faults::CollectorFault;
use std::io::Cursor;

impl<'a> Sheet<'a> {
    // A sheet with nothing written.
    pub fn new(buffer: &'a mut [u8]) -> Sheet<'a>
        ensures nothing { bytes_on result ≡ [] }
        ensures room { room_on result ≡ length buffer.old }
        ensures left { left_on result ≡ length buffer.old }
    {
        Sheet {
            page: Cursor::new(buffer),
        }
    }

    // The bytes that it has room for.
    pub fn room(&self) -> usize
        ensures { result ≡ room_on self.now }
    {
        self.page.get_ref().len()
    }

    // How many bytes more it has room for.
    pub fn left(&self) -> usize
        ensures { result ≡ left_on self.now }
    {
        self.page.remaining_mut()
    }

    // The bytes written.
    pub fn bytes(&self) -> &[u8]
        ensures { result.now ≡ bytes_on self.now }
    {
        &self.page.get_ref()[..self.page.position() as usize]
    }

    // Writes bytes behind the others; refused where they do not fit.
    pub fn put(&mut self, bytes: &[u8]) -> Result<(), CollectorFault>
        ensures { WritesOn bytes.now self.old result self.new }
    {
        self.page.put_slice(bytes).map_err(|_| CollectorFault::Full)
    }

    // Nothing is written any more.
    pub fn clear(&mut self)
        ensures nothing { bytes_on self.new ≡ [] }
        ensures room { room_on self.new ≡ room_on self.old }
        ensures left { left_on self.new ≡ room_on self.old }
    {
        self.page.set_position(0);
    }
}
