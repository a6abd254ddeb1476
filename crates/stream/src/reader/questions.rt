// Where a reader stands.
ghost use Rattle.std.specs.Prelude.{◌≡◌, length, ◌==◌};
ghost use Rattle.stream.specs.Readers.{rest_of, place_of};

use super::Reader;

impl Reader<'_> {
    // How many bytes are read: the next record stands at this byte.
    pub fn place(&self) -> u64
        ensures { result ≡ place_of self.now }
    {
        self.place
    }

    // Whether no bytes are left.
    pub fn is_at_end(&self) -> bool
        ensures { result ≡ (length (rest_of self.now) == 0) }
    {
        self.rest.is_empty()
    }
}
