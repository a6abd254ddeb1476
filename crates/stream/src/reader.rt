// A reader of a stream.
ghost use Rattle.std.specs.Prelude.{◌+◌, ◌^◌, ◌<◌, length};

mod methods;
mod questions;

// The bytes not yet read, and how many stand before them.
#[derive(Drop)]
pub struct Reader<'a> {
    rest: &'a [u8],
    place: u64,
    ghost short: { place + length rest.now < 2 ^ 64 },
}
