// A writer into a caller's buffer.
use sheets::Sheet;

mod methods;
mod takes;

// The sheet that the stream is written on.
#[derive(Drop)]
pub struct Writer<'a> {
    sheet: Sheet<'a>,
}
