// A sheet that bytes are written on.
ghost use Rattle.std.specs.Prelude.{◌^◌, ◌<◌, ◌≤◌, length};
ghost use Rattle.std.specs.Io.Cursor.{cursor_position, cursor_inner};

use std::io::Cursor;

mod methods;

// A caller's buffer, and how far it is written.
#[derive(Drop)]
pub struct Sheet<'a> {
    page: Cursor<&'a mut [u8]>,
    ghost within: { cursor_position page ≤ length (cursor_inner page).now },
    ghost short: { length (cursor_inner page).now < 2 ^ 64 },
}
