// A listing as text.
ghost use Rattle.std.specs.Prelude.{◌+◌, ◌*◌, ◌^◌, ◌<◌, ◌≤◌};
ghost use Rattle.sheets.specs.Sheets.{left_on};

use crate::shown::Shown;
use sheets::Sheet;

mod methods;
mod takes;

// The text, the setting reached, how many settings were told, and how many more exchanges are taken: there is room for a line
// of each.
#[derive(Drop)]
pub struct Lines<'a> {
    sheet: Sheet<'a>,
    shown: Shown,
    settings: u64,
    left: u64,
    ghost fits: { 201 * left ≤ left_on sheet },
    ghost counted: { settings + left < 2 ^ 64 },
}
