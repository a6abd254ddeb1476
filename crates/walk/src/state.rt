// A walk through the listing of a net.
ghost use Rattle.std.specs.Prelude.{◌≡◌, ◌≤◌, length, take, drop};
ghost use Rattle.survey.specs.Surveys.{start_setting};
ghost use Rattle.trees.specs.Listings.{listing, reached_by, told};
ghost use Rattle.walk.specs.Cursors.{net_at, reached_at, coming_at};

use crate::cursor::Cursor;

mod calls;
mod readings;

// A place in the listing, and how many settings and exchanges were told.
// That the net stays is a clause of each call: one word for that and the rest would only hide it.
#[derive(Clone, Copy)]
pub struct Walk {
    cursor: Cursor,
    settings: u64,
    exchanges: u64,
    ghost within: { exchanges ≤ length (listing (net_at cursor)) },
    ghost coming: { coming_at cursor ≡ drop exchanges (listing (net_at cursor)) },
    ghost reached: { reached_at cursor ≡ reached_by (start_setting (net_at cursor)) (take exchanges (listing (net_at cursor))) },
    ghost counted: { settings ≡ length (told (net_at cursor) (take exchanges (listing (net_at cursor)))) },
}
