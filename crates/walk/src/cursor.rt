// A place in the listing of a net.
ghost use Rattle.std.specs.Prelude.{◌≡◌, true};
ghost use Rattle.search.specs.States.{net_in, descent_of, ceiling_of};
ghost use Rattle.walk.specs.Rests.{may_come_next};

use search::Search;

mod steps;

// Where the search stands, and the rank of the link that enters next at its ceiling; none where no link does, at ceiling 0.
#[derive(Clone, Copy)]
pub(crate) struct Cursor {
    search: Search,
    entering: Option<usize>,
    ghost enters: { may_come_next (net_in search) (descent_of search) (ceiling_of search) entering ≡ true },
}
