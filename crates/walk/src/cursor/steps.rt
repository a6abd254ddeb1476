// The exchange that comes next, and the step past it.
ghost use Rattle.std.specs.Prelude.{◌≡◌, ℕ, ◌-◌, true, false, not, take, drop, is_some, Some};
ghost use Rattle.std.specs.Option.{option_map};
ghost use Rattle.survey.specs.Surveys.{start_setting};
ghost use Rattle.survey.specs.Answers.{net_of};
ghost use Rattle.trees.specs.Rules.{start_link_of};
ghost use Rattle.trees.specs.Listings.{forward, back, listing, reached_by};
ghost use Rattle.flood.specs.Rows.{Presents};
ghost use Rattle.search.specs.Descents.{link_at, setting_at};
ghost use Rattle.search.specs.States.{net_in, descent_of, setting_of, ceiling_of};
ghost use Rattle.collectors.specs.Exchanges.{said_by};
ghost use Rattle.walk.specs.Rests.{past, climb, to_come, may_come_next, first};
ghost use Rattle.walk.specs.Cursors.{net_at, reached_at, coming_at, MayMove, exchange_of};

use super::Cursor;
use collectors::{Exchange, Kind};
use faults::BoardFault;
use search::{Move, Search};
use survey::Surveyed;

// Goes to lower ceilings until a link of a rank above this one may enter, which at the next ceiling may be any; answers its rank.
fn settle(search: &mut Search, above: usize) -> Option<usize>
    ensures net { net_in search.new ≡ net_in search.old }
    ensures setting { descent_of search.new ≡ descent_of search.old }
    ensures enters { may_come_next (net_in search.new) (descent_of search.new) (ceiling_of search.new) result ≡ true }
    ensures coming { to_come (net_in search.new) (descent_of search.new) (ceiling_of search.new) result ≡ past (net_in search.old) (setting_of search.old) (ceiling_of search.old) above (climb (net_in search.old) (descent_of search.old)) }
{
    let mut entering = search.entering_above(above);
    while entering.is_none() && search.lower() {
        entering = search.entering_above(0);
    }
    entering
}

impl Cursor {
    // At the start of the listing.
    pub(crate) fn new(site: &Surveyed) -> Cursor
        ensures net { net_at result ≡ net_of site.now }
        ensures setting { reached_at result ≡ start_setting (net_at result) }
        ensures coming { coming_at result ≡ listing (net_at result) }
    {
        let mut search = Search::new(site);
        let entering = settle(&mut search, 0);
        Cursor { search, entering }
    }

    // The net whose listing it is.
    pub(crate) fn site(&self) -> &Surveyed
        ensures { net_of result.now ≡ net_at self.now }
    {
        self.search.site()
    }

    // Fills a row of one byte a link with the setting reached: 1 closed, 0 open. Another row is refused.
    pub(crate) fn present(&self, row: &mut [u8]) -> Result<(), BoardFault>
        ensures { Presents (net_at self.now) (reached_at self.now) row.old result row.new }
    {
        self.search.present(row)
    }

    // Whether nothing is to come.
    pub(crate) fn is_done(&self) -> bool
        ensures { result ≡ not (is_some (first (coming_at self.now))) }
    {
        self.entering.is_none() && self.search.last_move().is_none()
    }

    // The exchange that comes next; none at the end of the listing.
    pub(crate) fn next(&self) -> Option<Exchange>
        ensures { option_map said_by result ≡ first (coming_at self.now) }
    {
        match self.entering {
            Some(entering) => {
                let leaving = self.search.ceiling();
                self.exchange(Kind::Forward, Move { leaving, entering })
            }
            None => {
                let moved = self.search.last_move()?;
                self.exchange(Kind::Back, moved)
            }
        }
    }

    // Steps past the exchange that comes next; stays at the end of the listing.
    pub(crate) fn step(&mut self)
        ensures net { net_at self.new ≡ net_at self.old }
        ensures setting { reached_at self.new ≡ reached_by (reached_at self.old) (take 1 (coming_at self.old)) }
        ensures coming { coming_at self.new ≡ drop 1 (coming_at self.old) }
    {
        match self.entering {
            Some(rank) => {
                self.search.to_child(rank);
                self.entering = settle(&mut self.search, 0);
            }
            None => {
                if let Some(moved) = self.search.back() {
                    self.entering = settle(&mut self.search, moved.entering);
                }
            }
        }
    }

    // The exchange of a move, forward or back; none where it has not two links.
    fn exchange(&self, kind: Kind, moved: Move) -> Option<Exchange>
        requires { MayMove (net_at self.now) moved }
        ensures { option_map said_by result ≡ Some (exchange_of kind (net_at self.now) moved) }
    {
        let (leaving, entering) = self.search.both_links_of(moved)?;
        match kind {
            Kind::Forward => Exchange::new(kind, leaving, entering),
            Kind::Back => Exchange::new(kind, entering, leaving),
        }
    }
}
