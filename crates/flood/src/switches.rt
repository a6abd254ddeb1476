// A surveyed net, its links switched.
ghost use Rattle.std.specs.Prelude.{◌≡◌, false, length, replicate};
ghost use Rattle.net.specs.Nets.{nth, put};
ghost use Rattle.net.specs.Settings.{opening};
ghost use Rattle.survey.specs.Surveys.{start_setting};
ghost use Rattle.survey.specs.Answers.{net_of};
ghost use Rattle.trees.specs.Listings.{fed};
ghost use Rattle.flood.specs.Marked.{switched, fed_in};
ghost use Rattle.flood.specs.Closing.{MayClose};
ghost use Rattle.flood.specs.Rows.{Presents};

use crate::marks::Marks;
use crate::rows::write_row;
use crate::ways::Ways;
use faults::BoardFault;
use net::NetSource;
use survey::Surveyed;

// A surveyed net, and which of its links are closed.
#[derive(Clone, Copy)]
pub struct Switches {
    site: Surveyed,
    closed: Marks<60>,
}

impl Switches {
    // Every link is open.
    #[tactic(auto, using(crate::proofs::Sweeps::all_open))]
    pub fn new(site: &Surveyed) -> Switches
        ensures site { result.site ≡ site.now }
        ensures row { switched result ≡ replicate (length (net_of site.now).links) false }
    {
        Switches {
            site: *site,
            closed: Marks::new(),
        }
    }

    // The start links are closed, all others open.
    pub fn at_start(site: &Surveyed) -> Switches
        ensures site { result.site ≡ site.now }
        ensures row { switched result ≡ start_setting (net_of site.now) }
    {
        let mut switches = Switches::new(site);
        for link in site.start_links() {
            switches.put(u64::from(*link), true);
        }
        switches
    }

    // The surveyed net.
    pub fn site(&self) -> &Surveyed
        ensures { result.now ≡ self.now.site }
    {
        &self.site
    }

    // The marks of the closed links; past the links of the net a mark says nothing.
    pub fn closed(&self) -> Marks<60>
        ensures { result ≡ self.now.closed }
    {
        self.closed
    }

    // Whether a link is closed; no for what is no link.
    pub fn has_closed(&self, link: u64) -> bool
        ensures { result ≡ nth (switched self.now) link false }
    {
        link <= self.site.links() && self.closed.has(link)
    }

    // Whether a link may be closed: it must be in service and open.
    pub fn may_close(&self, link: u64) -> Result<(), BoardFault>
        ensures { MayClose (net_of self.now.site) (switched self.now) link result }
    {
        if !self.site.is_in_service(link) {
            return Err(BoardFault::NotInService(link));
        }
        if self.has_closed(link) {
            return Err(BoardFault::NotOpen(link));
        }
        Ok(())
    }

    // Closes or opens a link; what is no link changes nothing.
    #[tactic(auto, using(net::proofs::Numbered::put_first))]
    pub fn put(&mut self, link: u64, closed: bool)
        ensures site { self.new.site ≡ self.old.site }
        ensures row { switched self.new ≡ put (switched self.old) link closed }
    {
        self.closed.put(link, closed);
    }

    // Fills a row of one byte a link: 1 for a closed link, 0 for an open one. Another row is refused.
    pub fn present(&self, row: &mut [u8]) -> Result<(), BoardFault>
        ensures { Presents (net_of self.now.site) (switched self.now) row.old result row.new }
    {
        if row.len() as u64 != self.site.links() {
            return Err(BoardFault::RowLength);
        }
        write_row(self, row);
        Ok(())
    }

    // The bars that are fed from the infeed over closed links.
    pub fn flood(&self) -> Marks<32>
        ensures { fed_in (net_of self.now.site) result ≡ fed (net_of self.now.site) (switched self.now) }
    {
        Ways {
            site: &self.site,
            closed: &self.closed,
        }
        .flood()
    }

    // The bars that are fed when one link more is open.
    #[tactic(auto, using(net::proofs::Numbered::put_first))]
    pub fn flood_without(&self, link: u64) -> Marks<32>
        ensures { fed_in (net_of self.now.site) result ≡ fed (net_of self.now.site) (opening (switched self.now) link) }
    {
        let mut closed = self.closed;
        closed.put(link, false);
        Ways {
            site: &self.site,
            closed: &closed,
        }
        .flood()
    }
}
