// The ways of a flood: sweeps over the closed links feed bar after bar.
ghost use Rattle.std.specs.Prelude.{◌≡◌, true, false, Some};
ghost use Rattle.net.specs.Nets.{nth, ends_of};
ghost use Rattle.trees.specs.Listings.{touch, sweep, fed};
ghost use Rattle.flood.specs.Marked.{fed_in};
ghost use Rattle.flood.specs.Ways.{net_along, row_along};

use crate::marks::Marks;
use net::{INFEED, NetSource};
use survey::Surveyed;

// A surveyed net and the closed links that a flood of it goes along.
#[derive(Clone, Copy)]
pub(crate) struct Ways<'a> {
    pub(crate) site: &'a Surveyed,
    pub(crate) closed: &'a Marks<60>,
}

impl Ways<'_> {
    // The bars that are fed from the infeed.
    pub(crate) fn flood(&self) -> Marks<32>
        ensures { fed_in (net_along self.now) result ≡ fed (net_along self.now) (row_along self.now) }
    {
        let mut fed = Marks::new();
        fed.put(u64::from(INFEED), true);
        for _ in 0..self.site.bars() {
            if !self.sweep(&mut fed) {
                return fed;
            }
        }
        fed
    }

    // Goes through the links once; whether a bar was fed anew.
    fn sweep(&self, fed: &mut Marks<32>) -> bool
        ensures fed { fed.new.marked ≡ sweep (net_along self.now).links (row_along self.now) fed.old.marked }
        ensures still { result ≡ false → fed.new.marked ≡ fed.old.marked }
    {
        let mut anew = false;
        for link in 1..=self.site.links() {
            anew |= self.sweep_link(link, fed);
        }
        anew
    }

    // Lets one link feed a bar, if it is closed and in service; whether it did.
    fn sweep_link(&self, link: u64, fed: &mut Marks<32>) -> bool
        ensures fed { fed.new.marked ≡ touch (ends_of (net_along self.now) link) (nth self.now.closed.now.marked link false) fed.old.marked }
        ensures still { result ≡ false → fed.new.marked ≡ fed.old.marked }
    {
        if !self.closed.has(link) {
            return false;
        }
        let Some((a, b)) = self.site.ends(link) else {
            return false;
        };
        fed.touch(a, b)
    }
}
