// Copying a net, and what a copy answers.
ghost use Rattle.std.specs.Prelude.{◌≡◌, ◌+◌, length, Err, MatchResult};
ghost use Rattle.faults.specs.declared.Fault.TheVariants.{Net};
ghost use Rattle.net.specs.Nets.{ends_of};
ghost use Rattle.survey.specs.Tables.{copied};
ghost use Rattle.survey.specs.Answers.{Surveys};
ghost use Rattle.survey.specs.Visits.{across};

use super::NetCopy;
use faults::NetFault;
use net::NetSource;
use std::array;

impl NetCopy {
    // The net of a source that is within the limits; else the first question that is answered no.
    pub(crate) fn copy<S: NetSource>(source: &S) -> Result<NetCopy, NetFault>
        ensures { MatchResult result (λ n. copied n ≡ S.meaning source.now) (λ f. Surveys (S.meaning source.now) (Err (Net f))) }
    {
        net::check(source)?;
        let bars = source.bars();
        let links = source.links() as u32;
        let ends = array::from_fn(|at| ends_at(source, links, at));
        Ok(NetCopy { bars, links, ends })
    }

    // The number of bars.
    pub(crate) fn bars(&self) -> u32
        ensures { result ≡ (copied self.now).bars }
    {
        self.bars
    }

    // The number of links.
    pub(crate) fn links(&self) -> u32
        ensures { result ≡ length (copied self.now).links }
    {
        self.links
    }

    // The two bars of a link; none where it is out of service or no link.
    pub(crate) fn ends(&self, link: u64) -> Option<(u32, u32)>
        ensures { result ≡ ends_of (copied self.now) link }
    {
        if !(1..=u64::from(self.links)).contains(&link) {
            return None;
        }
        self.ends[link as usize - 1]
    }

    // The bar at the other end of a link from this bar; none where the link has no end here.
    pub(crate) fn across(&self, link: u64, bar: u32) -> Option<u32>
        ensures { result ≡ across (ends_of (copied self.now) link) bar }
    {
        let (a, b) = self.ends(link)?;
        if a == bar {
            Some(b)
        } else if b == bar {
            Some(a)
        } else {
            None
        }
    }
}

// The two bars of the link at this place of so many, counted from 0; past them none, and the source is not asked.
fn ends_at<S: NetSource>(source: &S, links: u32, place: usize) -> Option<(u32, u32)>
    ensures { links ≡ length (S.meaning source.now).links → result ≡ ends_of (S.meaning source.now) (place + 1) }
{
    if place >= links as usize {
        return None;
    }
    source.ends(place as u64 + 1)
}
