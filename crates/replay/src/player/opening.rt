// The record of a net.
ghost use Rattle.std.specs.Prelude.{◌≡◌, length, Decides};
ghost use Rattle.survey.specs.Answers.{net_of};
ghost use Rattle.stream.specs.Bodies.{record_of};
ghost use Rattle.replay.specs.Places.{unopened};
ghost use Rattle.replay.specs.Taking.{Takes};

use super::Player;
use super::starting::begin;
use faults::ReplayFault;
use flood::Switches;
use net::NetSource;
use stream::Entry;
use survey::Surveyed;

// Takes the first record, which must be that of a net.
pub(super) fn take_first(site: Surveyed, place: u64, entry: Entry) -> Result<Player, ReplayFault>
    ensures { Takes site place unopened (record_of entry) result }
{
    match entry {
        Entry::Net { bars, links } => open(site, place, bars, links),
        _ => Err(ReplayFault::Misplaced(place)),
    }
}

// The record must have the site's bars and links; then every link is open.
fn open(site: Surveyed, place: u64, bars: u16, links: u16) -> Result<Player, ReplayFault>
    ensures { Takes site place unopened (record_of (Entry.Net bars links)) result }
{
    if !has_size(&site, bars, links) {
        return Err(ReplayFault::AnotherNet(place));
    }
    Ok(begin(Switches::new(&site), 0).unwrap())
}

// Whether a site has so many bars and links.
fn has_size(site: &Surveyed, bars: u16, links: u16) -> bool
    ensures { Decides result ((bars ≡ (net_of site.now).bars) × (links ≡ length (net_of site.now).links)) }
{
    u32::from(bars) == site.bars() && u64::from(links) == site.links()
}
