// Questions about a setting of a surveyed net.
ghost use Rattle.std.specs.Prelude.{◌≡◌, ℕ, Decides};
ghost use Rattle.net.specs.Nets.{IsBar, infeed, InService};
ghost use Rattle.net.specs.Settings.{Setting, Closed, closed_links, Reach, Radial};
ghost use Rattle.survey.specs.Answers.{net_of};
ghost use Rattle.trees.specs.Listings.{fed};
ghost use Rattle.flood.specs.Marked.{switched, fed_in};

use flood::{Marks, Switches};
use net::NetSource;
use survey::Surveyed;

// Whether the closed links form a radial setting.
pub(crate) fn is_radial(switches: &Switches) -> bool
    ensures { Decides result (Radial (net_of switches.now.site) (switched switches.now)) }
{
    are_in_service(switches)
        && count_closed(switches) + 1 == switches.site().bars() as usize
        && feeds_all(switches.site(), &switches.flood())
}

// Whether every bar is reached from the infeed in a setting that feeds the marked bars.
pub(crate) fn feeds_all(site: &Surveyed, marks: &Marks<32>) -> bool
    ensures { (T : Setting) → fed_in (net_of site.now) marks.now ≡ fed (net_of site.now) T → Decides result ((b : ℕ) → IsBar (net_of site.now) b → Reach (net_of site.now) T (infeed (net_of site.now)) b) }
{
    (1..=site.bars()).all(|bar| marks.has(u64::from(bar)))
}

// Whether every closed link is in service.
fn are_in_service(switches: &Switches) -> bool
    ensures { Decides result ((l : ℕ) → Closed (switched switches.now) l → InService (net_of switches.now.site) l) }
{
    (1..=switches.site().links()).all(|link| !switches.has_closed(link)
        || switches.site().is_in_service(link))
}

// How many links are closed.
fn count_closed(switches: &Switches) -> usize
    ensures { result ≡ closed_links (switched switches.now) }
{
    (1..=switches.site().links())
        .filter(|link| switches.has_closed(*link))
        .count()
}
