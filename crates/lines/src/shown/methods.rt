// Making, switching and reading.
ghost use Rattle.std.specs.Prelude.{◌≡◌, false, length};
ghost use Rattle.net.specs.Nets.{nth, put};
ghost use Rattle.survey.specs.Surveys.{start_setting};
ghost use Rattle.survey.specs.Answers.{net_of};
ghost use Rattle.lines.specs.Shown.{setting_shown};

use super::Shown;
use flood::Switches;
use net::NetSource;
use survey::Surveyed;

impl Shown {
    // The start links of a net are closed, all others open.
    #[tactic(auto, using(survey::proofs::Whole::surveyed_fits))]
    pub(crate) fn at_start(site: &Surveyed) -> Shown
        ensures { setting_shown result ≡ start_setting (net_of site.now) }
    {
        Shown {
            closed: Switches::at_start(site).closed(),
            links: site.links(),
        }
    }

    // How many links the net has.
    pub(crate) fn links(&self) -> u64
        ensures { result ≡ length (setting_shown self.now) }
    {
        self.links
    }

    // Whether a link is closed; no for what is no link.
    pub(crate) fn has_closed(&self, link: u64) -> bool
        ensures { result ≡ nth (setting_shown self.now) link false }
    {
        link <= self.links && self.closed.has(link)
    }

    // Closes or opens a link; what is no link changes nothing.
    #[tactic(auto, using(net::proofs::Numbered::put_first))]
    pub(crate) fn put(&mut self, link: u64, closed: bool)
        ensures { setting_shown self.new ≡ put (setting_shown self.old) link closed }
    {
        self.closed.put(link, closed);
    }
}
