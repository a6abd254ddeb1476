// What a surveyed net answers.
ghost use Rattle.std.specs.Prelude.{◌≡◌, Decides};
ghost use Rattle.net.specs.Nets.{InService};
ghost use Rattle.survey.specs.Ranks.{rank_in, number_at_rank};
ghost use Rattle.survey.specs.Surveys.{bar_order, start_links, link_order};
ghost use Rattle.survey.specs.Answers.{net_of};

use super::Surveyed;
use net::NetSource;

// A surveyed net is a source of its net.
impl NetSource for Surveyed {
    ghost meaning = { net_of };

    fn bars(&self) -> u32 {
        self.net.bars()
    }

    fn links(&self) -> u64 {
        u64::from(self.net.links())
    }

    fn ends(&self, i: u64) -> Option<(u32, u32)> {
        self.net.ends(i)
    }
}

// The same few questions of bars, start links and links: each is a name and a line over the one ranking for any number of items.
impl Surveyed {
    // The start link of a rank, 1 up to one fewer than the bars.
    pub fn start_link(&self, rank: usize) -> Option<u32>
        ensures { result ≡ number_at_rank (start_links (net_of self.now)) rank }
    {
        self.starts.at_rank(rank)
    }

    // The rank of a bar; none for what is no bar.
    pub fn rank_of_bar(&self, bar: u32) -> Option<usize>
        ensures { result ≡ rank_in (bar_order (net_of self.now)) bar }
    {
        self.bars.rank_of(u64::from(bar))
    }

    // The bar of a rank, 1 up to the number of bars.
    pub fn bar_at_rank(&self, rank: usize) -> Option<u32>
        ensures { result ≡ number_at_rank (bar_order (net_of self.now)) rank }
    {
        self.bars.at_rank(rank)
    }

    // The rank of a link; none where it is out of service or no link.
    pub fn rank_of_link(&self, link: u64) -> Option<usize>
        ensures { result ≡ rank_in (link_order (net_of self.now)) link }
    {
        self.links.rank_of(link)
    }

    // The link of a rank, 1 up to the number of links in service.
    pub fn link_at_rank(&self, rank: usize) -> Option<u32>
        ensures { result ≡ number_at_rank (link_order (net_of self.now)) rank }
    {
        self.links.at_rank(rank)
    }

    // The start links by rank.
    pub fn start_links(&self) -> &[u32]
        ensures { result.now ≡ start_links (net_of self.now) }
    {
        self.starts.as_slice()
    }

    // The bars by rank.
    pub fn bars_by_rank(&self) -> &[u32]
        ensures { result.now ≡ bar_order (net_of self.now) }
    {
        self.bars.as_slice()
    }

    // The links in service by rank.
    pub fn links_by_rank(&self) -> &[u32]
        ensures { result.now ≡ link_order (net_of self.now) }
    {
        self.links.as_slice()
    }

    // Whether a link is in service; no for what is no link.
    pub fn is_in_service(&self, link: u64) -> bool
        ensures { Decides result (InService (net_of self.now) link) }
    {
        self.ends(link).is_some()
    }
}
