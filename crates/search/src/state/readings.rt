// What a search answers of where it stands.
ghost use Rattle.std.specs.Prelude.{◌≡◌, false};
ghost use Rattle.std.specs.Option.{option_map};
ghost use Rattle.net.specs.Nets.{nth};
ghost use Rattle.survey.specs.Ranks.{number_at_rank};
ghost use Rattle.survey.specs.Surveys.{start_links, link_order};
ghost use Rattle.flood.specs.Rows.{Presents};
ghost use Rattle.search.specs.Descents.{LinksOf, last_move};
ghost use Rattle.search.specs.Frames.{ranks_of};
ghost use Rattle.search.specs.States.{net_in, descent_of, setting_of, ceiling_of};

use super::{Move, Search};
use faults::BoardFault;
use survey::Surveyed;

impl Search {
    // The net that is searched.
    pub fn site(&self) -> &Surveyed
        ensures { result.now ≡ self.now.switches.site }
    {
        self.switches.site()
    }

    // The rank of the leaving link; 0 where none may leave any more.
    pub fn ceiling(&self) -> usize
        ensures { result ≡ ceiling_of self.now }
    {
        self.ceiling
    }

    // Whether a link is closed in the setting; no for what is no link.
    pub fn is_closed(&self, link: u64) -> bool
        ensures { result ≡ nth (setting_of self.now) link false }
    {
        self.switches.has_closed(link)
    }

    // Fills a row of one byte a link with the setting: 1 closed, 0 open. Another row is refused.
    pub fn present(&self, row: &mut [u8]) -> Result<(), BoardFault>
        ensures { Presents (net_in self.now) (setting_of self.now) row.old result row.new }
    {
        self.switches.present(row)
    }

    // The leaving link and the entering link of a move, each none where its rank has no link.
    pub fn links_of(&self, moved: Move) -> (Option<u32>, Option<u32>)
        ensures leaving { result.0 ≡ number_at_rank (start_links (net_in self.now)) moved.leaving }
        ensures entering { result.1 ≡ number_at_rank (link_order (net_in self.now)) moved.entering }
    {
        (
            self.site().start_link(moved.leaving),
            self.site().link_at_rank(moved.entering),
        )
    }

    // The leaving link and the entering link of a move; none if one of its ranks has no link.
    // Each is looked up here: over `links_of` and `zip` a walk took 2.4 times the instructions on a net with many links a bar.
    pub fn both_links_of(&self, moved: Move) -> Option<(u32, u32)>
        ensures { LinksOf (net_in self.now) moved.leaving moved.entering result }
    {
        let leaving = self.site().start_link(moved.leaving)?;
        let entering = self.site().link_at_rank(moved.entering)?;
        Some((leaving, entering))
    }

    // The last exchange that was not taken back; none at the start setting.
    pub fn last_move(&self) -> Option<Move>
        ensures { option_map ranks_of result ≡ last_move (descent_of self.now) }
    {
        let last = self.depth.checked_sub(1)?;
        Some(self.frames[last].moved)
    }
}
