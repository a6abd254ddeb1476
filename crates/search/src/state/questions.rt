// The links that may enter.
ghost use Rattle.std.specs.Prelude.{◌≡◌, ◌≤◌, false, not, ◌&&◌, MatchBool, ◌==◌};
ghost use Rattle.net.specs.Nets.{nth, ends_of};
ghost use Rattle.survey.specs.Surveys.{start_setting};
ghost use Rattle.trees.specs.Listings.{crosses};
ghost use Rattle.search.specs.Descents.{EntersAt, NextEntering};
ghost use Rattle.search.specs.Frames.{fed_without};
ghost use Rattle.search.specs.States.{net_in, setting_of, ceiling_of};

use super::{Move, Search};
use net::NetSource;

impl Search {
    // The rank of the next entering link above a rank, for the leaving link at the ceiling.
    pub fn entering_above(&self, rank: usize) -> Option<usize>
        ensures { NextEntering (net_in self.now) (setting_of self.now) (ceiling_of self.now) rank result }
    {
        let past = self.site().links() as usize + 1;
        (rank.saturating_add(1)..past).find(|above| self.may_enter(*above))
    }

    // Whether the link of a rank may enter for the leaving link at the ceiling; at ceiling 0 none may.
    #[inline]
    pub(super) fn may_enter(&self, rank: usize) -> bool
        ensures { MatchBool result (EntersAt (net_in self.now) (setting_of self.now) (ceiling_of self.now) rank) (¬ EntersAt (net_in self.now) (setting_of self.now) (ceiling_of self.now) rank) }
    {
        let moved = Move {
            leaving: self.ceiling,
            entering: rank,
        };
        let Some((leaving, link)) = self.both_links_of(moved) else {
            return false;
        };
        self.is_free(leaving, link) && self.is_in_cuts(link)
    }

    // Whether a link is open and another than the leaving link.
    fn is_free(&self, leaving: u32, link: u32) -> bool
        ensures { result ≡ (not (nth (setting_of self.now) link false) && not (link == leaving)) }
    {
        !self.switches.has_closed(u64::from(link)) && link != leaving
    }

    // Whether a link is in both cuts at the leaving link, of the setting and of the start setting.
    fn is_in_cuts(&self, link: u32) -> bool
        requires { 1 ≤ ceiling_of self.now }
        ensures { result ≡ (crosses (fed_without (net_in self.now) (setting_of self.now) (ceiling_of self.now)) (ends_of (net_in self.now) link) && crosses (fed_without (net_in self.now) (start_setting (net_in self.now)) (ceiling_of self.now)) (ends_of (net_in self.now) link)) }
    {
        let ends = self.site().ends(u64::from(link));
        let start_fed = &self.starts[self.ceiling - 1];
        self.fed.crosses(ends) && start_fed.crosses(ends)
    }
}
