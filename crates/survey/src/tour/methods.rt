// Making and reading a tour.
ghost use Rattle.std.specs.Prelude.{◌≡◌, ◌≤◌, None};
ghost use Rattle.survey.specs.Ranks.{rank_in};
ghost use Rattle.survey.specs.Visits.{found, only};
ghost use Rattle.survey.specs.Tables.{toured};

use super::TourTables;
use crate::ranking::Ranking;
use arrayvec::ArrayVec;

impl TourTables {
    // The tour on which only this bar was visited.
    pub(crate) fn new(bar: u32) -> TourTables
        requires low { 1 ≤ bar }
        requires high { bar ≤ 32 }
        ensures { toured result ≡ only bar }
    {
        let mut order = Ranking::new();
        order.add(bar);
        TourTables {
            order,
            starts: ArrayVec::new(),
        }
    }

    // Comes to an unvisited bar over a link, which becomes a start link.
    pub(crate) fn find(&mut self, bar: u32, link: u32)
        requires low { 1 ≤ bar }
        requires high { bar ≤ 32 }
        requires new { rank_in (toured self.old).order bar ≡ None }
        ensures { toured self.new ≡ found (toured self.old) bar link }
    {
        self.order.add(bar);
        self.starts.push(link);
    }

    // The rank of a bar, if it was visited.
    pub(crate) fn rank_of(&self, bar: u64) -> Option<usize>
        ensures { result ≡ rank_in (toured self.now).order bar }
    {
        self.order.rank_of(bar)
    }

    // The bars by rank.
    pub(crate) fn order(&self) -> Ranking<32>
        ensures { result ≡ self.now.order }
    {
        self.order
    }

    // The start links by rank.
    pub(crate) fn starts(&self) -> &[u32]
        ensures { result.now ≡ (toured self.now).starts }
    {
        self.starts.as_slice()
    }
}
