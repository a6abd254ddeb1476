// The tables of a tour.
ghost use Rattle.std.specs.Prelude.{◌≡◌, ◌+◌, length};
ghost use Rattle.arrayvec.specs.ArrayVec.{array_vec_len};
ghost use Rattle.survey.specs.Listed.{listed};

use crate::ranking::Ranking;
use arrayvec::ArrayVec;

mod methods;
mod visits;

pub(crate) use visits::visit_bar;

// The bars in order of visit, and the start links in order of finding.
#[derive(Drop)]
pub(crate) struct TourTables {
    order: Ranking<32>,
    starts: ArrayVec<u32, 32>,
    ghost paired: { length (listed order) ≡ array_vec_len starts + 1 },
}
