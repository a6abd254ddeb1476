// A surveyed net.
ghost use Rattle.std.specs.Prelude.{◌≡◌, length};
ghost use Rattle.survey.specs.Listed.{listed};
ghost use Rattle.survey.specs.Tables.{copied};
ghost use Rattle.survey.specs.Surveys.{bar_order, start_links, link_order};

use crate::copy::NetCopy;
use crate::ranking::Ranking;

mod make;
mod methods;

pub use make::survey;

// A net within the limits, every bar of it reached; its bars, its start links and its links in service by rank.
#[derive(Clone, Copy)]
pub struct Surveyed {
    net: NetCopy,
    bars: Ranking<32>,
    starts: Ranking<60>,
    links: Ranking<60>,
    ghost bars_ranked: { listed bars ≡ bar_order (copied net) },
    ghost starts_ranked: { listed starts ≡ start_links (copied net) },
    ghost links_ranked: { listed links ≡ link_order (copied net) },
    ghost all_ranked: { length (bar_order (copied net)) ≡ (copied net).bars },
}
