// The ranks of links. The net and its tour go through these functions as two borrows: a struct of the two would be made for them
// alone, and their clauses would only be longer.
ghost use Rattle.std.specs.Prelude.{◌≡◌, ◌-◌, ◌≤◌, true, not, ◌&&◌, [], ◌∷◌, ◌++◌, is_some, if◌then◌else◌, nat_eq};
ghost use Rattle.std.specs.List.{range_with_len, flat_map};
ghost use Rattle.std.specs.Option.{unwrap_or};
ghost use Rattle.net.specs.Nets.{ends_of};
ghost use Rattle.survey.specs.Ranks.{rank_in, in_range, distinct};
ghost use Rattle.survey.specs.Listed.{listed};
ghost use Rattle.survey.specs.Tables.{copied, toured};
ghost use Rattle.survey.specs.Surveys.{lower_rank_of, others_at, others};

use crate::copy::NetCopy;
use crate::ranking::Ranking;
use crate::tour::TourTables;

// Ranks the links in service: after the start links, which are ranked, the others.
pub(crate) fn rank_links(net: &NetCopy, tour: &TourTables, starts: Ranking<60>) -> Ranking<60>
    requires { listed starts ≡ (toured tour.now).starts }
    ensures { listed result ≡ (toured tour.now).starts ++ others (copied net.now) (toured tour.now) }
{
    let mut links = starts;
    for rank in 1..=net.bars() {
        rank_others(net, tour, rank as usize, &mut links);
    }
    links
}

// Ranks the start links.
pub(crate) fn rank_starts(tour: &TourTables) -> Ranking<60>
    requires inside { in_range 60 (toured tour.now).starts ≡ true }
    requires once { distinct (toured tour.now).starts ≡ true }
    ensures { listed result ≡ (toured tour.now).starts }
{
    let mut links = Ranking::new();
    for link in tour.starts() {
        links.add(*link);
    }
    links
}

// Ranks the other links of this lower rank, after the start links and the others of lower ranks.
fn rank_others(net: &NetCopy, tour: &TourTables, rank: usize, links: &mut Ranking<60>)
    requires rank { 1 ≤ rank }
    requires lower { listed links.old ≡ (toured tour.now).starts ++ flat_map (others_at (copied net.now) (toured tour.now)) (range_with_len 1 (rank - 1)) }
    ensures { listed links.new ≡ listed links.old ++ others_at (copied net.now) (toured tour.now) rank }
{
    for link in 1..=net.links() {
        rank_other(net, tour, rank, link, links);
    }
}

// Ranks a link of this lower rank, unless it is ranked already.
fn rank_other(net: &NetCopy, tour: &TourTables, rank: usize, link: u32, links: &mut Ranking<60>)
    requires rank { 1 ≤ rank }
    requires low { 1 ≤ link }
    requires high { link ≤ 60 }
    ensures { listed links.new ≡ (if nat_eq (lower_rank_of (toured tour.now).order (ends_of (copied net.now) link)) rank && not (is_some (rank_in (listed links.old) link)) then listed links.old ++ link ∷ [] else listed links.old) }
{
    if lower_rank(net, tour, link) != Some(rank) {
        return;
    }
    if links.rank_of(u64::from(link)).is_none() {
        links.add(link);
    }
}

// The lower rank of a link's two bars; none for a link out of service.
fn lower_rank(net: &NetCopy, tour: &TourTables, link: u32) -> Option<usize>
    ensures { unwrap_or result 0 ≡ lower_rank_of (toured tour.now).order (ends_of (copied net.now) link) }
{
    let (a, b) = net.ends(u64::from(link))?;
    let rank_a = tour.rank_of(u64::from(a))?;
    let rank_b = tour.rank_of(u64::from(b))?;
    Some(rank_a.min(rank_b))
}
