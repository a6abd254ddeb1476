// The depth-first visit, by two functions that call each other.
ghost use Rattle.std.specs.Prelude.{◌≡◌, ℕ, suc, ◌+◌, ◌-◌, ◌≤◌, length};
ghost use Rattle.survey.specs.Visits.{Tour, visit, looks};
ghost use Rattle.survey.specs.Tables.{copied, toured};

use super::TourTables;
use crate::copy::NetCopy;

// Visits a bar: looks at the links in ascending number.
#[cycle(look_at_link_visit_bar)]
pub(crate) fn visit_bar(net: &NetCopy, bar: u32, tour: &mut TourTables)
    ensures after { (n : ℕ) → 32 - length (toured tour.old).order ≤ n → toured tour.new ≡ visit (suc n) (copied net.now) bar (toured tour.old) }
    ensures grows { length (toured tour.old).order ≤ length (toured tour.new).order }
{
    for link in 1..=net.links() {
        look_at_link(net, bar, link, tour);
    }
}

// Looks at a link from a bar, after the links below it: if it leads to an unvisited bar, it becomes a start link and that bar is visited.
#[cycle(look_at_link_visit_bar)]
fn look_at_link(net: &NetCopy, bar: u32, link: u32, tour: &mut TourTables)
    ensures after { (n k : ℕ) (t : Tour) → link ≡ k + 1 → 32 - length (toured tour.old).order ≤ n → toured tour.old ≡ looks n (copied net.now) bar t k → toured tour.new ≡ looks n (copied net.now) bar t (k + 1) }
    ensures grows { length (toured tour.old).order ≤ length (toured tour.new).order }
{
    let Some(other) = net.across(u64::from(link), bar) else {
        return;
    };
    if tour.rank_of(u64::from(other)).is_some() {
        return;
    }
    tour.find(other, link);
    visit_bar(net, other, tour);
}
