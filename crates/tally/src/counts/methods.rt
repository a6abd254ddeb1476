// Making and reading a tally.
ghost use Rattle.std.specs.Prelude.{◌≡◌, ◌^◌, false};
ghost use Rattle.net.specs.Nets.{nth};
ghost use Rattle.survey.specs.Surveys.{start_setting};
ghost use Rattle.survey.specs.Answers.{net_of};
ghost use Rattle.tally.specs.Counts.{start_count, start_counts};
ghost use Rattle.tally.specs.Tables.{count_of, counts_in};
ghost use Rattle.tally.specs.Tallies.{counts_of, spare_of, RecordOf};

use super::{LinkCount, Tally};
use net::NetSource;
use std::array;
use survey::Surveyed;

// So many exchanges are taken.
const MOST_TAKEN: u64 = 1 << 62;

impl Tally {
    // The start setting told, and no exchange taken yet.
    pub fn new(site: &Surveyed) -> Tally
        ensures counts { counts_of result ≡ start_counts (net_of site.now) }
        ensures spare { spare_of result ≡ 2 ^ 62 }
    {
        Tally {
            table: start_table(site),
            spare: MOST_TAKEN,
        }
    }

    // The record of a link; none for what is not 1 to 60.
    pub fn record(&self, link: u64) -> Option<LinkCount>
        ensures { RecordOf (counts_of self.now) link result }
    {
        let place = (link as usize).checked_sub(1)?;
        self.table.get(place).copied()
    }
}

// The records of all links at the start.
fn start_table(site: &Surveyed) -> [LinkCount; 60]
    ensures { counts_in result ≡ start_counts (net_of site.now) }
{
    array::from_fn(|place| start_record(site, place as u64 + 1))
}

// The record of a link at the start.
fn start_record(site: &Surveyed, link: u64) -> LinkCount
    ensures { count_of result ≡ start_count (net_of site.now) link }
{
    let closed = is_start(site, link);
    LinkCount {
        closed,
        count: u64::from(closed),
    }
}

// Whether a link is closed in the start setting: the start links come before all others in rank.
fn is_start(site: &Surveyed, link: u64) -> bool
    ensures { result ≡ nth (start_setting (net_of site.now)) link false }
{
    site.rank_of_link(link)
        .is_some_and(|rank| rank < site.bars() as usize)
}
