// The survey: a net copied from its source, visited, and ranked.
ghost use Rattle.std.specs.Prelude.{◌≡◌, ◌+◌, MatchResult};
ghost use Rattle.net.specs.Nets.{Net};
ghost use Rattle.survey.specs.Visits.{tour};
ghost use Rattle.survey.specs.Surveys.{VisitedBelow};
ghost use Rattle.survey.specs.Tables.{copied, toured};
ghost use Rattle.survey.specs.Answers.{NotVisited, Surveys};

use super::Surveyed;
use crate::copy::NetCopy;
use crate::links::{rank_links, rank_starts};
use crate::tour::{TourTables, visit_bar};
use faults::{Fault, SurveyFault};
use net::{INFEED, NetSource};

// Surveys the net of any source; or says which question was the first to be answered no.
pub fn survey<S: NetSource>(source: &S) -> Result<Surveyed, Fault>
    ensures { Surveys (S.meaning source.now) result }
{
    let net = NetCopy::copy(source)?;
    survey_copy(net)
}

// Surveys a copied net.
fn survey_copy(net: NetCopy) -> Result<Surveyed, Fault>
    ensures { (m : Net) → copied net ≡ m → Surveys m result }
{
    let visited = whole_tour(&net);
    check_visited(&net, &visited)?;
    let bars = visited.order();
    let starts = rank_starts(&visited);
    let links = rank_links(&net, &visited, starts);
    Ok(Surveyed {
        net,
        bars,
        starts,
        links,
    })
}

// Visits every bar that is reached from the infeed.
fn whole_tour(net: &NetCopy) -> TourTables
    ensures { toured result ≡ tour (copied net.now) }
{
    let mut visited = TourTables::new(INFEED);
    visit_bar(net, INFEED, &mut visited);
    visited
}

// Whether every bar was visited; if not, the first that was not.
fn check_visited(net: &NetCopy, visited: &TourTables) -> Result<(), SurveyFault>
    ensures { MatchResult result (λ _. VisitedBelow (toured visited.now) ((copied net.now).bars + 1)) (λ f. NotVisited (copied net.now) (toured visited.now) f) }
{
    for bar in 1..=net.bars() {
        if visited.rank_of(u64::from(bar)).is_none() {
            return Err(SurveyFault::Unreached(u64::from(bar)));
        }
    }
    Ok(())
}
