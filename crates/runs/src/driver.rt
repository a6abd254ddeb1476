// The run of a list of calls.
ghost use Rattle.std.specs.Prelude.{◌≡◌, ◌-◌, ◌≤◌, take, drop};
ghost use Rattle.net.specs.Nets.{Net};
ghost use Rattle.survey.specs.Answers.{net_of};
ghost use Rattle.trees.specs.Listings.{listing};
ghost use Rattle.walk.specs.Calls.{handed_on};
ghost use Rattle.walk.specs.Walks.{net_of_walk, handed_by};
ghost use Rattle.runs.specs.Runs.{Answered, Lawful, Runs};

use crate::calls::Call;
use collectors::Collector;
use faults::Fault;
use net::NetSource;
use survey::{Surveyed, survey};
use walk::Walk;

// Surveys the net of a source, makes the calls on a new walk, one after another, and leaves in each what it was answered.
pub fn run<S: NetSource, C: Collector>(source: &S, calls: &mut [Call<C>]) -> Result<Surveyed, Fault>
    ensures { Runs C.sum C.spare C.rule (S.meaning source.now) result calls.old calls.new }
{
    let site = survey(source)?;
    make_all(&site, calls);
    Ok(site)
}

// Makes the calls on a new walk of a site.
fn make_all<C: Collector>(site: &Surveyed, calls: &mut [Call<C>])
    ensures { (net : Net) → net_of site.now ≡ net → Lawful C.sum C.spare C.rule net calls.old calls.new }
{
    let mut walk = Walk::new(site);
    for call in calls.iter_mut() {
        make(&mut walk, call);
    }
}

// Makes one call.
fn make<C: Collector>(walk: &mut Walk, call: &mut Call<C>)
    ensures net { net_of_walk walk.new ≡ net_of_walk walk.old }
    ensures on { handed_by walk.old ≤ handed_by walk.new }
    ensures answered { Answered C.sum C.spare C.rule (net_of_walk walk.old) (handed_on (net_of_walk walk.old) (handed_by walk.old)) call.old call.new (take (handed_by walk.new - handed_by walk.old) (drop (handed_by walk.old) (listing (net_of_walk walk.old)))) }
{
    match call {
        Call::Advance {
            allowance,
            collector,
            answer,
        } => *answer = Some(walk.advance(*allowance, collector)),
        Call::Look { answer } => *answer = Some(walk.look()),
        Call::Present { row, answer } => *answer = Some(walk.present(row.as_mut_slice())),
    }
}
