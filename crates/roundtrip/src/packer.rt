// The stream of a net's listing, a buffer at a time.
ghost use Rattle.std.specs.Prelude.{◌≡◌, true};
ghost use Rattle.walk.specs.Walks.{net_of_walk, handed_by};
ghost use Rattle.roundtrip.specs.Stages.{is_due};

use crate::stage::Stage;
use walk::Walk;

mod fills;

// A walk of a net, and what is written next. A stage names the next step: a closure could not be copied with the packer.
#[derive(Clone, Copy)]
pub struct Packer {
    walk: Walk,
    stage: Stage,
    ghost due: { is_due (net_of_walk walk) stage (handed_by walk) ≡ true },
}
