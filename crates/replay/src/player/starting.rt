// The starting set, link by link.
ghost use Rattle.std.specs.Prelude.{◌+◌, ◌≤◌};
ghost use Rattle.survey.specs.Answers.{net_of};
ghost use Rattle.stream.specs.Records.{S};
ghost use Rattle.stream.specs.Bodies.{record_of};
ghost use Rattle.flood.specs.Marked.{switched};
ghost use Rattle.replay.specs.Players.{starts_place};
ghost use Rattle.replay.specs.Taking.{Begins, Takes, TakesOnBoard};

use super::{Course, Player, Starts};
use crate::pending::Pending;
use board::Board;
use faults::{BoardFault, ReplayFault};
use flood::Switches;
use net::NetSource;
use stream::Entry;

impl Starts {
    // Takes a record, which must be of the starting set.
    pub(super) fn take(self, place: u64, entry: Entry) -> Result<Player, ReplayFault>
        ensures { Takes self.switches.site place (starts_place self) (record_of entry) result }
    {
        let Entry::Start { link } = entry else {
            return Err(ReplayFault::Misplaced(place));
        };
        self.start(u64::from(link))
            .map_err(|fault| ReplayFault::OnBoard {
                fault,
                record: place,
            })
    }

    // Closes a link that is in service and open; after the last of the starting set the exchanges may begin.
    fn start(self, link: u64) -> Result<Player, BoardFault>
        ensures { TakesOnBoard self.switches.site (starts_place self) (S link) result }
    {
        self.switches.may_close(link)?;
        let Starts {
            mut switches,
            closed,
        } = self;
        switches.put(link, true);
        begin(switches, closed + 1)
    }
}

// The exchanges may begin when the closed links are one fewer than the bars.
pub(super) fn begin(switches: Switches, closed: u32) -> Result<Player, BoardFault>
    requires { closed + 1 ≤ (net_of switches.site).bars }
    ensures { Begins switches.site (switched switches) closed result }
{
    if closed + 1 != switches.site().bars() {
        return Ok(Player::Starting(Starts { switches, closed }));
    }
    let board = Board::from_switches(switches)?;
    Ok(Player::Walking(Course {
        board,
        pending: Pending::new(),
        shown: 1,
    }))
}
