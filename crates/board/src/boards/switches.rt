// Making, reading and switching a radial board.
ghost use Rattle.std.specs.Prelude.{◌≡◌, false};
ghost use Rattle.net.specs.Nets.{nth, InService};
ghost use Rattle.net.specs.Settings.{Closed};
ghost use Rattle.flood.specs.Rows.{Presents};
ghost use Rattle.board.specs.Boards.{board_net, setting_of};
ghost use Rattle.board.specs.Making.{Makes, MakesOf};
ghost use Rattle.board.specs.Switching.{ClosedBy, Closes};

use super::{Board, Looped};
use crate::rows::read_row;
use crate::settings::is_radial;
use faults::BoardFault;
use flood::Switches;
use net::NetSource;
use survey::Surveyed;

// A board is a source of its net.
impl NetSource for Board {
    ghost meaning = { board_net };

    fn bars(&self) -> u32 {
        self.site().bars()
    }

    fn links(&self) -> u64 {
        self.site().links()
    }

    fn ends(&self, i: u64) -> Option<(u32, u32)> {
        self.site().ends(i)
    }
}

impl Board {
    // The board of a row: one byte a link, where 1 means closed. A row whose closed links form no radial setting is refused.
    pub fn new(site: &Surveyed, row: &[u8]) -> Result<Board, BoardFault>
        ensures { Makes site.now row.now result }
    {
        if row.len() as u64 != site.links() {
            return Err(BoardFault::RowLength);
        }
        Board::from_switches(read_row(site, row))
    }

    // The board of switches; where the closed links form no radial setting it is refused.
    pub fn from_switches(switches: Switches) -> Result<Board, BoardFault>
        ensures { MakesOf switches result }
    {
        if !is_radial(&switches) {
            return Err(BoardFault::NotRadial);
        }
        Ok(Board { switches })
    }

    // The net of the board, surveyed.
    pub fn site(&self) -> &Surveyed
        ensures { result.now ≡ self.now.switches.site }
    {
        self.switches.site()
    }

    // Whether a link is closed; no for what is no link.
    pub fn is_closed(&self, link: u64) -> bool
        ensures { result ≡ nth (setting_of self.now) link false }
    {
        self.switches.has_closed(link)
    }

    // Writes the setting into a row of one byte a link, 1 for closed and 0 for open.
    pub fn present(&self, row: &mut [u8]) -> Result<(), BoardFault>
        ensures { Presents (board_net self.now) (setting_of self.now) row.old result row.new }
    {
        self.switches.present(row)
    }

    // Closes a link that is in service and open. The loop that it makes must then be split or undone.
    pub fn close(self, link: u64) -> Result<Looped, (Board, BoardFault)>
        ensures { Closes self link result }
    {
        match self.switches.may_close(link) {
            Ok(()) => Ok(self.looped_by(link)),
            Err(fault) => Err((self, fault)),
        }
    }

    // The looped board for which a link, open and in service, is closed.
    fn looped_by(self, link: u64) -> Looped
        requires served { InService (board_net self) link }
        requires opened { ¬ Closed (setting_of self) link }
        ensures { ClosedBy self link result }
    {
        let Board { mut switches } = self;
        switches.put(link, true);
        Looped { switches, link }
    }
}
