// Splitting and undoing a loop.
ghost use Rattle.std.specs.Prelude.{◌≡◌, Decides};
ghost use Rattle.net.specs.Settings.{opening, Radial};
ghost use Rattle.trees.specs.Cuts.{InLoop};
ghost use Rattle.board.specs.Boards.{setting_of, looped_net, looped_setting, setting_before};
ghost use Rattle.board.specs.Switching.{Undone, Splits};

use super::{Board, Looped};
use crate::settings::feeds_all;
use faults::BoardFault;

impl Looped {
    // Opens the link that was closed last.
    pub fn undo(self) -> Board
        ensures { Undone self result }
    {
        let link = self.link;
        self.open(link)
    }

    // Opens a link of the loop; for a link off the loop it undoes, and says so.
    pub fn split(self, link: u64) -> Result<Board, (Board, BoardFault)>
        ensures { Splits self link result }
    {
        if !self.is_on_loop(link) {
            return Err((self.undo(), BoardFault::OffLoop(link)));
        }
        Ok(self.open(link))
    }

    // Whether a link is on the loop: it is closed, and without it every bar is still fed.
    fn is_on_loop(&self, link: u64) -> bool
        ensures on_loop { Decides result (InLoop (looped_net self.now) (setting_before self.now) self.now.link link) }
        ensures radial { Decides result (Radial (looped_net self.now) (opening (looped_setting self.now) link)) }
    {
        self.switches.has_closed(link)
            && feeds_all(self.switches.site(), &self.switches.flood_without(link))
    }

    // Opens a link of the loop.
    fn open(self, link: u64) -> Board
        requires { InLoop (looped_net self) (setting_before self) self.link link }
        ensures site { result.switches.site ≡ self.switches.site }
        ensures setting { setting_of result ≡ opening (looped_setting self) link }
    {
        let Looped {
            mut switches,
            link: _,
        } = self;
        switches.put(link, false);
        Board { switches }
    }
}
