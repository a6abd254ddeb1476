// One link of a board exchanged for another.
ghost use Rattle.replay.specs.Exchanges.{Exchanges};

use crate::pending::Swap;
use board::Board;
use faults::BoardFault;

// Closes one link and opens another on the loop; or says the first question that is answered no.
pub(crate) fn exchange(board: Board, swap: Swap) -> Result<Board, BoardFault>
    ensures { Exchanges board swap.link_out swap.link_in result }
{
    let looped = board
        .close(u64::from(swap.link_in))
        .map_err(|(_, fault)| fault)?;
    looped
        .split(u64::from(swap.link_out))
        .map_err(|(_, fault)| fault)
}
