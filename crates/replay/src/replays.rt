// The replay of a whole stream.
ghost use Rattle.std.specs.Prelude.{◌≤◌, ◌≢◌, []};
ghost use Rattle.survey.specs.Answers.{net_of};
ghost use Rattle.stream.specs.Readers.{rest_of};
ghost use Rattle.board.specs.Boards.{board_net};
ghost use Rattle.replay.specs.Streams.{OneAnswer};
ghost use Rattle.replay.specs.Players.{place_of, shown_at};
ghost use Rattle.replay.specs.Replays.{Plays, Replays, Steps};

use crate::player::{Player, Replayed};
use board::Board;
use faults::ReplayFault;
use stream::Reader;
use survey::Surveyed;

// Replays a stream on the site of a board, and hands out a board at the stream's starting set. At the first question that is answered no, hands the board back as it was.
pub fn replay(board: Board, bytes: &[u8]) -> Result<Replayed, (Board, ReplayFault)>
    ensures answer { Replays board bytes.now result }
    ensures single { OneAnswer (board_net board) bytes.now }
{
    play(board.site(), bytes).map_err(|fault| (board, fault))
}

// Takes record after record, up to the end of the bytes.
fn play(site: &Surveyed, bytes: &[u8]) -> Result<Replayed, ReplayFault>
    ensures answer { Plays site.now bytes.now result }
    ensures single { OneAnswer (net_of site.now) bytes.now }
{
    let mut reader = Reader::new(bytes);
    let mut player = Player::Unopened(*site);
    while !reader.is_at_end() {
        player = step(player, &mut reader)?;
    }
    player.finish(reader.place())
}

// Takes the record that comes next; after the end none may come.
fn step(player: Player, reader: &mut Reader) -> Result<Player, ReplayFault>
    requires left { rest_of reader.old ≢ [] }
    requires shown { shown_at (place_of player) ≤ reader.old.place }
    ensures { Steps player reader.old result reader.new }
{
    if player.has_ended() {
        return Err(ReplayFault::Misplaced(reader.place()));
    }
    let Some((place, body)) = reader.next()? else {
        return Err(ReplayFault::Misplaced(reader.place()));
    };
    player.take(place, body.decode())
}
