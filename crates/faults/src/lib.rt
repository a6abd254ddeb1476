// Refusals: one enum for each layer, and the line that a program prints.
#![tactic(auto)]

ghost use Rattle.std.specs.Prelude.{◌≡◌, Some};
ghost use Rattle.faults.specs.declared.Fault.TheVariants.{Text, Net, Survey, Collector, Board, Stream, Replay, Memory};
ghost use Rattle.faults.specs.declared.ReplayFault.TheVariants.{Unread};
ghost use Rattle.faults.specs.Table.{answered_no, refusal_of_board, refusal_of_stream, refusal_of_replay, refusal_of, word, refused_line};

use std::alloc::AllocFailed;
use std::fmt;

// The layers that refuse.
#[derive(Clone, Copy, PartialEq, Eq, Debug)]
pub enum Layer {
    Text,
    Net,
    Survey,
    Collector,
    Board,
    Stream,
    Replay,
}

// A question answered no: its layer, its number, and the place.
// Kept as numbers, a place of 0 too: they are what a refusal prints, and `refusal` alone gives them.
#[derive(Clone, Copy, PartialEq, Eq, Debug)]
pub struct Refusal {
    pub layer: Layer,
    pub number: u8,
    pub place: u64,
}

// What is wrong with a text.
#[derive(Clone, Copy, PartialEq, Eq, Debug)]
pub enum TextFault {
    // It has more than 4,096 bytes.
    TooLong,
    // This line is not in form, or line 1 is missing.
    NotInForm(u64),
}

// What is wrong with a net.
#[derive(Clone, Copy, PartialEq, Eq, Debug)]
pub enum NetFault {
    // A list source's row has an odd count of numbers.
    OddRow,
    // The bars are not 1 to 32.
    BarCount,
    // The links are more than 60.
    LinkCount,
    // This link has an end that is not one of the bars.
    EndOutside(u64),
    // This link joins a bar to itself.
    EndsEqual(u64),
}

// What is wrong with a net within the limits.
#[derive(Clone, Copy, PartialEq, Eq, Debug)]
pub enum SurveyFault {
    // This is the lowest bar that no links in service connect to the infeed.
    Unreached(u64),
}

// Why a collector takes nothing.
#[derive(Clone, Copy, PartialEq, Eq, Debug)]
pub enum CollectorFault {
    // It has no spare left.
    Full,
}

// What is wrong with a row, or with a link that is to be switched on a board.
#[derive(Clone, Copy, PartialEq, Eq, Debug)]
pub enum BoardFault {
    // The row has not one byte a link.
    RowLength,
    // This is no link in service.
    NotInService(u64),
    // This link is closed already.
    NotOpen(u64),
    // This link is not on the loop.
    OffLoop(u64),
    // The closed links form no radial setting.
    NotRadial,
}

// What is wrong with the bytes of a stream; the place is the record's byte.
#[derive(Clone, Copy, PartialEq, Eq, Debug)]
pub enum StreamFault {
    // The record here is of no known kind.
    UnknownKind(u64),
    // The record here has not its whole body.
    BodyCut(u64),
}

// Why a replay stops; the place is the record's byte.
#[derive(Clone, Copy, PartialEq, Eq, Debug)]
pub enum ReplayFault {
    // The record here cannot be read.
    Unread(StreamFault),
    // The record here may not stand here, or the bytes end here too soon.
    Misplaced(u64),
    // This N is of another net.
    AnotherNet(u64),
    // This F has the same link twice.
    SameLinks(u64),
    // This F finds too many forward exchanges not yet reversed.
    TooDeep(u64),
    // This B does not reverse the latest forward exchange not yet reversed.
    NotReversal(u64),
    // At this Z not all is reversed, or its count is wrong.
    WrongEnd(u64),
    // The board refuses a link of the record here.
    OnBoard { fault: BoardFault, record: u64 },
}

// A fault of any layer, or want of memory.
#[derive(Clone, Copy, PartialEq, Eq, Debug)]
pub enum Fault {
    Text(TextFault),
    Net(NetFault),
    Survey(SurveyFault),
    Collector(CollectorFault),
    Board(BoardFault),
    Stream(StreamFault),
    Replay(ReplayFault),
    Memory,
}

impl Fault {
    // The layer, number and place of this fault; none for want of memory.
    pub fn refusal(&self) -> Option<Refusal>
        ensures { result ≡ refusal_of self.now }
    {
        match *self {
            Fault::Text(text) => Some(text.refusal()),
            Fault::Net(net) => Some(net.refusal()),
            Fault::Survey(survey) => Some(survey.refusal()),
            Fault::Collector(collector) => Some(collector.refusal()),
            Fault::Board(board) => Some(board.refusal()),
            Fault::Stream(stream) => Some(stream.refusal()),
            Fault::Replay(replay) => Some(replay.refusal()),
            Fault::Memory => None,
        }
    }
}

impl TextFault {
    // The question that a text answers no.
    fn refusal(self) -> Refusal
        ensures { Some result ≡ refusal_of (Text self) }
    {
        match self {
            TextFault::TooLong => Layer::Text.no(1, 0),
            TextFault::NotInForm(line) => Layer::Text.no(2, line),
        }
    }
}

impl NetFault {
    // The question that a net answers no.
    fn refusal(self) -> Refusal
        ensures { Some result ≡ refusal_of (Net self) }
    {
        match self {
            NetFault::OddRow => Layer::Net.no(3, 0),
            NetFault::BarCount => Layer::Net.no(4, 0),
            NetFault::LinkCount => Layer::Net.no(5, 0),
            NetFault::EndOutside(link) => Layer::Net.no(6, link),
            NetFault::EndsEqual(link) => Layer::Net.no(7, link),
        }
    }
}

impl SurveyFault {
    // The question that a survey answers no.
    fn refusal(self) -> Refusal
        ensures { Some result ≡ refusal_of (Survey self) }
    {
        match self {
            SurveyFault::Unreached(bar) => Layer::Survey.no(8, bar),
        }
    }
}

impl CollectorFault {
    // The question that a collector answers no.
    fn refusal(self) -> Refusal
        ensures { Some result ≡ refusal_of (Collector self) }
    {
        match self {
            CollectorFault::Full => Layer::Collector.no(9, 0),
        }
    }
}

impl BoardFault {
    // The question that a board answers no.
    fn refusal(self) -> Refusal
        ensures { Some result ≡ refusal_of_board self }
    {
        match self {
            BoardFault::RowLength => Layer::Board.no(10, 0),
            BoardFault::NotInService(link) => Layer::Board.no(11, link),
            BoardFault::NotOpen(link) => Layer::Board.no(12, link),
            BoardFault::OffLoop(link) => Layer::Board.no(13, link),
            BoardFault::NotRadial => Layer::Board.no(14, 0),
        }
    }
}

impl StreamFault {
    // The question that a stream's record answers no.
    fn refusal(self) -> Refusal
        ensures { Some result ≡ refusal_of_stream self }
    {
        match self {
            StreamFault::UnknownKind(place) => Layer::Stream.no(15, place),
            StreamFault::BodyCut(place) => Layer::Stream.no(16, place),
        }
    }
}

impl ReplayFault {
    // The question that a replay answers no; one of a lower layer stays as it is.
    fn refusal(self) -> Refusal
        ensures { Some result ≡ refusal_of_replay self }
    {
        match self {
            ReplayFault::Unread(fault) => fault.refusal(),
            ReplayFault::Misplaced(place) => Layer::Replay.no(17, place),
            ReplayFault::AnotherNet(place) => Layer::Replay.no(18, place),
            ReplayFault::SameLinks(place) => Layer::Replay.no(19, place),
            ReplayFault::TooDeep(place) => Layer::Replay.no(20, place),
            ReplayFault::NotReversal(place) => Layer::Replay.no(21, place),
            ReplayFault::WrongEnd(place) => Layer::Replay.no(22, place),
            ReplayFault::OnBoard { fault, record: _ } => fault.refusal(),
        }
    }
}

impl Layer {
    // A question of this layer answered no.
    fn no(self, number: u8, place: u64) -> Refusal
        ensures { Some result ≡ answered_no self number place }
    {
        Refusal {
            layer: self,
            number,
            place,
        }
    }
}

// The layer's word, in small letters.
impl fmt::Display for Layer {
    ghost output = { λ l. Some (word l) };

    fn fmt<W: fmt::Write>(&self, f: &mut fmt::Formatter<W>) -> fmt::Result {
        match *self {
            Layer::Text => f.write_str("text"),
            Layer::Net => f.write_str("net"),
            Layer::Survey => f.write_str("survey"),
            Layer::Collector => f.write_str("collector"),
            Layer::Board => f.write_str("board"),
            Layer::Stream => f.write_str("stream"),
            Layer::Replay => f.write_str("replay"),
        }
    }
}

// The line that a program prints.
impl fmt::Display for Refusal {
    ghost output = { λ r. Some (refused_line r) };

    fn fmt<W: fmt::Write>(&self, f: &mut fmt::Formatter<W>) -> fmt::Result {
        let Refusal {
            layer,
            number,
            place,
        } = *self;
        write!(f, "refused {layer} {number} {place}")
    }
}

// Each `From` is written out, since the derived one has no clause, and clauses above name the fault that `?` makes.
impl From<TextFault> for Fault {
    ghost from_gives = { λ e r. r ≡ Text e };

    fn from(fault: TextFault) -> Fault {
        Fault::Text(fault)
    }
}

impl From<NetFault> for Fault {
    ghost from_gives = { λ e r. r ≡ Net e };

    fn from(fault: NetFault) -> Fault {
        Fault::Net(fault)
    }
}

impl From<SurveyFault> for Fault {
    ghost from_gives = { λ e r. r ≡ Survey e };

    fn from(fault: SurveyFault) -> Fault {
        Fault::Survey(fault)
    }
}

impl From<CollectorFault> for Fault {
    ghost from_gives = { λ e r. r ≡ Collector e };

    fn from(fault: CollectorFault) -> Fault {
        Fault::Collector(fault)
    }
}

impl From<BoardFault> for Fault {
    ghost from_gives = { λ e r. r ≡ Board e };

    fn from(fault: BoardFault) -> Fault {
        Fault::Board(fault)
    }
}

impl From<StreamFault> for Fault {
    ghost from_gives = { λ e r. r ≡ Stream e };

    fn from(fault: StreamFault) -> Fault {
        Fault::Stream(fault)
    }
}

impl From<ReplayFault> for Fault {
    ghost from_gives = { λ e r. r ≡ Replay e };

    fn from(fault: ReplayFault) -> Fault {
        Fault::Replay(fault)
    }
}

impl From<StreamFault> for ReplayFault {
    ghost from_gives = { λ e r. r ≡ Unread e };

    fn from(fault: StreamFault) -> ReplayFault {
        ReplayFault::Unread(fault)
    }
}

impl<T: Drop> From<AllocFailed<T>> for Fault {
    ghost from_gives = { λ _ r. r ≡ Memory };

    fn from(_refused: AllocFailed<T>) -> Fault {
        Fault::Memory
    }
}
