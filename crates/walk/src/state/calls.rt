// The calls on a walk.
ghost use Rattle.std.specs.Prelude.{◌≡◌, ◌+◌, true, drop, if◌then◌else◌, Some};
ghost use Rattle.survey.specs.Answers.{net_of};
ghost use Rattle.trees.specs.Listings.{listing, told};
ghost use Rattle.trees.specs.Laws.{Ruled, Listed};
ghost use Rattle.flood.specs.Rows.{Presents};
ghost use Rattle.collectors.specs.Exchanges.{said_by};
ghost use Rattle.walk.specs.Rests.{first};
ghost use Rattle.walk.specs.Told.{Unbroken, Complete};
ghost use Rattle.walk.specs.Calls.{handed_on, reached_after, HandsOne, Advances, Looks};
ghost use Rattle.walk.specs.Walks.{net_of_walk, handed_by};

use super::Walk;
use crate::answers::{Advance, Look};
use crate::cursor::Cursor;
use collectors::{Collector, Exchange, Kind};
use faults::BoardFault;
use survey::Surveyed;

impl Walk {
    // A new walk of a surveyed net.
    pub fn new(site: &Surveyed) -> Walk
        ensures net { net_of_walk result ≡ net_of site.now }
        ensures new { handed_by result ≡ 0 }
        ensures ruled { Ruled (net_of site.now) }
        ensures listed { Listed (net_of site.now) }
    {
        Walk {
            cursor: Cursor::new(site),
            settings: 1,
            exchanges: 0,
        }
    }

    // The net that is walked, surveyed.
    pub fn site(&self) -> &Surveyed
        ensures { net_of result.now ≡ net_of_walk self.now }
    {
        self.cursor.site()
    }

    // Hands on the listing's next exchanges: at most the allowance, and no more than the collector takes.
    pub fn advance<C: Collector>(&mut self, allowance: u64, collector: &mut C) -> Advance
        ensures net { net_of_walk self.new ≡ net_of_walk self.old }
        ensures advanced { Advances C.rule (net_of_walk self.old) (handed_by self.old) (handed_by self.new) allowance (C.sum collector.old) (C.spare collector.old) (C.sum collector.new) (C.spare collector.new) result }
    {
        let spare = collector.spare();
        let mut count = 0;
        while count < allowance && self.hand_on(collector).is_some() {
            count += 1;
        }
        let word = self.word(count, spare);
        Advance { count, word }
    }

    // How far the walk has come. Once it is finished, every radial setting of the net was told, exactly once.
    pub fn look(&self) -> Look
        ensures answer { Looks (net_of_walk self.now) (handed_by self.now) result }
        ensures unbroken { Unbroken (net_of_walk self.now) (told (net_of_walk self.now) (handed_on (net_of_walk self.now) (handed_by self.now))) }
        ensures complete { result.finished ≡ true → Complete (net_of_walk self.now) (told (net_of_walk self.now) (handed_on (net_of_walk self.now) (handed_by self.now))) }
    {
        Look {
            settings: self.settings_told(),
            exchanges: self.exchanges_told(),
            finished: self.is_finished(),
        }
    }

    // Fills a row of one byte a link with the setting reached: 1 closed, 0 open. Another row is refused.
    pub fn present(&self, row: &mut [u8]) -> Result<(), BoardFault>
        ensures { Presents (net_of_walk self.now) (reached_after (net_of_walk self.now) (handed_by self.now)) row.old result row.new }
    {
        self.cursor.present(row)
    }

    // Hands on the exchange that comes next; none where none is left, or the collector has no spare.
    fn hand_on<C: Collector>(&mut self, collector: &mut C) -> Option<Exchange>
        ensures net { net_of_walk self.new ≡ net_of_walk self.old }
        ensures handed { HandsOne C.rule (net_of_walk self.old) (handed_by self.old) (handed_by self.new) (C.sum collector.old) (C.spare collector.old) (C.sum collector.new) (C.spare collector.new) result }
    {
        let exchange = self.cursor.next()?;
        collector.take(exchange).ok()?;
        self.pass(exchange);
        Some(exchange)
    }

    // Counts the exchange that comes next as told, and steps past it.
    fn pass(&mut self, exchange: Exchange)
        requires { first (drop (handed_by self.old) (listing (net_of_walk self.old))) ≡ Some (said_by exchange) }
        ensures net { net_of_walk self.new ≡ net_of_walk self.old }
        ensures on { handed_by self.new ≡ handed_by self.old + 1 }
    {
        self.settings += settings_told(exchange);
        self.exchanges += 1;
        self.cursor.step();
    }
}

// How many settings an exchange tells: one if it goes forward, none if it goes back.
fn settings_told(exchange: Exchange) -> u64
    ensures { result ≡ (if (said_by exchange).0 then 1 else 0) }
{
    u64::from(exchange.kind() == Kind::Forward)
}
