// A tally as a collector of exchanges.
ghost use Rattle.std.specs.Prelude.{◌≡◌, ◌^◌, true, false, map};
ghost use Rattle.std.proofs.Common.{arith};
ghost use Rattle.collectors.specs.Links.{IsNumber};
ghost use Rattle.collectors.specs.Exchanges.{is_forward};
ghost use Rattle.tally.specs.Counts.{Counts, switched, counted_once_more, counted_after, tallied, counts_to};
ghost use Rattle.tally.specs.Tables.{counts_in};
ghost use Rattle.tally.specs.Tallies.{counts_of, spare_of};

use super::{LinkCount, Tally};
use collectors::{Collector, Exchange, Kind};
use faults::CollectorFault;

impl Collector for Tally {
    ghost Sum = { Counts };

    ghost sum = { counts_of };

    ghost spare = { spare_of };

    ghost rule = { tallied };

    ghost bounded = { λ t. t.few };

    fn spare(&self) -> u64 {
        self.spare
    }

    fn take(&mut self, exchange: Exchange) -> Result<(), CollectorFault> {
        let spare = self.spare.checked_sub(1).ok_or(CollectorFault::Full)?;
        self.switch(exchange.link_out(), false);
        self.switch(exchange.link_in(), true);
        count_after(exchange.kind(), &mut self.table);
        self.spare = spare;
        Ok(())
    }
}

impl Tally {
    // Closes or opens a link, which keeps its count.
    fn switch(&mut self, link: u32, closed: bool)
        requires { IsNumber link }
        ensures counts { counts_of self.new ≡ switched (counts_of self.old) link closed }
        ensures spare { self.new.spare ≡ self.old.spare }
    {
        self.table[link as usize - 1].switch(closed);
    }
}

// After a forward exchange every closed link counts one more.
fn count_after(kind: Kind, table: &mut [LinkCount])
    requires { counts_to (2 ^ 62) (counts_in table.old) ≡ true }
    ensures { counts_in table.new ≡ counted_after (is_forward kind) (counts_in table.old) }
{
    if kind == Kind::Forward {
        count_closed(table);
    }
}

// Every closed link counts one more.
fn count_closed(table: &mut [LinkCount])
    requires { counts_to (2 ^ 62) (counts_in table.old) ≡ true }
    ensures { counts_in table.new ≡ map counted_once_more (counts_in table.old) }
{
    for record in table.iter_mut() {
        record.count_on();
    }
}
