// Lines as a collector of exchanges.
ghost use Rattle.std.proofs.Common.{arith};
ghost use Rattle.lines.specs.Reports.{Report, reported};
ghost use Rattle.lines.specs.Meanings.{report_of, spare_of};

use super::Lines;
use collectors::{Collector, Exchange, Kind};
use faults::CollectorFault;

impl Collector for Lines<'_> {
    ghost Sum = { Report };

    ghost sum = { report_of };

    ghost spare = { spare_of };

    ghost rule = { reported };

    ghost bounded = { λ l. omega (arith, l.fits, l.sheet.short) };

    fn spare(&self) -> u64 {
        self.left
    }

    fn take(&mut self, exchange: Exchange) -> Result<(), CollectorFault> {
        self.left = self.left.checked_sub(1).ok_or(CollectorFault::Full)?;
        self.shown.put(u64::from(exchange.link_out()), false);
        self.shown.put(u64::from(exchange.link_in()), true);
        // A match: with an `if` on the kind the check finds neither return.
        match exchange.kind() {
            Kind::Forward => {
                self.settings += 1;
                self.put_line()
            }
            Kind::Back => Ok(()),
        }
    }
}
