// A writer as a collector of exchanges.
ghost use Rattle.std.specs.Prelude.{◌≡◌, ℕ, List};
ghost use Rattle.std.proofs.Common.{arith};
ghost use Rattle.collectors.specs.Exchanges.{said_by};
ghost use Rattle.collectors.specs.Offers.{Offered};
ghost use Rattle.stream.specs.Writers.{room_of, bytes_of, spare_of, written_on};

use super::Writer;
use crate::records::{EXCHANGE_BYTES, exchange_record};
use collectors::{Collector, Exchange};
use faults::CollectorFault;

impl Collector for Writer<'_> {
    ghost Sum = { List ℕ };

    ghost sum = { bytes_of };

    ghost spare = { spare_of };

    ghost rule = { written_on };

    ghost bounded = { λ w. omega (arith, w.sheet.short) };

    fn spare(&self) -> u64 {
        (self.sheet.left() / EXCHANGE_BYTES) as u64
    }

    fn take(&mut self, exchange: Exchange) -> Result<(), CollectorFault>
        ensures offered { Offered written_on (bytes_of self.old) (spare_of self.old) (said_by exchange) result (bytes_of self.new) (spare_of self.new) }
        ensures room { room_of self.new ≡ room_of self.old }
    {
        self.sheet.put(&exchange_record(exchange))
    }
}
