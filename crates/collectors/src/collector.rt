// What takes exchanges.
ghost use Rattle.std.specs.Prelude.{◌≡◌, ℕ, ◌^◌, ◌≤◌};
ghost use Rattle.trees.specs.Listings.{Exchanged};
ghost use Rattle.collectors.specs.Exchanges.{said_by};
ghost use Rattle.collectors.specs.Offers.{Offered};

use crate::exchange::Exchange;
use faults::CollectorFault;

// A collector of exchanges. Its meaning is a sum, a spare (how many more exchanges it takes) and a rule that gives the next sum
// from the sum and one exchange, and sees nothing else.
pub trait Collector {
    ghost Sum: { Type 0 };

    ghost sum: { Self → Sum };

    ghost spare: { Self → ℕ };

    ghost rule: { Sum → Exchanged → Sum };

    ghost bounded: { (c : Self) → spare c ≤ 2 ^ 62 };

    // How many more exchanges it takes.
    fn spare(&self) -> u64
        ensures { result ≡ spare self.now };

    // Takes an exchange; refused where no spare is left.
    fn take(&mut self, exchange: Exchange) -> Result<(), CollectorFault>
        ensures { Offered rule (sum self.old) (spare self.old) (said_by exchange) result (sum self.new) (spare self.new) };
}
