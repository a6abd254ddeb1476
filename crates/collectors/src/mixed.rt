// One of two collectors as a collector, so that a list may hold collectors of both types.
ghost use Rattle.std.specs.Prelude.{◌⊎◌};
ghost use Rattle.either.specs.Either.{either};
ghost use Rattle.collectors.specs.Eithers.{either_sum, either_rule, either_bounded};

use crate::collector::Collector;
use crate::exchange::Exchange;
use either::{Either, for_both};
use faults::CollectorFault;

impl<A: Collector, B: Collector> Collector for Either<A, B> {
    ghost Sum = { A.Collector.Sum ⊎ B.Collector.Sum };

    ghost sum = { either_sum A.Collector.sum B.Collector.sum };

    ghost spare = { either A.Collector.spare B.Collector.spare };

    ghost rule = { either_rule A.Collector.rule B.Collector.rule };

    ghost bounded = { either_bounded A.Collector.bounded B.Collector.bounded };

    fn spare(&self) -> u64 {
        for_both!(self, collector => collector.spare())
    }

    fn take(&mut self, exchange: Exchange) -> Result<(), CollectorFault> {
        for_both!(self, collector => collector.take(exchange))
    }
}
