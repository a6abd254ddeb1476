// What becomes of one link's record.
ghost use Rattle.std.specs.Prelude.{◌≡◌, ◌^◌, ◌≤◌};
ghost use Rattle.tally.specs.Counts.{counted_once_more};
ghost use Rattle.tally.specs.Tables.{count_of};

use super::LinkCount;

impl LinkCount {
    // Closes or opens the link; the count is kept.
    pub(crate) fn switch(&mut self, closed: bool)
        ensures { count_of self.new ≡ (closed, self.old.count) }
    {
        self.closed = closed;
    }

    // Counts one more for a closed link.
    pub(crate) fn count_on(&mut self)
        requires { self.old.count ≤ 2 ^ 62 }
        ensures { count_of self.new ≡ counted_once_more (count_of self.old) }
    {
        self.count += u64::from(self.closed);
    }
}
