// The two bars of a link, of which some are fed.
ghost use Rattle.std.specs.Prelude.{◌≡◌, true, false, Some};
ghost use Rattle.trees.specs.Listings.{touch, crosses};

use crate::marks::Marks;

impl Marks<32> {
    // Whether one of a link's two bars is marked and one is not.
    pub fn crosses(&self, ends: Option<(u32, u32)>) -> bool
        ensures { result ≡ crosses self.now.marked ends }
    {
        ends.is_some_and(|(a, b)| self.has(u64::from(a)) != self.has(u64::from(b)))
    }

    // A closed link feeds one of its bars from the other; whether one was fed anew.
    // Two tests, one in the other: with one match on both bars, and `contains` in the marks, a listing took a tenth longer.
    #[tactic(auto, using(crate::proofs::Sweeps::touch_both))]
    pub(crate) fn touch(&mut self, a: u32, b: u32) -> bool
        ensures fed { self.new.marked ≡ touch (Some (a, b)) true self.old.marked }
        ensures still { result ≡ false → self.new.marked ≡ self.old.marked }
    {
        if self.has(u64::from(a)) {
            if self.has(u64::from(b)) {
                return false;
            }
            self.put(u64::from(b), true);
            return true;
        }
        if self.has(u64::from(b)) {
            self.put(u64::from(a), true);
            return true;
        }
        false
    }
}
