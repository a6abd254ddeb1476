// What a ranking answers.
ghost use Rattle.std.specs.Prelude.{◌≡◌, ◌≤◌, [], ◌∷◌, ◌++◌, None, slice_get};
ghost use Rattle.survey.specs.Ranks.{rank_in, number_at_rank};
ghost use Rattle.survey.specs.Listed.{listed};

use super::Ranking;

impl<const N: usize> Ranking<N> {
    // No number yet.
    pub(crate) fn new() -> Ranking<N>
        requires { N ≤ 255 }
        ensures { listed result ≡ [] }
    {
        Ranking {
            items: [0; N],
            ranks: [None; N],
            count: 0,
        }
    }

    // Adds a number at the end. That it is one of 1 to N is asked here and by the callers that are given one: a type for such numbers
    // would only be made at the same few places, by the same proofs.
    pub(crate) fn add(&mut self, x: u32)
        requires low { 1 ≤ x }
        requires high { x ≤ N }
        requires new { rank_in (listed self.old) x ≡ None }
        ensures { listed self.new ≡ listed self.old ++ x ∷ [] }
    {
        let at = self.count;
        self.items[at] = x;
        self.count = at + 1;
        self.ranks[x as usize - 1] = Some(at as u8 + 1);
    }

    // The rank of a number, if it was added.
    pub(crate) fn rank_of(&self, x: u64) -> Option<usize>
        ensures { result ≡ rank_in (listed self.now) x }
    {
        let place = x.checked_sub(1)?;
        let rank = *self.ranks.get(place as usize)?;
        rank.map(usize::from)
    }

    // The number of a rank, if there is one.
    pub(crate) fn at_rank(&self, rank: usize) -> Option<u32>
        ensures { result ≡ number_at_rank (listed self.now) rank }
    {
        self.at_place(rank.checked_sub(1)?)
    }

    // The number before which so many stand, if there is one.
    fn at_place(&self, place: usize) -> Option<u32>
        ensures { result ≡ slice_get (listed self.now) place }
    {
        self.as_slice().get(place).copied()
    }

    // The numbers, in their order.
    pub(crate) fn as_slice(&self) -> &[u32]
        ensures { result.now ≡ listed self.now }
    {
        &self.items[..self.count]
    }
}
