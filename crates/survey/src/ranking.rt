// Numbers in an order, each with its rank.
ghost use Rattle.std.specs.Prelude.{◌≡◌, ◌≤◌, true, length, take};
ghost use Rattle.survey.specs.Ranks.{rank_table, in_range, distinct};

mod methods;

// Some of the numbers 1 to N in the order in which they were added, each once; and a table of their ranks, so that a rank is one look.
// A rank takes two bytes in it, since a surveyed net is copied.
// An array and a count: a surveyed net is copied, and the library's vector of fixed capacity is not.
#[derive(Clone, Copy)]
pub(crate) struct Ranking<const N: usize> {
    items: [u32; N],
    ranks: [Option<u8>; N],
    count: usize,
    ghost few: { N ≤ 255 },
    ghost long: { length items ≡ N },
    ghost within: { count ≤ N },
    ghost inside: { in_range N (take count items) ≡ true },
    ghost once: { distinct (take count items) ≡ true },
    ghost tied: { ranks ≡ rank_table N (take count items) },
}
