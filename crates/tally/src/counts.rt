// A table of links and their counts.
ghost use Rattle.std.specs.Prelude.{◌≡◌, ◌+◌, ◌-◌, ◌^◌, ◌≤◌, true, length};
ghost use Rattle.tally.specs.Counts.{counts_to};
ghost use Rattle.tally.specs.Tables.{counts_in};

mod methods;
mod records;
mod takes;

// Whether a link is closed, and a count.
#[derive(Clone, Copy)]
pub struct LinkCount {
    pub closed: bool,
    pub count: u64,
}

// A record for each of the link numbers 1 to 60, and how many more exchanges are taken.
#[derive(Clone, Copy)]
pub struct Tally {
    table: [LinkCount; 60],
    spare: u64,
    ghost long: { length table ≡ 60 },
    ghost few: { spare ≤ 2 ^ 62 },
    ghost counted: { counts_to (2 ^ 62 - spare + 1) (counts_in table) ≡ true },
}
