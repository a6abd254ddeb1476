// The list source and the ladder source.
ghost use Rattle.std.specs.Prelude.{◌≡◌, ◌-◌, ◌*◌, ◌%◌, length, None, MatchResult};
ghost use Rattle.faults.specs.declared.NetFault.TheVariants.{OddRow};
ghost use Rattle.net.specs.Nets.{nth, ends_of};
ghost use Rattle.net.specs.Sources.{pair_of, pairs, list_net, ladder_net};

use crate::source::NetSource;
use faults::NetFault;

// A net in a borrowed row of numbers, two for each link, where 0 0 is a link out of service.
// The rules of the list source set this form, so it is no list of optional pairs.
#[derive(Clone, Copy)]
pub struct ListSource<'a> {
    bars: u32,
    row: &'a [u32],
}

impl<'a> ListSource<'a> {
    // The source of these bars and this row; a row with an odd count of numbers is refused.
    pub fn new(bars: u32, row: &'a [u32]) -> Result<ListSource<'a>, NetFault>
        ensures { MatchResult result (λ s. (length row.now % 2 ≡ 0) × (s.bars ≡ bars) × (s.row.now ≡ row.now)) (λ f. (length row.now % 2 ≡ 1) × (f ≡ OddRow)) }
    {
        if row.len() % 2 == 1 {
            return Err(NetFault::OddRow);
        }
        Ok(ListSource { bars, row })
    }
}

impl NetSource for ListSource<'_> {
    ghost meaning = { λ s. list_net s.bars s.row.now };

    fn bars(&self) -> u32 {
        self.bars
    }

    fn links(&self) -> u64 {
        count_pairs(self.row)
    }

    fn ends(&self, i: u64) -> Option<(u32, u32)> {
        pair(self.row, i)
    }
}

// How many pairs a row has.
fn count_pairs(row: &[u32]) -> u64
    ensures { result ≡ length (pairs row.now) }
{
    let (pairs, _) = row.as_chunks::<2>();
    pairs.len() as u64
}

// The pair of a row with this number, from 1; none where there is no such pair or it is 0 0.
fn pair(row: &[u32], number: u64) -> Option<(u32, u32)>
    ensures { result ≡ nth (pairs row.now) number None }
{
    let (pairs, _) = row.as_chunks::<2>();
    match *pairs.get(number.checked_sub(1)? as usize)? {
        [0, 0] => None,
        [a, b] => Some((a, b)),
    }
}

// The ladder of a number of rungs; its links are worked out, not stored.
#[derive(Clone, Copy)]
pub struct LadderSource {
    rungs: u16,
}

impl LadderSource {
    // The ladder of so many rungs; with none it is empty.
    pub fn new(rungs: u16) -> LadderSource
        ensures { result.rungs ≡ rungs }
    {
        LadderSource { rungs }
    }
}

impl NetSource for LadderSource {
    ghost meaning = { λ s. ladder_net s.rungs };

    fn bars(&self) -> u32 {
        2 * u32::from(self.rungs)
    }

    fn links(&self) -> u64 {
        count_links(self.rungs)
    }

    fn ends(&self, i: u64) -> Option<(u32, u32)> {
        ladder_ends(self.rungs, i)
    }
}

// How many links a ladder has.
fn count_links(rungs: u16) -> u64
    ensures { result ≡ length (ladder_net rungs).links }
{
    u64::from(rail_links(rungs) + u32::from(rungs.saturating_sub(1)))
}

// The bars of a link of a ladder; none where there is no such link.
fn ladder_ends(rungs: u16, link: u64) -> Option<(u32, u32)>
    ensures { result ≡ ends_of (ladder_net rungs) link }
{
    let rail = rail_links(rungs);
    let rungs = u32::from(rungs);
    let link = u32::try_from(link).ok()?;
    if (1..=rail).contains(&link) {
        return Some((link, link + 1));
    }
    let rung = link.checked_sub(rail)?;
    if !(1..rungs).contains(&rung) {
        return None;
    }
    Some((rung, 2 * rungs + 1 - rung))
}

// How many links the rail of a ladder has.
fn rail_links(rungs: u16) -> u32
    ensures { result ≡ 2 * rungs - 1 }
{
    (2 * u32::from(rungs)).saturating_sub(1)
}
