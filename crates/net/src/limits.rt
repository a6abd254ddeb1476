// The limits of a net.
ghost use Rattle.std.specs.Prelude.{◌≡◌, MatchResult};
ghost use Rattle.net.specs.Limits.{EndsAreBars, EndsDiffer, WithinLimits, FirstNo, FirstLinkNo};

use crate::source::NetSource;
use faults::NetFault;

// The most bars and the most links of a net.
pub const MOST_BARS: u32 = 32;

pub const MOST_LINKS: u64 = 60;

// The infeed: the bar from which every other bar is to be reached.
pub const INFEED: u32 = 1;

// Whether a source's net is within the limits; if not, the first question that is answered no.
pub fn check<S: NetSource>(source: &S) -> Result<(), NetFault>
    ensures { MatchResult result (λ _. WithinLimits (S.meaning source.now)) (λ f. FirstNo (S.meaning source.now) f) }
{
    let bars = source.bars();
    if !(1..=MOST_BARS).contains(&bars) {
        return Err(NetFault::BarCount);
    }
    let links = source.links();
    if links > MOST_LINKS {
        return Err(NetFault::LinkCount);
    }
    for link in 1..=links {
        check_link(source, bars, link)?;
    }
    Ok(())
}

// The two questions that are asked of a link of a net of so many bars, which the source is asked for once.
fn check_link<S: NetSource>(source: &S, most: u32, link: u64) -> Result<(), NetFault>
    requires { most ≡ (S.meaning source.now).bars }
    ensures { MatchResult result (λ _. EndsAreBars (S.meaning source.now) link × EndsDiffer (S.meaning source.now) link) (λ f. FirstLinkNo (S.meaning source.now) link f) }
{
    let Some((a, b)) = source.ends(link) else {
        return Ok(());
    };
    let bars = 1..=most;
    if !bars.contains(&a) || !bars.contains(&b) {
        return Err(NetFault::EndOutside(link));
    }
    if a == b {
        return Err(NetFault::EndsEqual(link));
    }
    Ok(())
}
