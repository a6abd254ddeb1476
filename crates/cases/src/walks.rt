// Walks through small nets, and what their collectors hold afterwards.
use crate::nets::surveyed;
use collectors::Either;
use faults::{BoardFault, Fault};
use net::LadderSource;
use std::test::Fail;
use stream::Writer;
use survey::{Surveyed, survey};
use tally::Tally;
use walk::{Advance, Walk, Word};

// The settings of a ladder.
fn ladder_settings(rungs: u16) -> Result<u64, Fault> {
    let site = survey(&LadderSource::new(rungs))?;
    let mut walk = Walk::new(&site);
    walk.advance(u64::MAX, &mut Tally::new(&site));
    Ok(walk.look().settings)
}

// The count of a link in a tally that took the whole listing.
fn finished_count(site: &Surveyed, link: u64) -> Option<u64> {
    let mut tally = Tally::new(site);
    Walk::new(site).advance(u64::MAX, &mut tally);
    tally.record(link).map(|record| record.count)
}

#[test]
fn advances(rt: HostRuntime) -> Result<(), Fail> {
    let site = surveyed(3, &[1, 2, 2, 3, 1, 3])?;
    let mut walk = Walk::new(&site);
    let mut one = [0u8; 5];
    let mut ten = [0u8; 50];
    assert_eq!(rt;
        walk.advance(3, &mut Writer::new(&mut one)),
        Advance {
            count: 1,
            word: Word::Full
        },
        "into spare 1"
    );
    assert_eq!(rt; walk.look().settings, 2);
    assert_eq!(rt;
        walk.advance(3, &mut Writer::new(&mut ten)),
        Advance {
            count: 3,
            word: Word::Finished
        },
        "into spare 10"
    );
    assert_eq!(rt;
        walk.advance(3, &mut Writer::new(&mut ten)),
        Advance {
            count: 0,
            word: Word::Finished
        },
        "none is left"
    );
    Ok(())
}

#[test]
fn one_of_two_collectors(rt: HostRuntime) -> Result<(), Fail> {
    let site = surveyed(3, &[1, 2, 2, 3, 1, 3])?;
    let mut walk = Walk::new(&site);
    let mut one = [0u8; 5];
    let mut writer: Either<Tally, Writer> = Either::Right(Writer::new(&mut one));
    assert_eq!(rt;
        walk.advance(3, &mut writer),
        Advance {
            count: 1,
            word: Word::Full
        }
    );
    let mut tally: Either<Tally, Writer> = Either::Left(Tally::new(&site));
    assert_eq!(rt;
        walk.advance(3, &mut tally),
        Advance {
            count: 3,
            word: Word::Finished
        }
    );
    Ok(())
}

#[test]
fn one_bar(rt: HostRuntime) -> Result<(), Fail> {
    let site = surveyed(1, &[])?;
    let mut walk = Walk::new(&site);
    assert!(rt; walk.look().finished);
    assert_eq!(rt; walk.look().settings, 1);
    assert_eq!(rt;
        walk.advance(7, &mut Tally::new(&site)),
        Advance {
            count: 0,
            word: Word::Finished
        }
    );
    Ok(())
}

#[test]
fn rows(rt: HostRuntime) -> Result<(), Fail> {
    let site = surveyed(3, &[2, 3, 1, 3, 1, 2])?;
    let mut walk = Walk::new(&site);
    let mut row = [7u8; 3];
    walk.present(&mut row)?;
    assert_eq!(rt; row, [1, 1, 0]);
    walk.advance(1, &mut Tally::new(&site));
    walk.present(&mut row)?;
    assert_eq!(rt; row, [0, 1, 1]);
    assert_eq!(rt;
        walk.present(&mut [7u8; 4]),
        Err(BoardFault::RowLength),
        "a row of another length"
    );
    Ok(())
}

#[test]
fn tallies(rt: HostRuntime) -> Result<(), Fail> {
    let site = surveyed(4, &[1, 2, 2, 3, 3, 4, 1, 4, 1, 3])?;
    for (link, count) in [(1, 5), (4, 5), (5, 4), (6, 0)] {
        assert_eq!(rt; finished_count(&site, link), Some(count), "link {link}");
    }
    assert_eq!(rt; finished_count(&site, 61), None, "no number of a link");
    Ok(())
}

#[test]
fn ladders(rt: HostRuntime) -> Result<(), Fail> {
    for (rungs, settings) in [(3, 15), (4, 56), (5, 209), (6, 780)] {
        assert_eq!(rt; ladder_settings(rungs)?, settings, "{rungs} rungs");
    }
    Ok(())
}
