// Nets from rows and ladders, and what their survey answers.
use faults::{Fault, Layer, Refusal};
use net::{LadderSource, ListSource};
use std::alloc::{AllocError, Global};
use std::test::Fail;
use survey::{Surveyed, survey};

// Whether a net was surveyed, or the question that was answered no; none for want of memory.
pub(crate) type Answer = Result<(), Option<Refusal>>;

// What an answer says, the surveyed net let go.
pub(crate) fn answer_of(answer: Result<Surveyed, Fault>) -> Answer {
    answer.map(|_| ()).map_err(|fault| fault.refusal())
}

// A question answered no.
pub(crate) fn no(layer: Layer, number: u8, place: u64) -> Answer {
    Err(Some(Refusal {
        layer,
        number,
        place,
    }))
}

// The surveyed net of a row.
pub(crate) fn surveyed(bars: u32, row: &[u32]) -> Result<Surveyed, Fault> {
    let source = ListSource::new(bars, row)?;
    survey(&source)
}

// What the survey of the net of a row answers.
fn row_answer(bars: u32, row: &[u32]) -> Answer {
    answer_of(surveyed(bars, row))
}

// What the survey of a ladder answers.
fn ladder_answer(rungs: u16) -> Answer {
    answer_of(survey(&LadderSource::new(rungs)))
}

// Bars in a line, each joined to the next.
fn line(heap: Global, bars: u32) -> Result<Vec<u32>, AllocError> {
    let mut row = Vec::new(heap);
    for bar in 1..bars {
        row.extend_from_slice(&[bar, bar + 1])?;
    }
    Ok(row)
}

// Links side by side between bars 1 and 2.
fn side_by_side(heap: Global, links: usize) -> Result<Vec<u32>, AllocError> {
    let mut row = Vec::new(heap);
    for _ in 0..links {
        row.extend_from_slice(&[1, 2])?;
    }
    Ok(row)
}

#[test]
fn small_nets(rt: HostRuntime) {
    let no_links: &[u32] = &[];
    for (bars, row, want, what) in [
        (1, no_links, Ok(()), "one bar and no link"),
        (2, no_links, no(Layer::Survey, 8, 2), "two bars and no link"),
        (3, [1, 2, 3].as_slice(), no(Layer::Net, 3, 0), "an odd row"),
        (
            3,
            [1, 2, 3, 3].as_slice(),
            no(Layer::Net, 7, 2),
            "link 2 as 3-3",
        ),
        (
            3,
            [1, 2, 1, 4].as_slice(),
            no(Layer::Net, 6, 2),
            "link 2 as 1-4",
        ),
        (
            3,
            [1, 2, 0, 0, 2, 3].as_slice(),
            Ok(()),
            "link 2 out of service",
        ),
        (
            3,
            [1, 2, 0, 3].as_slice(),
            no(Layer::Net, 6, 2),
            "one end 0",
        ),
    ] {
        assert_eq!(rt; row_answer(bars, row), want, "{what}");
    }
}

#[test]
fn start_links(rt: HostRuntime) -> Result<(), Fail> {
    let site = surveyed(3, &[2, 3, 1, 3, 1, 2])?;
    assert_eq!(rt;
        (site.start_link(1), site.start_link(2)),
        (Some(2), Some(1))
    );
    assert_eq!(rt; site.start_links(), [2, 1].as_slice());
    assert_eq!(rt; site.bars_by_rank(), [1, 3, 2].as_slice());
    assert_eq!(rt; site.links_by_rank(), [2, 1, 3].as_slice());
    let site = surveyed(3, &[1, 2, 2, 3, 1, 3])?;
    assert_eq!(rt;
        (site.start_link(1), site.start_link(2)),
        (Some(1), Some(2))
    );
    Ok(())
}

#[test]
fn limits(rt: HostRuntime) -> Result<(), Fail> {
    let heap = rt.alloc();
    assert_eq!(rt; row_answer(33, &[]), no(Layer::Net, 4, 0));
    assert_eq!(rt; row_answer(0, &[]), no(Layer::Net, 4, 0));
    assert_eq!(rt;
        row_answer(32, line(heap, 32)?.as_slice()),
        Ok(()),
        "32 bars in a line"
    );
    assert_eq!(rt;
        row_answer(2, side_by_side(heap, 60)?.as_slice()),
        Ok(()),
        "60 links"
    );
    assert_eq!(rt;
        row_answer(2, side_by_side(heap, 61)?.as_slice()),
        no(Layer::Net, 5, 0),
        "61 links"
    );
    Ok(())
}

#[test]
fn ladders(rt: HostRuntime) {
    for (rungs, want) in [
        (0, no(Layer::Net, 4, 0)),
        (1, Ok(())),
        (2, Ok(())),
        (16, Ok(())),
        (17, no(Layer::Net, 4, 0)),
        (65535, no(Layer::Net, 4, 0)),
    ] {
        assert_eq!(rt; ladder_answer(rungs), want, "{rungs} rungs");
    }
}
