// Texts in form and damaged texts, and what the intake answers.
use crate::nets::{Answer, answer_of, no};
use faults::Layer;
use intake::intake;
use std::alloc::{AllocError, Global};
use std::test::Fail;
use text::MOST_NUMBERS;

// What the intake of a text answers.
fn text_answer(heap: Global, bytes: &[u8]) -> Result<Answer, AllocError> {
    let row = Vec::with_capacity(heap, MOST_NUMBERS)?;
    Ok(answer_of(intake(bytes, row)))
}

// A text of a first line and so many links out of service.
fn long_text(heap: Global, first: &[u8], links: usize) -> Result<Vec<u8>, AllocError> {
    let mut bytes = Vec::from_slice(heap, first)?;
    for _ in 0..links {
        bytes.extend_from_slice(b"out\n")?;
    }
    Ok(bytes)
}

#[test]
fn lines(rt: HostRuntime) -> Result<(), Fail> {
    for (text, want, what) in [
        ("bars 1\n", Ok(()), "one bar"),
        ("bars 2\nlink 1 2\nout\n", Ok(()), "a link and one out"),
        ("", no(Layer::Text, 2, 1), "an empty input"),
        ("bars 1", no(Layer::Text, 2, 1), "no line feed"),
        (
            "bars 2\nlink 1 2",
            no(Layer::Text, 2, 2),
            "no line feed at the end",
        ),
        ("bars 1\r\n", no(Layer::Text, 2, 1), "a carriage return"),
        ("bars 2\nlink 1  2\n", no(Layer::Text, 2, 2), "two spaces"),
        (
            "bars 2\nlink 1 2 \n",
            no(Layer::Text, 2, 2),
            "a space at the end",
        ),
        (
            "bars 2\n\nlink 1 2\n",
            no(Layer::Text, 2, 2),
            "a blank line",
        ),
        ("BARS 1\n", no(Layer::Text, 2, 1), "capitals"),
        (
            "bars 2\nlink 1 2\nOut\n",
            no(Layer::Text, 2, 3),
            "a capital",
        ),
        ("link 1 2\n", no(Layer::Text, 2, 1), "no bars"),
    ] {
        assert_eq!(rt; text_answer(rt.alloc(), text.as_bytes())?, want, "{what}");
    }
    Ok(())
}

#[test]
fn numbers(rt: HostRuntime) -> Result<(), Fail> {
    for (text, want) in [
        ("bars 0\n", no(Layer::Text, 2, 1)),
        ("bars 01\n", no(Layer::Text, 2, 1)),
        ("bars \n", no(Layer::Text, 2, 1)),
        ("bars 33\n", no(Layer::Net, 4, 0)),
        ("bars 65535\n", no(Layer::Net, 4, 0)),
        ("bars 65536\n", no(Layer::Text, 2, 1)),
        ("bars 2\nlink 1 65535\n", no(Layer::Net, 6, 1)),
        ("bars 2\nlink 0 1\n", no(Layer::Text, 2, 2)),
        ("bars 2\nlink 1 +2\n", no(Layer::Text, 2, 2)),
    ] {
        assert_eq!(rt; text_answer(rt.alloc(), text.as_bytes())?, want, "{text}");
    }
    Ok(())
}

#[test]
fn lengths(rt: HostRuntime) -> Result<(), Fail> {
    let heap = rt.alloc();
    let most = long_text(heap, b"bars 10\n", 1022)?;
    let more = long_text(heap, b"bars 100\n", 1022)?;
    assert_eq!(rt; most.len(), 4096);
    assert_eq!(rt; more.len(), 4097);
    assert_eq!(rt; text_answer(heap, most.as_slice())?, no(Layer::Net, 5, 0));
    assert_eq!(rt; text_answer(heap, more.as_slice())?, no(Layer::Text, 1, 0));
    Ok(())
}
