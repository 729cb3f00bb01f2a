//! Faults that are explained, and what the program tells of itself.
use crate::document_tests::{POINT, bytes_of, fetched};
use crate::tests::{Case, run_cut};
use edr_base::OutOfMemory;
use std::alloc::Global;
use std::test::Fail;

// What stands in the coverage of one point, what is put in its place, and what is said then.
const FAULTS: &str = "\
[10] > [9007199254740992] = OutOfRange values 0
[10] > [10,11] = WrongCount values 1 2
[10] > [1.5] = NotWhole values
integer > float = UnsupportedRange float
integer > two words = UnsupportedRange
ProjectedCRS > GeographicCRS = UnsupportedSystem GeographicCRS
2024-01-01T00:00:00Z > 2024-02-30T00:00:00Z = BadTime 0
Point > Polygon = UnsupportedDomain Polygon
\"ranges\" > \"other\" = Missing ranges
";

// The coverage with one part in place of another.
fn changed(alloc: Global, row: &str) -> Result<Vec<u8>, OutOfMemory> {
    let (old, new) = row.split_once(" > ").unwrap_or((row, row));
    let (front, behind) = POINT.split_once(old).unwrap_or((POINT, ""));
    let mut text = Vec::from_slice(alloc, front.as_bytes())?;
    text.extend_from_slice(new.as_bytes())?;
    text.extend_from_slice(behind.as_bytes())?;
    Ok(text)
}

// What is told on the errors of a run with these words.
fn told(alloc: Global, words: &[&[u8]], input: &[u8]) -> Result<Vec<u8>, OutOfMemory> {
    let case = Case {
        words,
        input,
        status: 0,
        output: b"",
        errors: b"",
    };
    let (_, _, errors) = run_cut(alloc, &case, 100, &[])?;
    Ok(Vec::from_slice(alloc, errors.written())?)
}

#[test]
fn faults_are_explained(rt: HostRuntime) -> Result<(), Fail> {
    let alloc = rt.alloc();
    for row in FAULTS.lines() {
        let (change, said) = row.split_once(" = ").unwrap_or((row, ""));
        let input = changed(alloc, change)?;
        let feed = format!(in alloc; "feed: Cov line 1: {said}\n")?;
        let document = format!(in alloc; "reply: Cov: {said}\n")?;
        assert!(rt;
            told(alloc, &[b"check", b"--why"], &input)?.as_slice() == feed.as_bytes(),
            "{row}"
        );
        assert!(rt;
            told(alloc, &[b"show", b"--why"], &input)?.as_slice() == document.as_bytes(),
            "{row}"
        );
        assert!(rt;
            told(alloc, &[b"check"], &input)?.as_slice() == b"feed: Cov line 1\n".as_slice(),
            "{row}"
        );
    }
    Ok(())
}

// A change that is refused, and a feed that is refused for nothing inside a line.
#[test]
fn refused_changes_are_explained(rt: HostRuntime) -> Result<(), Fail> {
    let alloc = rt.alloc();
    let words: [&[u8]; 3] = [b"check", b"--summary", b"--why"];
    assert!(rt;
        told(alloc, &words, POINT.as_bytes())?.as_slice()
            == b"feed: Change line 1: WrongKind\n".as_slice()
    );
    assert!(rt; told(alloc, &words, b"{")?.as_slice() == b"feed: NotJson line 1\n".as_slice());
    Ok(())
}

const REPLIES: &str = "\
HTTP/1.0 200 OK||$ => reply: BadReply: place 0
HTTP/1.1 404 Not Found|Content-Length: 20||{\"code\":\"NoSamples\"} => reply: NotData 404 NoSamples
HTTP/1.1 404 Not Found|Content-Length: 2||{} => reply: NotData 404
HTTP/1.1 200 OK|Content-Length: 2||{} => reply: Cov: Missing type
";

#[test]
fn replies_are_explained(rt: HostRuntime) -> Result<(), Fail> {
    let alloc = rt.alloc();
    for row in REPLIES.lines() {
        let (incoming, said) = row.split_once(" => ").unwrap_or((row, ""));
        let words: [&[u8]; 3] = [b"fetch", b"http://a/", b"--why"];
        let (status, _, errors, _) = fetched(alloc, &words, bytes_of(alloc, incoming)?, &[])?;
        let line = format!(in alloc; "{said}\n")?;
        assert!(rt; status == 7 && errors.written() == line.as_bytes(), "{row}");
    }
    Ok(())
}

#[test]
fn the_program_tells_of_itself(rt: HostRuntime) -> Result<(), Fail> {
    let alloc = rt.alloc();
    for (word, front) in [
        (b"--help".as_slice(), b"usage: edr ask TARGET | ".as_slice()),
        (b"--version", b"edr 1.0.0\n"),
    ] {
        let case = Case {
            words: &[word],
            input: b"",
            status: 0,
            output: front,
            errors: b"",
        };
        let (status, output, errors) = run_cut(alloc, &case, 100, &[])?;
        assert!(rt; status == 0 && errors.written().is_empty());
        assert!(rt; output.written().starts_with(case.output) && output.written().ends_with(b"\n"));
    }
    Ok(())
}
