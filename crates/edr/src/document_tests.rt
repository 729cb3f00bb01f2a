//! Documents that are shown and fetched.
use crate::running::run;
use crate::tests::{Case, run_cut, words_of};
use edr_base::{MemoryFiles, MemoryLink, MemorySink, MemorySource, OutOfMemory};
use std::alloc::Global;
use std::test::Fail;

// A coverage of one point with the value 10, which rows write as `$`.
pub(crate) const POINT: &str =
    "{\"domain\":{\"axes\":{\"t\":{\"values\":[\"2024-01-01T00:00:00Z\"]},\"x\":{\"values\":[0]},\"y\":{\"values\":[0]}},\"domainType\":\"Point\",\"referencing\":[{\"coordinates\":[\"x\",\"y\"],\"system\":{\"type\":\"ProjectedCRS\"}}],\"type\":\"Domain\"},\"parameters\":{\"temp\":{\"observedProperty\":{\"label\":{\"en\":\"Temperature\"}},\"type\":\"Parameter\"}},\"ranges\":{\"temp\":{\"dataType\":\"integer\",\"type\":\"NdArray\",\"values\":[10]}},\"type\":\"Coverage\"}";

const TABLE: &[u8] = b"temp\t2024-01-01T00:00:00Z\t-\t0\t0\t10\n";

// A row with a bar for each CR LF, as bytes.
pub(crate) fn bytes_of(alloc: Global, row: &str) -> Result<Vec<u8>, OutOfMemory> {
    let mut bytes = Vec::new(alloc);
    for byte in row.bytes() {
        match byte {
            b'|' => bytes.extend_from_slice(b"\r\n")?,
            b'$' => bytes.extend_from_slice(POINT.as_bytes())?,
            other => bytes.push(other)?,
        }
    }
    Ok(bytes)
}

// The input, and the line on the errors.
const SHOWN: &str = "\
$ => 
 $  => 
{\"type\":\"CoverageCollection\",\"coverages\":[]} => 
{ => reply: Cov
 => reply: Cov
$$ => reply: Cov
{\"conformsTo\":[]} => reply: Cov
";

#[test]
fn documents_are_shown(rt: HostRuntime) -> Result<(), Fail> {
    let alloc = rt.alloc();
    for row in SHOWN.lines() {
        let (input, said) = row.split_once(" => ").unwrap_or((row, ""));
        let text = bytes_of(alloc, input)?;
        let case = Case {
            words: &[b"show"],
            input: &text,
            status: if said.is_empty() { 0 } else { 7 },
            output: if said.is_empty() && input.contains('$') {
                TABLE
            } else {
                b""
            },
            errors: said.as_bytes(),
        };
        let (status, output, errors) = run_cut(alloc, &case, 100, &[])?;
        assert!(rt; status == case.status, "{row}");
        assert!(rt; output.written() == case.output, "{row}");
        assert!(rt; errors.written().starts_with(case.errors), "{row}");
    }
    Ok(())
}

// What is fetched by these words from a peer that gives these bytes: the status, what is written on the output, the errors and the
// link.
pub(crate) fn fetched(
    alloc: Global,
    words: &[&[u8]],
    incoming: Vec<u8>,
    fails: &[u64],
) -> Result<(u8, MemorySink, MemorySink, MemoryLink), OutOfMemory> {
    let words = words_of(alloc, words)?;
    let mut input = MemorySource::of(Vec::new(alloc), 1, Vec::new(alloc));
    let mut output = MemorySink::of(alloc, 100, Vec::new(alloc));
    let mut errors = MemorySink::of(alloc, 100, Vec::new(alloc));
    let mut files = MemoryFiles::of(alloc, Vec::new(alloc), 1, Vec::new(alloc));
    let mut link = MemoryLink::of(alloc, incoming, 100, Vec::from_slice(alloc, fails)?);
    let status = run(
        alloc,
        &words,
        &mut input,
        &mut output,
        &mut errors,
        &mut files,
        &mut link,
    );
    Ok((status, output, errors, link))
}

const REQUEST: &str = "GET /b?c HTTP/1.1|Host: a:8080|Connection: close||";

// What the peer gives, and the status and the line on the errors. It is asked by the calls connect, write, flush and then read; a
// number before the bytes is that of the call that fails.
const FETCHED: &str = "\
HTTP/1.1 200 OK|X-Edr-Edition: 3||$ => 0 
HTTP/1.1 200 OK|Content-Length: 2||{}$ => 7 reply: Cov
HTTP/1.1 200 OK|Transfer-Encoding: chunked||1|{|0|| => 7 reply: Cov
HTTP/1.1 404 Not Found|X-Edr-Edition: 1|Transfer-Encoding: chunked||20|{\"code\":\"NoSamples\",\"number\":25}|0|| => 7 reply: NotData 404
HTTP/1.1 999||$ => 7 reply: NotData 999
HTTP/1.1 007||$ => 7 reply: NotData 7
HTTP/1.0 200 OK||$ => 7 reply: BadReply
 => 7 reply: BadReply
$ => 7 reply: BadReply
1HTTP/1.1 200 OK||$ => 8 connect fault
2HTTP/1.1 200 OK||$ => 4 write fault
3HTTP/1.1 200 OK||$ => 4 write fault
4HTTP/1.1 200 OK||$ => 3 read fault
5HTTP/1.1 200 OK||$ => 3 read fault
";

// The number of the call that fails, and the row behind it.
fn failing(row: &str) -> (u64, &str) {
    for (digit, number) in [('1', 1u64), ('2', 2), ('3', 3), ('4', 4), ('5', 5)] {
        if let Some(rest) = row.strip_prefix(digit) {
            return (number, rest);
        }
    }
    (0, row)
}

#[test]
fn urls_are_fetched(rt: HostRuntime) -> Result<(), Fail> {
    let alloc = rt.alloc();
    let request = bytes_of(alloc, REQUEST)?;
    for row in FETCHED.lines() {
        let (front, said) = row.split_once(" => ").unwrap_or((row, ""));
        let (number, incoming) = failing(front);
        let (status, output, errors, link) = fetched(
            alloc,
            &[b"fetch", b"http://user@a:8080/b?c#d"],
            bytes_of(alloc, incoming)?,
            &[number],
        )?;
        let (wanted, line) = said.split_once(' ').unwrap_or((said, ""));
        assert!(rt; format!(in alloc; "{status}")?.as_str() == wanted, "{row}");
        assert!(rt;
            output.written() == if status == 0 { TABLE } else { b"" },
            "{row}"
        );
        assert!(rt; errors.written().starts_with(line.as_bytes()), "{row}");
        // nothing is written where connecting or writing failed
        assert!(rt;
            link.written()
                == if number == 1 || number == 2 {
                    b"".as_slice()
                } else {
                    &request
                },
            "{row}"
        );
    }
    Ok(())
}

// A word that is no URL of the scheme http: the link isn't touched.
#[test]
fn other_words_are_no_urls(rt: HostRuntime) -> Result<(), Fail> {
    let alloc = rt.alloc();
    for word in [
        b"ftp://a/".as_slice(),
        b"a",
        b"http://a:65536/",
        b"http://\xff/",
    ] {
        let (status, output, errors, link) = fetched(
            alloc,
            &[b"fetch", word],
            bytes_of(alloc, "HTTP/1.1 200 OK||$")?,
            &[1],
        )?;
        assert_eq!(rt; status, 1);
        assert!(rt; output.written().is_empty() && link.written().is_empty());
        assert!(rt; errors.written().starts_with(b"usage: edr ask"));
    }
    Ok(())
}
