//! Rows of replies: data as tables, refusals, and bodies that stand for no document.
use covjson_checks::{CovFault, Member};
use covjson_value::Document;
use edr_base::{MemorySource, QuietSink, QuietSource};
use edr_client::{Reply, ReplyFault, read_reply, write_table};
use std::alloc::{AllocError, Global};
use std::rt::HostRuntime;

// A coverage of one point with the value 10, which rows write as `$`.
const POINT: &str =
    "{\"domain\":{\"axes\":{\"t\":{\"values\":[\"2024-01-01T00:00:00Z\"]},\"x\":{\"values\":[0]},\"y\":{\"values\":[0]}},\"domainType\":\"Point\",\"referencing\":[{\"coordinates\":[\"x\",\"y\"],\"system\":{\"type\":\"ProjectedCRS\"}}],\"type\":\"Domain\"},\"parameters\":{\"temp\":{\"observedProperty\":{\"label\":{\"en\":\"Temperature\"}},\"type\":\"Parameter\"}},\"ranges\":{\"temp\":{\"dataType\":\"integer\",\"type\":\"NdArray\",\"values\":[10]}},\"type\":\"Coverage\"}";

// A line for each input, where a bar is CR LF, and what is answered.
const ROWS: &str = "\
HTTP/1.1 200 OK|X-Edr-Edition: 3||$ => data 3
HTTP/1.1 200 OK|Content-Type: text/plain||$ => data -
HTTP/1.1 200 OK|X-Edr-Edition: 3a|Transfer-Encoding: chunked||1|{|0||$ => NotJson
HTTP/1.1 404 Not Found|X-Edr-Edition: 1|Transfer-Encoding: chunked||20|{\"code\":\"NoSamples\",\"number\":25}|0|| => 404 NoSamples
HTTP/1.1 404 Not Found||$ => 404 
HTTP/1.1 500 ||<html> => 500 
HTTP/1.1 999||{\"code\":7} => 999 
HTTP/1.1 000||[{\"code\":\"x\"}] => 0 
HTTP/1.1 201 Created||{\"code\":\"first\",\"code\":\"last\"} => 201 last
HTTP/1.1 200 OK||{\"code\":\"NoSamples\"} => Missing
HTTP/1.1 200 OK||{\"conformsTo\":[]} => Missing
HTTP/1.1 200 OK||[] => WrongType
HTTP/1.1 200 OK|| => NotJson
HTTP/1.1 200 OK|Content-Length: 2||{} => Missing
HTTP/1.1 404 Not Found|Content-Length: 9||{} => breaks 45
HTTP/1.0 200 OK||$ => breaks 0
";

// The bytes of a row.
fn input_of(alloc: Global, row: &str) -> Result<Vec<u8>, AllocError> {
    let mut bytes = Vec::new(alloc);
    for byte in row.bytes() {
        match byte {
            b'|' => bytes.extend_from_slice(b"\r\n")?,
            b'$' => bytes.extend_from_slice(POINT.as_bytes())?,
            other => bytes.push(other)?,
        }
    }
    Ok(bytes)
}

// Whether a document is the coverage of the rows, by its table.
fn is_point(alloc: Global, document: &Document) -> bool {
    if !document.is_valid() {
        return false;
    }
    let mut sink = QuietSink::of(alloc, 100);
    write_table(alloc, document, &mut sink) == Ok(())
        && sink.written() == b"temp\t2024-01-01T00:00:00Z\t-\t0\t0\t10\n".as_slice()
}

// What is said of an answer.
fn said(alloc: Global, answer: &Result<Reply, ReplyFault>) -> Result<String, AllocError> {
    match answer {
        Ok(reply) => said_of_data(alloc, reply),
        Err(fault) => said_of_fault(alloc, fault),
    }
}

fn said_of_data(alloc: Global, reply: &Reply) -> Result<String, AllocError> {
    if !is_point(alloc, &reply.document) {
        return format!(in alloc; "other data");
    }
    match reply.edition {
        Some(number) => format!(in alloc; "data {number}"),
        None => format!(in alloc; "data -"),
    }
}

fn said_of_fault(alloc: Global, fault: &ReplyFault) -> Result<String, AllocError> {
    match fault {
        ReplyFault::BadReply(place) => format!(in alloc; "breaks {place}"),
        ReplyFault::NotData(status, code) => {
            let text = str::from_utf8(code.bytes()).unwrap_or("no text");
            format!(in alloc; "{status} {text}")
        }
        ReplyFault::Cov(fault) => format!(in alloc; "{}", name_of(fault)),
        ReplyFault::ReadFault => format!(in alloc; "read fault"),
        ReplyFault::OutOfMemory => format!(in alloc; "out of memory"),
    }
}

fn name_of(fault: &CovFault) -> &'static str {
    match fault {
        CovFault::NotJson => "NotJson",
        CovFault::Missing(Member::Kind) => "Missing",
        CovFault::WrongType(_) => "WrongType",
        _ => "another fault",
    }
}

#[test]
fn replies(rt: HostRuntime) -> Result<(), AllocError> {
    let alloc = rt.alloc();
    for row in ROWS.lines() {
        let (input, wanted) = row.split_once(" => ").unwrap_or((row, ""));
        let mut source = QuietSource::of(input_of(alloc, input)?, 100);
        let answer = read_reply(alloc, &mut source);
        let said = said(alloc, &answer)?;
        assert_eq!(rt; said.as_str(), wanted);
    }
    Ok(())
}

// A source that fails in the midst of a body.
#[test]
fn a_fault_is_answered(rt: HostRuntime) -> Result<(), AllocError> {
    let alloc = rt.alloc();
    let bytes = input_of(alloc, "HTTP/1.1 200 OK||$")?;
    let mut source = MemorySource::of(bytes, 100, Vec::from_slice(alloc, &[3])?);
    assert!(rt; matches!(read_reply(alloc, &mut source), Err(ReplyFault::ReadFault)));
    Ok(())
}
