//! Rows of heads, of the limits of heads, of sources that break off, and of replies.
ghost use Rattle.std.specs.Prelude.{◌<◌};

use edr_base::{MemorySink, MemorySource, Refusal};
use edr_http::{
    Head, HeadFault, HeadOutcome, Inbox, check_head, read_head, write_head, write_refusal,
};
use std::alloc::{AllocError, Global};
use std::rt::HostRuntime;

// A line for each input: its lines, each ended by a bar for CR LF, where `^` is a line feed alone and `_` a tab; and what
// is answered: `end`, a refusal or `ok`, and behind them `HEAD` and `close` where they are asked.
const HEADS: &str = "\
GET / HTTP/1.1|Host: a|| => ok
 => end
GET / HTTP/1.1^Host: a^^ => ok
||^GET / HTTP/1.1|Host: a|| => ok
HEAD / HTTP/1.1|HOST:_a _|| => ok HEAD
GET / HTTP/1.1|Host: a|Connection: close|| => ok close
HEAD / HTTP/1.1|Host: a|connection: keep-alive ,_ClOsE_,x|| => ok HEAD close
GET / HTTP/1.1|Host: a|Connection: x|Connection: close|| => ok close
GET / HTTP/1.1|Host: a|Connection: closed, clo se, \"close\"|| => ok
GET / HTTP/1.1|Host: a|Connection:|| => ok
GET / HTTP/1.1|Host: a|Content-Length: 0|| => ok
GET / HTTP/1.1|Host: a|Content-Length: 000|Content-Length: 0|| => ok
GET / HTTP/1.1|Host: a|Content-Length: 1|| => BodyNotAllowed
GET / HTTP/1.1|Host: a|Content-Length:|| => BodyNotAllowed
GET / HTTP/1.1|Host: a|content-length: 0|CONTENT-LENGTH: 0, 0|| => BodyNotAllowed
PUT / HTTP/1.0|Transfer-Encoding:|| => BodyNotAllowed
PUT / HTTP/1.0|| => BadHost
GET / HTTP/1.1|Host: a|host: a|Connection: close|| => BadHost close
GET / HTTP/1.1|Host:|| => ok
PUT / HTTP/1.0|Host: a|| => VersionNotOffered
PUT / HTTP/1.1|Host: a|| => MethodNotOffered
get / HTTP/1.1|Host: a|| => MethodNotOffered
head / HTTP/1.1|Host: a|Connection: close|| => MethodNotOffered close
| => BadHead
GET / HTTP/1.1|Host: a| => BadHead
GET / HTTP/1.1|Host : a|| => BadHead
GET / HTTP/1.1|Host: a| folded|| => BadHead
GET / HTTP/1.1|_Host: a|| => BadHead
GET  / HTTP/1.1|Host: a|| => BadHead
GET / HTTP/2.0|Host: a|| => BadHead
GET / HTTP/1.2|Host: a|| => BadHead
GET / http/1.1|Host: a|| => BadHead
GET /|Host: a|| => BadHead
GET HTTP/1.1|Host: a|| => BadHead
GET / HTTP/1.1|: a|| => BadHead
GET / HTTP/1.1|Host|| => BadHead
{} / HTTP/1.1|Host: a|| => BadHead
";

// The bytes of a row.
fn input_of(alloc: Global, row: &str) -> Result<Vec<u8>, AllocError> {
    let mut bytes = Vec::new(alloc);
    for byte in row.bytes() {
        if byte == b'|' {
            bytes.push(b'\r')?;
        }
        bytes.push(match byte {
            b'|' | b'^' => b'\n',
            b'_' => b'\t',
            other => other,
        })?;
    }
    Ok(bytes)
}

// Whether a head asks this.
fn is_asked(head: &Head, wanted: &str) -> bool {
    let ask = check_head(head);
    let (first, more) = wanted.split_once(' ').unwrap_or((wanted, ""));
    let code = match ask.refusal {
        Some(refusal) => refusal.code(),
        None => b"ok",
    };
    first.as_bytes() == code
        && ask.is_head == more.starts_with("HEAD")
        && ask.close == more.ends_with("close")
}

// Whether this is answered.
fn is_told(told: &Result<HeadOutcome, HeadFault>, wanted: &str) -> bool {
    match told {
        Ok(HeadOutcome::Got(head)) => is_asked(head, wanted),
        Ok(HeadOutcome::EndOfInput) => wanted == "end",
        Ok(HeadOutcome::Refused(refusal)) => wanted.as_bytes() == refusal.code(),
        Err(HeadFault::ReadFault) => wanted == "fault",
        Err(HeadFault::OutOfMemory) => false,
    }
}

fn is_next(alloc: Global, source: &mut MemorySource, inbox: &mut Inbox, wanted: &str) -> bool {
    is_told(&read_head(alloc, source, inbox), wanted)
}

// Whether this is answered after two faults at most.
fn is_read(alloc: Global, source: &mut MemorySource, wanted: &str) -> bool {
    let mut inbox = Inbox::new(alloc);
    for _ in 0..2u8 {
        match read_head(alloc, source, &mut inbox) {
            Err(HeadFault::ReadFault) => {}
            told => return is_told(&told, wanted),
        }
    }
    is_next(alloc, source, &mut inbox, wanted)
}

// A source that gives pieces of a cut, and fails at the first and the third call.
fn source_of(alloc: Global, row: &str, cut: usize) -> Result<MemorySource, AllocError>
    requires { 0 < cut }
{
    let bytes = input_of(alloc, row)?;
    Ok(MemorySource::of(bytes, cut, Vec::from_slice(alloc, &[1u64, 3])?))
}

// Whether this is answered to a row that comes in pieces of a cut.
fn is_answered(alloc: Global, row: &str, cut: usize, wanted: &str) -> bool
    requires { 0 < cut }
{
    match source_of(alloc, row, cut) {
        Ok(mut source) => is_read(alloc, &mut source, wanted),
        Err(_) => false,
    }
}

// The first line that isn't answered so, in pieces of some sizes; none is empty.
fn first_wrong(alloc: Global, lines: &str) -> &str {
    for line in lines.lines() {
        let (row, wanted) = line.split_once(" => ").unwrap_or((line, ""));
        let whole = is_answered(alloc, row, 1, wanted)
            && is_answered(alloc, row, 3, wanted)
            && is_answered(alloc, row, 5000, wanted);
        if !whole {
            return line;
        }
    }
    ""
}

// Whether a head is answered before a read that fails is tried, which the next head wants.
fn stays_unread(alloc: Global, source: &mut MemorySource) -> bool {
    let mut inbox = Inbox::new(alloc);
    is_next(alloc, source, &mut inbox, "fault")
        && is_next(alloc, source, &mut inbox, "ok")
        && is_next(alloc, source, &mut inbox, "fault")
}

// A head with so many fields, whose last value has so many letters, and the beginning of another.
fn long_head(alloc: Global, fields: u32, letters: u32) -> Result<Vec<u8>, AllocError> {
    let mut bytes = Vec::from_slice(alloc, b"GET / HTTP/1.1\r\nHost: a\r\n")?;
    for _ in 2..fields {
        bytes.extend_from_slice(b"Y:\r\n")?;
    }
    bytes.extend_from_slice(b"X: ")?;
    for _ in 0..letters {
        bytes.push(b'b')?;
    }
    bytes.extend_from_slice(b"\r\n\r\nGET")?;
    Ok(bytes)
}

// Whether a long head is answered so, the beginning behind it is none, and stays where the head is taken.
fn has_limit(alloc: Global, source: &mut MemorySource, wanted: &str) -> bool {
    let mut inbox = Inbox::new(alloc);
    is_next(alloc, source, &mut inbox, wanted)
        && is_next(alloc, source, &mut inbox, "BadHead")
        && (wanted != "ok" || inbox.held() == b"GET".as_slice())
}

fn is_limited(alloc: Global, fields: u32, letters: u32, wanted: &str) -> Result<bool, AllocError> {
    let bytes = long_head(alloc, fields, letters)?;
    let mut pieces = MemorySource::of(bytes.clone()?, 4095, Vec::new(alloc));
    let mut whole = MemorySource::of(bytes, 100_000, Vec::new(alloc));
    Ok(has_limit(alloc, &mut pieces, wanted) && has_limit(alloc, &mut whole, wanted))
}

#[test]
fn heads_are_read_and_checked(rt: HostRuntime) -> Result<(), AllocError> {
    let alloc = rt.alloc();
    assert_eq!(rt; first_wrong(alloc, HEADS), "");
    let mut source = source_of(alloc, "GET / HTTP/1.1|Host: a||GET", 5000)?;
    assert!(rt; stays_unread(alloc, &mut source));
    Ok(())
}

// Heads of 16,384 and 16,385 bytes, and of 64 and 65 fields.
#[test]
fn heads_have_limits(rt: HostRuntime) -> Result<(), AllocError> {
    let alloc = rt.alloc();
    assert!(rt; is_limited(alloc, 2, 16_352, "ok")?);
    assert!(rt; is_limited(alloc, 2, 16_353, "BadHead")?);
    assert!(rt; is_limited(alloc, 64, 1, "ok")?);
    assert!(rt; is_limited(alloc, 65, 1, "BadHead")?);
    Ok(())
}

// A line for each reply.
const REPLIES: &[u8] =
    b"HTTP/1.1 200 OK\r\nContent-Type: application/prs.coverage+json\r\nX-Edr-Edition: 18446744073709551615\r\nTransfer-Encoding: chunked\r\n\r\n\
    HTTP/1.1 400 Bad Request\r\nContent-Type: application/json\r\nTransfer-Encoding: chunked\r\nConnection: close\r\n\r\n1d\r\n{\"code\":\"BadHead\",\"number\":1}\r\n0\r\n\r\n\
    HTTP/1.1 404 Not Found\r\nContent-Type: application/json\r\nX-Edr-Edition: 1\r\nTransfer-Encoding: chunked\r\n\r\n20\r\n{\"code\":\"NoSamples\",\"number\":25}\r\n0\r\n\r\n\
    HTTP/1.1 405 Method Not Allowed\r\nContent-Type: application/json\r\nAllow: GET, HEAD\r\nTransfer-Encoding: chunked\r\n\r\n";

fn are_written(alloc: Global, sink: &mut MemorySink) -> bool {
    write_head(sink, 200, false, Some(18_446_744_073_709_551_615), false).is_ok()
        && write_refusal(alloc, sink, Refusal::BadHead, None, false, true).is_ok()
        && write_refusal(alloc, sink, Refusal::NoSamples, Some(1), false, false).is_ok()
        && write_refusal(alloc, sink, Refusal::MethodNotOffered, None, true, false).is_ok()
        && sink.written() == REPLIES
}

#[test]
fn replies_are_written(rt: HostRuntime) {
    let alloc = rt.alloc();
    assert!(rt; are_written(alloc, &mut MemorySink::of(alloc, 1, Vec::new(alloc))));
    assert!(rt; are_written(alloc, &mut MemorySink::of(alloc, 1000, Vec::new(alloc))));
}
