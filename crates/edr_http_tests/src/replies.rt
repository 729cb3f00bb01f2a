//! Rows of replies, of replies that break off, and of replies cut at each byte.
ghost use Rattle.std.specs.Prelude.{◌<◌};

use edr_base::{MemorySource, QuietSource};
use edr_reply::{Message, MessageFault, read_message};
use std::alloc::{AllocError, Global};
use std::rt::HostRuntime;

// A line for each input, where a bar is CR LF, `^` a line feed alone and `_` a tab; and what is answered: the status, the
// edition or `-`, and the body, or the place at which the reply breaks off.
const REPLIES: &str = "\
HTTP/1.1 200 OK|Transfer-Encoding: chunked||1|a|0|| => 200 - a
HTTP/1.1 200 OK|X-Edr-Edition: 7|Transfer-Encoding: chunked||3|abc|2|de|0||more => 200 7 abcde
HTTP/1.1 200 OK|transfer-encoding:_chunked _||0a|0123456789|A|abcdefghij|00||x => 200 - 0123456789abcdefghij
HTTP/1.1 200 OK|Transfer-Encoding: chunked||1;x=2|a|01 _;9;9|b|0;z|| => 200 - ab
HTTP/1.1 200 OK|Content-Length: 3||abcd => 200 - abc
HTTP/1.1 200|Content-Length: 0|| => 200 - 
HTTP/1.1 200 OK||abc => 200 - abc
||HTTP/1.1 200 OK^Content-Length: 1^^a => 200 - a
HTTP/1.1 404 Not Found|Content-Type: application/json|X-Edr-Edition: 1|Transfer-Encoding: chunked||20|{\"code\":\"NoSamples\",\"number\":25}|0|| => 404 1 {\"code\":\"NoSamples\",\"number\":25}
HTTP/1.1 000||x => 0 - x
HTTP/1.1 999 |Content-Length: 0|| => 999 - 
HTTP/1.1 200 OK|X-Edr-Edition: 007|Content-Length: 0|| => 200 7 
HTTP/1.1 200 OK|X-Edr-Edition: 18446744073709551615|Content-Length: 0|| => 200 18446744073709551615 
HTTP/1.1 200 OK|X-Edr-Edition: 18446744073709551616|Content-Length: 0|| => 200 - 
HTTP/1.1 200 OK|X-Edr-Edition: +7|Content-Length: 0|| => 200 - 
HTTP/1.1 200 OK|X-Edr-Edition: 7 7|Content-Length: 0|| => 200 - 
HTTP/1.1 200 OK|X-Edr-Edition:|Content-Length: 0|| => 200 - 
HTTP/1.1 200 OK|X-Edr-Edition: 7|X-Edr-Edition: 7|Content-Length: 0|| => 200 - 
HTTP/1.1 200 OK|Content-Length: 1|Content-Length: 1||abc => 200 - abc
HTTP/1.1 200 OK|Content-Length: +1||abc => 200 - abc
HTTP/1.1 200 OK|Content-Length: 1, 1||abc => 200 - abc
HTTP/1.1 200 OK|Transfer-Encoding: gzip, chunked|Content-Length: 1||abc => 200 - a
HTTP/1.1 200 OK|Transfer-Encoding: chunked|Transfer-Encoding: chunked||0|| => 200 - 0||
HTTP/1.1 200 OK|Transfer-Encoding: Chunked||0|| => 200 - 0||
HTTP/1.1 200 OK|Transfer-Encoding: chunked|Content-Length: 3||0|| => 200 - 
 => breaks 0
| => breaks 0
HTTP/1.1 200 OK| => breaks 0
HTTP/1.0 200 OK||abc => breaks 0
HTTP/2 200 OK||abc => breaks 0
HTTP/1.1 20 OK||abc => breaks 0
HTTP/1.1 2000 OK||abc => breaks 0
HTTP/1.1 +20 OK||abc => breaks 0
HTTP/1.1 200 OK|X: a| b||abc => breaks 0
HTTP/1.1 200 OK|Content-Length: 4||abc => breaks 38
HTTP/1.1 200 OK|Content-Length: 67108865||abc => breaks 45
HTTP/1.1 200 OK|Content-Length: 99999999999999999999999||abc => breaks 60
HTTP/1.1 200 OK|Transfer-Encoding: chunked|| => breaks 47
HTTP/1.1 200 OK|Transfer-Encoding: chunked||1 => breaks 47
HTTP/1.1 200 OK|Transfer-Encoding: chunked||1^a|0|| => breaks 47
HTTP/1.1 200 OK|Transfer-Encoding: chunked||g|a|0|| => breaks 47
HTTP/1.1 200 OK|Transfer-Encoding: chunked||-1|a|0|| => breaks 47
HTTP/1.1 200 OK|Transfer-Encoding: chunked||1 x|a|0|| => breaks 47
HTTP/1.1 200 OK|Transfer-Encoding: chunked||00000000000000001|a|0|| => breaks 47
HTTP/1.1 200 OK|Transfer-Encoding: chunked||4000001|a|0|| => breaks 47
HTTP/1.1 200 OK|Transfer-Encoding: chunked||1|a|4000000|b => breaks 53
HTTP/1.1 200 OK|Transfer-Encoding: chunked||4000000|a|0|| => breaks 56
HTTP/1.1 200 OK|Transfer-Encoding: chunked||1| => breaks 50
HTTP/1.1 200 OK|Transfer-Encoding: chunked||1|a => breaks 51
HTTP/1.1 200 OK|Transfer-Encoding: chunked||1|ab|0|| => breaks 51
HTTP/1.1 200 OK|Transfer-Encoding: chunked||1|a^0|| => breaks 51
HTTP/1.1 200 OK|Transfer-Encoding: chunked||1|a| => breaks 53
HTTP/1.1 200 OK|Transfer-Encoding: chunked||1|a|0| => breaks 56
HTTP/1.1 200 OK|Transfer-Encoding: chunked||1|a|0|X: a|| => breaks 56
HTTP/1.1 200 OK|Transfer-Encoding: chunked||1|a|0|^ => breaks 56
";

// The same at the limits: `%` is 16,361 bytes, and `*` are 63 fields.
const LIMITS: &str = "\
HTTP/1.1 200 OK|X:%||b => 200 - b
HTTP/1.1 200 OK|X:x%||b => breaks 0
HTTP/1.1 200 OK|*X-Edr-Edition:7||b => 200 7 b
HTTP/1.1 200 OK|*X-Edr-Edition:7|X:||b => breaks 0
HTTP/1.1 200 OK|Transfer-Encoding: chunked||1;123456789 123456789%|a|0|| => 200 - a
HTTP/1.1 200 OK|Transfer-Encoding: chunked||1;123456789 1234567890%|a|0|| => breaks 47
";

// The bytes of a row.
fn input_of(alloc: Global, row: &str) -> Result<Vec<u8>, AllocError> {
    let mut bytes = Vec::new(alloc);
    for byte in row.bytes() {
        match byte {
            b'|' => bytes.extend_from_slice(b"\r\n")?,
            b'^' => bytes.push(b'\n')?,
            b'_' => bytes.push(b'\t')?,
            b'%' => bytes.extend_from_slice(&[b'x'; 16_361])?,
            b'*' => push_fields(&mut bytes)?,
            other => bytes.push(other)?,
        }
    }
    Ok(bytes)
}

fn push_fields(bytes: &mut Vec<u8>) -> Result<(), AllocError> {
    for _ in 0..63 {
        bytes.extend_from_slice(b"X:\r\n")?;
    }
    Ok(())
}

// Whether a reply says this.
fn says(alloc: Global, message: &Message, wanted: &str) -> Result<bool, AllocError> {
    let (status, behind) = wanted.split_once(' ').unwrap_or((wanted, ""));
    let (edition, body) = behind.split_once(' ').unwrap_or((behind, ""));
    let number = match message.edition {
        Some(number) => format!(in alloc; "{number}")?,
        None => format!(in alloc; "-")?,
    };
    let text = format!(in alloc; "{}", message.status)?;
    Ok(
        text.as_str() == status
            && number.as_str() == edition
            && message.body.bytes() == input_of(alloc, body)?.as_slice(),
    )
}

// Whether an answer is the one that is wanted.
fn is_wanted(
    alloc: Global,
    answer: Result<Message, MessageFault>,
    wanted: &str,
) -> Result<bool, AllocError> {
    match answer {
        Ok(message) => says(alloc, &message, wanted),
        Err(MessageFault::Broken(place)) => {
            let text = format!(in alloc; "breaks {place}")?;
            Ok(text.as_str() == wanted)
        }
        Err(_) => Ok(false),
    }
}

// The first row that isn't answered so where its bytes come one at a time, each with so many more; none is empty.
fn first_wrong(alloc: Global, rows: &str, more: u8) -> Result<&str, AllocError> {
    for row in rows.lines() {
        let (input, wanted) = row.split_once(" => ").unwrap_or((row, ""));
        let mut source = QuietSource::of(input_of(alloc, input)?, 1 + more as usize);
        let answer = read_message(alloc, &mut source);
        if !is_wanted(alloc, answer, wanted)? {
            return Ok(row);
        }
    }
    Ok("")
}

#[test]
fn replies(rt: HostRuntime) -> Result<(), AllocError> {
    for more in [0, 7, 26] {
        assert_eq!(rt; first_wrong(rt.alloc(), REPLIES, more)?, "");
    }
    Ok(())
}

#[test]
fn replies_at_the_limits(rt: HostRuntime) -> Result<(), AllocError> {
    assert_eq!(rt; first_wrong(rt.alloc(), LIMITS, 255)?, "");
    Ok(())
}

// A reply in chunks, and the places of its parts behind the head.
const WHOLE: &str = "HTTP/1.1 200 OK|Transfer-Encoding: chunked||5|01234|3;x|567|0||";

const PLACES: [u64; 8] = [47, 50, 55, 57, 62, 65, 67, 70];

// The last of the places that is no later than a cut.
fn place_before(cut: usize) -> u64 {
    let mut last = 0;
    for place in PLACES {
        if place <= cut as u64 {
            last = place;
        }
    }
    last
}

// A part that is cut by the end of the input is broken, at whichever byte.
#[test]
fn cut_replies(rt: HostRuntime) -> Result<(), AllocError> {
    let alloc = rt.alloc();
    let whole = input_of(alloc, WHOLE)?;
    for cut in 0..whole.len() {
        let mut source = QuietSource::of(Vec::from_slice(alloc, &whole[..cut])?, 5);
        let answer = read_message(alloc, &mut source);
        assert!(rt;
            matches!(answer, Err(MessageFault::Broken(place)) if place == place_before(cut)),
            "{cut}"
        );
    }
    let mut source = QuietSource::of(whole, 5);
    let answer = read_message(alloc, &mut source);
    assert!(rt; is_wanted(alloc, answer, "200 - 01234567")?);
    Ok(())
}

// A source that fails in the midst of a reply, and one that would fail behind it.
#[test]
fn a_fault_is_answered(rt: HostRuntime) -> Result<(), AllocError> {
    let alloc = rt.alloc();
    for call in 1..20 {
        let bytes = input_of(alloc, WHOLE)?;
        let mut source = MemorySource::of(bytes, 4, Vec::from_slice(alloc, &[call])?);
        let answer = read_message(alloc, &mut source);
        assert!(rt;
            matches!(answer, Err(MessageFault::ReadFault)) == (call < 19),
            "{call}"
        );
    }
    let bytes = input_of(alloc, "HTTP/1.1 200 OK|Content-Length: 3||abc")?;
    let mut source = MemorySource::of(bytes, 4, Vec::from_slice(alloc, &[12])?);
    let answer = read_message(alloc, &mut source);
    assert!(rt; is_wanted(alloc, answer, "200 - abc")?);
    Ok(())
}
