//! Requests by their URLs.
ghost use Rattle.std.specs.Prelude.{◌≡◌, ◌++◌, ◌↔◌, IfOk, IfSome, OnOk, IsTrue, IsUtf8};
ghost use Rattle.url.specs.Parser.{IsOutOfRoom};
ghost use Rattle.edr_fetch.specs.Heads.{IsServed};
ghost use Rattle.edr_fetch.specs.Requests.{request_by, request_of, request_text, target_of, port_text};

use edr_base::{OutOfMemory, Text};
use itoa::Buffer;
use std::alloc::Global;
use std::str;
use url::{ParseError, Url};

// The bytes that a URL has at most.
const URL_LIMIT: usize = 65_536;

// The port of the scheme http.
const HTTP_PORT: u16 = 80;

/// The request that a URL of the scheme http stands for (RFC 9110, section 7).
#[derive(Debug, Drop)]
pub struct Request {
    /// The host as the URL writes it: a name, or an address, which has brackets where it is one of IPv6.
    pub host: Text,
    /// The port, which is 80 where the URL has none.
    pub port: u16,
    /// The path of the URL and, where there is one, `?` and its query.
    pub target: Text,
}

// The target of a URL.
fn target_of(alloc: Global, url: &Url) -> Result<Text, OutOfMemory>
    ensures { IfOk result (λ target. target ≡ target_of url.now) }
{
    let mut target = Vec::from_slice(alloc, url.path().as_bytes())?;
    if let Some(query) = url.query() {
        target.push(b'?')?;
        target.extend_from_slice(query.as_bytes())?;
    }
    Ok(Text::from_vec(target))
}

// The request that a URL stands for.
fn request_by(alloc: Global, url: &Url) -> Result<Option<Request>, OutOfMemory>
    ensures request { IfOk result (λ found. found ≡ request_by url.now) }
    ensures named { IfOk result (λ found. IfSome found (λ request. IsUtf8 request.host)) }
    ensures served { IfOk result (λ found. IfSome found IsServed) }
{
    if url.scheme() != "http" {
        return Ok(None);
    }
    let Some(host) = url.host_str() else {
        return Ok(None);
    };
    Ok(Some(Request {
        host: Text::of(alloc, host.as_bytes())?,
        port: url.port().unwrap_or(HTTP_PORT),
        target: target_of(alloc, url)?,
    }))
}

// Whether it is for want of memory that a URL wasn't read.
fn is_out_of_room(fault: ParseError) -> bool
    ensures { IsTrue result ↔ IsOutOfRoom fault }
{
    matches!(fault, ParseError::OutOfMemory | ParseError::Overflow)
}

/// The request that a text stands for, where it is a URL of at most 65,536 bytes of the scheme http with a host (URL
/// Standard, section 4); None exactly where it isn't. A user, a password and a fragment are passed over.
///
/// The bytes of the request are, where they are at most 16,384, the head of just one request, which `check_head` refuses for
/// nothing.
pub fn request_of(alloc: Global, text: &[u8]) -> Result<Option<Request>, OutOfMemory>
    ensures request { IfOk result (λ found. found ≡ request_of text.now) }
    ensures named { IfOk result (λ found. IfSome found (λ request. IsUtf8 request.host)) }
    ensures served { IfOk result (λ found. IfSome found IsServed) }
{
    if text.len() > URL_LIMIT {
        return Ok(None);
    }
    let Ok(text) = str::from_utf8(text) else {
        return Ok(None);
    };
    match Url::parse(alloc, text) {
        Ok(url) => request_by(alloc, &url),
        Err(fault) => {
            if is_out_of_room(fault) {
                Err(OutOfMemory)
            } else {
                Ok(None)
            }
        }
    }
}

// Puts the port behind the host, where it isn't that of the scheme.
fn push_port(text: &mut Vec<u8>, port: u16) -> Result<(), OutOfMemory>
    ensures { OnOk result (text.new.items ≡ text.old.items ++ port_text port) }
{
    if port == HTTP_PORT {
        return Ok(());
    }
    let mut buffer = Buffer::new();
    text.push(b':')?;
    text.extend_from_slice(buffer.format(port).as_bytes())?;
    Ok(())
}

/// The bytes of a request: a head of HTTP/1.1 (RFC 9112, section 3) of the method GET, with the fields `Host` and
/// `Connection: close`.
pub fn text_of(alloc: Global, request: &Request) -> Result<Text, OutOfMemory>
    ensures { IfOk result (λ text. text ≡ request_text request.now) }
{
    let mut text = Vec::from_slice(alloc, b"GET ")?;
    text.extend_from_slice(request.target.bytes())?;
    text.extend_from_slice(b" HTTP/1.1\r\nHost: ")?;
    text.extend_from_slice(request.host.bytes())?;
    push_port(&mut text, request.port)?;
    text.extend_from_slice(b"\r\nConnection: close\r\n\r\n")?;
    Ok(Text::from_vec(text))
}
