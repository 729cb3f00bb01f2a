//! Rows of URLs, and a request exchanged over a link in memory.
use edr_base::MemoryLink;
use edr_fetch::{FetchFault, fetch, request_of};
use std::alloc::{AllocError, Global};
use std::rt::HostRuntime;

// A line for each text, and behind `=>` the host, the port and the target of its request; nothing where it is no URL that
// can be fetched.
const URLS: &str = "\
http://a => a 80 /
http://a? => a 80 /?
HTTP://Example.COM:080/x?y=1&z#part => example.com 80 /x?y=1&z
  http://a/b c?d e => a 80 /b%20c?d%20e
http://a/../b/./c => a 80 /b/c
http:a/b => a 80 /b
http://user:word@a:8080/p => a 8080 /p
http://a:/ => a 80 /
http://a:0/ => a 0 /
http://a:443/ => a 443 /
http://a:65535 => a 65535 /
http://a:65536/ => 
http://a:8o/ => 
http://[::1]:8080/q => [::1] 8080 /q
http://[2001:DB8:0:0::1]/ => [2001:db8::1] 80 /
http://[::1/ => 
http://127.1/ => 127.0.0.1 80 /
http://1.2.3.256/ => 
http://B\u{fc}cher.example/\u{fc}?\u{f6}#\u{e4} => xn--bcher-kva.example 80 /%C3%BC?%C3%B6
http://a/collections/grid/position?coords=POINT(50%200) => a 80 /collections/grid/position?coords=POINT(50%200)
http://a b/ => 
http:// => 
http://user@/x => 
https://a/ => 
ftp://a/ => 
file:///a => 
mailto:a@b => 
//a/b => 
a/b => 
 => 
";

// What the request of a text says, and nothing where it has none.
fn said(alloc: Global, text: &[u8]) -> Result<String, AllocError> {
    match request_of(alloc, text) {
        Ok(Some(request)) => {
            let host = str::from_utf8(request.host.bytes()).unwrap_or("no text");
            let target = str::from_utf8(request.target.bytes()).unwrap_or("no text");
            format!(in alloc; "{host} {} {target}", request.port)
        }
        Ok(None) => format!(in alloc; ""),
        Err(_) => Err(AllocError),
    }
}

#[test]
fn urls(rt: HostRuntime) -> Result<(), AllocError> {
    let alloc = rt.alloc();
    for row in URLS.lines() {
        let (text, wanted) = row.split_once(" => ").unwrap_or((row, ""));
        let found = said(alloc, text.as_bytes())?;
        assert!(rt; found.as_str() == wanted, "{row}");
    }
    assert!(rt; said(alloc, b"http://a/\xff")?.is_empty());
    Ok(())
}

// A URL of the greatest length, and one of one byte more.
#[test]
fn long_urls(rt: HostRuntime) -> Result<(), AllocError> {
    let alloc = rt.alloc();
    let mut text = Vec::from_slice(alloc, b"http://a/")?;
    for _ in 9..65_536usize {
        text.push(b'b')?;
    }
    assert!(rt; said(alloc, &text)?.len() == 65_533);
    text.push(b'b')?;
    assert!(rt; said(alloc, &text)?.is_empty());
    Ok(())
}

// A line for each URL: what is written of its request, where a bar is CR LF.
const REQUESTS: &str = "\
http://a/b?c => GET /b?c HTTP/1.1|Host: a|Connection: close||
http://a:8080/ => GET / HTTP/1.1|Host: a:8080|Connection: close||
http://user@[::1]:65535/#part => GET / HTTP/1.1|Host: [::1]:65535|Connection: close||
";

fn with_lines(alloc: Global, row: &str) -> Result<Vec<u8>, AllocError> {
    let mut bytes = Vec::new(alloc);
    for byte in row.bytes() {
        match byte {
            b'|' => bytes.extend_from_slice(b"\r\n")?,
            other => bytes.push(other)?,
        }
    }
    Ok(bytes)
}

#[test]
fn requests(rt: HostRuntime) -> Result<(), AllocError> {
    let alloc = rt.alloc();
    for row in REQUESTS.lines() {
        let (url, wanted) = row.split_once(" => ").unwrap_or((row, ""));
        let Ok(Some(request)) = request_of(alloc, url.as_bytes()) else {
            return Err(AllocError);
        };
        let incoming = with_lines(alloc, "HTTP/1.1 404 Not Found||{\"code\":\"NoSamples\"}")?;
        let mut link = MemoryLink::of(alloc, incoming, 7, Vec::new(alloc));
        match fetch(alloc, &request, &mut link) {
            Err(FetchFault::NotData(404, code)) => assert!(rt;
                code.bytes() == b"NoSamples".as_slice()
            ),
            _ => assert!(rt; false, "{row}"),
        }
        assert!(rt;
            link.written() == with_lines(alloc, wanted)?.as_slice(),
            "{row}"
        );
    }
    Ok(())
}
