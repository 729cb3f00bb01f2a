//! Bodies in chunks, as they are sent.
ghost use Rattle.std.specs.Prelude.{◌<◌};

use edr_base::{MemorySink, SendFault, Sink, send};
use edr_http::{ChunkedSink, send_body};
use std::alloc::{AllocError, Global};
use std::rt::HostRuntime;

// Letters `a` between two texts.
fn letters(alloc: Global, front: &[u8], count: usize, back: &[u8]) -> Result<Vec<u8>, AllocError> {
    let mut text = Vec::from_slice(alloc, front)?;
    for _ in 0..count {
        text.push(b'a')?;
    }
    text.extend_from_slice(back)?;
    Ok(text)
}

// Whether so many letters, written in cuts of this many or at once, are sent as themselves between two texts.
fn is_sent(
    alloc: Global,
    count: usize,
    cut: usize,
    front: &[u8],
    back: &[u8],
) -> Result<bool, AllocError>
    requires { 0 < cut }
{
    let body = letters(alloc, b"", count, b"")?;
    let text = letters(alloc, front, count.min(4096), back)?;
    let mut layer = ChunkedSink::of(MemorySink::of(alloc, cut, Vec::new(alloc)));
    let mut whole = true;
    for piece in body.chunks(cut) {
        whole = send(&mut layer, piece).is_ok() && whole;
    }
    let (sink, outcome) = layer.finish();
    let gathered = whole && outcome.is_ok() && sink.written() == text.as_slice();
    let mut other = MemorySink::of(alloc, cut, Vec::new(alloc));
    let sent = send_body(&mut other, &body).is_ok();
    Ok(gathered && sent && other.written() == text.as_slice())
}

fn are_sent(alloc: Global, cut: usize) -> Result<bool, AllocError>
    requires { 0 < cut }
{
    Ok(
        is_sent(alloc, 4096, cut, b"1000\r\n", b"\r\n0\r\n\r\n")?
            && is_sent(alloc, 4097, cut, b"1000\r\n", b"\r\n1\r\na\r\n0\r\n\r\n")?
            && is_sent(alloc, 4095, cut, b"fff\r\n", b"\r\n0\r\n\r\n")?
            && is_sent(alloc, 171, cut, b"ab\r\n", b"\r\n0\r\n\r\n")?
            && is_sent(alloc, 0, cut, b"", b"0\r\n\r\n")?,
    )
}

// After a fault a beginning was sent.
fn breaks_off(layer: &mut ChunkedSink<MemorySink>) -> bool {
    layer.write(b"abc") == Ok(3)
        && layer.end() == Err(SendFault::WriteFault)
        && layer.end().is_ok()
        && layer.flush().is_ok()
}

#[test]
fn bodies_are_sent_in_chunks(rt: HostRuntime) -> Result<(), AllocError> {
    let alloc = rt.alloc();
    assert!(rt; are_sent(alloc, 100)? && are_sent(alloc, 4096)? && are_sent(alloc, 5000)?);
    let fails = Vec::from_slice(alloc, &[2u64])?;
    let mut layer = ChunkedSink::of(MemorySink::of(alloc, 3, fails));
    assert!(rt; breaks_off(&mut layer));
    assert!(rt; layer.into_inner().written() == b"3\r\n".as_slice());
    Ok(())
}
