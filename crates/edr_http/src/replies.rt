//! The heads of replies.
ghost use Rattle.std.specs.Prelude.{◌≡◌, ◌≤◌, ◌+◌, ◌++◌, length, codes, IsErrOf};
ghost use Rattle.edr_base.specs.Outside.{Rose};
ghost use Rattle.edr_base.specs.Calls.{SinkLent, Writes};
ghost use Rattle.edr_http.specs.Replies.{IsStatus, status_line, type_line, edition_line, allow_line, coding_line, close_line, reply_head};

use crate::draft::Draft;
use edr_base::{SendFault, Sink, send};
use itoa::Buffer;

fn status_line(status: u16) -> &'static [u8]
    requires { IsStatus status }
    ensures text { result.now ≡ status_line status }
    ensures short { length result.now ≤ 41 }
{
    match status {
        200 => b"HTTP/1.1 200 OK\r\n",
        400 => b"HTTP/1.1 400 Bad Request\r\n",
        404 => b"HTTP/1.1 404 Not Found\r\n",
        405 => b"HTTP/1.1 405 Method Not Allowed\r\n",
        413 => b"HTTP/1.1 413 Content Too Large\r\n",
        _ => b"HTTP/1.1 505 HTTP Version Not Supported\r\n",
    }
}

fn type_line(json: bool) -> &'static [u8]
    ensures text { result.now ≡ type_line json }
    ensures short { length result.now ≤ 45 }
{
    if json {
        b"Content-Type: application/json\r\n"
    } else {
        b"Content-Type: application/prs.coverage+json\r\n"
    }
}

// The lines behind the edition.
fn last_lines(status: u16, close: bool) -> &'static [u8]
    ensures text { result.now ≡ allow_line status ++ (coding_line ++ (close_line close ++ codes "\r\n")) }
    ensures short { length result.now ≤ 67 }
{
    match (status == 405, close) {
        (true, true) => {
            b"Allow: GET, HEAD\r\nTransfer-Encoding: chunked\r\nConnection: close\r\n\r\n"
        }
        (true, false) => b"Allow: GET, HEAD\r\nTransfer-Encoding: chunked\r\n\r\n",
        (false, true) => b"Transfer-Encoding: chunked\r\nConnection: close\r\n\r\n",
        (false, false) => b"Transfer-Encoding: chunked\r\n\r\n",
    }
}

// Puts the line of an edition behind what there is.
fn add_edition(draft: &mut Draft, edition: Option<u64>)
    requires { length draft.old ≤ 86 }
    ensures text { draft.new ≡ draft.old ++ edition_line edition }
    ensures short { length draft.new ≤ length draft.old + 37 }
{
    if let Some(number) = edition {
        let mut buffer = Buffer::new();
        draft.add(b"X-Edr-Edition: ");
        draft.add(buffer.format(number).as_bytes());
        draft.add(b"\r\n");
    }
}

/// Writes the head of a reply, whose body is to follow in chunks: its status, whether it is JSON or CoverageJSON, the
/// number of the edition that it is from, and whether the connection ends with it. After a fault a beginning of it was
/// written.
pub fn write_head<K: Sink>(
    sink: &mut K,
    status: u16,
    json: bool,
    edition: Option<u64>,
    close: bool,
) -> Result<(), SendFault>
    requires { IsStatus status }
    ensures bytes { Writes result (reply_head status json edition close) (K.written sink.old) (K.written sink.new) }
    ensures flushed { K.flushed sink.new ≡ K.flushed sink.old }
    ensures lent { SinkLent (K.beside sink.old) (K.beside sink.new) (K.faults sink.old) (K.faults sink.new) }
    ensures cause { IsErrOf result SendFault.WriteFault → Rose (K.faults sink.old) (K.faults sink.new) }
{
    let mut draft = Draft::new();
    draft.add(status_line(status));
    draft.add(type_line(json));
    add_edition(&mut draft, edition);
    draft.add(last_lines(status, close));
    send(sink, draft.bytes())
}
