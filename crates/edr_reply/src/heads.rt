//! The head at the front of some bytes.
ghost use Rattle.std.specs.Prelude.{◌≡◌, ◌≤◌, length, All, take};
ghost use Rattle.edr_base.specs.Calls.{buffer_size};
ghost use Rattle.httparse.specs.Grammar.{ResponseHead};
ghost use Rattle.httparse.specs.Spans.{IsResponseWithin, IsResponseAt};
ghost use Rattle.edr_reply.specs.Finding.{Opens, TellsHead};

use crate::fields::{edition_of, framing_of};
use crate::framing::Framing;
use edr_http::{FIELD_LIMIT, HEAD_LIMIT};
use httparse::Status;
use httparse::spans::{EMPTY_HEADER_SPAN, HeaderSpan, ResponseSpans, parse_response};

/// What a head says, and how many bytes it has.
#[derive(Clone, Copy)]
pub(crate) struct Opening {
    pub(crate) len: usize,
    pub(crate) status: u16,
    pub(crate) edition: Option<u64>,
    pub(crate) framing: Framing,
}

/// What is at the front of some bytes.
#[derive(Clone, Copy)]
pub(crate) enum FoundHead {
    /// A head that says this.
    Got(Opening),
    /// No head yet.
    NeedMore,
    /// No head, whatever follows.
    Bad,
}

// What the head says whose parts these spans cover.
fn opening_of(bytes: &[u8], fields: &[HeaderSpan], spans: ResponseSpans) -> Opening
    requires { IsResponseWithin bytes.now fields.now spans }
    ensures { (head : ResponseHead) → IsResponseAt bytes.now fields.now spans head → Opens head result }
{
    let fields = &fields[..spans.headers];
    Opening {
        len: spans.len,
        status: spans.code,
        edition: edition_of(bytes, fields),
        framing: framing_of(bytes, fields),
    }
}

/// Looks for a head of HTTP/1.1 at the front of some bytes.
pub(crate) fn find_head(bytes: &[u8]) -> FoundHead
    requires { length bytes.now ≤ buffer_size }
    ensures { TellsHead bytes.now result }
{
    let mut fields = [EMPTY_HEADER_SPAN; FIELD_LIMIT];
    match parse_response(bytes, &mut fields) {
        Ok(Status::Complete(spans)) => {
            if spans.version == 1 {
                FoundHead::Got(opening_of(bytes, &fields, spans))
            } else {
                FoundHead::Bad
            }
        }
        Ok(Status::Partial) => {
            if bytes.len() < HEAD_LIMIT {
                FoundHead::NeedMore
            } else {
                FoundHead::Bad
            }
        }
        Err(_) => FoundHead::Bad,
    }
}
