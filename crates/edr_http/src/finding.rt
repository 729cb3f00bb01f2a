//! Looking for a head at the front of some bytes.
ghost use Rattle.std.specs.Prelude.{◌≡◌, take};
ghost use Rattle.edr_http.specs.Finding.{Tells, Looks};
ghost use Rattle.edr_http.specs.Heads.{head_limit};

use httparse::Status;
use httparse::spans::{HeaderSpan, RequestSpans, parse_request};

/// A head has at most so many fields.
pub const FIELD_LIMIT: usize = 64;

/// A head has at most so many bytes.
pub const HEAD_LIMIT: usize = 16_384;

/// Where the fields of a head stand.
pub(crate) type Fields = [HeaderSpan; FIELD_LIMIT];

/// What is at the front of some bytes.
#[derive(Clone, Copy)]
pub(crate) enum Found {
    /// A head, whose parts stand here.
    Got(RequestSpans),
    /// No head yet.
    NeedMore,
    /// No head, whatever follows.
    Bad,
}

/// The first bytes, in which a head has to be.
pub(crate) fn window(bytes: &[u8]) -> &[u8]
    ensures { result.now ≡ take head_limit bytes.now }
{
    if bytes.len() > HEAD_LIMIT {
        &bytes[..HEAD_LIMIT]
    } else {
        bytes
    }
}

/// Looks for a head at the front of some bytes, and says where its fields stand.
pub(crate) fn find_head(bytes: &[u8], fields: &mut Fields) -> Found
    ensures { Tells bytes.now fields.new result }
{
    match parse_request(window(bytes), fields) {
        Ok(Status::Complete(spans)) => Found::Got(spans),
        Ok(Status::Partial) => {
            if bytes.len() < HEAD_LIMIT {
                Found::NeedMore
            } else {
                Found::Bad
            }
        }
        Err(_) => Found::Bad,
    }
}

/// The same; no bytes at all may still become a head.
pub(crate) fn look(held: &[u8], fields: &mut Fields) -> Found
    ensures { Looks held.now fields.new result }
{
    match find_head(held, fields) {
        Found::Got(spans) => Found::Got(spans),
        Found::Bad if !held.is_empty() => Found::Bad,
        _ => Found::NeedMore,
    }
}
