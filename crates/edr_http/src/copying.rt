//! The head that some bytes begin with, copied out of them.
ghost use Rattle.std.specs.Prelude.{◌≡◌, length, map, IfOk, All};
ghost use Rattle.httparse.specs.Grammar.{RequestHead};
ghost use Rattle.httparse.specs.Spans.{IsWithin, IsHeaderWithin, IsRequestWithin, IsRequestAt, header_bytes, span_bytes};
ghost use Rattle.edr_http.specs.Heads.{head_of};

use crate::heads::Head;
use edr_base::{Items, OutOfMemory, Text};
use httparse::spans::{HeaderSpan, RequestSpans, Span};
use std::alloc::Global;

fn copy_span(alloc: Global, bytes: &[u8], span: Span) -> Result<Text, OutOfMemory>
    requires { IsWithin (length bytes.now) span }
    ensures { IfOk result (λ text. text ≡ span_bytes bytes.now span) }
{
    Text::of(alloc, span.of(bytes))
}

fn copy_fields(
    alloc: Global,
    bytes: &[u8],
    headers: &[HeaderSpan],
) -> Result<Items<(Text, Text)>, OutOfMemory>
    requires { All (IsHeaderWithin (length bytes.now)) headers.now }
    ensures { IfOk result (λ fields. fields ≡ map (header_bytes bytes.now) headers.now) }
{
    let mut fields = Vec::with_capacity(alloc, headers.len())?;
    for header in headers {
        let name = copy_span(alloc, bytes, header.name)?;
        let value = copy_span(alloc, bytes, header.value)?;
        fields.push((name, value))?;
    }
    Ok(Items::of(fields))
}

/// The head whose parts these spans cover.
pub(crate) fn copy_head(
    alloc: Global,
    bytes: &[u8],
    headers: &[HeaderSpan],
    spans: RequestSpans,
) -> Result<Head, OutOfMemory>
    requires { IsRequestWithin bytes.now headers.now spans }
    ensures { IfOk result (λ head. (tree : RequestHead) → IsRequestAt bytes.now headers.now spans tree → head ≡ head_of tree) }
{
    let method = copy_span(alloc, bytes, spans.method)?;
    let target = copy_span(alloc, bytes, spans.path)?;
    let fields = copy_fields(alloc, bytes, &headers[..spans.headers])?;
    Ok(Head {
        method,
        target,
        minor: spans.version,
        fields,
    })
}
