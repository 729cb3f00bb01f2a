//! Reading a reply.
ghost use Rattle.std.specs.Prelude.{◌≡◌, ◌+◌, ℕ, List, IfOk, IfSome, IsErrOf, Err};
ghost use Rattle.edr_base.specs.Outside.{Rose};
ghost use Rattle.edr_base.specs.Calls.{SourceLent, ReadsAtMost};
ghost use Rattle.edr_http.specs.Heads.{Told};
ghost use Rattle.covjson_value.specs.Coverages.{IsValidDocument};
ghost use Rattle.covjson_checks.specs.declared.faults.CovFault.{CovFault};
ghost use Rattle.edr_reply.specs.Messages.{HasNoMessage, BreaksOff, most_beyond, most_read};
ghost use Rattle.edr_reply.specs.BrokenParts.{IsFirstBreak};
ghost use Rattle.edr_client.specs.Replies.{IsCode, IsReply, IsNotData, IsNoDocument, IsLeft};
ghost use Rattle.edr_client.specs.Answering.{TellsNotData, Answers};

use crate::replies::{Reply, ReplyFault};
use covjson_read::read_document;
use edr_base::{OutOfMemory, Source, Text};
use edr_json::{JsonFault, read_tree, text_or_empty};
use edr_reply::{Message, read_message};
use std::alloc::Global;

// The code that a body gives.
fn code_of(alloc: Global, body: &[u8]) -> Result<Text, OutOfMemory>
    ensures { IfOk result (λ code. IsCode body.now code) }
{
    match read_tree(alloc, body) {
        Ok(tree) => Text::of(alloc, text_or_empty(&tree, "code").as_bytes()),
        Err(JsonFault::NotJson) => Text::of(alloc, b""),
        Err(JsonFault::OutOfMemory) => Err(OutOfMemory),
    }
}

// Why a reply whose status isn't 200 is none of data.
fn not_data(alloc: Global, message: &Message) -> Result<ReplyFault, OutOfMemory>
    ensures { IfOk result (TellsNotData message.now) }
{
    let code = code_of(alloc, message.body.bytes())?;
    Ok(ReplyFault::NotData(message.status, code))
}

// The reply that a message is.
fn reply_of(alloc: Global, message: &Message) -> Result<Reply, ReplyFault>
    ensures answers { Answers message.now result }
    ensures valid { IfOk result (λ reply. IsValidDocument reply.document) }
{
    if message.status != 200 {
        return Err(not_data(alloc, message)?);
    }
    let document = read_document(alloc, message.body.bytes())?;
    Ok(Reply {
        edition: message.edition,
        document,
    })
}

/// Reads a reply of data: HTTP/1.1 (RFC 9112) of status 200 whose body is CoverageJSON (OGC 21-069r2). It is what the bytes
/// that are left of the source begin with; at most 16,384 of the bytes behind it are read with it.
///
/// `BadReply` is the first place at which a part of a reply isn't there, or isn't there whole, and nothing that begins so is a
/// reply. Not much more is read than what stands before that place and a body of the longest, of 67,108,864 bytes.
///
/// `ReadFault` is answered only in the midst of a reply: none ends within the bytes that were taken, unless it goes on to the
/// end of the input.
pub fn read_reply<S: Source>(alloc: Global, source: &mut S) -> Result<Reply, ReplyFault>
    ensures reply { IfOk result (λ reply. Told (λ bytes left. IsLeft (IsReply bytes reply) left) (S.left source.old) (S.left source.new)) }
    ensures valid { IfOk result (λ reply. IsValidDocument reply.document) }
    ensures bad_reply { (place : ℕ) → result ≡ Err (ReplyFault.BadReply place) → IfSome (S.left source.old) (λ bytes. IsFirstBreak bytes place) }
    ensures no_reply { (place : ℕ) → result ≡ Err (ReplyFault.BadReply place) → IfSome (S.left source.old) HasNoMessage }
    ensures not_data { (status : ℕ) (code : List ℕ) → result ≡ Err (ReplyFault.NotData status code) → Told (λ bytes left. IsLeft (IsNotData bytes status code) left) (S.left source.old) (S.left source.new) }
    ensures no_document { (fault : CovFault) → result ≡ Err (ReplyFault.Cov fault) → Told (λ bytes left. IsLeft (IsNoDocument bytes fault) left) (S.left source.old) (S.left source.new) }
    ensures near { (place : ℕ) → result ≡ Err (ReplyFault.BadReply place) → ReadsAtMost (place + most_beyond) (S.left source.old) (S.left source.new) }
    ensures bounded { ReadsAtMost most_read (S.left source.old) (S.left source.new) }
    ensures lent { SourceLent (S.aside source.old) (S.aside source.new) (S.faults source.old) (S.faults source.new) }
    ensures cause { IsErrOf result ReplyFault.ReadFault → Rose (S.faults source.old) (S.faults source.new) }
    ensures unfinished { IsErrOf result ReplyFault.ReadFault → BreaksOff (S.left source.old) (S.left source.new) }
{
    let message = read_message(alloc, source)?;
    reply_of(alloc, &message)
}
