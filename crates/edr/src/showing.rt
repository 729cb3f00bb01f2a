//! Shows the document on the input.
ghost use Rattle.std.specs.Prelude.{◌≡◌, ◌↔◌, ◌+◌, [], false, IsTrue};
ghost use Rattle.std.specs.Io.KnownBytes.{IsAtEnd};
ghost use Rattle.edr_base.specs.Calls.{SourceLent, SinkLent, ReadsAtMost, buffer_size};
ghost use Rattle.covjson_checks.specs.declared.faults.CovFault.{CovFault};
ghost use Rattle.edr_reply.specs.Messages.{body_limit};
ghost use Rattle.edr.specs.Documents.{IsTableIn};
ghost use Rattle.edr.specs.Ends.{OutputEnds, IsReadByEnd};
ghost use Rattle.edr.specs.Explaining.{IfAsked, ExplainsDocument};
ghost use Rattle.edr.specs.Showing.{ShowCause};

use crate::endings::{DocumentRefusal, Ending};
use crate::explaining::explain_document;
use crate::tabling::tabled;
use covjson_checks::CovFault;
use covjson_read::read_document;
use edr_base::{ReadStop, Sink, Source, Text, read_all};
use edr_reply::BODY_LIMIT;
use std::alloc::Global;

// Whether it is for want of memory that no document was read.
fn is_out_of_memory(fault: &CovFault) -> bool
    ensures { IsTrue result ↔ (fault.now ≡ CovFault.OutOfMemory) }
{
    matches!(fault, CovFault::OutOfMemory)
}

/// Reads the document on the input, and writes its table. Where there is none, and that is asked for, it is explained why.
#[tactic(auto, using(crate::proofs::ExplainLemmas::if_asked))]
pub fn show<S: Source, K: Sink>(
    alloc: Global,
    why: bool,
    input: &mut S,
    output: &mut K,
    explained: &mut Text,
) -> Ending
    requires { explained.old ≡ [] }
    ensures output { OutputEnds result false (IsTableIn (S.left input.old)) (IsTableIn (S.left input.old))
        (K.written output.old) (K.written output.new) (K.flushed output.new) }
    ensures cause { ShowCause result (S.left input.old) (S.faults input.old) (S.faults input.new) (K.faults output.old) (K.faults output.new) }
    ensures explains { IfAsked why (ExplainsDocument result (S.left input.old)) explained.new }
    ensures ended { IsReadByEnd result (IsAtEnd (S.left input.new)) }
    ensures read { ReadsAtMost (body_limit + buffer_size) (S.left input.old) (S.left input.new) }
    ensures input { SourceLent (S.aside input.old) (S.aside input.new) (S.faults input.old) (S.faults input.new) }
    ensures lent { SinkLent (K.beside output.old) (K.beside output.new) (K.faults output.old) (K.faults output.new) }
{
    let bytes = match read_all(alloc, input, BODY_LIMIT) {
        Ok(bytes) => bytes,
        Err(ReadStop::ReadFault) => return Ending::ReadFault,
        Err(ReadStop::TooLong) => return Ending::NoDocument(DocumentRefusal::TooLong),
        Err(ReadStop::OutOfMemory) => return Ending::OutOfMemory,
    };
    match read_document(alloc, &bytes) {
        Ok(document) => tabled(alloc, &document, output),
        Err(fault) => {
            if is_out_of_memory(&fault) {
                return Ending::OutOfMemory;
            }
            match explain_document(alloc, why, &fault, explained) {
                Ok(()) => Ending::NoDocument(DocumentRefusal::Cov),
                Err(_) => Ending::OutOfMemory,
            }
        }
    }
}
