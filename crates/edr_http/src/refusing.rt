//! Replies that tell a refusal.
ghost use Rattle.edr_base.specs.Outside.{Rose};
ghost use Rattle.std.specs.Prelude.{◌≡◌, IsErrOf};
ghost use Rattle.edr_base.specs.Calls.{SinkLent, Writes};
ghost use Rattle.edr_http.specs.Replies.{refusal_body, reply_text};

use crate::chunked_sink::send_body;
use crate::replies::write_head;
use edr_base::{Refusal, SendFault, Sink};
use std::alloc::Global;

/// Writes the whole reply that tells a refusal: its status, the number of the edition that it is from, whether the
/// connection ends with it, and, unless the method is `HEAD`, its body in chunks. It takes no memory, and the sink
/// isn't flushed. After a fault a beginning of the reply was written.
pub fn write_refusal<K: Sink>(
    _alloc: Global,
    sink: &mut K,
    refusal: Refusal,
    edition: Option<u64>,
    is_head: bool,
    close: bool,
) -> Result<(), SendFault>
    ensures bytes { Writes result (reply_text (refusal_body refusal) edition is_head close) (K.written sink.old) (K.written sink.new) }
    ensures flushed { K.flushed sink.new ≡ K.flushed sink.old }
    ensures lent { SinkLent (K.beside sink.old) (K.beside sink.new) (K.faults sink.old) (K.faults sink.new) }
    ensures cause { IsErrOf result SendFault.WriteFault → Rose (K.faults sink.old) (K.faults sink.new) }
{
    write_head(sink, refusal.status(), true, edition, close)?;
    if is_head {
        return Ok(());
    }
    send_body(sink, refusal.body())
}
