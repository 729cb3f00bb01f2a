//! The head at the front of the rest of a connection.
ghost use Rattle.std.specs.Prelude.{◌≡◌, ◌≤◌, ◌<◌, ◌⊎◌, [], ℕ, length, IfOk, OnErr, IsErrOf};
ghost use Rattle.std.specs.Io.KnownBytes.{prepend_known};
ghost use Rattle.edr_base.specs.Outside.{Rose};
ghost use Rattle.edr_base.specs.Calls.{SourceLent};
ghost use Rattle.edr_http.specs.Heads.{Finds, HasHead, HasNoHead, IsGot, IsEnd, IsBehind, block_size, most_held};
ghost use Rattle.edr_http.specs.Finding.{HasTree, HasNoTree};

use crate::copying::copy_head;
use crate::filling::{Front, fill};
use crate::finding::{Fields, window};
use crate::heads::{HeadFault, HeadOutcome};
use crate::held::Held;
use crate::inbox::Inbox;
use edr_base::{Refusal, Source};
use std::alloc::Global;

// Takes the head at the front of what is held and what is left of the source.
fn take_head<S: Source>(
    alloc: Global,
    source: &mut S,
    held: &mut Held,
    fields: &mut Fields,
) -> Result<HeadOutcome, HeadFault>
    ensures done { IfOk result (λ outcome. Finds outcome (prepend_known held.old (S.left source.old)) (prepend_known held.new (S.left source.new))) }
    ensures fault { OnErr result (prepend_known held.new (S.left source.new) ≡ prepend_known held.old (S.left source.old)) }
    ensures behind { IsBehind (prepend_known held.old (S.left source.old)) (prepend_known held.new (S.left source.new)) }
    ensures short { IsGot result → HasHead held.old ⊎ (length held.new < block_size) }
    ensures bounded { length held.new ≤ most_held (length held.old) }
    ensures kept { (n : ℕ) → HasTree held.old n → source.new ≡ source.old }
    ensures less { (n : ℕ) → HasTree held.old n → length held.new ≤ length held.old }
    ensures none { IsErrOf result HeadFault.ReadFault → HasNoTree held.new }
    ensures ended { IsEnd result → held.new ≡ [] }
    ensures lent { SourceLent (S.aside source.old) (S.aside source.new) (S.faults source.old) (S.faults source.new) }
    ensures cause { IsErrOf result HeadFault.ReadFault → Rose (S.faults source.old) (S.faults source.new) }
{
    match fill(source, held, fields)? {
        Front::Got(spans) => {
            let head = copy_head(alloc, window(held.bytes()), fields, spans)?;
            held.take(spans.len);
            Ok(HeadOutcome::Got(head))
        }
        Front::EndOfInput => Ok(HeadOutcome::EndOfInput),
        Front::BadHead => Ok(HeadOutcome::Refused(Refusal::BadHead)),
    }
}

/// Reads the head of a request: the rest of a connection, which is what `inbox` holds and then what is left of `source`,
/// is left without it. A head is answered as soon as it has come.
///
/// Where the rest isn't empty and begins with no head of at most 64 fields and 16,384 bytes, `Refused(BadHead)` is
/// answered, and the rest stays as it was, as it does after a fault. Nothing is read where `inbox` holds a head already, and
/// with `ReadFault` it holds none then. Whatever is answered, `inbox` holds no more than before then, or no more than 20,479
/// bytes; behind a head for which something was read less than 4,096, and nothing with `EndOfInput`.
pub fn read_head<S: Source>(
    alloc: Global,
    source: &mut S,
    inbox: &mut Inbox,
) -> Result<HeadOutcome, HeadFault>
    ensures done { IfOk result (λ outcome. Finds outcome (prepend_known inbox.old (S.left source.old)) (prepend_known inbox.new (S.left source.new))) }
    ensures fault { OnErr result (prepend_known inbox.new (S.left source.new) ≡ prepend_known inbox.old (S.left source.old)) }
    ensures behind { IsBehind (prepend_known inbox.old (S.left source.old)) (prepend_known inbox.new (S.left source.new)) }
    ensures short { IsGot result → HasHead inbox.old ⊎ (length inbox.new < block_size) }
    ensures bounded { length inbox.new ≤ most_held (length inbox.old) }
    ensures kept { HasHead inbox.old → source.new ≡ source.old }
    ensures less { HasHead inbox.old → length inbox.new ≤ length inbox.old }
    ensures none { IsErrOf result HeadFault.ReadFault → HasNoHead inbox.new }
    ensures ended { IsEnd result → inbox.new ≡ [] }
    ensures lent { SourceLent (S.aside source.old) (S.aside source.new) (S.faults source.old) (S.faults source.new) }
    ensures cause { IsErrOf result HeadFault.ReadFault → Rose (S.faults source.old) (S.faults source.new) }
{
    take_head(alloc, source, &mut inbox.held, &mut inbox.fields)
}
