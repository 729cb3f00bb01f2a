//! The parts of a reply that are looked for whole, each taken from the front of the rest: what is held and what is left of the source.
ghost use Rattle.std.specs.Prelude.{◌≡◌, ◌≤◌, IfOk, IfSome, OnOk, OnErr, IsErrOf};
ghost use Rattle.std.specs.Io.KnownBytes.{prepend_known};
ghost use Rattle.edr_base.specs.Outside.{Rose};
ghost use Rattle.edr_base.specs.Calls.{SourceLent};
ghost use Rattle.edr_http.specs.Chunks.{crlf};
ghost use Rattle.edr_reply.specs.BrokenParts.{LacksHead, LacksLine, LacksEnd};
ghost use Rattle.edr_reply.specs.Taking.{TakesSome, TakesHead, TakesLine};

use crate::heads::{FoundHead, Opening, find_head};
use crate::held::{Held, PartFault, read_on};
use crate::lines::{FoundEnd, FoundLine, SizeLine, find_end, find_line};
use edr_base::Source;

/// Takes a head.
#[tactic(auto, using(crate::proofs::RestLemmas::front_taken, crate::proofs::RestLemmas::front_short, crate::proofs::RestLemmas::lacks_now, crate::proofs::RestLemmas::lacks_ever, crate::proofs::RestLemmas::some_held))]
pub(crate) fn take_head<S: Source>(source: &mut S, held: &mut Held) -> Result<Opening, PartFault>
    ensures taken { IfOk result (λ opening. TakesHead opening (prepend_known held.old (S.left source.old)) (prepend_known held.new (S.left source.new))) }
    ensures lacking { IsErrOf result PartFault.Lacking → IfSome (prepend_known held.old (S.left source.old)) LacksHead }
    ensures same { OnErr result (prepend_known held.new (S.left source.new) ≡ prepend_known held.old (S.left source.old)) }
    ensures lent { SourceLent (S.aside source.old) (S.aside source.new) (S.faults source.old) (S.faults source.new) }
    ensures cause { IsErrOf result PartFault.ReadFault → Rose (S.faults source.old) (S.faults source.new) }
    ensures unfinished { IsErrOf result PartFault.ReadFault → TakesSome LacksHead (prepend_known held.old (S.left source.old)) (S.left source.new) }
{
    loop {
        match find_head(held.bytes()) {
            FoundHead::Got(opening) => {
                held.take(opening.len);
                return Ok(opening);
            }
            FoundHead::Bad => return Err(PartFault::Lacking),
            FoundHead::NeedMore => {}
        }
        read_on(source, held)?;
    }
}

/// Takes a line that gives the size of a chunk, which is at most `room` bytes.
#[tactic(auto, using(crate::proofs::RestLemmas::front_taken, crate::proofs::RestLemmas::front_short, crate::proofs::RestLemmas::lacks_now, crate::proofs::RestLemmas::lacks_ever, crate::proofs::RestLemmas::some_held))]
pub(crate) fn take_line<S: Source>(
    source: &mut S,
    held: &mut Held,
    room: u64,
) -> Result<SizeLine, PartFault>
    ensures taken { IfOk result (λ line. TakesLine room line (prepend_known held.old (S.left source.old)) (prepend_known held.new (S.left source.new))) }
    ensures lacking { IsErrOf result PartFault.Lacking → IfSome (prepend_known held.old (S.left source.old)) (LacksLine room) }
    ensures same { OnErr result (prepend_known held.new (S.left source.new) ≡ prepend_known held.old (S.left source.old)) }
    ensures lent { SourceLent (S.aside source.old) (S.aside source.new) (S.faults source.old) (S.faults source.new) }
    ensures cause { IsErrOf result PartFault.ReadFault → Rose (S.faults source.old) (S.faults source.new) }
    ensures unfinished { IsErrOf result PartFault.ReadFault → TakesSome (LacksLine room) (prepend_known held.old (S.left source.old)) (S.left source.new) }
{
    loop {
        match find_line(held.bytes(), room) {
            FoundLine::Got(line) => {
                held.take(line.len);
                return Ok(line);
            }
            FoundLine::Bad => return Err(PartFault::Lacking),
            FoundLine::NeedMore => {}
        }
        read_on(source, held)?;
    }
}

/// Takes a line end.
#[tactic(auto, using(crate::proofs::RestLemmas::front_taken, crate::proofs::RestLemmas::front_short, crate::proofs::RestLemmas::lacks_now, crate::proofs::RestLemmas::lacks_ever, crate::proofs::RestLemmas::some_held))]
pub(crate) fn take_end<S: Source>(source: &mut S, held: &mut Held) -> Result<(), PartFault>
    ensures taken { OnOk result (prepend_known held.old (S.left source.old) ≡ prepend_known crlf (prepend_known held.new (S.left source.new))) }
    ensures lacking { IsErrOf result PartFault.Lacking → IfSome (prepend_known held.old (S.left source.old)) LacksEnd }
    ensures same { OnErr result (prepend_known held.new (S.left source.new) ≡ prepend_known held.old (S.left source.old)) }
    ensures lent { SourceLent (S.aside source.old) (S.aside source.new) (S.faults source.old) (S.faults source.new) }
    ensures cause { IsErrOf result PartFault.ReadFault → Rose (S.faults source.old) (S.faults source.new) }
    ensures unfinished { IsErrOf result PartFault.ReadFault → TakesSome LacksEnd (prepend_known held.old (S.left source.old)) (S.left source.new) }
{
    loop {
        match find_end(held.bytes()) {
            FoundEnd::Got => {
                held.take(2);
                return Ok(());
            }
            FoundEnd::Bad => return Err(PartFault::Lacking),
            FoundEnd::NeedMore => {}
        }
        read_on(source, held)?;
    }
}
