//! Bytes of a body, taken from the front of the rest: what is held and what is left of the source.
ghost use Rattle.std.specs.Prelude.{◌≡◌, ◌≤◌, ◌<◌, ◌+◌, ◌++◌, ℕ, length, take, drop, min, IfOk, IfErr, IfSome, OnOk, OnErr, IsErrOf};
ghost use Rattle.std.specs.Io.KnownBytes.{prepend_known, IsAtEnd};
ghost use Rattle.edr_base.specs.Outside.{Rose};
ghost use Rattle.edr_base.specs.Calls.{SourceLent, ReadsAtMost};
ghost use Rattle.edr_reply.specs.Taking.{TakesSome, TakesOnto, TakesUpTo};

use crate::held::{Held, PartFault, read_on};
use edr_base::Source;

// Moves bytes that are held behind a body, at most so many, and says how many.
fn move_held(held: &mut Held, body: &mut Vec<u8>, most: usize) -> Result<usize, PartFault>
    ensures count { IfOk result (λ n. n ≡ min most (length held.old)) }
    ensures body { IfOk result (λ n. body.new.items ≡ body.old.items ++ take n held.old) }
    ensures held { IfOk result (λ n. held.new ≡ drop n held.old) }
    ensures kept { OnErr result (held.new ≡ held.old) }
    ensures memory { IfErr result (λ fault. fault ≡ PartFault.OutOfMemory) }
{
    let count = most.min(held.bytes().len());
    body.extend_from_slice(&held.bytes()[..count])?;
    held.take(count);
    Ok(count)
}

// Takes bytes onto a body until so many were taken, or until the input ends, and says how many.
#[tactic(auto, using(crate::proofs::RestLemmas::moved_onto, crate::proofs::RestLemmas::onto_more, crate::proofs::RestLemmas::onto_most))]
fn take_up_to<S: Source>(
    source: &mut S,
    held: &mut Held,
    body: &mut Vec<u8>,
    most: usize,
) -> Result<usize, PartFault>
    ensures taken { IfOk result (λ n. TakesUpTo most n body.old.items body.new.items (prepend_known held.old (S.left source.old)) (prepend_known held.new (S.left source.new))) }
    ensures bounded { ReadsAtMost most (prepend_known held.old (S.left source.old)) (prepend_known held.new (S.left source.new)) }
    ensures cut { ¬ (IsErrOf result PartFault.Lacking) }
    ensures lent { SourceLent (S.aside source.old) (S.aside source.new) (S.faults source.old) (S.faults source.new) }
    ensures cause { IsErrOf result PartFault.ReadFault → Rose (S.faults source.old) (S.faults source.new) }
    ensures unfinished { IsErrOf result PartFault.ReadFault → TakesSome (λ bytes. length bytes < most) (prepend_known held.old (S.left source.old)) (S.left source.new) }
{
    let mut taken = move_held(held, body, most)?;
    while taken < most {
        match read_on(source, held) {
            Err(PartFault::Lacking) => return Ok(taken),
            outcome => outcome?,
        }
        taken += move_held(held, body, most - taken)?;
    }
    Ok(taken)
}

/// Takes so many bytes onto a body.
#[tactic(auto, using(crate::proofs::RestLemmas::too_few))]
pub(crate) fn take_piece<S: Source>(
    source: &mut S,
    held: &mut Held,
    body: &mut Vec<u8>,
    size: usize,
) -> Result<(), PartFault>
    ensures taken { OnOk result (TakesOnto size body.old.items body.new.items (prepend_known held.old (S.left source.old)) (prepend_known held.new (S.left source.new))) }
    ensures lacking { IsErrOf result PartFault.Lacking → IfSome (prepend_known held.old (S.left source.old)) (λ bytes. length bytes < size) }
    ensures bounded { ReadsAtMost size (prepend_known held.old (S.left source.old)) (prepend_known held.new (S.left source.new)) }
    ensures lent { SourceLent (S.aside source.old) (S.aside source.new) (S.faults source.old) (S.faults source.new) }
    ensures cause { IsErrOf result PartFault.ReadFault → Rose (S.faults source.old) (S.faults source.new) }
    ensures unfinished { IsErrOf result PartFault.ReadFault → TakesSome (λ bytes. length bytes < size) (prepend_known held.old (S.left source.old)) (S.left source.new) }
{
    let count = take_up_to(source, held, body, size)?;
    if count < size {
        Err(PartFault::Lacking)
    } else {
        Ok(())
    }
}

/// Takes all bytes up to the end of the input onto a body, where they are at most so many.
#[tactic(auto, using(crate::proofs::RestLemmas::too_many))]
pub(crate) fn take_to_end<S: Source>(
    source: &mut S,
    held: &mut Held,
    body: &mut Vec<u8>,
    limit: usize,
) -> Result<(), PartFault>
    requires { limit < 4294967296 }
    ensures taken { OnOk result ((n : ℕ) × TakesOnto n body.old.items body.new.items (prepend_known held.old (S.left source.old)) (prepend_known held.new (S.left source.new)) × (n ≤ limit)) }
    ensures ended { OnOk result (IsAtEnd (prepend_known held.new (S.left source.new))) }
    ensures lacking { IsErrOf result PartFault.Lacking → IfSome (prepend_known held.old (S.left source.old)) (λ bytes. limit < length bytes) }
    ensures bounded { ReadsAtMost (limit + 1) (prepend_known held.old (S.left source.old)) (prepend_known held.new (S.left source.new)) }
    ensures lent { SourceLent (S.aside source.old) (S.aside source.new) (S.faults source.old) (S.faults source.new) }
    ensures cause { IsErrOf result PartFault.ReadFault → Rose (S.faults source.old) (S.faults source.new) }
{
    let count = take_up_to(source, held, body, limit + 1)?;
    if count > limit {
        Err(PartFault::Lacking)
    } else {
        Ok(())
    }
}
