//! Reading until it is known what is at the front of the rest.
ghost use Rattle.std.specs.Prelude.{◌≡◌, ◌≤◌, ◌<◌, ◌-◌, ◌⊎◌, ℕ, length, IfOk, Ok, IsErrOf};
ghost use Rattle.std.specs.Io.KnownBytes.{prepend_known};
ghost use Rattle.edr_base.specs.Outside.{Rose};
ghost use Rattle.edr_base.specs.Calls.{SourceLent};
ghost use Rattle.httparse.specs.declared.spans.RequestSpans.{RequestSpans};
ghost use Rattle.edr_http.specs.Heads.{block_size, most_held};
ghost use Rattle.edr_http.specs.Finding.{IsFront, HasTree, HasNoTree};

use crate::finding::{Fields, Found, HEAD_LIMIT, look};
use crate::heads::HeadFault;
use crate::held::{Held, read_more};
use edr_base::Source;
use httparse::spans::RequestSpans;

/// What is at the front of the rest.
#[derive(Clone, Copy)]
pub(crate) enum Front {
    /// A head, whose parts stand here.
    Got(RequestSpans),
    /// Nothing.
    EndOfInput,
    /// Some bytes that begin with no head.
    BadHead,
}

/// Reads until it is known what is at the front of the rest, which stays as it is, and says where the fields of a head stand.
#[tactic(auto, using(crate::proofs::RestLemmas::no_head_ever, crate::proofs::RestLemmas::no_head_end, crate::proofs::RestLemmas::held_bound))]
pub(crate) fn fill<S: Source>(
    source: &mut S,
    held: &mut Held,
    fields: &mut Fields,
) -> Result<Front, HeadFault>
    ensures rest { prepend_known held.new (S.left source.new) ≡ prepend_known held.old (S.left source.old) }
    ensures front { IfOk result (λ front. IsFront front held.new fields.new (S.left source.new)) }
    ensures kept { (n : ℕ) → HasTree held.old n → source.new ≡ source.old }
    ensures same { (n : ℕ) → HasTree held.old n → held.new ≡ held.old }
    ensures none { IsErrOf result HeadFault.ReadFault → HasNoTree held.new }
    ensures short { (spans : RequestSpans) → result ≡ Ok (Front.Got spans) → HasTree held.old spans.len ⊎ (length held.new - spans.len < block_size) }
    ensures bounded { length held.new ≤ most_held (length held.old) }
    ensures lent { SourceLent (S.aside source.old) (S.aside source.new) (S.faults source.old) (S.faults source.new) }
    ensures cause { IsErrOf result HeadFault.ReadFault → Rose (S.faults source.old) (S.faults source.new) }
{
    for _ in 0..HEAD_LIMIT + 1 {
        match look(held.bytes(), fields) {
            Found::Got(spans) => return Ok(Front::Got(spans)),
            Found::Bad => return Ok(Front::BadHead),
            Found::NeedMore => {}
        }
        if read_more(source, held)? == 0 {
            return Ok(if held.bytes().is_empty() {
                Front::EndOfInput
            } else {
                Front::BadHead
            });
        }
    }
    unreachable!()
}
