//! Laws of heads.
ghost use Rattle.edr_http.specs.Heads.{HeadIsOne, IsDecided, DecidedEarly};
ghost use Rattle.edr_http.specs.Checks.{RefusalIsOne};

use crate::finding::{FIELD_LIMIT, find_head};
use httparse::spans::EMPTY_HEADER_SPAN;

/// Some bytes begin with one head at most, and one rest follows it.
pub fn head_is_one()
    ensures { HeadIsOne }
{}

/// Some bytes begin with a head, or with none.
pub fn heads_are_decided(bytes: &[u8])
    ensures { IsDecided bytes.now }
{
    let _ = find_head(bytes, &mut [EMPTY_HEADER_SPAN; FIELD_LIMIT]);
}

/// Whether some bytes begin with a head is decided by the first 16,384 of them.
pub fn heads_are_decided_early()
    ensures { DecidedEarly }
{}

/// A head is refused with one refusal, or not at all.
pub fn refusal_is_one()
    ensures { RefusalIsOne }
{}
