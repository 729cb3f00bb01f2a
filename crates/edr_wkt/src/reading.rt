//! Reading well-known text.
ghost use Rattle.edr_wkt.specs.Faults.{MatchWkt};

use crate::bodies::read_body;
use crate::checks::fault_of;
use crate::faults::WktFault;
use crate::geometry::Geometry;
use crate::headings::read_heading;
use crate::words::without_blanks;
use edr_base::POSITION_LIMIT;
use std::alloc::Global;

/// The geometry that a text stands for (OGC 06-103r4, section 7), or the first fault that applies.
///
/// Numbers are whole: an optional sign, digits, and an optional point with zeros after it.
pub fn read_wkt(alloc: Global, text: &[u8]) -> Result<Geometry, WktFault>
    ensures { MatchWkt result text.now }
{
    let Some((heading, inside)) = read_heading(text) else {
        return Err(WktFault::NotWkt);
    };
    let mut count = 0;
    let (geometry, rest) = read_body(alloc, heading, inside, &mut count)?;
    let fault = if !without_blanks(rest).is_empty() {
        Some(WktFault::NotWkt)
    } else if count > POSITION_LIMIT {
        Some(WktFault::TooManyPositions)
    } else {
        fault_of(&geometry)
    };
    match fault {
        Some(fault) => Err(fault),
        None => Ok(geometry),
    }
}
