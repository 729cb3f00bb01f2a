//! Lines of a feed.
ghost use Rattle.std.specs.Prelude.{◌≡◌, ◌≤◌, length, IfOk, IfSome, IsTrue};
ghost use Rattle.std.specs.List.{list_all};
ghost use Rattle.edr_base.specs.Names.{is_blank};
ghost use Rattle.edr_base.specs.Limits.{line_limit};
ghost use Rattle.edr_feed.specs.Forms.{IsEntry};
ghost use Rattle.edr_feed.specs.Lines.{IsBlank};
ghost use Rattle.edr_feed.specs.Readings.{Says};

use crate::entries::Entry;
use crate::faults::LineFault;
use crate::forms::entry_of;
use edr_base::{LINE_LIMIT, is_blank};
use edr_json::read_tree;
use std::alloc::Global;

fn all_blank(line: &[u8]) -> bool
    ensures { result ≡ list_all is_blank line.now }
{
    line.iter().all(|byte| is_blank(*byte))
}

/// Whether a line is within the limit, and blank.
pub fn is_blank_line(line: &[u8]) -> bool
    ensures { IsTrue result → (length line.now ≤ line_limit) × IsBlank line.now }
{
    line.len() <= LINE_LIMIT && all_blank(line)
}

/// What a line says: nothing where it is blank, else its entry; or LineTooLong, NotJson, NotFeedLine, or the fault of its
/// coverage.
pub fn line_says(alloc: Global, line: &[u8]) -> Result<Option<Entry>, LineFault>
    ensures says { Says line.now result }
    ensures is { IfOk result (λ said. IfSome said IsEntry) }
{
    if line.len() > LINE_LIMIT {
        return Err(LineFault::LineTooLong);
    }
    if all_blank(line) {
        return Ok(None);
    }
    let tree = read_tree(alloc, line)?;
    Ok(Some(entry_of(alloc, &tree)?))
}
