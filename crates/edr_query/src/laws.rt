//! Laws of targets.
ghost use Rattle.edr_query.specs.Paths.{EscapesAllOthers, WrittenPathsReadBack};
ghost use Rattle.edr_query.specs.Targets.{TargetIsOne};
ghost use Rattle.edr_query.specs.Spelling.{WrittenQueriesReadBack};

use edr_axes::{
    distances_are_unique, levels_are_unique, times_are_unique, times_are_written,
    written_times_are_instants,
};
use edr_wkt::{wkt_is_one, written_wkt_reads_back};

/// A target has at most one answer: it asks for one page, or one refusal is the least of those that apply.
pub fn target_is_one()
    ensures { TargetIsOne }
{
    wkt_is_one();
    times_are_unique();
    levels_are_unique();
    distances_are_unique();
}

/// The written form of a query asks for that query; by `target_is_one` it asks for no other.
pub fn written_queries_read_back()
    ensures { WrittenQueriesReadBack }
{
    wkt_is_one();
    times_are_unique();
    levels_are_unique();
    distances_are_unique();
    written_wkt_reads_back();
    written_times_are_instants();
    times_are_written();
}

/// The written path of an address names that address, where its ids are some UTF-8.
pub fn written_paths_read_back()
    ensures { WrittenPathsReadBack }
{}

/// In the parts of a written path all bytes are escaped but letters, digits, `-`, `.`, `_` and `~` (RFC 3986, section 2.3).
pub fn paths_escape_all_others()
    ensures { EscapesAllOthers }
{}
