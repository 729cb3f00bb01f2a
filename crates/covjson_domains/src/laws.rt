//! Laws of domains and of the answers to their trees.
ghost use Rattle.covjson_domains.specs.Laws.{DomainRowsHaveOneAnswer, DomainRowsAreWhatStands, WrittenDomainsStand, DomainAnswersFollowRows, DomainsAreWhatStand};

use edr_axes::{instants_are_read, written_times_are_instants};

/// The rows of a tree have one answer.
pub fn domain_rows_have_one_answer()
    ensures { DomainRowsHaveOneAnswer }
{
    instants_are_read();
}

/// The rows of a tree end in a domain exactly where the tree stands for it.
pub fn domain_rows_are_what_stands()
    ensures { DomainRowsAreWhatStands }
{
    instants_are_read();
}

/// What is written of a domain stands for it, with no axis turned.
pub fn written_domains_stand()
    ensures { WrittenDomainsStand }
{
    written_times_are_instants();
}

/// For the crates of CoverageJSON: the computed answer follows the rows.
pub fn domain_answers_follow_rows()
    ensures { DomainAnswersFollowRows }
{
    instants_are_read();
}

/// For the crates of CoverageJSON: the computed answer is a domain exactly where the tree stands for it.
pub fn domains_are_what_stand()
    ensures { DomainsAreWhatStand }
{
    instants_are_read();
}
