//! Coverages (OGC 21-069r2, Coverage objects).
ghost use Rattle.std.specs.Prelude.{◌≡◌, ◌≢◌, ◌<◌, length, IfOk, IfErr, Err, option_map, codes};
ghost use Rattle.serde_json.specs.Data.{null};
ghost use Rattle.edr_samples.specs.Trees.{tree_view};
ghost use Rattle.covjson_value.specs.Coverages.{HasAxes, HasTuples, IsValid};
ghost use Rattle.edr_base.specs.FirstThatApplies.{and_then};
ghost use Rattle.covjson_checks.specs.Answers.{GivesAnswer, GivesUnlessMemory};
ghost use Rattle.covjson_checks.specs.Members.{lent};
ghost use Rattle.covjson_read.specs.Collected.{AreValid};
ghost use Rattle.covjson_read.specs.CollectedAnswers.{ranges_in};
ghost use Rattle.covjson_read.specs.ParameterAnswers.{parameters_of};
ghost use Rattle.covjson_value.specs.declared.coverages.Coverage.{Coverage};
ghost use Rattle.covjson_read.specs.CoverageAnswers.{over_domain};
ghost use Rattle.covjson_read.specs.CoverageParts.{with_domain};
ghost use Rattle.covjson_read.specs.CoverageAnswers as answers;
ghost use Rattle.covjson_read.specs.Standing.{Stands, type_of};
ghost use Rattle.covjson_read.specs.Rows.{CoverageRows};

use crate::collected::{ReadRanges, ranges_in};
use crate::laws::{answers_are_what_stands, coverage_answers_follow_rows};
use crate::parameters::parameters_of;
use crate::systems::referencing_of;
use covjson_checks::{CovFault, Member, ReadDomain, lent, need, object_at, text_where_given};
use covjson_domains::domain_of;
use covjson_value::{CoordinateName, Coverage, Referencing};
use edr_base::Text;
use edr_json::{Tree, text_in, text_or_empty};
use std::alloc::Global;

// An object of type Coverage: WrongType, Missing.
fn is_coverage(tree: &Tree) -> Result<&Tree, CovFault>
    ensures { GivesAnswer (λ v. tree_view v.now) result (answers.is_coverage (tree_view tree.now)) }
{
    let _members = object_at(tree, Member::Coverages)?;
    let _kind = need(tree, "type", Member::Kind)?;
    if text_or_empty(tree, "type") != "Coverage" {
        return Err(CovFault::WrongType(Member::Kind));
    }
    Ok(tree)
}

// The type of a domain: its own, else that of the coverage, else that of the collection.
fn type_of<'a>(domain: &'a Tree, tree: &'a Tree, collection: &'a Tree) -> Option<&'a Tree>
    ensures { option_map (λ v. tree_view v.now) result ≡ type_of (tree_view domain.now) (tree_view tree.now) (tree_view collection.now) }
{
    match domain.get("domainType") {
        Some(found) => Some(found),
        None => lent(tree, collection, "domainType"),
    }
}

// What a coverage has beside its domain.
#[derive(Drop)]
struct Parts {
    id: Option<Text>,
    referencing: Referencing,
    ranges: ReadRanges,
}

// The ranges of a coverage over a domain that was read, each with its parameter.
fn ranges_over(
    alloc: Global,
    tree: &Tree,
    collection: &Tree,
    read: &ReadDomain,
) -> Result<ReadRanges, CovFault>
    requires axes { HasAxes read.now.domain }
    requires tuples { HasTuples read.now.domain }
    ensures answer { GivesUnlessMemory (λ r. r) result (
        and_then (parameters_of (lent (codes "parameters") (tree_view tree.now) (tree_view collection.now))) (λ parameters.
        ranges_in read.now parameters (tree_view tree.now))) }
    ensures some { IfOk result (λ r. 0 < length r.parameters) }
    ensures valid { IfOk result (λ r. AreValid read.now.domain r.parameters r.ranges) }
{
    let parameters = parameters_of(lent(tree, collection, "parameters"))?;
    ranges_in(alloc, tree, parameters, read)
}

// What a coverage has over a domain that was read: its systems, its parameters and its ranges.
fn parts_over(
    alloc: Global,
    tree: &Tree,
    collection: &Tree,
    domain: &Tree,
    read: &ReadDomain,
) -> Result<Parts, CovFault>
    requires axes { HasAxes read.now.domain }
    requires tuples { HasTuples read.now.domain }
    ensures answer { GivesUnlessMemory (with_domain read.now.domain) result (over_domain (tree_view collection.now) (tree_view tree.now) (tree_view domain.now) read.now) }
    ensures valid { IfOk result (λ p. IsValid (with_domain read.now.domain p)) }
{
    let id = text_where_given(alloc, text_in(tree, "id"))?;
    let levels = read.domain.has(CoordinateName::Z);
    let referencing = referencing_of(alloc, lent(domain, collection, "referencing"), levels)?;
    let ranges = ranges_over(alloc, tree, collection, read)?;
    Ok(Parts {
        id,
        referencing,
        ranges,
    })
}

/// The coverage that a tree of JSON stands for within a collection, which lends it what it lacks: its type of domain, its
/// systems and its parameters. The collection is null where there is none.
pub fn coverage_in(alloc: Global, tree: &Tree, collection: &Tree) -> Result<Coverage, CovFault>
    ensures answer { GivesUnlessMemory (λ c. c) result (answers.coverage_in (tree_view collection.now) (tree_view tree.now)) }
    ensures valid { IfOk result IsValid }
{
    let _tree = is_coverage(tree)?;
    let domain = need(tree, "domain", Member::Domain)?;
    let _members = object_at(domain, Member::Domain)?;
    let read = domain_of(alloc, domain, type_of(domain, tree, collection))?;
    let Parts {
        id,
        referencing,
        ranges,
    } = parts_over(alloc, tree, collection, domain, &read)?;
    Ok(Coverage {
        id,
        domain: read.domain,
        referencing,
        parameters: ranges.parameters,
        ranges: ranges.ranges,
    })
}

/// The coverage that a tree of JSON stands for by itself.
pub fn coverage_alone(alloc: Global, tree: &Tree) -> Result<Coverage, CovFault>
    ensures answer { GivesUnlessMemory (λ c. c) result (answers.coverage_in null (tree_view tree.now)) }
    ensures valid { IfOk result IsValid }
{
    coverage_in(alloc, tree, &Tree::Null)
}

/// The coverage that a tree of JSON stands for (OGC 21-069r2, CoverageJSON objects), or the first check that it fails.
///
/// The checks go in this order: the object and its type, the domain and its type, the axes t, z, y, x and composite, the
/// reference systems, the parameters, and the ranges, parameters and ranges in ascending order of their ids. An axis has its
/// values in a list, or one of numbers has them by `start`, `stop` and `num`; descending values are turned round with the
/// samples over them. A range may have its axes in any order. Members that aren't needed are passed over, and parameters
/// without a range are dropped. A tree is JSON, so that NotJson is none of the faults.
pub fn coverage_of(alloc: Global, tree: &Tree) -> Result<Coverage, CovFault>
    ensures stands { IfOk result (Stands (tree_view tree.now)) }
    ensures none { IfErr result (λ fault. fault ≢ CovFault.OutOfMemory → (coverage : Coverage) → ¬ (Stands (tree_view tree.now) coverage)) }
    ensures first_fault { IfErr result (λ fault. fault ≢ CovFault.OutOfMemory → CoverageRows null (tree_view tree.now) (Err fault)) }
    ensures valid { IfOk result IsValid }
{
    coverage_answers_follow_rows();
    answers_are_what_stands();
    coverage_alone(alloc, tree)
}
