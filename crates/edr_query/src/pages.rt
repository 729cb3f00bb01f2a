//! Pages.

use crate::queries::Query;
use edr_base::Text;

/// What a target asks for (OGC 19-086r6, section 7).
#[derive(Debug, Drop)]
pub enum Page {
    /// The landing page.
    Landing,
    /// The classes of conformance.
    Conformance,
    /// All collections.
    Collections,
    /// A collection, by its id.
    Collection(Text),
    /// The instances of a collection.
    Instances(Text),
    /// An instance, by the ids of its collection and its own.
    Instance(Text, Text),
    /// The stations of a collection.
    Locations(Text),
    /// Data.
    Ask(Query),
}
