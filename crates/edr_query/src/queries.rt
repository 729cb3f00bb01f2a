//! Queries.

use crate::shapes::Shape;
use edr_axes::{Levels, Times};
use edr_base::{Items, Text};
use std::marker::Model;

/// A query of the data of a collection, or of one of its instances (OGC 19-086r6, section 8).
///
/// None of its parts is at fault, and none contradicts another: contracts see it as a record of its fields, which
/// `IsQuery` holds of.
#[derive(Debug, Drop)]
pub struct Query {
    /// The id of the collection.
    pub collection: Text,
    /// The id of the instance; without one the newest is asked.
    pub instance: Option<Text>,
    /// Where it selects.
    pub shape: Shape,
    /// The times that it selects; without them all.
    pub times: Option<Times>,
    /// The levels that it selects; without them all.
    pub levels: Option<Levels>,
    /// The ids of the parameters that it selects, each once; without them all.
    pub parameters: Option<Items<Text>>,
    /// The id of the coordinate reference system, which is the collection's own.
    pub crs: Option<Text>,
}

impl Model for Query {
    ghost use Rattle.edr_query.specs.Values.{QueryValue};

    ghost Value = { QueryValue };

    ghost use Rattle.edr_query.specs.Queries.{IsQuery};

    ghost view = { λ query. record {
      collection = query.collection;
      instance = query.instance;
      shape = query.shape;
      times = query.times;
      levels = query.levels;
      parameters = query.parameters;
      crs = query.crs;
    } };

    ghost invariant = { λ query. IsQuery (record {
      collection = query.collection;
      instance = query.instance;
      shape = query.shape;
      times = query.times;
      levels = query.levels;
      parameters = query.parameters;
      crs = query.crs;
    }) };
}
