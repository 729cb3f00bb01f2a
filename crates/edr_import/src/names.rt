//! The parameters of observations.
ghost use Rattle.std.specs.Prelude.{◌≡◌, IfOk, OnOk, MatchOption};
ghost use Rattle.edr_ids.specs.Ids.{item_of, with_item};
ghost use Rattle.edr_import.specs.Tables.{AreParameters, name_id};

use edr_base::{OutOfMemory, Text};
use edr_csv::Observation;
use edr_ids::{ById, Identified, items_are_by_id};
use std::alloc::Global;

/// A parameter of a table, by its id.
#[derive(Drop)]
pub struct Name {
    /// Its id, a name.
    pub id: Text,
}

impl Identified for Name {
    ghost id_of = { λ name. name.id };

    fn id(&self) -> &[u8] {
        self.id.bytes()
    }
}

// Notes an id where it is new.
fn note(alloc: Global, names: &mut ById<Name>, id: &[u8]) -> Result<(), OutOfMemory>
    ensures { OnOk result (MatchOption (item_of name_id id.now names.old)
        (names.new ≡ with_item name_id (record { id = id.now }) names.old)
        (λ name. names.new ≡ names.old)) }
{
    if names.item_of(id).is_some() {
        return Ok(());
    }
    names.put(
        alloc,
        Name {
            id: Text::of(alloc, id)?,
        },
    )
}

/// The parameters of observations, in ascending order of their ids.
pub(crate) fn names_of(
    alloc: Global,
    observations: &[Observation],
) -> Result<ById<Name>, OutOfMemory>
    ensures { IfOk result (AreParameters observations.now) }
{
    items_are_by_id::<Name>();
    let mut names = ById::empty();
    for place in 0..observations.len() {
        note(alloc, &mut names, observations[place].parameter.bytes())?;
    }
    let _count = names.len();
    Ok(names)
}
