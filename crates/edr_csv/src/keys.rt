//! Which samples stood in earlier records.
ghost use Rattle.std.specs.Prelude.{◌≡◌, ℕ, All, IfOk, MatchOption, true, false};
ghost use Rattle.edr_base.specs.FirstThatApplies.{IsFirstPlace};
ghost use Rattle.edr_axes.specs.Instants.{IsTime};
ghost use Rattle.edr_ids.specs.Ids.{item_of, with_item};
ghost use Rattle.edr_csv.specs.Observations.{RepeatsAt};
ghost use Rattle.edr_csv.specs.Notes.{IsKeyed, key_id, key_of};

use crate::observations::Observation;
use edr_axes::{texts_tell_times, write_instant};
use edr_base::{OutOfMemory, Text};
use edr_ids::{ById, Identified, items_are_by_id};
use std::alloc::Global;

/// What tells a sample from others: its time, its station and its parameter, in one text.
#[derive(Drop)]
pub struct Key {
    text: Text,
}

impl Identified for Key {
    ghost id_of = { λ key. key.text };

    fn id(&self) -> &[u8] {
        self.text.bytes()
    }
}

impl Key {
    // The key of an observation.
    fn of(alloc: Global, observation: &Observation) -> Result<Key, OutOfMemory>
        requires { IsTime observation.now.t }
        ensures { IfOk result (λ key. key ≡ key_of observation.now) }
    {
        let mut text = Vec::new(alloc);
        text.extend_from_slice(&write_instant(observation.t))?;
        text.extend_from_slice(observation.station.bytes())?;
        text.push(b',')?;
        text.extend_from_slice(observation.parameter.bytes())?;
        Ok(Key {
            text: Text::from_vec(text),
        })
    }
}

// Whether no observation of this key is noted. It is noted then.
fn is_new(
    alloc: Global,
    keys: &mut ById<Key>,
    observation: &Observation,
) -> Result<bool, OutOfMemory>
    requires { IsTime observation.now.t }
    ensures { IfOk result (λ is. MatchOption (item_of key_id (key_id (key_of observation.now)) keys.old)
        ((is ≡ true) × (keys.new ≡ with_item key_id (key_of observation.now) keys.old))
        (λ key. is ≡ false)) }
{
    let key = Key::of(alloc, observation)?;
    if keys.item_of(key.text.bytes()).is_some() {
        return Ok(false);
    }
    keys.put(alloc, key)?;
    Ok(true)
}

/// The first place, from 0, of an observation whose station, time and parameter are those of an earlier one.
pub fn repeated(alloc: Global, observations: &[Observation]) -> Result<Option<usize>, OutOfMemory>
    requires { All IsKeyed observations.now }
    ensures { IfOk result (λ found. MatchOption found ((place : ℕ) → ¬ (RepeatsAt observations.now place)) (IsFirstPlace (RepeatsAt observations.now))) }
{
    items_are_by_id::<Key>();
    texts_tell_times();
    let mut keys = ById::empty();
    for place in 0..observations.len() {
        if !is_new(alloc, &mut keys, &observations[place])? {
            return Ok(Some(place));
        }
    }
    Ok(None)
}
