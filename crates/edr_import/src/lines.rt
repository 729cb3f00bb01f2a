//! The lines of a feed of stations.
ghost use Rattle.std.specs.Prelude.{◌≡◌, ◌++◌, All, false, IfOk, OnOk, map};
ghost use Rattle.serde_json.specs.View.{view};
ghost use Rattle.serde_json.specs.Written.{has_float};
ghost use Rattle.edr_feed.specs.Written.{entry_data, entry_line, entries_text};
ghost use Rattle.edr_import.specs.Imports.{feed_text, sites_entry, station_entry};
ghost use Rattle.edr_import.specs.Stations.{IsWritable};
ghost use Rattle.edr_feed.specs.declared.entries.Entry.TheVariants.{Publish};

use crate::stations::Station;
use covjson_value::{only_member, put_text, text_of, tree_of};
use edr_base::OutOfMemory;
use serde_json::{Map, Value};
use std::alloc::Global;

const SITES: &[u8] =
    b"{\"collection\":{\"crs\":\"local\",\"id\":\"sites\",\"kind\":\"station\",\"title\":\"sites\"}}\n";

const PUBLISH: &[u8] = b"{\"publish\":{}}\n";

// The tree of the line of a station.
fn station_tree(alloc: Global, station: &Station) -> Result<Value, OutOfMemory>
    requires { IsWritable station.now }
    ensures tree { IfOk result (λ v. view v ≡ entry_data (station_entry station.now)) }
    ensures no_float { IfOk result (λ v. has_float (view v) ≡ false) }
{
    let mut members = Map::new(alloc);
    put_text(&mut members, alloc, "collection", "sites")?;
    serde_json::put(
        &mut members,
        alloc,
        "coverage",
        tree_of(alloc, &station.coverage)?,
    )?;
    put_text(&mut members, alloc, "id", text_of(station.id.bytes()))?;
    put_text(&mut members, alloc, "label", text_of(station.label.bytes()))?;
    only_member(alloc, "station", Value::Object(members))
}

// Puts the line of a station.
fn push_station(text: &mut Vec<u8>, alloc: Global, station: &Station) -> Result<(), OutOfMemory>
    requires { IsWritable station.now }
    ensures { OnOk result (text.new.items ≡ text.old.items ++ entry_line (station_entry station.now)) }
{
    let tree = station_tree(alloc, station)?;
    let line = tree.to_vec(alloc)?;
    text.extend_from_slice(&line)?;
    text.push(b'\n')?;
    Ok(())
}

// Puts the lines of stations.
fn push_stations(text: &mut Vec<u8>, alloc: Global, stations: &[Station]) -> Result<(), OutOfMemory>
    requires { All IsWritable stations.now }
    ensures { OnOk result (text.new.items ≡ text.old.items ++ entries_text (map station_entry stations.now)) }
{
    for station in stations {
        push_station(text, alloc, station)?;
    }
    Ok(())
}

/// The feed of stations: their collection, their lines, and a publish.
pub(crate) fn feed_of(alloc: Global, stations: &[Station]) -> Result<Vec<u8>, OutOfMemory>
    requires { All IsWritable stations.now }
    ensures { IfOk result (λ text. text.items ≡ feed_text stations.now) }
{
    let mut text = Vec::from_slice(alloc, SITES)?;
    push_stations(&mut text, alloc, stations)?;
    text.extend_from_slice(PUBLISH)?;
    Ok(text)
}
