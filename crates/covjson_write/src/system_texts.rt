//! The texts of the systems of a domain's coordinates.
ghost use Rattle.std.specs.Prelude.{◌≡◌, ◌++◌, OnOk, IfSome, IsUtf8, codes};
ghost use Rattle.json.specs.Print.{quoted};
ghost use Rattle.serde_json.specs.Written.{compact_text};
ghost use Rattle.covjson_value.specs.declared.domains.CoordinateName.TheVariants.{T, Z};
ghost use Rattle.covjson_value.specs.Domains.{has_coordinate};
ghost use Rattle.covjson_value.specs.Coverages.{IsReferencing};
ghost use Rattle.covjson_value.specs.Trees.{horizontal_data, vertical_data, temporal_data, referencing_data};
ghost use Rattle.covjson_write.specs.HeadTexts.{later_if};

use crate::leaves::{push_bytes, push_quoted};
use covjson_value::{CoordinateName, Domain, Referencing};
use edr_base::{OutOfMemory, Text};
use std::alloc::Global;

fn push_name(text: &mut Vec<u8>, alloc: Global, name: &Text) -> Result<(), OutOfMemory>
    requires { IsUtf8 name.now }
    ensures { OnOk result (text.new.items ≡ text.old.items ++ (codes "\"id\":" ++ (quoted name.now ++ codes ","))) }
{
    push_quoted(text, alloc, b"\"id\":", name.bytes())?;
    push_bytes(text, b",")
}

fn push_horizontal(text: &mut Vec<u8>, alloc: Global, crs: &Text) -> Result<(), OutOfMemory>
    requires { IsUtf8 crs.now }
    ensures { OnOk result (text.new.items ≡ text.old.items ++ compact_text (horizontal_data crs.now)) }
{
    push_bytes(text, b"{\"coordinates\":[\"x\",\"y\"],\"system\":{")?;
    if !crs.bytes().is_empty() {
        push_name(text, alloc, crs)?;
    }
    push_bytes(text, b"\"type\":\"ProjectedCRS\"}}")
}

// The system of the levels, where the domain has some.
fn push_levels(
    text: &mut Vec<u8>,
    alloc: Global,
    domain: &Domain,
    vertical: &Option<Text>,
) -> Result<(), OutOfMemory>
    requires { IfSome vertical.now IsUtf8 }
    ensures { OnOk result (text.new.items
        ≡ text.old.items ++ later_if (has_coordinate domain.now Z) (compact_text (vertical_data vertical.now))) }
{
    if !domain.has(CoordinateName::Z) {
        return Ok(());
    }
    push_bytes(text, b",{\"coordinates\":[\"z\"],\"system\":{")?;
    if let Some(name) = vertical {
        push_name(text, alloc, name)?;
    }
    push_bytes(text, b"\"type\":\"VerticalCRS\"}}")
}

// The system of the times, where the domain has some.
#[tactic(auto, using(crate::proofs::HeadTextLemmas::temporal_put))]
fn push_times(text: &mut Vec<u8>, domain: &Domain) -> Result<(), OutOfMemory>
    ensures { OnOk result (text.new.items
        ≡ text.old.items ++ later_if (has_coordinate domain.now T) (compact_text temporal_data)) }
{
    if !domain.has(CoordinateName::T) {
        return Ok(());
    }
    push_bytes(
        text,
        b",{\"coordinates\":[\"t\"],\"system\":{\"calendar\":\"Gregorian\",\"type\":\"TemporalRS\"}}",
    )
}

/// Puts the systems of a domain's coordinates.
pub fn push_referencing(
    text: &mut Vec<u8>,
    alloc: Global,
    domain: &Domain,
    referencing: &Referencing,
) -> Result<(), OutOfMemory>
    requires { IsReferencing referencing.now }
    ensures { OnOk result (text.new.items ≡ text.old.items ++ compact_text (referencing_data domain.now referencing.now)) }
{
    push_bytes(text, b"[")?;
    push_horizontal(text, alloc, &referencing.crs)?;
    push_levels(text, alloc, domain, &referencing.vertical)?;
    push_times(text, domain)?;
    push_bytes(text, b"]")
}
