//! Tables read as observations.
ghost use Rattle.std.specs.Prelude.{All, ◌<◌, ◌↔◌, length, map, IfOk, IsTrue, MatchOption, MatchResult};
ghost use Rattle.edr_base.specs.FirstThatApplies.{IsFirstPlace};
ghost use Rattle.csv.specs.Records.{fields_of};
ghost use Rattle.edr_csv.specs.Tables.{IsTable};
ghost use Rattle.edr_csv.specs.Observations.{AreBehind, AreOwn, IsBadRecord, IsHeaded, IsObservation, IsReadAs, IsSeven, IsTableReadAs};
ghost use Rattle.edr_csv.specs.Notes.{IsKeyed, IsOwnFault};
ghost use Rattle.edr_csv.specs.Forms.{AreNumbers, AreSevens, IsFieldFault, IsFirstFieldFault};

use crate::forms::{Numbers, field, is_header, is_seven, read_numbers};
use crate::keys::repeated;
use crate::observations::{Column, Observation, TableFault};
use crate::sites::differing;
use csv::{ByteRecord, ReaderBuilder};
use edr_axes::instants_are_unique;
use edr_base::{Items, OutOfMemory, Text, numerals_tell_numbers};
use std::alloc::Global;

// The records of a table.
fn read_records(alloc: Global, bytes: &[u8]) -> Result<Vec<ByteRecord>, OutOfMemory>
    ensures { IfOk result (λ records. IsTable bytes.now (map fields_of records.items)) }
{
    let reader = ReaderBuilder::new()
        .has_headers(false)
        .flexible(true)
        .from_reader(alloc, bytes);
    let mut records = Vec::new(alloc);
    for record in reader.into_byte_records() {
        match record {
            Ok(record) => records.push(record)?,
            Err(_) => return Err(OutOfMemory),
        }
    }
    Ok(records)
}

// The first place, from 0, of a record behind the header that hasn't seven fields of text.
fn bad_record(records: &[ByteRecord]) -> Option<usize>
    ensures { MatchOption result (AreSevens (map fields_of records.now)) (IsFirstPlace (IsBadRecord (map fields_of records.now))) }
{
    for place in 1..records.len() {
        if !is_seven(&records[place]) {
            return Some(place);
        }
    }
    None
}

// The observation of a record that has these numbers.
fn observation(
    alloc: Global,
    record: &ByteRecord,
    numbers: Numbers,
) -> Result<Observation, OutOfMemory>
    requires seven { IsSeven (fields_of record.now) }
    requires numbers { AreNumbers (fields_of record.now) numbers }
    ensures { IfOk result (IsObservation (fields_of record.now)) }
{
    let station = Text::of(alloc, field(record, Column::Station))?;
    let label = Text::of(alloc, field(record, Column::Label))?;
    let parameter = Text::of(alloc, field(record, Column::Parameter))?;
    Ok(Observation {
        station,
        label,
        x: numbers.x,
        y: numbers.y,
        t: numbers.t,
        parameter,
        value: numbers.value,
    })
}

// The observation of the record of this number.
fn read_observation(
    alloc: Global,
    record: &ByteRecord,
    number: usize,
) -> Result<Observation, TableFault>
    requires { IsSeven (fields_of record.now) }
    ensures { MatchResult result (IsObservation (fields_of record.now)) (IsFieldFault (fields_of record.now) number) }
{
    match read_numbers(record) {
        Ok(numbers) => Ok(observation(alloc, record, numbers)?),
        Err(column) => Err(TableFault::BadField(number, column)),
    }
}

// The observations of the records behind the header.
fn read_observations(alloc: Global, records: &[ByteRecord]) -> Result<Vec<Observation>, TableFault>
    requires some { 0 < length records.now }
    requires sevens { AreSevens (map fields_of records.now) }
    ensures { MatchResult result (λ observations. AreBehind (map fields_of records.now) (length records.now) observations.items)
        (IsFirstFieldFault (map fields_of records.now)) }
{
    let mut observations = Vec::new(alloc);
    for place in 1..records.len() {
        observations.push(read_observation(alloc, &records[place], place + 1)?)?;
    }
    Ok(observations)
}

// Whether the first record is the header.
fn is_headed(records: &[ByteRecord]) -> bool
    ensures { IsTrue result ↔ IsHeaded (map fields_of records.now) }
{
    !records.is_empty() && is_header(&records[0])
}

// What is wrong with observations that stand in a table, the first fault in the order of `TableFault`'s variants.
fn check_observations(alloc: Global, observations: &[Observation]) -> Result<(), TableFault>
    requires { All IsKeyed observations.now }
    ensures { MatchResult result (λ _. AreOwn observations.now) (IsOwnFault observations.now) }
{
    if let Some(place) = differing(alloc, observations)? {
        return Err(TableFault::PlaceDiffers(place + 2));
    }
    if let Some(place) = repeated(alloc, observations)? {
        return Err(TableFault::SameSample(place + 2));
    }
    if observations.is_empty() {
        return Err(TableFault::NoRecords);
    }
    Ok(())
}

// The observations of a table that has these records.
fn read_all(alloc: Global, records: &[ByteRecord]) -> Result<Items<Observation>, TableFault>
    ensures { IsReadAs (map fields_of records.now) result }
{
    if !is_headed(records) {
        return Err(TableFault::NotHeader);
    }
    if let Some(place) = bad_record(records) {
        return Err(TableFault::BadRecord(place + 1));
    }
    let observations = read_observations(alloc, records)?;
    numerals_tell_numbers();
    instants_are_unique();
    check_observations(alloc, &observations)?;
    Ok(Items::of(observations))
}

/// The observations of a table of comma-separated values (RFC 4180), in the order of their records, or the first fault in the
/// order of `TableFault`'s variants.
///
/// The first record is the header `station,label,x,y,t,parameter,value`. Each other one is an observation: station and
/// parameter are names, label is at most 128 bytes, x and y are whole numbers of metres within `COORDINATE_LIMIT`, t is an
/// instant (`edr_axes::read_instant`), and value is a whole number within `SAMPLE_LIMIT`, or empty where it is missing. All is
/// UTF-8. A byte order mark at the front and empty lines are no records. Each station has one label, x and y, and no record
/// is of the station, the time and the parameter of another.
pub fn read_table(alloc: Global, bytes: &[u8]) -> Result<Items<Observation>, TableFault>
    ensures { IsTableReadAs bytes.now result }
{
    let records = read_records(alloc, bytes)?;
    read_all(alloc, &records)
}
