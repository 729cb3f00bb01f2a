//! The fields of a record, and whether they are of the form that their columns want.
ghost use Rattle.std.specs.Prelude.{◌≡◌, ◌↔◌, [], ℤ, Option, get_or, length, All, IsTrue, IsUtf8, MatchOption, MatchResult};
ghost use Rattle.edr_base.specs.FirstThatApplies.{IsLeast};
ghost use Rattle.csv.specs.Records.{fields_of};
ghost use Rattle.edr_csv.specs.Observations.{IsCoordinateText, IsSeven, IsValueText, columns, field_of, place_of};
ghost use Rattle.edr_csv.specs.Forms.{AreNumbers, HasColumns, IsSampleText, IsWrong};

use crate::observations::Column;
use csv::ByteRecord;
use edr_axes::read_instant;
use edr_base::{
    COORDINATE_LIMIT, SAMPLE_LIMIT, Whole, is_name, is_utf8, numerals_tell_numbers, whole_number,
};

// A label has at most so many bytes.
const LABEL_LIMIT: usize = 128;

/// The numbers of an observation.
#[derive(Clone, Copy)]
pub struct Numbers {
    /// The first coordinate, in metres.
    pub x: i64,
    /// The second, in metres.
    pub y: i64,
    /// The time, in seconds since 1970-01-01T00:00:00Z.
    pub t: i64,
    /// The value; None where it is missing.
    pub value: Option<i64>,
}

#[tactic(auto, using(crate::proofs::FormLemmas::field_some, crate::proofs::FormLemmas::field_none))]
// The field at a place, from 0, or nothing where there is none.
fn field_at(record: &ByteRecord, place: usize) -> &[u8]
    ensures { result.now ≡ get_or (fields_of record.now) place [] }
{
    match record.get(place) {
        Some(field) => field,
        None => &[],
    }
}

fn place_of(column: Column) -> usize
    ensures { result ≡ place_of column }
{
    match column {
        Column::Station => 0,
        Column::Label => 1,
        Column::X => 2,
        Column::Y => 3,
        Column::T => 4,
        Column::Parameter => 5,
        Column::Value => 6,
    }
}

/// The field of a column, or nothing where there is none.
pub fn field(record: &ByteRecord, column: Column) -> &[u8]
    ensures { result.now ≡ field_of column (fields_of record.now) }
{
    field_at(record, place_of(column))
}

// Whether seven fields are texts.
fn has_texts(record: &ByteRecord) -> bool
    requires { length (fields_of record.now) ≡ 7 }
    ensures { IsTrue result ↔ All IsUtf8 (fields_of record.now) }
{
    for place in 0..7 {
        if !is_utf8(field_at(record, place)) {
            return false;
        }
    }
    true
}

/// Whether a record has seven fields of text.
pub fn is_seven(record: &ByteRecord) -> bool
    ensures { IsTrue result ↔ IsSeven (fields_of record.now) }
{
    record.len() == 7 && has_texts(record)
}

// Whether the fields of a record are those of the header of a table of observations.
fn has_columns(record: &ByteRecord) -> bool
    ensures { IsTrue result ↔ HasColumns (fields_of record.now) }
{
    record.len() == 7
        && field_at(record, 0) == b"station".as_slice()
        && field_at(record, 1) == b"label".as_slice()
        && field_at(record, 2) == b"x".as_slice()
        && field_at(record, 3) == b"y".as_slice()
        && field_at(record, 4) == b"t".as_slice()
        && field_at(record, 5) == b"parameter".as_slice()
        && field_at(record, 6) == b"value".as_slice()
}

/// Whether a record is the header of a table of observations.
pub fn is_header(record: &ByteRecord) -> bool
    ensures { IsTrue result ↔ (fields_of record.now ≡ columns) }
{
    has_columns(record)
}

// The coordinate that a text writes.
fn read_coordinate(text: &[u8]) -> Option<i64>
    ensures { MatchOption result ((x : ℤ) → ¬ (IsCoordinateText text.now x)) (IsCoordinateText text.now) }
{
    numerals_tell_numbers();
    match whole_number(text, COORDINATE_LIMIT as i64) {
        Whole::Value(value) => Some(value),
        Whole::TooLarge => None,
        Whole::NotWhole => None,
    }
}

// The sample that a text writes.
fn read_sample(text: &[u8]) -> Option<i64>
    ensures { MatchOption result ((value : ℤ) → ¬ (IsSampleText text.now value)) (IsSampleText text.now) }
{
    numerals_tell_numbers();
    match whole_number(text, SAMPLE_LIMIT as i64) {
        Whole::Value(value) => Some(value),
        Whole::TooLarge => None,
        Whole::NotWhole => None,
    }
}

// The value that a text writes, which is missing where the text is empty.
fn read_value(text: &[u8]) -> Option<Option<i64>>
    ensures { MatchOption result ((value : Option ℤ) → ¬ (IsValueText text.now value)) (IsValueText text.now) }
{
    if text.is_empty() {
        return Some(None);
    }
    match read_sample(text) {
        Some(value) => Some(Some(value)),
        None => None,
    }
}

/// The numbers of a record whose fields are all of their forms, or the first column whose field isn't.
pub fn read_numbers(record: &ByteRecord) -> Result<Numbers, Column>
    ensures { MatchResult result (AreNumbers (fields_of record.now)) (IsLeast place_of (IsWrong (fields_of record.now))) }
{
    if !is_name(field(record, Column::Station)) {
        return Err(Column::Station);
    }
    if field(record, Column::Label).len() > LABEL_LIMIT {
        return Err(Column::Label);
    }
    let Some(x) = read_coordinate(field(record, Column::X)) else {
        return Err(Column::X);
    };
    let Some(y) = read_coordinate(field(record, Column::Y)) else {
        return Err(Column::Y);
    };
    let Some(t) = read_instant(field(record, Column::T)) else {
        return Err(Column::T);
    };
    if !is_name(field(record, Column::Parameter)) {
        return Err(Column::Parameter);
    }
    let Some(value) = read_value(field(record, Column::Value)) else {
        return Err(Column::Value);
    };
    Ok(Numbers { x, y, t, value })
}
