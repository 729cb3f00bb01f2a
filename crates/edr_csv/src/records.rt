//! Records that are gathered and written in pieces.
ghost use Rattle.std.specs.Prelude.{◌≡◌, ◌++◌, OnOk, IfOk, IfSome, IsErrOf, map};
ghost use Rattle.edr_base.specs.Outside.{Rose};
ghost use Rattle.edr_base.specs.Calls.{SinkLent};
ghost use Rattle.edr_axes.specs.Instants.{IsTime};
ghost use Rattle.covjson_value.specs.Samples.{node};
ghost use Rattle.csv.specs.Writing.{default_writer, row_text};
ghost use Rattle.edr_csv.specs.Gathering.{Gathers};
ghost use Rattle.edr_csv.specs.Rows.{header, record_of};
ghost use Rattle.edr_csv.specs.Turns.{sample_at, sample_text};

use crate::fields::{number, number_field, text_field, time_field};
use csv::WriterBuilder;
use edr_base::{OutOfMemory, SendFault, Sink, Text, send};
use itoa::Buffer;
use std::alloc::Global;

// What is gathered is written as soon as it has so many bytes.
const PIECE_SIZE: usize = 8192;

/// A time and a level; either is absent where the domain hasn't it, or where each tuple has its own.
#[derive(Clone, Copy)]
pub struct Turn {
    /// The time, in seconds since 1970-01-01T00:00:00Z.
    pub t: Option<i64>,
    /// The level, in metres.
    pub z: Option<i64>,
}

// The text of a record.
fn record_text(alloc: Global, fields: &[&[u8]]) -> Result<Vec<u8>, OutOfMemory>
    ensures { IfOk result (λ text. text.items ≡ row_text default_writer (map (λ f. f.now) fields.now)) }
{
    let mut writer = WriterBuilder::new().from_writer(Vec::new(alloc));
    if writer.write_fields(fields).is_err() {
        return Err(OutOfMemory);
    }
    match writer.into_inner() {
        Ok(text) => Ok(text),
        Err(_) => Err(OutOfMemory),
    }
}

/// The records of a table that are gathered.
#[derive(Drop)]
pub struct Records {
    alloc: Global,
    /// Whole records that aren't written yet.
    pub gathered: Vec<u8>,
}

impl Records {
    /// The header.
    #[tactic(auto, using(crate::proofs::TableLemmas::header_text))]
    pub fn with_header(alloc: Global) -> Result<Records, OutOfMemory>
        ensures { IfOk result (λ records. records.gathered.items ≡ row_text default_writer header) }
    {
        Ok(Records {
            alloc,
            gathered: Vec::from_slice(alloc, b"parameter,t,z,y,x,id,value\n")?,
        })
    }

    // Puts the record of a value.
    fn push(
        &mut self,
        id: &Option<Text>,
        parameter: &[u8],
        turn: Turn,
        y: i64,
        x: i64,
        value: i64,
    ) -> Result<(), OutOfMemory>
        requires { IfSome turn.t IsTime }
        ensures { OnOk result (self.new.gathered.items ≡ self.old.gathered.items
            ++ row_text default_writer (record_of id.now (sample_at parameter.now (node turn.t turn.z y x) (Some value)) value)) }
    {
        let mut times = [0; 20];
        let (mut levels, mut ys, mut xs, mut values) = (
            Buffer::new(),
            Buffer::new(),
            Buffer::new(),
            Buffer::new(),
        );
        let text = record_text(
            self.alloc,
            &[
                parameter,
                time_field(&mut times, turn.t),
                number_field(&mut levels, turn.z),
                number(&mut ys, y),
                number(&mut xs, x),
                text_field(id),
                number(&mut values, value),
            ],
        )?;
        self.gathered.extend_from_slice(&text)?;
        Ok(())
    }
}

// Puts the record of a value behind what is gathered, and writes what is gathered where it is long.
fn put_record<K: Sink>(
    sink: &mut K,
    records: &mut Records,
    id: &Option<Text>,
    parameter: &[u8],
    turn: Turn,
    y: i64,
    x: i64,
    value: i64,
) -> Result<(), SendFault>
    requires { IfSome turn.t IsTime }
    ensures record { Gathers result (row_text default_writer (record_of id.now (sample_at parameter.now (node turn.t turn.z y x) (Some value)) value))
        (K.written sink.old) (K.written sink.new) records.old.gathered.items records.new.gathered.items }
    ensures flushed { K.flushed sink.new ≡ K.flushed sink.old }
    ensures lent { SinkLent (K.beside sink.old) (K.beside sink.new) (K.faults sink.old) (K.faults sink.new) }
    ensures cause { IsErrOf result SendFault.WriteFault → Rose (K.faults sink.old) (K.faults sink.new) }
{
    records.push(id, parameter, turn, y, x, value)?;
    if records.gathered.len() < PIECE_SIZE {
        return Ok(());
    }
    send(sink, &records.gathered)?;
    records.gathered.clear();
    Ok(())
}

/// Puts the record of a value behind what is gathered, and none where it is missing.
pub fn put_value<K: Sink>(
    sink: &mut K,
    records: &mut Records,
    id: &Option<Text>,
    parameter: &[u8],
    turn: Turn,
    y: i64,
    x: i64,
    value: Option<i64>,
) -> Result<(), SendFault>
    requires { IfSome turn.t IsTime }
    ensures record { Gathers result (sample_text id.now (sample_at parameter.now (node turn.t turn.z y x) value))
        (K.written sink.old) (K.written sink.new) records.old.gathered.items records.new.gathered.items }
    ensures flushed { K.flushed sink.new ≡ K.flushed sink.old }
    ensures lent { SinkLent (K.beside sink.old) (K.beside sink.new) (K.faults sink.old) (K.faults sink.new) }
    ensures cause { IsErrOf result SendFault.WriteFault → Rose (K.faults sink.old) (K.faults sink.new) }
{
    match value {
        Some(value) => put_record(sink, records, id, parameter, turn, y, x, value),
        None => Ok(()),
    }
}
