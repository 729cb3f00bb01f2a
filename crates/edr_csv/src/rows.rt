//! The records of one parameter at one time and level: of rows, and of tuples.
ghost use Rattle.std.specs.Prelude.{◌≡◌, ◌∷◌, [], drop, length, map, All, IfOk, IfSome, IsErrOf};
ghost use Rattle.std.specs.List.{flat_map};
ghost use Rattle.edr_base.specs.Outside.{Rose};
ghost use Rattle.edr_base.specs.Calls.{SinkLent};
ghost use Rattle.edr_axes.specs.Instants.{IsTime};
ghost use Rattle.covjson_value.specs.Domains.{coordinates_of};
ghost use Rattle.covjson_value.specs.Coverages.{IsTuple};
ghost use Rattle.covjson_value.specs.Samples.{tuple_node};
ghost use Rattle.edr_csv.specs.Gathering.{Gathers};
ghost use Rattle.edr_csv.specs.Turns.{records_along, row_nodes};

use crate::records::{Records, Turn, put_value};
use covjson_value::{CoordinateName, Domain};
use edr_base::{Position, SendFault, Sink, Text};

// Puts the records of a row, as far as there are values. The answer is the values behind those of the row.
fn put_row<'v, K: Sink>(
    sink: &mut K,
    records: &mut Records,
    id: &Option<Text>,
    parameter: &[u8],
    turn: Turn,
    y: i64,
    xs: &[i64],
    values: &'v [Option<i64>],
) -> Result<&'v [Option<i64>], SendFault>
    requires { IfSome turn.t IsTime }
    ensures left { IfOk result (λ left. left.now ≡ drop (length (row_nodes turn.t turn.z xs.now y)) values.now) }
    ensures records { Gathers result (records_along id.now parameter.now (row_nodes turn.t turn.z xs.now y) values.now)
        (K.written sink.old) (K.written sink.new) records.old.gathered.items records.new.gathered.items }
    ensures flushed { K.flushed sink.new ≡ K.flushed sink.old }
    ensures lent { SinkLent (K.beside sink.old) (K.beside sink.new) (K.faults sink.old) (K.faults sink.new) }
    ensures cause { IsErrOf result SendFault.WriteFault → Rose (K.faults sink.old) (K.faults sink.new) }
{
    let mut left = values;
    for x in xs {
        let Some((value, rest)) = left.split_first() else {
            return Ok(left);
        };
        put_value(sink, records, id, parameter, turn, y, *x, *value)?;
        left = rest;
    }
    Ok(left)
}

/// Puts the records of the rows of some axes, as far as there are values. The answer is the values behind those.
pub fn put_rows<'v, K: Sink>(
    sink: &mut K,
    records: &mut Records,
    id: &Option<Text>,
    parameter: &[u8],
    turn: Turn,
    ys: &[i64],
    xs: &[i64],
    values: &'v [Option<i64>],
) -> Result<&'v [Option<i64>], SendFault>
    requires { IfSome turn.t IsTime }
    ensures left { IfOk result (λ left. left.now ≡ drop (length (flat_map (row_nodes turn.t turn.z xs.now) ys.now)) values.now) }
    ensures records { Gathers result (records_along id.now parameter.now (flat_map (row_nodes turn.t turn.z xs.now) ys.now) values.now)
        (K.written sink.old) (K.written sink.new) records.old.gathered.items records.new.gathered.items }
    ensures flushed { K.flushed sink.new ≡ K.flushed sink.old }
    ensures lent { SinkLent (K.beside sink.old) (K.beside sink.new) (K.faults sink.old) (K.faults sink.new) }
    ensures cause { IsErrOf result SendFault.WriteFault → Rose (K.faults sink.old) (K.faults sink.new) }
{
    let mut left = values;
    for y in ys {
        left = put_row(sink, records, id, parameter, turn, *y, xs, left)?;
    }
    Ok(left)
}

// The time of a tuple: its own, or that of the turn.
fn time_of(domain: &Domain, turn: Turn, tuple: &Position) -> Option<i64>
    requires time { IfSome turn.t IsTime }
    requires tuple { IsTuple (coordinates_of domain.now) tuple.now }
    ensures same { result ≡ (tuple_node (coordinates_of domain.now) turn.t turn.z tuple.now).t }
    ensures time { IfSome result IsTime }
{
    if domain.is_in_tuples(CoordinateName::T) {
        Some(tuple.m)
    } else {
        turn.t
    }
}

// Its level: its own, or that of the turn.
fn level_of(domain: &Domain, turn: Turn, tuple: &Position) -> Option<i64>
    ensures { result ≡ (tuple_node (coordinates_of domain.now) turn.t turn.z tuple.now).z }
{
    if domain.is_in_tuples(CoordinateName::Z) {
        Some(tuple.z)
    } else {
        turn.z
    }
}

// Puts the line of a tuple.
fn put_tuple<K: Sink>(
    sink: &mut K,
    records: &mut Records,
    domain: &Domain,
    id: &Option<Text>,
    parameter: &[u8],
    turn: Turn,
    tuple: &Position,
    value: Option<i64>,
) -> Result<(), SendFault>
    requires time { IfSome turn.t IsTime }
    requires tuple { IsTuple (coordinates_of domain.now) tuple.now }
    ensures line { Gathers result (records_along id.now parameter.now (tuple_node (coordinates_of domain.now) turn.t turn.z tuple.now ∷ []) (value ∷ []))
        (K.written sink.old) (K.written sink.new) records.old.gathered.items records.new.gathered.items }
    ensures flushed { K.flushed sink.new ≡ K.flushed sink.old }
    ensures lent { SinkLent (K.beside sink.old) (K.beside sink.new) (K.faults sink.old) (K.faults sink.new) }
    ensures cause { IsErrOf result SendFault.WriteFault → Rose (K.faults sink.old) (K.faults sink.new) }
{
    let t = time_of(domain, turn, tuple);
    let z = level_of(domain, turn, tuple);
    let turn = Turn { t, z };
    put_value(sink, records, id, parameter, turn, tuple.y, tuple.x, value)
}

/// Puts the records of tuples, as far as there are values. The answer is the values behind those.
pub fn put_tuples<'v, K: Sink>(
    sink: &mut K,
    records: &mut Records,
    domain: &Domain,
    id: &Option<Text>,
    parameter: &[u8],
    turn: Turn,
    tuples: &[Position],
    values: &'v [Option<i64>],
) -> Result<&'v [Option<i64>], SendFault>
    requires time { IfSome turn.t IsTime }
    requires tuples { All (IsTuple (coordinates_of domain.now)) tuples.now }
    ensures left { IfOk result (λ left. left.now ≡ drop (length (map (tuple_node (coordinates_of domain.now) turn.t turn.z) tuples.now)) values.now) }
    ensures records { Gathers result (records_along id.now parameter.now (map (tuple_node (coordinates_of domain.now) turn.t turn.z) tuples.now) values.now)
        (K.written sink.old) (K.written sink.new) records.old.gathered.items records.new.gathered.items }
    ensures flushed { K.flushed sink.new ≡ K.flushed sink.old }
    ensures lent { SinkLent (K.beside sink.old) (K.beside sink.new) (K.faults sink.old) (K.faults sink.new) }
    ensures cause { IsErrOf result SendFault.WriteFault → Rose (K.faults sink.old) (K.faults sink.new) }
{
    let mut left = values;
    for tuple in tuples {
        let Some((value, rest)) = left.split_first() else {
            return Ok(left);
        };
        put_tuple(sink, records, domain, id, parameter, turn, tuple, *value)?;
        left = rest;
    }
    Ok(left)
}
