//! The records of one parameter, turn by turn: at each time and each level of a domain.
ghost use Rattle.std.specs.Prelude.{◌≡◌, ◌<◌, drop, length, get_or, None, IfOk, IfSome, IsErrOf};
ghost use Rattle.edr_base.specs.Outside.{Rose};
ghost use Rattle.edr_base.specs.Calls.{SinkLent};
ghost use Rattle.edr_axes.specs.Instants.{IsTime};
ghost use Rattle.covjson_value.specs.Domains.{axis_of};
ghost use Rattle.covjson_value.specs.Coverages.{HasAxes, HasTuples};
ghost use Rattle.covjson_value.specs.Samples.{values_or_absent, values_or_none, nodes_of};
ghost use Rattle.edr_csv.specs.Gathering.{Gathers};
ghost use Rattle.edr_csv.specs.Turns.{records_along, turn_nodes, level_nodes};

use crate::records::{Records, Turn};
use crate::rows::{put_rows, put_tuples};
use covjson_value::{CoordinateName, Domain};
use edr_base::{SendFault, Sink, Text};

// How many turns an axis makes: one, of no value, where the domain hasn't it.
fn turns(domain: &Domain, name: CoordinateName) -> usize
    ensures { result ≡ length (values_or_absent (axis_of domain.now name)) }
{
    match domain.axis(name) {
        Some(values) => values.len(),
        None => 1,
    }
}

// The value of a turn.
fn turn_value(domain: &Domain, name: CoordinateName, place: usize) -> Option<i64>
    requires { place < length (values_or_absent (axis_of domain.now name)) }
    ensures { result ≡ get_or (values_or_absent (axis_of domain.now name)) place None }
{
    match domain.axis(name) {
        Some(values) => Some(values[place]),
        None => None,
    }
}

// The values of an axis, and none where the domain hasn't it.
fn values_along(domain: &Domain, name: CoordinateName) -> &[i64]
    ensures { result.now ≡ values_or_none (axis_of domain.now name) }
{
    domain.axis(name).unwrap_or(&[])
}

// Puts the records of a turn, as far as there are values. The answer is the values behind those.
fn put_turn<'v, K: Sink>(
    sink: &mut K,
    records: &mut Records,
    domain: &Domain,
    id: &Option<Text>,
    parameter: &[u8],
    turn: Turn,
    values: &'v [Option<i64>],
) -> Result<&'v [Option<i64>], SendFault>
    requires time { IfSome turn.t IsTime }
    requires tuples { HasTuples domain.now }
    ensures left { IfOk result (λ left. left.now ≡ drop (length (turn_nodes domain.now turn.t turn.z)) values.now) }
    ensures records { Gathers result (records_along id.now parameter.now (turn_nodes domain.now turn.t turn.z) values.now)
        (K.written sink.old) (K.written sink.new) records.old.gathered.items records.new.gathered.items }
    ensures flushed { K.flushed sink.new ≡ K.flushed sink.old }
    ensures lent { SinkLent (K.beside sink.old) (K.beside sink.new) (K.faults sink.old) (K.faults sink.new) }
    ensures cause { IsErrOf result SendFault.WriteFault → Rose (K.faults sink.old) (K.faults sink.new) }
{
    match domain.tuples() {
        Some(tuples) => put_tuples(sink, records, domain, id, parameter, turn, tuples, values),
        None => {
            let ys = values_along(domain, CoordinateName::Y);
            let xs = values_along(domain, CoordinateName::X);
            put_rows(sink, records, id, parameter, turn, ys, xs, values)
        }
    }
}

// Puts the records of a time, level by level, as far as there are values. The answer is the values behind those.
fn put_levels<'v, K: Sink>(
    sink: &mut K,
    records: &mut Records,
    domain: &Domain,
    id: &Option<Text>,
    parameter: &[u8],
    t: Option<i64>,
    values: &'v [Option<i64>],
) -> Result<&'v [Option<i64>], SendFault>
    requires time { IfSome t IsTime }
    requires tuples { HasTuples domain.now }
    ensures left { IfOk result (λ left. left.now ≡ drop (length (level_nodes domain.now t)) values.now) }
    ensures records { Gathers result (records_along id.now parameter.now (level_nodes domain.now t) values.now)
        (K.written sink.old) (K.written sink.new) records.old.gathered.items records.new.gathered.items }
    ensures flushed { K.flushed sink.new ≡ K.flushed sink.old }
    ensures lent { SinkLent (K.beside sink.old) (K.beside sink.new) (K.faults sink.old) (K.faults sink.new) }
    ensures cause { IsErrOf result SendFault.WriteFault → Rose (K.faults sink.old) (K.faults sink.new) }
{
    let mut left = values;
    for place in 0..turns(domain, CoordinateName::Z) {
        let z = turn_value(domain, CoordinateName::Z, place);
        left = put_turn(sink, records, domain, id, parameter, Turn { t, z }, left)?;
    }
    Ok(left)
}

/// Puts the records of a parameter, in a coverage of this id, as far as there are values.
pub fn put_parameter<K: Sink>(
    sink: &mut K,
    records: &mut Records,
    domain: &Domain,
    id: &Option<Text>,
    parameter: &[u8],
    values: &[Option<i64>],
) -> Result<(), SendFault>
    requires axes { HasAxes domain.now }
    requires tuples { HasTuples domain.now }
    ensures records { Gathers result (records_along id.now parameter.now (nodes_of domain.now) values.now)
        (K.written sink.old) (K.written sink.new) records.old.gathered.items records.new.gathered.items }
    ensures flushed { K.flushed sink.new ≡ K.flushed sink.old }
    ensures lent { SinkLent (K.beside sink.old) (K.beside sink.new) (K.faults sink.old) (K.faults sink.new) }
    ensures cause { IsErrOf result SendFault.WriteFault → Rose (K.faults sink.old) (K.faults sink.new) }
{
    let mut left = values;
    for place in 0..turns(domain, CoordinateName::T) {
        let t = turn_value(domain, CoordinateName::T, place);
        left = put_levels(sink, records, domain, id, parameter, t, left)?;
    }
    Ok(())
}
