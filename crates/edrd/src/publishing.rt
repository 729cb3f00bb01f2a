//! The job that publishes.
ghost use Rattle.std.specs.Prelude.{◌≡◌, ◌⊎◌, ◌+◌, ◌++◌, length, map, take, true, false};
ghost use Rattle.std.specs.Vec.Iter.{into_iter_items, into_iter_len};
ghost use Rattle.edr_base.specs.Calls.{SinkLent};
ghost use Rattle.edrd.specs.Serving.{Continues};
ghost use Rattle.edr_console.specs.Saying.{edition_line, output_state, SaysAll};

use crate::gate::Gate;
use edr_base::Sink;
use edr_console::say_number;
use edr_edition::Edition;
use edr_share::Publisher;
use std::alloc::Global;
use std::sync::Wait;
use std::vec::IntoIter;

/// What publishes some editions, one at each turn of a gate.
pub struct Publishing<G> {
    pub publisher: Publisher,
    pub rest: IntoIter<Edition>,
    pub gate: G,
    /// How many it has published.
    pub published: u64,
    /// Whether memory was wanting.
    pub wanting: bool,
}

/// Publishes the editions, in their order, one at each turn of the gate, until none is left, the gate is shut, or memory is
/// wanting. Each that is published is said.
pub fn publish_all<R: Wait, G: Gate, O: Sink>(
    rt: &R,
    alloc: Global,
    job: &mut Publishing<G>,
    output: &mut O,
)
    requires open_ { G.shut job.old.gate ≡ false }
    requires counted { into_iter_len job.old.rest ≡ length (into_iter_items job.old.rest) }
    requires numbers { Continues job.old.publisher.log (into_iter_items job.old.rest) }
    ensures log { job.new.publisher.log ≡ job.old.publisher.log ++ take job.new.published (into_iter_items job.old.rest) }
    ensures granted { job.new.wanting ≡ false → G.granted job.new.gate ≡ G.granted job.old.gate + job.new.published }
    ensures ends { (job.new.published ≡ length (into_iter_items job.old.rest)) ⊎ (G.shut job.new.gate ≡ true) ⊎ (job.new.wanting ≡ true) }
    ensures seconds { G.seconds job.new.gate ≡ G.seconds job.old.gate }
    ensures said { SaysAll (map edition_line (take job.new.published (into_iter_items job.old.rest))) (output_state O.written O.flushed O.faults output.old) (output_state O.written O.flushed O.faults output.new) }
    ensures output { SinkLent (O.beside output.old) (O.beside output.new) (O.faults output.old) (O.faults output.new) }
{
    let mut published: u64 = 0;
    let mut wanting = false;
    let mut next = job.rest.next();
    'editions: while let Some(edition) = next {
        if !job.gate.turn() {
            break;
        }
        let number = edition.number();
        if job.publisher.publish(rt, alloc, edition).is_err() {
            wanting = true;
            break;
        }
        say_number(output, b"edition ", number);
        published += 1;
        next = job.rest.next();
    }
    job.published = published;
    job.wanting = wanting;
}
