//! A sink that hands on what is written to it, and gathers it.
ghost use Rattle.std.specs.Prelude.{◌≡◌, ◌<◌, ◌≤◌, ◌++◌, [], length, take, None, Some, IfSome};
ghost use Rattle.std.specs.Io.KnownBytes.{append_known};
ghost use Rattle.edr_base.specs.Calls.{SinkLent};
ghost use Rattle.edr_cache.specs.Limits.{kept_limit};
ghost use Rattle.edr_cache.specs.Gathering.{below_known, gathering_beside};
ghost use Rattle.std.proofs.Props.{props};

use crate::gathered::Gathered;
use edr_base::{Faults, Sink, Stop};

/// Hands on what is written to it to the sink inside, and gathers it as long as it is no more than `KEPT_LIMIT` bytes. It has an
/// array for so many, and takes no memory.
///
/// What is written to it is what was handed on, and that is told by it always. Its count of faults is that of the sink inside,
/// and its bottom is what was written to that sink before, where that is told.
#[derive(Drop)]
pub struct Gathering<K: Sink> {
    sink: K,
    gathered: Gathered,
    ghost below: { K.written sink ≡ append_known (below_known gathered (K.written sink)) gathered } by { Prim.hlevel props },
}

impl<K: Sink> Faults for Gathering<K> {
    ghost faults = { λ s. K.faults s.sink };

    ghost bounded = { λ s. K.bounded s.sink };
}

#[tactic(auto, using(crate::specs::GatheringLaws::below_grown, crate::specs::GatheringLaws::kept_grown))]
impl<K: Sink> Sink for Gathering<K> {
    ghost written = { λ s. Some s.gathered };

    ghost flushed = { λ s. None };

    ghost beside = { λ s. gathering_beside (K.beside s.sink) (below_known s.gathered (K.written s.sink)) };

    ghost bottomed = { λ s. tt };

    fn write(&mut self, piece: &[u8]) -> Result<usize, Stop> {
        let count = self.sink.write(piece)?;
        self.gathered.take_in(&piece[..count]);
        Ok(count)
    }

    fn flush(&mut self) -> Result<(), Stop> {
        self.sink.flush()
    }
}

impl<K: Sink> Gathering<K> {
    ghost use Rattle.edr_cache.specs.Gatherings.{sink_within, gathered_in};

    /// A layer over this sink, to which nothing was written yet.
    #[tactic(auto, using(crate::specs::GatheringLaws::nothing_below, crate::specs::GatheringLaws::nothing_kept))]
    pub fn of(sink: K) -> Gathering<K>
        ensures sink { sink_within result ≡ sink }
        ensures gathered { gathered_in result ≡ [] }
        ensures written { ⟦<Gathering<K> as Sink>⟧.written result ≡ Some [] }
        ensures beside { ⟦<Gathering<K> as Sink>⟧.beside result ≡ gathering_beside (K.beside sink) (K.written sink) }
        ensures faults { ⟦<Gathering<K> as Faults>⟧.faults result ≡ K.faults sink }
    {
        Gathering {
            sink,
            gathered: Gathered::new(),
        }
    }

    /// What was written to it; None exactly where that is more than `KEPT_LIMIT` bytes.
    pub fn text(&self) -> Option<&[u8]>
        ensures text { IfSome result (λ text. text.now ≡ gathered_in self.now) }
        ensures within { IfSome result (λ text. length text.now ≤ kept_limit) }
        ensures more { result ≡ None → kept_limit < length (gathered_in self.now) }
        ensures written { ⟦<Gathering<K> as Sink>⟧.written self.now ≡ Some (gathered_in self.now) }
        ensures handed { K.written (sink_within self.now) ≡ append_known (below_known (gathered_in self.now) (K.written (sink_within self.now))) (gathered_in self.now) }
        ensures beside { ⟦<Gathering<K> as Sink>⟧.beside self.now
            ≡ gathering_beside (K.beside (sink_within self.now)) (below_known (gathered_in self.now) (K.written (sink_within self.now))) }
        ensures faults { ⟦<Gathering<K> as Faults>⟧.faults self.now ≡ K.faults (sink_within self.now) }
    {
        self.gathered.text()
    }
}
