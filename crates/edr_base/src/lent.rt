//! A sink that is lent.
ghost use Rattle.std.specs.Prelude.{◌≡◌};
ghost use Rattle.edr_base.specs.LentParts.{lent_beside};

use crate::outside::{Faults, Sink, Stop};

/// A sink over a sink that is lent: its meanings and its count are those of that sink, and what is written to it is
/// written there.
///
/// A layer that takes its sink by value can so be made over a sink that a call is lent, and is dropped whole at the
/// call's end. Which reference it holds is told by `held`.
#[derive(Drop)]
pub struct Lent<'a, K: Sink> {
    sink: &'a mut K,
}

impl<'a, K: Sink> Lent<'a, K> {
    /// A sink that writes to the sink that is lent.
    pub fn of(sink: &'a mut K) -> Lent<'a, K>
        ensures same { result.sink.ghost_name ≡ sink.entry.ghost_name }
        ensures now { result.sink.now ≡ sink.entry.now }
    {
        Lent { sink }
    }
}

impl<K: Sink> Faults for Lent<'_, K> {
    ghost faults = { λ s. K.faults s.sink.now };

    ghost bounded = { λ s. K.bounded s.sink.now };
}

impl<K: Sink> Sink for Lent<'_, K> {
    ghost written = { λ s. K.written s.sink.now };

    ghost flushed = { λ s. K.flushed s.sink.now };

    ghost beside = { λ s. lent_beside (K.beside s.sink.now) s.sink.ghost_name };

    ghost bottomed = { λ s. K.bottomed s.sink.now };

    fn write(&mut self, piece: &[u8]) -> Result<usize, Stop> {
        self.sink.write(piece)
    }

    fn flush(&mut self) -> Result<(), Stop> {
        self.sink.flush()
    }
}
