//! What readers are shown.
ghost use Rattle.std.specs.Prelude.{true};
ghost use Rattle.std.specs.Arc.{arc_value};

use edr_edition::Edition;
use left_right::Absorb;
use std::alloc::AllocError;
use std::sync::Arc;

/// The newest edition. Older ones aren't kept.
#[derive(Drop)]
pub struct Shown {
    pub latest: Arc<Edition>,
    /// Whether the publisher has its right to publish.
    pub begun: bool,
}

impl Absorb<Arc<Edition>> for Shown {
    type State = (Edition, bool);

    ghost state = { λ shown. (arc_value shown.latest, shown.begun) };

    ghost applied = { λ _ next. (arc_value next, true) };

    fn absorb_first(&mut self, operation: &Arc<Edition>, _other: &Shown) -> Result<(), AllocError> {
        self.latest = Arc::try_clone(operation)?;
        self.begun = true;
        Ok(())
    }
}
