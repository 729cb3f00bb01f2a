//! What the text of a coverage's ranges hangs on, beside their values.
use edr_base::{Items, Text};

/// What the text of a coverage's ranges (OGC 21-069r2, NdArray objects) hangs on, beside their values.
#[derive(Drop)]
pub struct RangeHead {
    /// The ids of the parameters, as texts of JSON.
    pub keys: Items<Text>,
    /// What stands between a range's key and its values.
    pub opening: Text,
    /// How many values each range has.
    pub count: usize,
}
