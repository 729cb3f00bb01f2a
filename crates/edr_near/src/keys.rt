//! Keys by which a tree parts its items: places whose keys share their first bits stand near each other.
use crate::placed::Placed;
use edr_ids::Identified;
use std::sync::Arc;

/// Where the two sides of a fork part: a key that shares its first bits with those of all items of the fork, and how many bits
/// these are. The next bit parts them.
#[derive(Clone, Copy, Debug, PartialEq, Eq)]
pub struct Parting {
    key: u64,
    shared: u32,
}

/// On which side of a fork an item stands: before or behind where they part, or apart from both, which then are one side.
#[derive(Clone, Copy, Debug, PartialEq, Eq)]
pub enum Side {
    Before,
    Behind,
    Apart(Parting),
}

// The last 16 bits of a coordinate, each at twice its place.
fn spread(value: i64) -> u64 {
    let bits = value.rem_euclid(65_536) as u64;
    let bits = (bits | bits << 8) & 0x00FF_00FF;
    let bits = (bits | bits << 4) & 0x0F0F_0F0F;
    let bits = (bits | bits << 2) & 0x3333_3333;
    (bits | bits << 1) & 0x5555_5555
}

// A number that differs for most ids (Fowler, Noll and Vo's hash of 32 bits).
fn number_of(id: &[u8]) -> u64 {
    let mut number: u32 = 0x811C_9DC5;
    for byte in id {
        number = (number ^ *byte as u32).wrapping_mul(0x0100_0193);
    }
    number as u64
}

/// The key of an item: the bits of its place within its cell, those of x and of y in turns, and behind them a number for its
/// id, so that the keys of items at one place differ.
pub fn key_of<T: Identified + Placed>(item: &T) -> u64 {
    let spot = item.spot();
    let place = spread(spot.x) | spread(spot.y) << 1;
    place << 32 | number_of(item.id())
}

/// Where some items part: at the first bit in which their keys differ.
pub fn parting_of<T: Identified + Placed>(items: &[Arc<T>]) -> Parting {
    let key = match items.first() {
        Some(first) => key_of::<T>(first),
        None => 0,
    };
    let mut apart: u64 = 0;
    for item in items {
        apart |= key_of::<T>(item) ^ key;
    }
    Parting {
        key,
        shared: apart.leading_zeros(),
    }
}

impl Parting {
    /// Whether the bit of a key at which they part is set.
    pub fn is_behind(&self, key: u64) -> bool {
        key.rotate_left(self.shared) >> 63 == 1
    }

    /// On which side the item of a key stands.
    pub fn side_of(&self, key: u64) -> Side {
        let shared = (key ^ self.key).leading_zeros();
        if shared < self.shared {
            Side::Apart(Parting { key, shared })
        } else if self.is_behind(key) {
            Side::Behind
        } else {
            Side::Before
        }
    }
}
