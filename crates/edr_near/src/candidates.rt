//! Cells in the order in which a search reads them.
ghost use Rattle.std.specs.Prelude.{◌≡◌, ◌<◌};
ghost use Rattle.edr_near.specs.Search as search;

/// The number of a cell, and how far its square is from a place, squared.
#[derive(Clone, Copy, Debug, PartialEq, Eq)]
pub struct Candidate {
    pub distance: u64,
    pub place: usize,
}

impl Candidate {
    // Its place in the order of distances and numbers.
    fn rank(&self) -> u128
        ensures { result ≡ search.rank_of self.now }
    {
        self.distance as u128 * 18_446_744_073_709_551_616 + self.place as u128
    }

    /// Whether it was read, where all up to the last one were.
    pub fn is_read(&self, last: &Option<Candidate>) -> bool
        ensures { result ≡ search.is_read last.now (search.rank_of self.now) }
    {
        match last {
            None => false,
            Some(last) => self.rank() <= last.rank(),
        }
    }

    /// Of a candidate, if one is given, and this one, unless it was read, the first.
    pub fn unless_read(
        self,
        last: &Option<Candidate>,
        found: Option<Candidate>,
    ) -> Option<Candidate>
        ensures { result ≡ search.unless_read last.now found self }
    {
        if self.is_read(last) {
            return found;
        }
        match found {
            Some(found) if found.rank() <= self.rank() => Some(found),
            _ => Some(self),
        }
    }
}
