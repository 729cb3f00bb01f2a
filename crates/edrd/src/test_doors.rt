//! Doors in memory.
ghost use Rattle.std.specs.Prelude.{◌≡◌, ◌≤◌, ◌<◌, ◌+◌, ◌-◌, ◌^◌, ◌⊎◌, min, vec_len, All, IfOk, IsSomeAnd, MatchResult, MatchOption, OnErr, Some, true, false, cond, is_ok, is_err};
ghost use Rattle.edr_base.specs.Calls.{Cause};
ghost use Rattle.edr_base.specs.Outside.{Rose};
ghost use Rattle.edr_base.specs.Limits.{count_limit};
ghost use Rattle.edr_serve.specs.Connections.{outcome_of};
ghost use Rattle.edr_console.specs.Limits.{accept_limit};
ghost use Rattle.edrd.specs.Doors.{IsNew};

use crate::accept::Accept;
use crate::doors::{Doors, DoorsAsked};
use crate::test_sink::HoldingSink;
use edr_base::{Failed, Faults, MemorySource, OutOfMemory, Stop};
use edr_console::ENDLESS;
use edr_serve::{Connection, Served};
use std::alloc::Global;
use std::vec::IntoIter;

/// A connection that comes.
pub(crate) type Coming = Connection<MemorySource, HoldingSink>;

/// The same once it was served.
pub(crate) type Back = Served<MemorySource, HoldingSink>;

// The port that is bound where none is asked for.
const CHOSEN: u16 = 50_000;

// How many connections a door hands out where no end was asked for.
const MOST: u64 = 1000;

/// A door that hands out connections that were made before, and keeps them once they are served.
#[derive(Drop)]
pub(crate) struct MemoryDoor {
    coming: IntoIter<Option<Coming>>,
    served: Vec<Back>,
    most: u64,
    given: u64,
    finished: u64,
    faulted: u64,
    over: bool,
    faults: u64,
    ghost bound: { (given ≤ most) × (most ≤ accept_limit) × (faulted ≤ finished) × (finished ≤ given) × (given ≤ accept_limit) },
    ghost fits: { faults ≤ count_limit },
}

impl MemoryDoor {
    /// A door that hands out these connections, at most so many; an accept fails at each `None`.
    pub(crate) fn of(alloc: Global, coming: Vec<Option<Coming>>, most: u64) -> MemoryDoor
        requires { most ≤ accept_limit }
        ensures open_ { ⟦<MemoryDoor as Accept>⟧.over result ≡ false }
        ensures counts { (⟦<MemoryDoor as Accept>⟧.given result ≡ 0) × (⟦<MemoryDoor as Accept>⟧.finished result ≡ 0)
            × (⟦<MemoryDoor as Accept>⟧.faulted result ≡ 0) × (⟦<MemoryDoor as Faults>⟧.faults result ≡ 0) }
    {
        MemoryDoor {
            coming: coming.into_iter(),
            served: Vec::new(alloc),
            most,
            given: 0,
            finished: 0,
            faulted: 0,
            over: false,
            faults: 0,
        }
    }

    /// The connections that came back.
    pub(crate) fn served(&self) -> &[Back] {
        &self.served
    }
}

impl Faults for MemoryDoor {
    ghost faults = { λ s. s.faults };

    ghost bounded = { λ s. s.fits };
}

impl Accept for MemoryDoor {
    type In = MemorySource;

    type Out = HoldingSink;

    ghost given = { λ s. s.given };

    ghost finished = { λ s. s.finished };

    ghost faulted = { λ s. s.faulted };

    ghost over = { λ s. s.over };

    fn accept(&mut self) -> Result<Option<Coming>, Failed> {
        self.over = false;
        if self.given < self.most {
            match self.coming.next() {
                Some(Some(connection)) => {
                    self.given += 1;
                    return Ok(Some(connection));
                }
                Some(None) => {
                    self.faults = self.faults.saturating_add(1);
                    return Err(Failed);
                }
                None => {}
            }
        }
        self.over = true;
        Ok(None)
    }

    fn finish(&mut self, served: Back)
        requires { self.old.finished < self.old.given }
        ensures finished { self.new.finished ≡ self.old.finished + 1 }
        ensures faulted { self.new.faulted ≡ self.old.faulted + cond (is_err (outcome_of served)) 1 0 }
        ensures kept { (self.new.given ≡ self.old.given) × (self.new.over ≡ self.old.over) × (self.new.faults ≡ self.old.faults) }
    {
        let is_fault = served.outcome().is_err();
        let _ = self.served.push(served);
        self.finished += 1;
        if is_fault {
            self.faulted += 1;
        }
    }

    ghost within = { λ s. (s.bound.2, s.bound.3, s.bound.4) };
}

/// Opens doors in memory, each with its list of connections, and keeps those that are closed.
#[derive(Drop)]
pub(crate) struct MemoryDoors {
    coming: IntoIter<Vec<Option<Coming>>>,
    refuses: bool,
    last: Option<DoorsAsked>,
    tried: Option<(DoorsAsked, bool)>,
    opens: u64,
    closed: usize,
    port: u16,
    served: u64,
    faulted: u64,
    faults: u64,
    back: Vec<MemoryDoor>,
    ghost fits: { faults ≤ count_limit },
}

impl MemoryDoors {
    /// Doors with these connections: the first list comes through the first door that is opened, and so on. They may refuse
    /// to be opened.
    pub(crate) fn of(
        alloc: Global,
        coming: Vec<Vec<Option<Coming>>>,
        refuses: bool,
    ) -> MemoryDoors {
        MemoryDoors {
            coming: coming.into_iter(),
            refuses,
            last: None,
            tried: None,
            opens: 0,
            closed: 0,
            port: 0,
            served: 0,
            faulted: 0,
            faults: 0,
            back: Vec::new(alloc),
        }
    }

    /// The doors that were closed.
    pub(crate) fn back(&self) -> &[MemoryDoor] {
        &self.back
    }
}

impl Faults for MemoryDoors {
    ghost faults = { λ s. s.faults };

    ghost bounded = { λ s. s.fits };
}

// The connections of the next door.
fn next_list(alloc: Global, coming: &mut IntoIter<Vec<Option<Coming>>>) -> Vec<Option<Coming>> {
    match coming.next() {
        Some(list) => list,
        None => Vec::new(alloc),
    }
}

// So many doors, each for at most so many connections.
fn doors_with(
    alloc: Global,
    coming: &mut IntoIter<Vec<Option<Coming>>>,
    count: usize,
    most: u64,
) -> Result<Vec<MemoryDoor>, OutOfMemory>
    requires { most ≤ accept_limit }
    ensures { IfOk result (λ doors. (vec_len doors ≡ count)
        × All (IsNew ⟦<MemoryDoor as Accept>⟧.over ⟦<MemoryDoor as Accept>⟧.given
        ⟦<MemoryDoor as Accept>⟧.finished ⟦<MemoryDoor as Accept>⟧.faulted ⟦<MemoryDoor as Faults>⟧.faults) doors.items) }
{
    let mut doors = Vec::new(alloc);
    for _ in 0..count {
        let list = next_list(alloc, coming);
        doors.push(MemoryDoor::of(alloc, list, most))?;
    }
    Ok(doors)
}

impl Doors for MemoryDoors {
    type Door = MemoryDoor;

    ghost last = { λ s. s.last };

    ghost tried = { λ s. s.tried };

    ghost opens = { λ s. s.opens };

    ghost closed = { λ s. s.closed };

    ghost port = { λ s. s.port };

    ghost served = { λ s. s.served };

    ghost faulted = { λ s. s.faulted };

    fn open(&mut self, alloc: Global, asked: DoorsAsked) -> Result<Vec<MemoryDoor>, Stop> {
        self.tried = Some((asked, false));
        if self.refuses {
            self.faults = self.faults.saturating_add(1);
            return Err(Stop::Failed);
        }
        let most = if asked.connections == ENDLESS {
            MOST
        } else {
            asked.connections.min(MOST)
        };
        match doors_with(alloc, &mut self.coming, asked.count, most) {
            Ok(doors) => {
                let port = if asked.port == 0 { CHOSEN } else { asked.port };
                self.last = Some(asked);
                self.tried = Some((asked, true));
                self.opens = self.opens.saturating_add(1);
                self.closed = 0;
                self.port = port;
                self.served = 0;
                self.faulted = 0;
                Ok(doors)
            }
            Err(OutOfMemory) => Err(Stop::OutOfMemory),
        }
    }

    fn port(&self) -> u16 {
        self.port
    }

    fn close(&mut self, door: MemoryDoor) {
        self.served += door.given;
        self.faulted += door.faulted;
        let _ = self.back.push(door);
        match self.last {
            Some(asked) if self.closed < asked.count => self.closed += 1,
            _ => unreachable!(),
        }
    }
}
