//! Doors at a port of this machine.
ghost use Rattle.std.specs.Prelude.{◌≡◌, ◌≤◌, ◌<◌, ◌+◌, ◌^◌, min, vec_len, All, IfOk, IsSomeAnd, MatchResult, Some, None, true, false, is_ok, is_err, option_map};
ghost use Rattle.edr_base.specs.Calls.{Cause};
ghost use Rattle.edr_base.specs.Limits.{count_limit};
ghost use Rattle.edrd.specs.Doors.{IsNew};

use crate::accept::Accept;
use crate::doors::{Doors, DoorsAsked};
use crate::real_door::RealDoor;
use edr_base::{Faults, Stop};
use edr_console::{ACCEPT_LIMIT, ENDLESS};
use std::alloc::Global;
use std::io;
use std::io::ErrorKind;
use std::net::TcpListener;
use std::rt::HostRuntime;

/// Opens doors at ports of 127.0.0.1, by the runtime that main gives. Each error is a fault, but for want of memory.
#[derive(Drop)]
pub struct RealDoors {
    rt: HostRuntime,
    last: Option<DoorsAsked>,
    tried: Option<(DoorsAsked, bool)>,
    opens: u64,
    closed: usize,
    port: u16,
    served: u64,
    faulted: u64,
    faults: u64,
    ghost fits: { faults ≤ count_limit },
}

impl RealDoors {
    /// None was opened yet.
    pub fn new(rt: HostRuntime) -> RealDoors
        ensures { ⟦<RealDoors as Faults>⟧.faults result ≡ 0 }
    {
        RealDoors {
            rt,
            last: None,
            tried: None,
            opens: 0,
            closed: 0,
            port: 0,
            served: 0,
            faulted: 0,
            faults: 0,
        }
    }
}

// The port that a listener was bound to: the one that was asked for, and for 0 the one that the system chose.
fn port_of(listener: &TcpListener, asked: u16) -> io::Result<u16>
    ensures { IfOk result (λ port. 0 < asked → port ≡ asked) }
{
    if asked > 0 {
        return Ok(asked);
    }
    Ok(listener.local_addr()?.port())
}

// Doors at a port, which the system chooses where it is 0.
fn doors_at(rt: HostRuntime, alloc: Global, asked: DoorsAsked) -> io::Result<(u16, Vec<RealDoor>)>
    ensures port { IfOk result (λ opened. 0 < asked.port → opened.0 ≡ asked.port) }
    ensures doors { IfOk result (λ opened. (vec_len opened.1 ≡ asked.count)
        × All (IsNew ⟦<RealDoor as Accept>⟧.over ⟦<RealDoor as Accept>⟧.given ⟦<RealDoor as Accept>⟧.finished
        ⟦<RealDoor as Accept>⟧.faulted ⟦<RealDoor as Faults>⟧.faults) opened.1.items) }
{
    let most = if asked.connections == ENDLESS || asked.connections > ACCEPT_LIMIT {
        ACCEPT_LIMIT
    } else {
        asked.connections
    };
    let listener = TcpListener::bind(&rt, ("127.0.0.1", asked.port))?;
    let port = port_of(&listener, asked.port)?;
    let mut doors = Vec::new(alloc);
    for _ in 0..asked.count {
        doors.push(RealDoor::of(rt, alloc, listener.try_clone()?, most, asked.idle))?;
    }
    Ok((port, doors))
}

impl Faults for RealDoors {
    ghost faults = { λ s. s.faults };

    ghost bounded = { λ s. s.fits };
}

impl Doors for RealDoors {
    type Door = RealDoor;

    ghost last = { λ s. s.last };

    ghost tried = { λ s. s.tried };

    ghost opens = { λ s. s.opens };

    ghost closed = { λ s. s.closed };

    ghost port = { λ s. s.port };

    ghost served = { λ s. s.served };

    ghost faulted = { λ s. s.faulted };

    fn open(&mut self, alloc: Global, asked: DoorsAsked) -> Result<Vec<RealDoor>, Stop> {
        match doors_at(self.rt, alloc, asked) {
            Ok((port, doors)) => {
                self.last = Some(asked);
                self.tried = Some((asked, true));
                self.opens = self.opens.saturating_add(1);
                self.closed = 0;
                self.port = port;
                self.served = 0;
                self.faulted = 0;
                Ok(doors)
            }
            Err(error) => {
                self.tried = Some((asked, false));
                if error.kind() == ErrorKind::OutOfMemory {
                    return Err(Stop::OutOfMemory);
                }
                self.faults = self.faults.saturating_add(1);
                Err(Stop::Failed)
            }
        }
    }

    fn port(&self) -> u16 {
        self.port
    }

    fn close(&mut self, door: RealDoor) {
        self.served += door.given();
        self.faulted += door.faulted();
        match self.last {
            Some(asked) if self.closed < asked.count => self.closed += 1,
            _ => unreachable!(),
        }
    }
}
