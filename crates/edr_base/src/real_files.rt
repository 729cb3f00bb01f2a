//! The files of the runtime that a program got.
//!
//! They tell nothing of names and contents. Where the runtime's file tells its bytes by the standard library's words,
//! the clause `passes` says that each read passes them on.
ghost use Rattle.std.specs.Prelude.{◌≡◌, ◌≤◌, ◌+◌, ◌-◌, ◌^◌, min, length, Ok, Err, IfOk, IfSome, OnErr, IsErr, IsErrOf, IsUtf8, None, is_none, is_err, true, false};
ghost use Rattle.std.specs.Io.KnownBytes.{ReadConsumes};
ghost use Rattle.edr_base.specs.Outside.{Rose, KeptByOpen};
ghost use Rattle.edr_base.specs.Calls.{Reads, SourceLent, Opened, asked_after, Cause};
ghost use Rattle.edr_base.specs.Untold.{untold_aside};
ghost use Rattle.edr_base.specs.Limits.{count_limit};

use crate::counted::read_from;
use crate::outside::{Failed, Faults, Files, Source, Stop};
use std::fs::File;
use std::io::{ErrorKind, Read};

/// Files of the runtime that main gives. Each error of opening and reading is a fault, but for `Interrupted`: then the
/// same is tried again. Where memory for a name is wanting, that is no fault.
#[derive(Drop)]
pub struct RealFiles<R: std::rt::Files + Drop> {
    rt: R,
    file: Option<R::File>,
    faults: u64,
    ghost fits: { faults ≤ count_limit },
}

impl<R: std::rt::Files + Drop> RealFiles<R> {
    /// Files that are opened by this runtime, none of them open.
    pub fn new(rt: R) -> RealFiles<R>
        ensures aside { ⟦<RealFiles<R> as Source>⟧.aside result ≡ untold_aside true }
        ensures faults { ⟦<RealFiles<R> as Faults>⟧.faults result ≡ 0 }
    {
        RealFiles {
            rt,
            file: None,
            faults: 0,
        }
    }
}

// Opens a file, again where a signal interrupts it.
fn open_by<R: std::rt::Files>(rt: &R, name: &str) -> Result<R::File, Stop> {
    for _ in 0..u64::MAX {
        match File::open(rt, name) {
            Ok(file) => return Ok(file),
            Err(error) => match error.kind() {
                ErrorKind::Interrupted => {}
                ErrorKind::OutOfMemory => return Err(Stop::OutOfMemory),
                _ => return Err(Stop::Failed),
            },
        }
    }
    Err(Stop::Failed)
}

impl<R: std::rt::Files + Drop> Faults for RealFiles<R> {
    ghost faults = { λ s. s.faults };

    ghost bounded = { λ s. s.fits };
}

impl<R: std::rt::Files + Drop> Source for RealFiles<R> {
    ghost use Rattle.edr_base.specs.Adapters.{Counts};
    ghost use Rattle.edr_base.specs.RealFilesParts.{file_of};

    ghost left = { λ s. None };

    ghost aside = { λ s. untold_aside (is_none s.file) };

    fn read(&mut self, buf: &mut [u8]) -> Result<usize, Failed>
        ensures bound { IfOk result (λ n. n ≤ length buf.new) }
        ensures empty { length buf.new ≡ 0 → result ≡ Ok 0 }
        ensures bytes { Reads (⟦<RealFiles<R> as Source>⟧.left self.old) (⟦<RealFiles<R> as Source>⟧.left self.new) result buf.new }
        ensures lent { SourceLent (⟦<RealFiles<R> as Source>⟧.aside self.old) (⟦<RealFiles<R> as Source>⟧.aside self.new)
            (⟦<RealFiles<R> as Faults>⟧.faults self.old) (⟦<RealFiles<R> as Faults>⟧.faults self.new) }
        ensures cause { OnErr result (Rose (⟦<RealFiles<R> as Faults>⟧.faults self.old) (⟦<RealFiles<R> as Faults>⟧.faults self.new)) }
        ensures idle { (⟦<RealFiles<R> as Source>⟧.aside self.old).idle ≡ true
            → (result ≡ Ok 0) × (⟦<RealFiles<R> as Faults>⟧.faults self.new ≡ ⟦<RealFiles<R> as Faults>⟧.faults self.old) }

        // beyond the trait: what the open file gives is passed on, and each error is counted once
        ensures passes { IfSome (file_of self.old) (λ before. IfSome (file_of self.new) (λ after.
            ReadConsumes (R.File.remaining before) (R.File.remaining after) result buf.new)) }
        ensures counts { Counts (IsErr result) (⟦<RealFiles<R> as Faults>⟧.faults self.old) (⟦<RealFiles<R> as Faults>⟧.faults self.new) }
    {
        let Some(file) = &mut self.file else {
            return Ok(0);
        };
        if buf.is_empty() {
            return Ok(0);
        }
        read_from(file, buf, &mut self.faults)
    }
}

impl<R: std::rt::Files + Drop> Files for RealFiles<R> {
    ghost use Rattle.edr_base.specs.Adapters.{Counts};

    fn open(&mut self, name: &[u8]) -> Result<(), Stop>
        requires { IsUtf8 name.now }
        ensures ready { (⟦<RealFiles<R> as Source>⟧.aside self.new).idle ≡ is_err result }
        ensures left { Opened ((⟦<RealFiles<R> as Source>⟧.aside self.old).content name.now) (⟦<RealFiles<R> as Source>⟧.left self.new) result }
        ensures kept { KeptByOpen (⟦<RealFiles<R> as Source>⟧.aside self.old) (⟦<RealFiles<R> as Source>⟧.aside self.new) }
        ensures asked { (⟦<RealFiles<R> as Source>⟧.aside self.new).asked
            ≡ asked_after (⟦<RealFiles<R> as Source>⟧.aside self.old).asked (name.now, 0) result }
        ensures cause { Cause result (⟦<RealFiles<R> as Faults>⟧.faults self.old) (⟦<RealFiles<R> as Faults>⟧.faults self.new) }

        // beyond the trait: each error is counted once, but for want of memory
        ensures counts { Counts (IsErrOf result Stop.Failed)
            (⟦<RealFiles<R> as Faults>⟧.faults self.old) (⟦<RealFiles<R> as Faults>⟧.faults self.new) }
    {
        self.file = None;
        let name = str::from_utf8(name).unwrap();
        match open_by(&self.rt, name) {
            Ok(file) => {
                self.file = Some(file);
                Ok(())
            }
            Err(stop) => {
                if matches!(stop, Stop::Failed) {
                    self.faults = self.faults.saturating_add(1);
                }
                Err(stop)
            }
        }
    }
}
