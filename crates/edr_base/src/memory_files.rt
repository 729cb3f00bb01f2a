//! Files in memory.
ghost use Rattle.std.specs.Prelude.{◌≡◌, ◌≢◌, ◌↔◌, ◌⊎◌, ◌≤◌, ◌<◌, [], map, length, Option, option_map, Some, None, Ok, Err, IfOk, OnErr, IsErr, IsErrOf, IsOk, IsUtf8, true, false, is_err};
ghost use Rattle.edr_base.specs.Outside.{Rose, KeptByOpen};
ghost use Rattle.edr_base.specs.Calls.{Reads, SourceLent, Opened, asked_after, Cause};
ghost use Rattle.edr_base.specs.Memory.{FailsNext, bytes_at, content_of, place_of_name, left_in, files_aside, name_asked};

use crate::fault_plan::FaultPlan;
use crate::memory_source::give_from;
use crate::outside::{Failed, Faults, Files, Source, Stop};
use std::alloc::Global;

/// Files in memory, which tell their contents: reads give at most `cut` bytes, and calls fail as the plan says. An
/// unknown name is a fault.
#[derive(Drop)]
pub struct MemoryFiles {
    files: Vec<(Vec<u8>, Vec<u8>)>,
    asked: Vec<Vec<u8>>,
    ready: bool,
    place: usize,
    at: usize,
    cut: usize,
    plan: FaultPlan,
    alloc: Global,
    ghost gives: { 0 < cut },
    ghost inside: { at ≤ length (bytes_at files.items place) },
}

// The place of the first file of this name.
fn place_of(files: &[(Vec<u8>, Vec<u8>)], name: &[u8]) -> Option<usize>
    ensures { result ≡ place_of_name files.now name.now }
{
    files.iter().position(|file| file.0.as_slice() == name)
}

// The bytes of the file at a place, and none where there is no file.
fn bytes_at(files: &[(Vec<u8>, Vec<u8>)], place: usize) -> &[u8]
    ensures { result.now ≡ bytes_at files.now place }
{
    match files.get(place) {
        Some(file) => file.1.as_slice(),
        None => &[],
    }
}

impl MemoryFiles {
    ghost use Rattle.edr_base.specs.MemoryParts.{cut_of_files, plan_of_files};

    /// Files of these names and contents, none of them open. `fails` are the numbers, from 1, of the calls that fail.
    pub fn of(
        alloc: Global,
        files: Vec<(Vec<u8>, Vec<u8>)>,
        cut: usize,
        fails: Vec<u64>,
    ) -> MemoryFiles
        requires { 0 < cut }
        ensures left { ⟦<MemoryFiles as Source>⟧.left result ≡ Some [] }
        ensures aside { ⟦<MemoryFiles as Source>⟧.aside result ≡ files_aside false [] (content_of files.items) }
        ensures faults { ⟦<MemoryFiles as Faults>⟧.faults result ≡ 0 }
        ensures plan { ((plan_of_files result).fails ≡ fails) × ((plan_of_files result).calls ≡ 0) }
        ensures cut { cut_of_files result ≡ cut }
    {
        MemoryFiles {
            files,
            asked: Vec::new(alloc),
            ready: false,
            place: 0,
            at: 0,
            cut,
            plan: FaultPlan::of(fails),
            alloc,
        }
    }
}

impl Faults for MemoryFiles {
    ghost faults = { λ s. s.plan.faults };

    ghost bounded = { λ s. s.plan.fits };
}

impl Source for MemoryFiles {
    ghost use Rattle.edr_base.specs.MemoryParts.{cut_of_files, plan_of_files, IsNextPlan};

    ghost left = { λ s. Some (left_in s.ready s.at (bytes_at s.files.items s.place)) };

    ghost aside = { λ s. files_aside s.ready (map name_asked s.asked.items) (content_of s.files.items) };

    fn read(&mut self, buf: &mut [u8]) -> Result<usize, Failed>
        ensures bound { IfOk result (λ n. n ≤ length buf.new) }
        ensures empty { length buf.new ≡ 0 → result ≡ Ok 0 }
        ensures bytes { Reads (⟦<MemoryFiles as Source>⟧.left self.old) (⟦<MemoryFiles as Source>⟧.left self.new) result buf.new }
        ensures lent { SourceLent (⟦<MemoryFiles as Source>⟧.aside self.old) (⟦<MemoryFiles as Source>⟧.aside self.new)
            (⟦<MemoryFiles as Faults>⟧.faults self.old) (⟦<MemoryFiles as Faults>⟧.faults self.new) }
        ensures cause { OnErr result (Rose (⟦<MemoryFiles as Faults>⟧.faults self.old) (⟦<MemoryFiles as Faults>⟧.faults self.new)) }
        ensures idle { (⟦<MemoryFiles as Source>⟧.aside self.old).idle ≡ true
            → (result ≡ Ok 0) × (⟦<MemoryFiles as Faults>⟧.faults self.new ≡ ⟦<MemoryFiles as Faults>⟧.faults self.old) }

        // beyond the trait: what is cut, and which calls fail
        ensures cut { IfOk result (λ n. n ≤ cut_of_files self.old) }
        ensures fails { IsErr result
            ↔ (((⟦<MemoryFiles as Source>⟧.aside self.old).idle ≡ false) × (0 < length buf.new)
            × FailsNext (plan_of_files self.old).fails.items (plan_of_files self.old).calls) }
        ensures plan { IsNextPlan (IsErr result) (plan_of_files self.old) (plan_of_files self.new) }
        ensures kept_cut { cut_of_files self.new ≡ cut_of_files self.old }
    {
        let fails = self.plan.strikes();
        if !self.ready || buf.is_empty() {
            return Ok(0);
        }
        if fails {
            self.plan.count_fault();
            return Err(Failed);
        }
        let bytes = bytes_at(&self.files, self.place);
        Ok(give_from(bytes, &mut self.at, buf, self.cut))
    }
}

impl Files for MemoryFiles {
    ghost use Rattle.edr_base.specs.MemoryParts.{cut_of_files, plan_of_files, IsNextPlan};

    fn open(&mut self, name: &[u8]) -> Result<(), Stop>
        requires { IsUtf8 name.now }
        ensures ready { (⟦<MemoryFiles as Source>⟧.aside self.new).idle ≡ is_err result }
        ensures left { Opened ((⟦<MemoryFiles as Source>⟧.aside self.old).content name.now) (⟦<MemoryFiles as Source>⟧.left self.new) result }
        ensures kept { KeptByOpen (⟦<MemoryFiles as Source>⟧.aside self.old) (⟦<MemoryFiles as Source>⟧.aside self.new) }
        ensures asked { (⟦<MemoryFiles as Source>⟧.aside self.new).asked
            ≡ asked_after (⟦<MemoryFiles as Source>⟧.aside self.old).asked (name.now, 0) result }
        ensures cause { Cause result (⟦<MemoryFiles as Faults>⟧.faults self.old) (⟦<MemoryFiles as Faults>⟧.faults self.new) }

        // beyond the trait: a fault comes of the plan, or of an unknown name
        ensures fails { IsErrOf result Stop.Failed
            → FailsNext (plan_of_files self.old).fails.items (plan_of_files self.old).calls
            ⊎ ((⟦<MemoryFiles as Source>⟧.aside self.old).content name.now ≡ None) }
        ensures opens { IsOk result
            → ¬ (FailsNext (plan_of_files self.old).fails.items (plan_of_files self.old).calls)
            × ((⟦<MemoryFiles as Source>⟧.aside self.old).content name.now ≢ None) }
        ensures plan { IsNextPlan (IsErrOf result Stop.Failed) (plan_of_files self.old) (plan_of_files self.new) }
        ensures kept_cut { cut_of_files self.new ≡ cut_of_files self.old }
    {
        self.ready = false;
        let fails = self.plan.strikes();
        let kept = Vec::from_slice(self.alloc, name)?;
        self.asked.push(kept)?;
        let found = place_of(&self.files, name);
        match found {
            Some(place) if !fails => {
                self.place = place;
                self.at = 0;
                self.ready = true;
                Ok(())
            }
            _ => {
                self.plan.count_fault();
                Err(Stop::Failed)
            }
        }
    }
}
