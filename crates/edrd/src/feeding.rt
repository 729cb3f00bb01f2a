//! The feed's file.
ghost use Rattle.std.specs.Prelude.{◌≡◌, ◌⊎◌, ◌++◌, ◌∷◌, [], IfErr, IfOk, IsUtf8, Ok, Err, option_map};
ghost use Rattle.edr_edition.specs.Shelves.{IsLog};
ghost use Rattle.edr_feed.specs.Feeds.{FeedStandsIn, LeavesBehindIn};
ghost use Rattle.edr_program.specs.FileReads.{IsFileRead};
ghost use Rattle.edrd.specs.Feeding.{IsCause, ending_of};

use crate::endings::Ending;
use edr_base::{Files, Stop};
use edr_feed::{Feed, FeedFault, read_feed};
use std::alloc::Global;

impl From<FeedFault> for Ending {
    ghost from_gives = { λ given ending. ending ≡ ending_of given };

    fn from(given: FeedFault) -> Ending {
        match given.refusal() {
            Some(refusal) => Ending::NotFeed(refusal),
            None => match given {
                FeedFault::ReadFault => Ending::ReadFault,
                _ => Ending::OutOfMemory,
            },
        }
    }
}

/// The feed in the file of this name, or how the run ends without it. However it ends, no more is read of the file
/// than a feed has, and 16,384 bytes.
pub fn feed_in<F: Files>(alloc: Global, name: &[u8], files: &mut F) -> Result<Feed, Ending>
    requires { IsUtf8 name.now }
    ensures feed { IfOk result (λ feed. FeedStandsIn ((F.aside files.old).content name.now) (Ok feed.editions)) }
    ensures lines { IfOk result (λ feed. LeavesBehindIn ((F.aside files.old).content name.now) feed.behind) }
    ensures log { IfOk result (λ feed. IsLog feed.editions) }
    ensures cause { IfErr result (λ ending. IsCause ending ((F.aside files.old).content name.now)
        (F.faults files.old) (F.faults files.new) (F.aside files.new).idle) }
    ensures file { IsFileRead (F.aside files.new).idle ((F.aside files.old).content name.now) (F.left files.new) }
    ensures asked { ((F.aside files.new).asked ≡ option_map (λ asked. asked ++ (name.now, 0) ∷ []) (F.aside files.old).asked)
        ⊎ ((result ≡ Err Ending.OutOfMemory) × ((F.aside files.new).asked ≡ (F.aside files.old).asked)) }
{
    match files.open(name) {
        Ok(()) => {}
        Err(Stop::Failed) => return Err(Ending::OpenFault),
        Err(Stop::OutOfMemory) => return Err(Ending::OutOfMemory),
    }
    let feed = read_feed(alloc, files)?;
    Ok(feed)
}
