//! One large run.
ghost use Rattle.std.specs.Prelude.{◌≡◌, ◌<◌, ◌++◌, length, IfOk};
ghost use Rattle.edr_edition.specs.Shelves.{EndsWith};
ghost use Rattle.edr_make.specs.Made.{made};
ghost use Rattle.edr_work.specs.Working.{MatchWork};
ghost use Rattle.edr_work.specs.Counting.{MatchMade, MatchLines};

use crate::faults::WorkFault;
use crate::lines::line_of;
use edr_base::{OutOfMemory, QuietSink, QuietSource, SendFault, Text};
use edr_edition::Edition;
use edr_feed::{Feed, FeedFault, read_feed, summary};
use edr_make::make_feed;
use std::alloc::Global;

const CUBE: &[u8] = b"/collections/grid/cube?bbox=0,0,103900,47900";

const POSITION: &[u8] = b"/collections/grid/position?coords=POINT(6400+6400)";

const LOCATION: &[u8] = b"/collections/sites/locations/s07";

const CORRIDOR: &[u8] =
    b"/collections/grid/corridor?coords=LINESTRING(0+0,103900+0)&corridor-width=0&width-units=m";

// The bytes of the feed that is made of a number.
fn made_of(alloc: Global, number: u64) -> Result<Vec<u8>, OutOfMemory>
    ensures { IfOk result (λ bytes. bytes.items ≡ made number) }
{
    let mut sink = QuietSink::of(alloc, usize::MAX);
    match make_feed(alloc, number, &mut sink) {
        Ok(()) => Ok(Vec::from_slice(alloc, sink.written())?),
        Err(SendFault::WriteFault) => unreachable!(),
        Err(SendFault::OutOfMemory) => Err(OutOfMemory),
    }
}

// The feed that is made of a number, as it is read.
fn read_made(alloc: Global, number: u64) -> Result<Feed, WorkFault>
    ensures { MatchMade result number }
{
    let mut source = QuietSource::of(made_of(alloc, number)?, usize::MAX);
    Ok(read_feed(alloc, &mut source)?)
}

// The last of some editions.
fn last_of(editions: &[Edition]) -> &Edition
    requires { 0 < length editions.now }
    ensures { EndsWith editions.now result.now }
{
    &editions[editions.len() - 1]
}

// The line of an edition, and behind it those of the targets.
fn joined(
    alloc: Global,
    edition: &Text,
    cube: &Text,
    position: &Text,
    location: &Text,
    corridor: &Text,
) -> Result<Text, OutOfMemory>
    ensures { IfOk result (λ text. text ≡ edition.now ++ cube.now ++ position.now ++ location.now ++ corridor.now) }
{
    let mut text = Vec::from_slice(alloc, edition.bytes())?;
    text.extend_from_slice(cube.bytes())?;
    text.extend_from_slice(position.bytes())?;
    text.extend_from_slice(location.bytes())?;
    text.extend_from_slice(corridor.bytes())?;
    Ok(Text::from_vec(text))
}

// The line of an edition, and those of the targets.
fn lines_of(alloc: Global, edition: &Edition) -> Result<Text, WorkFault>
    ensures { MatchLines result edition.now }
{
    let head = summary(alloc, edition)?;
    let cube = line_of(alloc, CUBE, edition)?;
    let position = line_of(alloc, POSITION, edition)?;
    let location = line_of(alloc, LOCATION, edition)?;
    let corridor = line_of(alloc, CORRIDOR, edition)?;
    Ok(joined(alloc, &head, &cube, &position, &location, &corridor)?)
}

/// The text of one large run, to check a program by: the feed that is made of the number is made and read in memory, and its
/// edition answers four targets. It is the edition's summary, and a line for each target: the target, how many values its
/// document has, how many of them are present, their sum, and how many chunks were opened for it.
///
/// `NotFeed` and `Refused` are answered only where the feed is none, or where its edition refuses a target.
pub fn work_of(alloc: Global, number: u64) -> Result<Text, WorkFault>
    ensures { MatchWork result number }
{
    let feed = read_made(alloc, number)?;
    lines_of(alloc, last_of(feed.editions.items()))
}
