//! The program over its objects.
ghost use Rattle.std.specs.Prelude.{◌≡◌, ℕ, List, [], false};
ghost use Rattle.edr_base.specs.Calls.{SourceLent, SinkLent};
ghost use Rattle.edr_fetch.specs.Exchanges.{LinkKept};
ghost use Rattle.edr.specs.Commands.{asked_by};
ghost use Rattle.edr.specs.Meanings.{meaning_by};
ghost use Rattle.edr.specs.Ends.{Ends, EndsByWords, EndsByArgument, OutputEnds, HasCause, IsReadByEnd, AtReadFault, AskedBeside, status_of};

use crate::asking::ask;
use crate::checking::check;
use crate::commands::{Command, asked_by};
use crate::endings::{Ending, tell};
use crate::fetching::fetch_url;
use crate::helping::{tell_help, tell_version};
use crate::importing::import;
use crate::making::make;
use crate::replaying::replay;
use crate::showing::show;
use crate::working::work;
use edr_base::{Files, Link, Sink, Source, Text};
use std::alloc::Global;

// Does what the words ask for.
fn carry_out<S: Source, K: Sink, F: Files, L: Link>(
    alloc: Global,
    words: &[Text],
    input: &mut S,
    output: &mut K,
    files: &mut F,
    link: &mut L,
    explained: &mut Text,
) -> Ending
    requires { explained.old ≡ [] }
    ensures words { EndsByWords result (asked_by words.now) }
    ensures argument { EndsByArgument result (meaning_by (asked_by words.now)) }
    ensures output { OutputEnds result (meaning_by (asked_by words.now)).is_early
        ((meaning_by (asked_by words.now)).gives (record { input = S.left input.old; content = (F.aside files.old).content; incoming = (L.aside link.old).incoming }))
        ((meaning_by (asked_by words.now)).begins (record { input = S.left input.old; content = (F.aside files.old).content; incoming = (L.aside link.old).incoming }))
        (K.written output.old) (K.written output.new) (K.flushed output.new) }
    ensures cause { HasCause result (meaning_by (asked_by words.now))
        (record { input = S.left input.old; content = (F.aside files.old).content; incoming = (L.aside link.old).incoming })
        (record { input = S.faults input.old; output = K.faults output.old; files = F.faults files.old; link = L.faults link.old; closed = (F.aside files.old).idle; unconnected = (L.aside link.old).idle })
        (record { input = S.faults input.new; output = K.faults output.new; files = F.faults files.new; link = L.faults link.new; closed = (F.aside files.new).idle; unconnected = (L.aside link.new).idle }) }
    ensures exchange { (meaning_by (asked_by words.now)).exchanges result
        (record { input = S.left input.old; content = (F.aside files.old).content; incoming = (L.aside link.old).incoming })
        (K.faults output.old) (K.faults output.new)
        (record { idle = (L.aside link.old).idle; left = L.left link.old; written = L.written link.old; flushed = L.flushed link.old; faults = L.faults link.old })
        (record { idle = (L.aside link.new).idle; left = L.left link.new; written = L.written link.new; flushed = L.flushed link.new; faults = L.faults link.new }) }
    ensures explains { (meaning_by (asked_by words.now)).explains result
        (record { input = S.left input.old; content = (F.aside files.old).content; incoming = (L.aside link.old).incoming }) explained.new }
    ensures unread { (meaning_by (asked_by words.now)).leaves (status_of result) → (input.new ≡ input.old) × (output.new ≡ output.old) }
    ensures untouched { (meaning_by (asked_by words.now)).takes_input ≡ false → input.new ≡ input.old }
    ensures ended { IsReadByEnd result ((meaning_by (asked_by words.now)).has_read
        (record { input = S.left input.old; content = (F.aside files.old).content; incoming = (L.aside link.old).incoming }) (S.left input.new)) }
    ensures waits { AtReadFault result ((meaning_by (asked_by words.now)).waits
        (record { input = S.left input.old; content = (F.aside files.old).content; incoming = (L.aside link.old).incoming })
        (S.left input.new) (K.written output.old) (K.written output.new) (K.flushed output.new)) }
    ensures read { (meaning_by (asked_by words.now)).reads
        (record { input = S.left input.old; content = (F.aside files.old).content; incoming = (L.aside link.old).incoming })
        (S.left input.new) (K.written output.old) (K.written output.new) }
    ensures input { SourceLent (S.aside input.old) (S.aside input.new) (S.faults input.old) (S.faults input.new) }
    ensures lent { SinkLent (K.beside output.old) (K.beside output.new) (K.faults output.old) (K.faults output.new) }
    ensures file { (meaning_by (asked_by words.now)).file
        (record { input = S.left input.old; content = (F.aside files.old).content; incoming = (L.aside link.old).incoming })
        (F.aside files.new).idle (F.left files.new) }
    ensures files { AskedBeside F.aside (meaning_by (asked_by words.now)).files (status_of result) files.old files.new }
    ensures link { AskedBeside L.aside (meaning_by (asked_by words.now)).link (status_of result) link.old link.new }
    ensures kept { LinkKept (L.aside link.old) (L.aside link.new) (L.faults link.old) (L.faults link.new) }
{
    match asked_by(words) {
        Some((Command::Ask, target)) => ask(alloc, false, target, input, output),
        Some((Command::Replay(advances), feed)) => replay(
            alloc, advances, feed, input, output, files,
        ),
        Some((Command::Check(summary, why), _)) => check(
            alloc, summary, why, input, output, explained,
        ),
        Some((Command::Make(number), _)) => make(alloc, number, output),
        Some((Command::Work(number), _)) => work(alloc, number, output),
        Some((Command::Show(why), _)) => show(alloc, why, input, output, explained),
        Some((Command::Fetch(why), url)) => fetch_url(alloc, why, url, output, link, explained),
        Some((Command::Import, _)) => import(alloc, input, output),
        Some((Command::Export, target)) => ask(alloc, true, target, input, output),
        Some((Command::Help, _)) => tell_help(output),
        Some((Command::Version, _)) => tell_version(output),
        None => Ending::Usage,
    }
}

/// All that the program does, over the objects that it is lent: `words` are those after the program's name.
///
/// `ask TARGET` reads a feed from `input`, and writes to `output` what its last edition answers to the target. `replay FEED` reads
/// the feed in the file of that name, and serves `input` as one connection to `output`, from the feed's first edition; with
/// `--advance` each request but the first finds the feed's next edition. `check` reads a feed from `input` and writes how many
/// editions it has; `check --summary` writes what each of them has. `make NUMBER` writes the feed that is made of the number, and
/// takes nothing from `input`; nor does `work NUMBER`, which makes that feed in memory, reads it, and writes what its edition has and
/// what documents it answers to four targets. `show` reads a document of CoverageJSON from `input` and writes its table. `fetch URL` connects to
/// the server that the URL names, writes one request and flushes it, reads the reply, and writes the table of its document.
/// With `--why` these three explain where there is no feed, no document or no reply of data: the first fault behind that.
/// `--help` writes how the program is used, and `--version` its version. The answer is the status of the program; with each but 0 one line says why on `errors`. Of files and of the link nothing is asked that the words don't ask for, and where they ask for
/// nothing there neither is touched.
pub fn run<S: Source, K: Sink, D: Sink, F: Files, L: Link>(
    alloc: Global,
    words: &[Text],
    input: &mut S,
    output: &mut K,
    errors: &mut D,
    files: &mut F,
    link: &mut L,
) -> u8
    ensures ends { (ending : Ending) × (explained : List ℕ) × Ends ending explained (asked_by words.now) (meaning_by (asked_by words.now))
        (record { input = S.left input.old; content = (F.aside files.old).content; incoming = (L.aside link.old).incoming }) result
        (record {
          left = S.left input.old;
          written = K.written output.old;
          flushed = K.flushed output.old;
          told = D.written errors.old;
          link = record { idle = (L.aside link.old).idle; left = L.left link.old; written = L.written link.old; flushed = L.flushed link.old; faults = L.faults link.old };
          counts = record { input = S.faults input.old; output = K.faults output.old; files = F.faults files.old; link = L.faults link.old; closed = (F.aside files.old).idle; unconnected = (L.aside link.old).idle };
          errors = D.faults errors.old;
        })
        (record {
          left = S.left input.new;
          written = K.written output.new;
          flushed = K.flushed output.new;
          told = D.written errors.new;
          link = record { idle = (L.aside link.new).idle; left = L.left link.new; written = L.written link.new; flushed = L.flushed link.new; faults = L.faults link.new };
          counts = record { input = S.faults input.new; output = K.faults output.new; files = F.faults files.new; link = L.faults link.new; closed = (F.aside files.new).idle; unconnected = (L.aside link.new).idle };
          errors = D.faults errors.new;
        }) }
    ensures unread { (meaning_by (asked_by words.now)).leaves result → (input.new ≡ input.old) × (output.new ≡ output.old) }
    ensures untouched { (meaning_by (asked_by words.now)).takes_input ≡ false → input.new ≡ input.old }
    ensures input { SourceLent (S.aside input.old) (S.aside input.new) (S.faults input.old) (S.faults input.new) }
    ensures output { SinkLent (K.beside output.old) (K.beside output.new) (K.faults output.old) (K.faults output.new) }
    ensures errors { SinkLent (D.beside errors.old) (D.beside errors.new) (D.faults errors.old) (D.faults errors.new) }
    ensures file { (meaning_by (asked_by words.now)).file
        (record { input = S.left input.old; content = (F.aside files.old).content; incoming = (L.aside link.old).incoming })
        (F.aside files.new).idle (F.left files.new) }
    ensures files { AskedBeside F.aside (meaning_by (asked_by words.now)).files result files.old files.new }
    ensures link { AskedBeside L.aside (meaning_by (asked_by words.now)).link result link.old link.new }
    ensures kept { LinkKept (L.aside link.old) (L.aside link.new) (L.faults link.old) (L.faults link.new) }
{
    let mut explained = Text::from_vec(Vec::new(alloc));
    let ending = carry_out(alloc, words, input, output, files, link, &mut explained);
    tell(ending, explained.bytes(), errors);
    ending.status()
}
