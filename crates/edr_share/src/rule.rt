//! The rule of the shelf, and the kinds of step that keep it.
ghost use Rattle.edr_share.specs.Rule.{Keeps, newcomer, Sees, Opens, Grows};

use crate::shown::Shown;
use crossbeam_utils::rule::{Outcome, Protocol};
use edr_edition::Edition;
use left_right::reader::{Factory, Reader};
use left_right::writer::Writer;
use std::collections::LinkedList;
use std::snapshot::Snapshot;
use std::sync::Arc;

/// What one handle knows. No value of it is made.
pub struct View {
    /// The editions that were seen through it, in order.
    pub seen: LinkedList<Edition>,
    /// It alone publishes, and what it has seen is the log.
    pub publishes: bool,
}

/// The rule.
pub struct Published;

impl Protocol<Shown, View> for Published {
    ghost holds = { Keeps };

    ghost first = { newcomer };
}

/// A reader looks: what it has seen is then the log.
pub struct Look;

impl Outcome<Shown, View> for Look {
    ghost then = { Sees };
}

/// The publisher gets its right to publish. The log is the first edition alone.
pub struct Open;

impl Outcome<Shown, View> for Open {
    ghost then = { Opens };
}

/// The publisher publishes: the log is longer by the edition that is shown then.
pub struct Publish;

impl Outcome<Shown, View> for Publish {
    ghost then = { Grows };
}

/// A reader of the log.
pub type LogReader = Reader<Shown, View, Published>;

/// What makes the readers of a log.
pub type LogFactory = Factory<Shown, View, Published>;

/// The writer of a log, whose operations are the next editions.
pub type LogWriter = Writer<Shown, Arc<Edition>, View, Published>;

/// Remembers what made the readers, and with it which shelf this is of. It has no bytes.
pub type Origin = Snapshot<LogFactory>;
