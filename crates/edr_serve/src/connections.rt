//! Connections that are accepted, and what became of them.
ghost use Rattle.std.specs.Prelude.{◌≡◌, ◌⊎◌, ◌≤◌, [], IfOk, OnOk, OnErr, IsErrOf};
ghost use Rattle.edr_base.specs.Outside.{Rose};
ghost use Rattle.edr_base.specs.Calls.{SourceLent, SinkLent, IsFlushed};
ghost use Rattle.edr_http.specs.Heads.{Told, IsBehind};
ghost use Rattle.edr_serve.specs.Requests.{request_limit};
ghost use Rattle.edr_serve.specs.Sessions.{state, Session, Broken, Waits};
ghost use Rattle.edr_serve.specs.Connections.{source_of, sink_of, served_source, served_sink, outcome_of};

use crate::ends::End;
use crate::reports::{SessionFault, SessionReport};
use crate::sessions::serve_session;
use edr_base::{Sink, Source};
use edr_edition::Editions;
use std::alloc::Global;

/// A connection that was accepted: what its peer sends, and what is sent to its peer. It can't be taken apart, only served.
#[derive(Drop)]
pub struct Connection<S, K> {
    source: S,
    sink: K,
}

impl<S, K> Connection<S, K> {
    /// A connection with this source and this sink. It takes no memory.
    pub fn of(source: S, sink: K) -> Connection<S, K>
        ensures source { source_of result ≡ source }
        ensures sink { sink_of result ≡ sink }
    {
        Connection { source, sink }
    }
}

/// A connection that was served. Only `serve_connection` makes one.
#[derive(Drop)]
pub struct Served<S, K> {
    source: S,
    sink: K,
    outcome: Result<SessionReport, SessionFault>,
}

impl<S, K> Served<S, K> {
    /// How its session came out.
    pub fn outcome(&self) -> &Result<SessionReport, SessionFault>
        ensures { result.now ≡ outcome_of self.now }
    {
        &self.outcome
    }

    /// The sink, as the session left it.
    pub fn sink(&self) -> &K
        ensures { result.now ≡ served_sink self.now }
    {
        &self.sink
    }
}

/// Serves a connection: one session over its source and its sink, from this shelf, with so many requests at most. What comes
/// of it says all that `serve_session` says, and nothing else is read, written or taken.
pub fn serve_connection<S: Source + Drop, K: Sink + Drop, E: Editions>(
    alloc: Global,
    connection: Connection<S, K>,
    shelf: &mut E,
    requests: u32,
) -> Served<S, K>
    requires { (1 ≤ requests) × (requests ≤ request_limit) }
    ensures done { IfOk (outcome_of result) (λ report. Session requests (S.left (source_of connection)) (S.left (served_source result))
        (state (K.written (sink_of connection)) (E.seen shelf.old) (E.taken shelf.old)) (state (K.written (served_sink result)) (E.seen shelf.new) (E.taken shelf.new)) report) }
    ensures fault { OnErr (outcome_of result) (Broken requests (S.left (source_of connection)) (S.left (served_source result))
        (state (K.written (sink_of connection)) (E.seen shelf.old) (E.taken shelf.old)) (state (K.written (served_sink result)) (E.seen shelf.new) (E.taken shelf.new))) }
    ensures waits { IsErrOf (outcome_of result) SessionFault.ReadFault → Waits requests (S.left (source_of connection)) (S.left (served_source result))
        (state (K.written (sink_of connection)) (E.seen shelf.old) (E.taken shelf.old)) (state (K.written (served_sink result)) (E.seen shelf.new) (E.taken shelf.new)) }
    ensures stock { E.stock shelf.new ≡ E.stock shelf.old }
    ensures behind { IsBehind (S.left (source_of connection)) (S.left (served_source result)) }
    ensures ended { IfOk (outcome_of result) (λ report. report.end ≡ End.EndOfInput
        → Told (λ bytes rest. rest ≡ []) (S.left (source_of connection)) (S.left (served_source result))) }
    ensures flushed { OnOk (outcome_of result)
        ((served_sink result ≡ sink_of connection) ⊎ IsFlushed (K.written (served_sink result)) (K.flushed (served_sink result))) }
    ensures settled { IsErrOf (outcome_of result) SessionFault.ReadFault
        → (served_sink result ≡ sink_of connection) ⊎ IsFlushed (K.written (served_sink result)) (K.flushed (served_sink result)) }
    ensures source { SourceLent (S.aside (source_of connection)) (S.aside (served_source result))
        (S.faults (source_of connection)) (S.faults (served_source result)) }
    ensures sink { SinkLent (K.beside (sink_of connection)) (K.beside (served_sink result))
        (K.faults (sink_of connection)) (K.faults (served_sink result)) }
    ensures read { IsErrOf (outcome_of result) SessionFault.ReadFault
        → Rose (S.faults (source_of connection)) (S.faults (served_source result)) }
    ensures write { IsErrOf (outcome_of result) SessionFault.WriteFault
        → Rose (K.faults (sink_of connection)) (K.faults (served_sink result)) }
{
    let Connection {
        mut source,
        mut sink,
    } = connection;
    let outcome = serve_session(alloc, &mut source, &mut sink, shelf, requests);
    Served {
        source,
        sink,
        outcome,
    }
}
