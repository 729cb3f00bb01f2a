//! What an edition answers to targets, and the requests of a connection that are answered from editions.
#![tactic(auto)]

mod answering;
mod connections;
mod ends;
mod heads;
mod keeping;
mod laws;
mod limits;
mod replying;
mod reports;
mod session_laws;
mod sessions;
mod streaming;

pub use answering::{AnswerFault, answer};
pub use connections::{Connection, Served, serve_connection};
pub use ends::End;
pub use keeping::KeptReplies;
pub use laws::{answer_is_one, pages_have_answers, refusal_is_the_first};
pub use limits::REQUEST_LIMIT;
pub use reports::{OneReport, SessionFault, SessionReport};
pub use session_laws::{
    begun_are_first, output_begins, output_goes_on, requests_are_one, requests_exist,
};
pub use sessions::{serve_one, serve_session};
