//! Replies of HTTP/1.1 as a client takes them: the head, and the body, whose end is known in one of three ways (RFC 9112).
#![tactic(auto)]

mod chunks;
mod fields;
mod framing;
mod heads;
mod held;
mod laws;
mod lines;
mod messages;
mod numbers;
mod parts;
mod pieces;

pub use framing::Framing;
pub use laws::{break_is_one, broken_is_none, message_is_one, written_replies_are_read};
pub use messages::{BODY_LIMIT, Message, MessageFault, read_message};
