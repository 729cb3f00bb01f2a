//! HTTP/1.1 as the server speaks it: heads of requests, what they are refused for, and replies (RFC 9112).
#![tactic(auto)]

mod checks;
mod chunked_sink;
mod chunks;
mod copying;
mod draft;
mod filling;
mod finding;
mod heads;
mod held;
mod inbox;
mod laws;
mod reading;
mod refusing;
mod replies;

pub use checks::{Ask, check_head};
pub use chunked_sink::{ChunkedSink, send_body};
pub use finding::{FIELD_LIMIT, HEAD_LIMIT};
pub use heads::{Head, HeadFault, HeadOutcome};
pub use inbox::Inbox;
pub use laws::{head_is_one, heads_are_decided, heads_are_decided_early, refusal_is_one};
pub use reading::read_head;
pub use refusing::write_refusal;
pub use replies::write_head;
