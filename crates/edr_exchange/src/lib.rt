//! Both ends of a connection: the target that the client writes of a query asks the server for that query, and what the server
//! replies is what the client hears.
#![tactic(auto)]

mod laws;

pub use laws::{
    first_data_is_heard, first_refusal_is_heard, refused_requests_are_heard,
    written_queries_are_asked,
};
