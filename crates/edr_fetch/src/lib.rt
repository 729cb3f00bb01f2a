//! Fetching a URL: the request that it stands for, and the reply of the server that it names.
#![tactic(auto)]

mod fetching;
mod requests;

pub use fetching::{FetchFault, fetch};
pub use requests::{Request, request_of};
