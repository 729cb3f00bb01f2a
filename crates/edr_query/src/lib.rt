//! Targets of requests: the page or the query that each asks for, or the first refusal that applies (OGC 19-086r6).
#![tactic(auto)]

mod addresses;
mod asking;
mod coords;
mod copying;
mod filters;
mod laws;
mod pages;
mod pairs;
mod parameters;
mod paths;
mod queries;
mod reading;
mod said;
mod shapes;
mod steps;
mod written_paths;

pub use addresses::{Address, ID_SET, PageKind, QueryKind};
pub use laws::{
    paths_escape_all_others, target_is_one, written_paths_read_back, written_queries_read_back,
};
pub use pages::Page;
pub use parameters::Parameter;
pub use paths::read_address;
pub use queries::Query;
pub use reading::{TargetFault, read_target};
pub use said::Said;
pub use shapes::{BoundingBox, Shape};
pub use written_paths::path_of;
