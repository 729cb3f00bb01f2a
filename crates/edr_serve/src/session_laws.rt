//! Laws of sessions.
ghost use Rattle.edr_serve.specs.SessionLaws.{RequestsAreOne, RequestsExist, BegunAreFirst, OutputBegins, OutputGoesOn};

use edr_http::{head_is_one, refusal_is_one};
use edr_query::target_is_one;

/// Some bytes hold one list of requests at most.
pub fn requests_are_one()
    ensures { RequestsAreOne }
{
    head_is_one();
    refusal_is_one();
    target_is_one();
}

/// All bytes hold some requests, where it is decided of all bytes whether they begin with a head, and each head and each target
/// has an answer.
pub fn requests_exist()
    ensures { RequestsExist }
{}

/// The requests that were begun are the first of those that the bytes hold.
pub fn begun_are_first()
    ensures { BegunAreFirst }
{
    head_is_one();
    refusal_is_one();
    target_is_one();
}

/// What is written for the first of some requests begins what is written for all of them.
pub fn output_begins()
    ensures { OutputBegins }
{}

/// What is written for some requests, from one edition for each that reads one, goes on by what is written for those behind
/// them.
pub fn output_goes_on()
    ensures { OutputGoesOn }
{}
