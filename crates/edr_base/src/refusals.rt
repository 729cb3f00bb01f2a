//! Why a request gets no data.
ghost use Rattle.std.specs.Prelude.{◌≡◌};
ghost use Rattle.edr_base.specs.RefusalTable.{line_of, body_of};

/// A refusal, in the order in which they are looked for: the first that applies is answered.
#[derive(Clone, Copy, Debug, PartialEq, Eq)]
pub enum Refusal {
    /// The bytes aren't empty and hold no request head (RFC 9112, section 2.1).
    BadHead,
    /// The request brings a body: a `Transfer-Encoding`, or a `Content-Length` that isn't 0.
    BodyNotAllowed,
    /// There isn't exactly one `Host` field (RFC 9112, section 3.2).
    BadHost,
    /// The version isn't HTTP/1.1.
    VersionNotOffered,
    /// The method is neither `GET` nor `HEAD`.
    MethodNotOffered,
    /// The path names no page.
    NoSuchPage,
    /// A query parameter isn't one of the page's.
    UnknownParameter,
    /// A query parameter is given twice.
    RepeatedParameter,
    /// `f` isn't a format that the page is offered in.
    BadFormat,
    /// A required query parameter is absent.
    MissingParameter,
    /// `coords` isn't well-known text within the limits (OGC 06-103r4).
    BadCoords,
    /// The query doesn't take this kind of geometry.
    WrongGeometry,
    /// `bbox` isn't four or six ordered numbers.
    BadBbox,
    /// `datetime` is neither an instant nor an interval (RFC 3339).
    BadDatetime,
    /// `z` is no level, interval, list or series of levels.
    BadLevel,
    /// `within`, `corridor-width`, `corridor-height` or a unit isn't a distance.
    BadDistance,
    /// Two parameters contradict each other.
    Conflict,
    /// The edition has no such collection.
    UnknownCollection,
    /// The collection has no such instance.
    UnknownInstance,
    /// The collection has no such station.
    UnknownLocation,
    /// The collection doesn't offer this query.
    QueryNotOffered,
    /// `parameter-name` lists a parameter that the collection hasn't.
    UnknownParameterName,
    /// `crs` isn't the collection's.
    BadCrs,
    /// Levels are asked of data without levels.
    NoLevels,
    /// The selection is empty.
    NoSamples,
    /// The reply would have too many values or coverages.
    TooLarge,
}

impl Refusal {
    /// Its number, from 1.
    pub fn number(self) -> u8
        ensures { result ≡ (line_of self).number }
    {
        self as u8 + 1
    }

    /// The status of the HTTP reply that carries it (RFC 9110, section 15).
    pub fn status(self) -> u16
        ensures { result ≡ (line_of self).status }
    {
        match self {
            Refusal::VersionNotOffered => 505,
            Refusal::MethodNotOffered => 405,
            Refusal::NoSuchPage
            | Refusal::UnknownCollection
            | Refusal::UnknownInstance
            | Refusal::UnknownLocation
            | Refusal::NoSamples => 404,
            Refusal::TooLarge => 413,
            _ => 400,
        }
    }

    /// Its name, as it stands in the body of the reply.
    pub fn code(self) -> &'static [u8]
        ensures { result.now ≡ (line_of self).code }
    {
        match self {
            Refusal::BadHead => b"BadHead",
            Refusal::BodyNotAllowed => b"BodyNotAllowed",
            Refusal::BadHost => b"BadHost",
            Refusal::VersionNotOffered => b"VersionNotOffered",
            Refusal::MethodNotOffered => b"MethodNotOffered",
            Refusal::NoSuchPage => b"NoSuchPage",
            Refusal::UnknownParameter => b"UnknownParameter",
            Refusal::RepeatedParameter => b"RepeatedParameter",
            Refusal::BadFormat => b"BadFormat",
            Refusal::MissingParameter => b"MissingParameter",
            Refusal::BadCoords => b"BadCoords",
            Refusal::WrongGeometry => b"WrongGeometry",
            Refusal::BadBbox => b"BadBbox",
            Refusal::BadDatetime => b"BadDatetime",
            Refusal::BadLevel => b"BadLevel",
            Refusal::BadDistance => b"BadDistance",
            Refusal::Conflict => b"Conflict",
            Refusal::UnknownCollection => b"UnknownCollection",
            Refusal::UnknownInstance => b"UnknownInstance",
            Refusal::UnknownLocation => b"UnknownLocation",
            Refusal::QueryNotOffered => b"QueryNotOffered",
            Refusal::UnknownParameterName => b"UnknownParameterName",
            Refusal::BadCrs => b"BadCrs",
            Refusal::NoLevels => b"NoLevels",
            Refusal::NoSamples => b"NoSamples",
            Refusal::TooLarge => b"TooLarge",
        }
    }

    /// The body of the reply that carries it: its name and its number as JSON.
    pub fn body(self) -> &'static [u8]
        ensures { result.now ≡ body_of self }
    {
        match self {
            Refusal::BadHead => b"{\"code\":\"BadHead\",\"number\":1}",
            Refusal::BodyNotAllowed => b"{\"code\":\"BodyNotAllowed\",\"number\":2}",
            Refusal::BadHost => b"{\"code\":\"BadHost\",\"number\":3}",
            Refusal::VersionNotOffered => b"{\"code\":\"VersionNotOffered\",\"number\":4}",
            Refusal::MethodNotOffered => b"{\"code\":\"MethodNotOffered\",\"number\":5}",
            Refusal::NoSuchPage => b"{\"code\":\"NoSuchPage\",\"number\":6}",
            Refusal::UnknownParameter => b"{\"code\":\"UnknownParameter\",\"number\":7}",
            Refusal::RepeatedParameter => b"{\"code\":\"RepeatedParameter\",\"number\":8}",
            Refusal::BadFormat => b"{\"code\":\"BadFormat\",\"number\":9}",
            Refusal::MissingParameter => b"{\"code\":\"MissingParameter\",\"number\":10}",
            Refusal::BadCoords => b"{\"code\":\"BadCoords\",\"number\":11}",
            Refusal::WrongGeometry => b"{\"code\":\"WrongGeometry\",\"number\":12}",
            Refusal::BadBbox => b"{\"code\":\"BadBbox\",\"number\":13}",
            Refusal::BadDatetime => b"{\"code\":\"BadDatetime\",\"number\":14}",
            Refusal::BadLevel => b"{\"code\":\"BadLevel\",\"number\":15}",
            Refusal::BadDistance => b"{\"code\":\"BadDistance\",\"number\":16}",
            Refusal::Conflict => b"{\"code\":\"Conflict\",\"number\":17}",
            Refusal::UnknownCollection => b"{\"code\":\"UnknownCollection\",\"number\":18}",
            Refusal::UnknownInstance => b"{\"code\":\"UnknownInstance\",\"number\":19}",
            Refusal::UnknownLocation => b"{\"code\":\"UnknownLocation\",\"number\":20}",
            Refusal::QueryNotOffered => b"{\"code\":\"QueryNotOffered\",\"number\":21}",
            Refusal::UnknownParameterName => b"{\"code\":\"UnknownParameterName\",\"number\":22}",
            Refusal::BadCrs => b"{\"code\":\"BadCrs\",\"number\":23}",
            Refusal::NoLevels => b"{\"code\":\"NoLevels\",\"number\":24}",
            Refusal::NoSamples => b"{\"code\":\"NoSamples\",\"number\":25}",
            Refusal::TooLarge => b"{\"code\":\"TooLarge\",\"number\":26}",
        }
    }
}
