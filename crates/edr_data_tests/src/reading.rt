//! What texts are read as, and what broken ones are refused with: the first check that fails.
ghost use Rattle.covjson_value.specs.Coverages.{IsValidDocument};

use crate::cases::{Cases, answer_in, are_right, is_shown};
use covjson_checks::CovFault;
use covjson_read::{coverage_of, read_document};
use covjson_value::{Document, document_tree};
use edr_base::Text;
use edr_json::Tree;
use std::alloc::Global;
use std::rt::HostRuntime;
use std::string::String;

// A Grid of 3 columns, 2 rows and 2 times.
const GRID: &str = r#"{"type":"Coverage",
"domain":{"type":"Domain","domainType":"Grid",
"axes":{"x":{"values":[0,100,200]},"y":{"values":[0,100]},"t":{"values":["2024-01-01T00:00:00Z","2024-01-01T01:00:00Z"]}},
"referencing":[{"coordinates":["x","y"],"system":{"type":"ProjectedCRS","id":"m"}},
{"coordinates":["t"],"system":{"type":"TemporalRS","calendar":"Gregorian"}}]},
"parameters":{"temp":{"type":"Parameter","unit":{"symbol":"Cel"},"observedProperty":{"label":{"en":"Temperature"}}}},
"ranges":{"temp":{"type":"NdArray","dataType":"integer","axisNames":["t","y","x"],"shape":[2,2,3],
"values":[10,11,12,13,null,15,20,21,22,23,24,25]}}}"#;

// One place, with two parameters.
const POINT: &str = r#"{"type":"Coverage","id":"A",
"domain":{"type":"Domain","domainType":"Point",
"axes":{"x":{"values":[5]},"y":{"values":[6]},"z":{"values":[7]},"t":{"values":["2024-01-01T00:00:00Z"]}},
"referencing":[{"coordinates":["x","y"],"system":{"type":"ProjectedCRS"}},
{"coordinates":["z"],"system":{"type":"VerticalCRS","id":"up"}},
{"coordinates":["t"],"system":{"type":"TemporalRS","calendar":"Gregorian"}}]},
"parameters":{"a":{"observedProperty":{"label":{"en":"A"}}},"b":{"observedProperty":{"label":{"en":"B"}}}},
"ranges":{"a":{"type":"NdArray","dataType":"integer","values":[1]},"b":{"type":"NdArray","dataType":"integer","values":[null]}}}"#;

// Several times at one place.
const SERIES: &str = r#"{"type":"Coverage",
"domain":{"type":"Domain","domainType":"PointSeries",
"axes":{"x":{"values":[5]},"y":{"values":[6]},"t":{"values":["2024-01-01T00:00:00Z","2024-01-01T01:00:00Z"]}},
"referencing":[{"coordinates":["x","y"],"system":{"type":"ProjectedCRS"}},
{"coordinates":["t"],"system":{"type":"TemporalRS","calendar":"Gregorian"}}]},
"parameters":{"a":{"observedProperty":{"label":{"en":"A"}}}},
"ranges":{"a":{"type":"NdArray","dataType":"integer","axisNames":["t"],"shape":[2],"values":[1,2]}}}"#;

// Several levels at one place.
const PROFILE: &str = r#"{"type":"Coverage",
"domain":{"type":"Domain","domainType":"VerticalProfile",
"axes":{"x":{"values":[5]},"y":{"values":[6]},"z":{"values":[0,10,20]}},
"referencing":[{"coordinates":["x","y"],"system":{"type":"ProjectedCRS"}},
{"coordinates":["z"],"system":{"type":"VerticalCRS"}}]},
"parameters":{"a":{"observedProperty":{"label":{"en":"A"}}}},
"ranges":{"a":{"type":"NdArray","dataType":"integer","axisNames":["z"],"shape":[3],"values":[1,2,3]}}}"#;

// Several places.
const PLACES: &str = r#"{"type":"Coverage",
"domain":{"type":"Domain","domainType":"MultiPoint",
"axes":{"composite":{"dataType":"tuple","coordinates":["x","y","z"],"values":[[1,2,3],[4,5,6]]}},
"referencing":[{"coordinates":["x","y"],"system":{"type":"ProjectedCRS"}},
{"coordinates":["z"],"system":{"type":"VerticalCRS"}}]},
"parameters":{"a":{"observedProperty":{"label":{"en":"A"}}}},
"ranges":{"a":{"type":"NdArray","dataType":"integer","axisNames":["composite"],"shape":[2],"values":[1,2]}}}"#;

// Several places, each at its time.
const STEPS: &str = r#"{"type":"Coverage",
"domain":{"type":"Domain","domainType":"Trajectory",
"axes":{"composite":{"dataType":"tuple","coordinates":["t","x","y"],"values":[["2024-01-01T00:00:00Z",1,2],["2024-01-01T00:00:00Z",3,4]]},
"z":{"values":[9]}},
"referencing":[{"coordinates":["x","y"],"system":{"type":"ProjectedCRS"}},
{"coordinates":["z"],"system":{"type":"VerticalCRS"}},
{"coordinates":["t"],"system":{"type":"TemporalRS","calendar":"Gregorian"}}]},
"parameters":{"a":{"observedProperty":{"label":{"en":"A"}}}},
"ranges":{"a":{"type":"NdArray","dataType":"integer","axisNames":["composite"],"shape":[2],"values":[1,2]}}}"#;

// A collection that lends its coverages what they lack.
const LENT: &str = r#"{"type":"CoverageCollection","domainType":"Point",
"referencing":[{"coordinates":["x","y"],"system":{"type":"ProjectedCRS"}}],
"parameters":{"a":{"observedProperty":{"label":{"en":"A"}}}},
"coverages":[{"type":"Coverage","domain":{"axes":{"x":{"values":[1]},"y":{"values":[2]}}},
"ranges":{"a":{"type":"NdArray","dataType":"integer","values":[3]}}},
{"type":"Coverage","id":"B","domainType":"Grid","domain":{"axes":{"x":{"values":[1]},"y":{"values":[2]}}},
"ranges":{"a":{"type":"NdArray","dataType":"integer","values":[4]}}}]}"#;

// The documents, in the form that is written.
const WRITTEN: &str =
    r#"GRID => {"domain":{"axes":{"t":{"values":["2024-01-01T00:00:00Z","2024-01-01T01:00:00Z"]},"x":{"num":3,"start":0,"stop":200},"y":{"values":[0,100]}},"domainType":"Grid","referencing":[{"coordinates":["x","y"],"system":{"id":"m","type":"ProjectedCRS"}},{"coordinates":["t"],"system":{"calendar":"Gregorian","type":"TemporalRS"}}],"type":"Domain"},"parameters":{"temp":{"observedProperty":{"label":{"en":"Temperature"}},"type":"Parameter","unit":{"symbol":"Cel"}}},"ranges":{"temp":{"axisNames":["t","y","x"],"dataType":"integer","shape":[2,2,3],"type":"NdArray","values":[10,11,12,13,null,15,20,21,22,23,24,25]}},"type":"Coverage"}
GRID ~ "label":{"en":"Temperature"} >> "label":{"de":"Temperatur"} => {"domain":{"axes":{"t":{"values":["2024-01-01T00:00:00Z","2024-01-01T01:00:00Z"]},"x":{"num":3,"start":0,"stop":200},"y":{"values":[0,100]}},"domainType":"Grid","referencing":[{"coordinates":["x","y"],"system":{"id":"m","type":"ProjectedCRS"}},{"coordinates":["t"],"system":{"calendar":"Gregorian","type":"TemporalRS"}}],"type":"Domain"},"parameters":{"temp":{"observedProperty":{"label":{"de":"Temperatur"}},"type":"Parameter","unit":{"symbol":"Cel"}}},"ranges":{"temp":{"axisNames":["t","y","x"],"dataType":"integer","shape":[2,2,3],"type":"NdArray","values":[10,11,12,13,null,15,20,21,22,23,24,25]}},"type":"Coverage"}
GRID ~ "x":{"values":[0,100,200]} >> "x":{"start":-100000000,"stop":100000000,"num":3} => {"domain":{"axes":{"t":{"values":["2024-01-01T00:00:00Z","2024-01-01T01:00:00Z"]},"x":{"num":3,"start":-100000000,"stop":100000000},"y":{"values":[0,100]}},"domainType":"Grid","referencing":[{"coordinates":["x","y"],"system":{"id":"m","type":"ProjectedCRS"}},{"coordinates":["t"],"system":{"calendar":"Gregorian","type":"TemporalRS"}}],"type":"Domain"},"parameters":{"temp":{"observedProperty":{"label":{"en":"Temperature"}},"type":"Parameter","unit":{"symbol":"Cel"}}},"ranges":{"temp":{"axisNames":["t","y","x"],"dataType":"integer","shape":[2,2,3],"type":"NdArray","values":[10,11,12,13,null,15,20,21,22,23,24,25]}},"type":"Coverage"}
POINT => {"domain":{"axes":{"t":{"values":["2024-01-01T00:00:00Z"]},"x":{"values":[5]},"y":{"values":[6]},"z":{"values":[7]}},"domainType":"Point","referencing":[{"coordinates":["x","y"],"system":{"type":"ProjectedCRS"}},{"coordinates":["z"],"system":{"id":"up","type":"VerticalCRS"}},{"coordinates":["t"],"system":{"calendar":"Gregorian","type":"TemporalRS"}}],"type":"Domain"},"id":"A","parameters":{"a":{"observedProperty":{"label":{"en":"A"}},"type":"Parameter"},"b":{"observedProperty":{"label":{"en":"B"}},"type":"Parameter"}},"ranges":{"a":{"dataType":"integer","type":"NdArray","values":[1]},"b":{"dataType":"integer","type":"NdArray","values":[null]}},"type":"Coverage"}
POINT ~ ,"id":"up" >>  => {"domain":{"axes":{"t":{"values":["2024-01-01T00:00:00Z"]},"x":{"values":[5]},"y":{"values":[6]},"z":{"values":[7]}},"domainType":"Point","referencing":[{"coordinates":["x","y"],"system":{"type":"ProjectedCRS"}},{"coordinates":["z"],"system":{"type":"VerticalCRS"}},{"coordinates":["t"],"system":{"calendar":"Gregorian","type":"TemporalRS"}}],"type":"Domain"},"id":"A","parameters":{"a":{"observedProperty":{"label":{"en":"A"}},"type":"Parameter"},"b":{"observedProperty":{"label":{"en":"B"}},"type":"Parameter"}},"ranges":{"a":{"dataType":"integer","type":"NdArray","values":[1]},"b":{"dataType":"integer","type":"NdArray","values":[null]}},"type":"Coverage"}
SERIES => {"domain":{"axes":{"t":{"values":["2024-01-01T00:00:00Z","2024-01-01T01:00:00Z"]},"x":{"values":[5]},"y":{"values":[6]}},"domainType":"PointSeries","referencing":[{"coordinates":["x","y"],"system":{"type":"ProjectedCRS"}},{"coordinates":["t"],"system":{"calendar":"Gregorian","type":"TemporalRS"}}],"type":"Domain"},"parameters":{"a":{"observedProperty":{"label":{"en":"A"}},"type":"Parameter"}},"ranges":{"a":{"axisNames":["t"],"dataType":"integer","shape":[2],"type":"NdArray","values":[1,2]}},"type":"Coverage"}
PROFILE => {"domain":{"axes":{"x":{"values":[5]},"y":{"values":[6]},"z":{"num":3,"start":0,"stop":20}},"domainType":"VerticalProfile","referencing":[{"coordinates":["x","y"],"system":{"type":"ProjectedCRS"}},{"coordinates":["z"],"system":{"type":"VerticalCRS"}}],"type":"Domain"},"parameters":{"a":{"observedProperty":{"label":{"en":"A"}},"type":"Parameter"}},"ranges":{"a":{"axisNames":["z"],"dataType":"integer","shape":[3],"type":"NdArray","values":[1,2,3]}},"type":"Coverage"}
PROFILE ~ [0,10,20] >> [0,10,30] => {"domain":{"axes":{"x":{"values":[5]},"y":{"values":[6]},"z":{"values":[0,10,30]}},"domainType":"VerticalProfile","referencing":[{"coordinates":["x","y"],"system":{"type":"ProjectedCRS"}},{"coordinates":["z"],"system":{"type":"VerticalCRS"}}],"type":"Domain"},"parameters":{"a":{"observedProperty":{"label":{"en":"A"}},"type":"Parameter"}},"ranges":{"a":{"axisNames":["z"],"dataType":"integer","shape":[3],"type":"NdArray","values":[1,2,3]}},"type":"Coverage"}
PROFILE ~ "values":[0,10,20] >> "start":20,"stop":0,"num":3 => {"domain":{"axes":{"x":{"values":[5]},"y":{"values":[6]},"z":{"num":3,"start":0,"stop":20}},"domainType":"VerticalProfile","referencing":[{"coordinates":["x","y"],"system":{"type":"ProjectedCRS"}},{"coordinates":["z"],"system":{"type":"VerticalCRS"}}],"type":"Domain"},"parameters":{"a":{"observedProperty":{"label":{"en":"A"}},"type":"Parameter"}},"ranges":{"a":{"axisNames":["z"],"dataType":"integer","shape":[3],"type":"NdArray","values":[3,2,1]}},"type":"Coverage"}
PLACES => {"domain":{"axes":{"composite":{"coordinates":["x","y","z"],"dataType":"tuple","values":[[1,2,3],[4,5,6]]}},"domainType":"MultiPoint","referencing":[{"coordinates":["x","y"],"system":{"type":"ProjectedCRS"}},{"coordinates":["z"],"system":{"type":"VerticalCRS"}}],"type":"Domain"},"parameters":{"a":{"observedProperty":{"label":{"en":"A"}},"type":"Parameter"}},"ranges":{"a":{"axisNames":["composite"],"dataType":"integer","shape":[2],"type":"NdArray","values":[1,2]}},"type":"Coverage"}
STEPS => {"domain":{"axes":{"composite":{"coordinates":["t","x","y"],"dataType":"tuple","values":[["2024-01-01T00:00:00Z",1,2],["2024-01-01T00:00:00Z",3,4]]},"z":{"values":[9]}},"domainType":"Trajectory","referencing":[{"coordinates":["x","y"],"system":{"type":"ProjectedCRS"}},{"coordinates":["z"],"system":{"type":"VerticalCRS"}},{"coordinates":["t"],"system":{"calendar":"Gregorian","type":"TemporalRS"}}],"type":"Domain"},"parameters":{"a":{"observedProperty":{"label":{"en":"A"}},"type":"Parameter"}},"ranges":{"a":{"axisNames":["composite"],"dataType":"integer","shape":[2],"type":"NdArray","values":[1,2]}},"type":"Coverage"}
LENT => {"coverages":[{"domain":{"axes":{"x":{"values":[1]},"y":{"values":[2]}},"domainType":"Point","referencing":[{"coordinates":["x","y"],"system":{"type":"ProjectedCRS"}}],"type":"Domain"},"parameters":{"a":{"observedProperty":{"label":{"en":"A"}},"type":"Parameter"}},"ranges":{"a":{"dataType":"integer","type":"NdArray","values":[3]}},"type":"Coverage"},{"domain":{"axes":{"x":{"values":[1]},"y":{"values":[2]}},"domainType":"Grid","referencing":[{"coordinates":["x","y"],"system":{"type":"ProjectedCRS"}}],"type":"Domain"},"id":"B","parameters":{"a":{"observedProperty":{"label":{"en":"A"}},"type":"Parameter"}},"ranges":{"a":{"axisNames":["y","x"],"dataType":"integer","shape":[1,1],"type":"NdArray","values":[4]}},"type":"Coverage"}],"type":"CoverageCollection"}"#;

// A document a line: a text after `: `, or the name of one above, in which texts are exchanged; and what it is refused with,
// or another document that is read as the same.
const TABLE: &str = r#"# the text and its kind
: [ => NotJson
: {"type":"Coverage"} x => NotJson
: [1e999] => NotJson
: [] => WrongType(Document)
: "Coverage" => WrongType(Document)
: {} => Missing(Kind)
: {"type":5} => WrongType(Kind)
: {"type":"Domain"} => WrongType(Kind)
: {"type":"Coverage"} => Missing(Domain)
: {"type":"Coverage","type":"Domain"} => WrongType(Kind)
# collections
: {"type":"CoverageCollection"} => Missing(Coverages)
: {"type":"CoverageCollection","coverages":{}} => WrongType(Coverages)
: {"type":"CoverageCollection","coverages":[5]} => WrongType(Coverages)
: {"type":"CoverageCollection","coverages":[{}]} => Missing(Kind)
: {"type":"CoverageCollection","coverages":[{"type":"CoverageCollection","coverages":[]}]} => WrongType(Kind)
: {"type":"CoverageCollection","coverages":[],"id":7} => {"coverages":[],"type":"CoverageCollection"}
LENT ~ "domainType":"Point", >>  => Missing(DomainType)
LENT ~ "domainType":"Point" >> "domainType":"Polygon" => UnsupportedDomain: Polygon
LENT ~ "domainType":"Grid", >>  ~ "ranges":{"a":{"type":"NdArray","dataType":"integer","values":[4] >> "domain":{"domainType":"Grid","axes":{"x":{"values":[1]},"y":{"values":[2]}}},"ranges":{"a":{"type":"NdArray","dataType":"integer","values":[4] == LENT
LENT ~ "referencing" >> "references" => Missing(Referencing)
LENT ~ "parameters" >> "parameter" => Missing(Parameters)
LENT ~ "id":"B", >> "id":"B","parameters":{}, => Missing(Parameters)
LENT ~ "id":"B", >> "id":"B","referencing":5, == LENT
LENT ~ "values":[3] >> "values":["3"] => WrongType(Values)
LENT ~ "values":[4] >> "values":[4,5] => WrongCount(Values, 1, 2)
LENT ~ "values":[4] >> "values":[] ~ "values":[3] >> "values":[0.5] => NotWhole(Values)
# the domain and its type
: {"type":"Coverage","domain":[]} => WrongType(Domain)
: {"type":"Coverage","domain":{}} => Missing(DomainType)
GRID ~ "domainType":"Grid" >> "domainType":5 => WrongType(DomainType)
GRID ~ "domainType":"Grid" >> "domainType":"Polygon" => UnsupportedDomain: Polygon
GRID ~ "domainType":"Grid" >> "domainType":"grid" => UnsupportedDomain: grid
GRID ~ "domainType":"Grid", >>  ~ {"type":"Coverage", >> {"type":"Coverage","domainType":"Grid", == GRID
GRID ~ {"type":"Coverage", >> {"type":"Coverage","domainType":"Polygon", == GRID
GRID ~ "domainType":"Grid" >> "domainType":"Polygon" ~ {"type":"Coverage", >> {"type":"Coverage","domainType":"Grid", => UnsupportedDomain: Polygon
GRID ~ "axes" >> "axis" => Missing(Axes)
: {"type":"Coverage","domain":{"domainType":"Point","axes":[]}} => WrongType(Axes)
GRID ~ "axes":{ >> "axes":{"w":{}, => WrongType(Axes)
GRID ~ "axes":{ >> "axes":{"composite":{}, => WrongType(Axes)
PLACES ~ "axes":{ >> "axes":{"x":{"values":[1]}, => WrongType(Axes)
PLACES ~ "axes":{ >> "axes":{"z":{"values":[1]}, => WrongType(Axes)
STEPS ~ "axes":{ >> "axes":{"t":{"values":["2024-01-01T00:00:00Z"]}, => WrongType(Axes)
# an axis that is wanted, and its form
GRID ~ "x":{"values":[0,100,200]}, >>  => Missing(X)
GRID ~ "x":{"values":[0,100,200]},"y":{"values":[0,100]}, >>  => Missing(Y)
SERIES ~ ,"t":{"values":["2024-01-01T00:00:00Z","2024-01-01T01:00:00Z"]} >>  => Missing(T)
PROFILE ~ ,"z":{"values":[0,10,20]} >>  => Missing(Z)
: {"type":"Coverage","domain":{"domainType":"Trajectory","axes":{"z":{"values":[1]}}}} => Missing(Composite)
GRID ~ "x":{"values":[0,100,200]} >> "x":[0,100,200] => WrongType(X)
GRID ~ "x":{"values":[0,100,200]} >> "x":{"values":{}} => WrongType(X)
GRID ~ "x":{"values":[0,100,200]} >> "x":{"values":[]} => WrongType(X)
GRID ~ "x":{"values":[0,100,200]} >> "x":{"values":[0,"100",200.5]} => WrongType(X)
GRID ~ "t":{"values":[" >> "t":{"values":[5," => WrongType(T)
GRID ~ "t":{"values":["2024-01-01T00:00:00Z","2024-01-01T01:00:00Z"]} >> "t":{"start":0,"stop":1,"num":2} => WrongType(T)
# whole numbers within their limits
GRID ~ [0,100,200] >> [0,1.5,2] => NotWhole(X)
GRID ~ [0,100,200] >> [0,100,2e2] => NotWhole(X)
GRID ~ [0,100,200] >> [-0,100,200] => NotWhole(X)
GRID ~ [0,100,200] >> [0,100,18446744073709551616] => NotWhole(X)
GRID ~ [0,100,200] >> [0,100,18446744073709551615] => OutOfRangeAt(X, 2)
GRID ~ [0,100,200] >> [0,100,9223372036854775808] => OutOfRangeAt(X, 2)
GRID ~ [0,100,200] >> [-9223372036854775808,100,200] => OutOfRangeAt(X, 0)
GRID ~ [0,100,200] >> [-9223372036854775809,100,200] => NotWhole(X)
GRID ~ [0,100,200] >> [0,100,100000001] => OutOfRangeAt(X, 2)
GRID ~ [0,100,200] >> [-100000001,100,200] => OutOfRangeAt(X, 0)
GRID ~ [0,100,200] >> [0,100000001,100000002] => OutOfRangeAt(X, 1)
GRID ~ [0,100,200] >> [-100000000,0,100000000] == GRID ~ "x":{"values":[0,100,200]} >> "x":{"start":-100000000,"stop":100000000,"num":3}
GRID ~ [0,100,200] >> [100000001,1.5,0] => NotWhole(X)
PROFILE ~ [0,10,20] >> [0,10,100000001] => OutOfRangeAt(Z, 2)
# times
GRID ~ "2024-01-01T00:00:00Z" >> "2024-06-15" => BadTime(0)
GRID ~ "2024-01-01T01:00:00Z" >> "2024-02-30T00:00:00Z" => BadTime(1)
GRID ~ "2024-01-01T00:00:00Z","2024-01-01T01:00:00Z" >> "2024-01-01t00:00Z","2024-01-01T02:00:00.0+01:00" == GRID
GRID ~ "2024-01-01T01:00:00Z" >> "2024-01-01T00:00:00Z" => NotMonotonic(T)
GRID ~ "2024-01-01T00:00:00Z" >> "0000-01-01T00:00:00+00:01" => BadTime(0)
GRID ~ "2024-01-01T01:00:00Z" >> "2016-12-31T23:59:60Z" => BadTime(1)
GRID ~ "2024-01-01T01:00:00Z" >> "2024-01-01T02:00:00 01:00" == GRID
# order and direction
GRID ~ [0,100,200] >> [0,0,1] => NotMonotonic(X)
GRID ~ [0,100,200] >> [0,200,100] => NotMonotonic(X)
GRID ~ [0,100,200] >> [200,0,100] => NotMonotonic(X)
GRID ~ "y":{"values":[0,100]} >> "y":{"values":[100,0]} ~ [10,11,12,13,null,15,20,21,22,23,24,25] >> [13,null,15,10,11,12,23,24,25,20,21,22] == GRID
GRID ~ [0,100,200] >> [200,100,0] ~ [10,11,12,13,null,15,20,21,22,23,24,25] >> [12,11,10,15,null,13,22,21,20,25,24,23] == GRID
GRID ~ "2024-01-01T00:00:00Z","2024-01-01T01:00:00Z" >> "2024-01-01T01:00:00Z","2024-01-01T00:00:00Z" ~ [10,11,12,13,null,15,20,21,22,23,24,25] >> [20,21,22,23,24,25,10,11,12,13,null,15] == GRID
SERIES ~ "2024-01-01T00:00:00Z","2024-01-01T01:00:00Z" >> "2024-01-01T01:00:00Z","2024-01-01T00:00:00Z" ~ [1,2] >> [2,1] == SERIES
PROFILE ~ [0,10,20] >> [20,10,0] ~ [1,2,3] >> [3,2,1] == PROFILE
# spans
GRID ~ "x":{"values":[0,100,200]} >> "x":{"start":0,"stop":200,"num":3} == GRID
GRID ~ "x":{"values":[0,100,200]} >> "x":{"start":200,"stop":0,"num":3} ~ [10,11,12,13,null,15,20,21,22,23,24,25] >> [12,11,10,15,null,13,22,21,20,25,24,23] == GRID
GRID ~ "x":{"values":[0,100,200]} >> "x":{"start":"0","stop":0.5,"num":0,"values":[0,100,200]} == GRID
PROFILE ~ "z":{"values":[0,10,20]} >> "z":{"start":0,"stop":20,"num":3} == PROFILE
POINT ~ "x":{"values":[5]} >> "x":{"start":5,"stop":5,"num":1} == POINT
GRID ~ "x":{"values":[0,100,200]} >> "x":{"stop":200,"num":3} => WrongType(X)
GRID ~ "x":{"values":[0,100,200]} >> "x":{"start":0,"num":3} => WrongType(X)
GRID ~ "x":{"values":[0,100,200]} >> "x":{"start":0.5,"stop":200,"num":"3"} => WrongType(X)
GRID ~ "x":{"values":[0,100,200]} >> "x":{"start":0,"stop":100000001,"num":0.5} => NotWhole(X)
GRID ~ "x":{"values":[0,100,200]} >> "x":{"start":0,"stop":200,"num":4} => NotWhole(X)
GRID ~ "x":{"values":[0,100,200]} >> "x":{"start":0,"stop":200,"num":1} => NotWhole(X)
GRID ~ "x":{"values":[0,100,200]} >> "x":{"start":0,"stop":100000001,"num":3} => NotWhole(X)
GRID ~ "x":{"values":[0,100,200]} >> "x":{"start":0,"stop":100000001,"num":2} => OutOfRange(X)
GRID ~ "x":{"values":[0,100,200]} >> "x":{"start":100000001,"stop":0,"num":2} => OutOfRange(X)
GRID ~ "x":{"values":[0,100,200]} >> "x":{"start":0,"stop":200,"num":0} => OutOfRange(X)
GRID ~ "x":{"values":[0,100,200]} >> "x":{"start":0,"stop":200,"num":-3} => OutOfRange(X)
GRID ~ "x":{"values":[0,100,200]} >> "x":{"start":0,"stop":4000000,"num":4000001} => OutOfRange(X)
GRID ~ "x":{"values":[0,100,200]} >> "x":{"start":0,"stop":0,"num":3} => NotMonotonic(X)
# a single value
POINT ~ "x":{"values":[5]} >> "x":{"values":[5,6]} => WrongCount(X, 1, 2)
POINT ~ "x":{"values":[5]} >> "x":{"values":[5,5]} => NotMonotonic(X)
POINT ~ "z":{"values":[7]} >> "z":{"values":[7,6,5]} => WrongCount(Z, 1, 3)
PROFILE ~ "y":{"values":[6]} >> "y":{"start":1,"stop":4,"num":4} => WrongCount(Y, 1, 4)
# one axis after the other
GRID ~ [0,100,200] >> [0,0,1] ~ "y":{"values":[0,100]} >> "y":{"values":[0.5]} => NotWhole(Y)
GRID ~ "2024-01-01T00:00:00Z" >> "x" ~ "y":{"values":[0,100]} >> "y":5 => BadTime(0)
POINT ~ "2024-01-01T00:00:00Z" >> "x" ~ "z":{"values":[7]} >> "z":{"values":[0.5]} => BadTime(0)
STEPS ~ "z":{"values":[9]} >> "z":{"values":[9,10]} => WrongCount(Z, 1, 2)
POINT ~ "z":{"values":[7]} >> "z":{"values":[7,6]} ~ "y":{"values":[6]} >> "y":{} => WrongCount(Z, 1, 2)
# tuples
PLACES ~ "composite":{"dataType" >> "composite":{"datatype" => WrongType(Composite)
PLACES ~ "dataType":"tuple" >> "dataType":"polygon" => WrongType(Composite)
PLACES ~ "coordinates":["x","y","z"] >> "coordinates":["y","x","z"] => WrongType(Composite)
PLACES ~ "coordinates":["x","y","z"] >> "coordinates":["x","y"] => WrongType(Composite)
PLACES ~ "coordinates":["x","y","z"] >> "coordinates":"x" => WrongType(Composite)
PLACES ~ [[1,2,3],[4,5,6]] >> [] => WrongType(Composite)
PLACES ~ [[1,2,3],[4,5,6]] >> [[1,2,3],5] => WrongType(Composite)
PLACES ~ [[1,2,3],[4,5,6]] >> [[1.5,2,3],[4,5]] => WrongType(Composite)
PLACES ~ [[1,2,3],[4,5,6]] >> [[1,2,100000001],[4,5,0.5]] => NotWhole(Composite)
PLACES ~ [[1,2,3],[4,5,6]] >> [[1,2,100000001],[4,5,6]] => OutOfRangeAt(Composite, 0)
PLACES ~ [[1,2,3],[4,5,6]] >> [[1,2,3],[4,100000001,6],[7,8,-100000001]] => OutOfRangeAt(Composite, 1)
STEPS ~ "coordinates":["t","x","y"] >> "coordinates":["t","x","y","z"] => WrongType(Composite)
STEPS ~ "coordinates":["t","x","y"] >> "coordinates":["t","x","y","z"] ~ Z",1,2] >> Z",1,2,5] ~ Z",3,4] >> Z",3,4,6] => WrongType(Composite)
STEPS ~ ["2024-01-01T00:00:00Z",3,4] >> ["2024-06-15",3,4] => BadTime(1)
STEPS ~ ["2024-01-01T00:00:00Z",1,2],["2024-01-01T00:00:00Z",3,4] >> ["2024-06-15",1,2],["2024-06-15",100000001,4] => OutOfRangeAt(Composite, 1)
STEPS ~ ["2024-01-01T00:00:00Z",3,4] >> ["2023-12-31T23:59:59Z",3,4] => NotMonotonic(Composite)
STEPS ~ ["2024-01-01T00:00:00Z",3,4] >> [5,3,4] => WrongType(Composite)
# reference systems
GRID ~ "referencing" >> "references" => Missing(Referencing)
GRID ~ "referencing":[ >> "referencing":5,"other":[ => WrongType(Referencing)
GRID ~ "referencing":[ >> "referencing":[5, => WrongType(Referencing)
GRID ~ "referencing":[ >> "referencing":[{"coordinates":[]}, => WrongType(Referencing)
GRID ~ "referencing":[ >> "referencing":[{"system":{}}, => WrongType(Referencing)
GRID ~ "coordinates":["x","y"] >> "coordinates":["x"] => Missing(Referencing)
GRID ~ "coordinates":["x","y"] >> "coordinates":"xy" => Missing(Referencing)
GRID ~ "coordinates":["x","y"] >> "coordinates":["y","x","z"] == GRID
GRID ~ "ProjectedCRS" >> "GeographicCRS" => UnsupportedSystem: GeographicCRS
GRID ~ "type":"ProjectedCRS", >>  => UnsupportedSystem: 
GRID ~ "Gregorian" >> "Julian" => UnsupportedSystem: Julian
GRID ~ ,"calendar":"Gregorian" >>  => UnsupportedSystem: 
GRID ~ "coordinates":["t"] >> "coordinates":[] ~ "Gregorian" >> "Julian" => UnsupportedSystem: Julian
GRID ~ "ProjectedCRS" >> "GeographicCRS" ~ "Gregorian" >> "Julian" => UnsupportedSystem: GeographicCRS
GRID ~ "referencing":[ >> "referencing":[{"coordinates":7,"system":7}, == GRID
GRID ~ "referencing":[ >> "referencing":[{"coordinates":["z"],"system":{"type":"VerticalCRS","id":"up"}}, == GRID
POINT ~ "referencing":[ >> "referencing":[{"coordinates":["z"],"system":{"type":"VerticalCRS"}}, == POINT ~ ,"id":"up" >> 
POINT ~ {"type":"VerticalCRS","id":"up"} >> {"type":"VerticalCRS","id":5} ~ {"type":"ProjectedCRS"} >> {"type":"ProjectedCRS","id":5} == POINT ~ ,"id":"up" >> 
# parameters
GRID ~ "parameters" >> "parameter" => Missing(Parameters)
GRID ~ "parameters":{ >> "parameters":[],"other":{ => WrongType(Parameters)
GRID ~ "parameters":{ >> "parameters":{"":{}, => WrongType(Parameters)
GRID ~ "parameters":{ >> "parameters":{"a,b":{}, => WrongType(Parameters)
GRID ~ "parameters":{ >> "parameters":{"a\u007f":{}, => WrongType(Parameters)
GRID ~ "parameters":{ >> "parameters":{"aaaaaaaaaaaaaaaaaaaaaaaaaaaaaaaaaaaaaaaaaaaaaaaaaaaaaaaaaaaaaaaaaaaaaaaaaaaaaaaaaaaaaaaaaaaaaaaaaaaaaaaaaaaaaaaaaaaaaaaaaaaaaaaaa":{}, => WrongType(Parameters)
GRID ~ "parameters":{ >> "parameters":{"aaaaaaaaaaaaaaaaaaaaaaaaaaaaaaaaaaaaaaaaaaaaaaaaaaaaaaaaaaaaaaaaaaaaaaaaaaaaaaaaaaaaaaaaaaaaaaaaaaaaaaaaaaaaaaaaaaaaaaaaaaaaaaaa":{}, => Missing(ObservedProperty)
GRID ~ "parameters":{ >> "parameters":{"a":{},"b":5, => WrongType(Parameters)
GRID ~ "parameters":{ >> "parameters":{"a":{}, => Missing(ObservedProperty)
GRID ~ "parameters":{ >> "parameters":{"a":{"observedProperty":5}, => WrongType(ObservedProperty)
GRID ~ "label":{"en":"Temperature"} >> "label":{} => WrongType(ObservedProperty)
GRID ~ "label":{"en":"Temperature"} >> "label":{} ~ "unit":{"symbol":"Cel"} >> "unit":5 => WrongType(ObservedProperty)
GRID ~ "label":{"en":"Temperature"} >> "label":{"en":"Temperature","de":5} => WrongType(ObservedProperty)
GRID ~ "label":{"en":"Temperature"} >> "label":{"en":"Temperature"},"categories":[] => WrongType(ObservedProperty)
GRID ~ "label":{"en":"Temperature"} >> "label":{"de":"Temperatur","en":"Temperature","fr":"x"} == GRID
GRID ~ "label":{"en":"Temperature"} >> "label":{"fr":"x","de":"Temperatur"} == GRID ~ "label":{"en":"Temperature"} >> "label":{"de":"Temperatur"}
GRID ~ "parameters":{ >> "parameters":{"aa":{"observedProperty":{"label":{"en":"unread"}}}, == GRID
GRID ~ {"symbol":"Cel"} >> {"symbol":{"value":"Cel","type":"x"}} == GRID
GRID ~ {"symbol":"Cel"} >> {"symbol":5,"label":{"en":"Cel","aa":"x"}} == GRID
GRID ~ {"symbol":"Cel"} >> {"label":{"en":"Cel"}} == GRID
GRID ~ {"symbol":"Cel"} >> {"symbol":{},"label":{"en":"Cel"}} => WrongType(Unit)
GRID ~ {"symbol":"Cel"} >> {} => WrongType(Unit)
GRID ~ "unit":{"symbol":"Cel"} >> "unit":5 => WrongType(Unit)
GRID ~ "parameters":{ >> "parameters":{"a":{"observedProperty":{"label":{"en":"A"}},"unit":5}, ~ "label":{"en":"Temperature"} >> "label":{} => WrongType(Unit)
# ranges
GRID ~ "ranges" >> "range" => Missing(Ranges)
GRID ~ "ranges":{ >> "ranges":[],"other":{ => WrongType(Ranges)
GRID ~ "ranges":{ >> "ranges":{},"other":{ => WrongCount(Ranges, 1, 0)
GRID ~ "ranges":{ >> "ranges":{"rain":{}, => Missing(Parameters)
POINT ~ "ranges":{"a" >> "ranges":{"c" => Missing(Parameters)
GRID ~ "ranges":{ >> "ranges":{"temp":5},"other":{ => WrongType(Ranges)
GRID ~ "NdArray" >> "TiledNdArray" => UnsupportedRange: TiledNdArray
GRID ~ "type":"NdArray", >>  => UnsupportedRange: 
GRID ~ "dataType":"integer", >>  => Missing(DataType)
GRID ~ "dataType":"integer" >> "dataType":"float" => UnsupportedRange: float
GRID ~ "dataType":"integer" >> "dataType":5 => UnsupportedRange: 
POINT ~ "values":[1] >> "values":[] ~ "values":[null] >> "values":[0.5] => WrongCount(Values, 1, 0)
# the axes of a range and their lengths
GRID ~ "axisNames":["t","y","x"], >>  => Missing(AxisNames)
GRID ~ "axisNames":["t","y","x"] >> "axisNames":"t" => WrongType(AxisNames)
GRID ~ "axisNames":["t","y","x"] >> "axisNames":["t","y","lon"] => WrongType(AxisNames)
GRID ~ "axisNames":["t","y","x"] >> "axisNames":["t","y",5] => WrongType(AxisNames)
GRID ~ "axisNames":["t","y","x"] >> "axisNames":["t","y","x","x"] => WrongType(AxisNames)
GRID ~ "axisNames":["t","y","x"] >> "axisNames":["y","x"] => WrongType(AxisNames)
GRID ~ "axisNames":["t","y","x"] >> "axisNames":["t","z","y","x"] => WrongType(AxisNames)
GRID ~ "shape":[2,2,3], >>  => Missing(Shape)
GRID ~ "shape":[2,2,3] >> "shape":2 => WrongType(Shape)
GRID ~ "shape":[2,2,3] >> "shape":[3,2,-3] => WrongType(Shape)
GRID ~ "shape":[2,2,3] >> "shape":[2,2,3.0] => WrongType(Shape)
GRID ~ "shape":[2,2,3] >> "shape":[9,2] => WrongCount(Shape, 3, 2)
GRID ~ "shape":[2,2,3] >> "shape":[2,3,2] => WrongCount(Shape, 2, 3)
GRID ~ "shape":[2,2,3] >> "shape":[2,2,18446744073709551615] => WrongCount(Shape, 3, 18446744073709551615)
POINT ~ "values":[1] >> "shape":[1],"values":[1] => WrongCount(Shape, 0, 1)
POINT ~ "values":[1] >> "axisNames":["y","t"],"shape":[1,1],"values":[1] == POINT
POINT ~ "values":[1] >> "axisNames":["x"],"values":[1] == POINT
PLACES ~ "axisNames":["composite"],"shape":[2], >>  => Missing(AxisNames)
GRID ~ "axisNames":["t","y","x"],"shape":[2,2,3] >> "axisNames":["x","y","t"],"shape":[3,2,2] ~ [10,11,12,13,null,15,20,21,22,23,24,25] >> [10,20,13,23,11,21,null,24,12,22,15,25] == GRID
GRID ~ "axisNames":["t","y","x"] >> "axisNames":["y","t","x"] ~ [10,11,12,13,null,15,20,21,22,23,24,25] >> [10,11,12,20,21,22,13,null,15,23,24,25] == GRID
GRID ~ [0,100,200] >> [200,100,0] ~ "y":{"values":[0,100]} >> "y":{"values":[100,0]} ~ "axisNames":["t","y","x"],"shape":[2,2,3] >> "axisNames":["x","t","y"],"shape":[3,2,2] ~ [10,11,12,13,null,15,20,21,22,23,24,25] >> [15,12,25,22,null,11,24,21,13,10,23,20] == GRID
STEPS ~ "axisNames":["composite"],"shape":[2] >> "axisNames":["composite","z"],"shape":[2,1] == STEPS
# values
GRID ~ "values":[10 >> "value":[10 => Missing(Values)
GRID ~ "values":[10 >> "values":5,"other":[10 => WrongType(Values)
GRID ~ 24,25] >> 24] => WrongCount(Values, 12, 11)
GRID ~ 24,25] >> 24,25,"26"] => WrongCount(Values, 12, 13)
GRID ~ 24,25] >> 2.5,"25"] => WrongType(Values)
GRID ~ 24,25] >> 9007199254740992,2.5] => NotWhole(Values)
GRID ~ 24,25] >> 24,9007199254740992] => OutOfRangeAt(Values, 11)
GRID ~ 24,25] >> 9007199254740992,9007199254740993] => OutOfRangeAt(Values, 10)
GRID ~ 24,25] >> 24,-9007199254740992] => OutOfRangeAt(Values, 11)
GRID ~ 24,25] >> 24,18446744073709551615] => OutOfRangeAt(Values, 11)
GRID ~ 24,25] >> 24,18446744073709551616] => NotWhole(Values)
# members beside, and members twice
GRID ~ {"type":"Coverage", >> {"type":"Coverage","id":5,"x-note":{"a":[1.5]}, == GRID
GRID ~ {"type":"Coverage", >> {"type":"Domain","type":"Coverage", == GRID
GRID ~ "shape":[2,2,3] >> "shape":5,"shape":[2,2,3] == GRID"#;

fn named(name: &str) -> &'static str {
    if name == "GRID" {
        GRID
    } else if name == "POINT" {
        POINT
    } else if name == "SERIES" {
        SERIES
    } else if name == "PROFILE" {
        PROFILE
    } else if name == "PLACES" {
        PLACES
    } else if name == "STEPS" {
        STEPS
    } else {
        LENT
    }
}

// A text in which the first place of another is exchanged.
fn exchanged(alloc: Global, text: &str, exchange: &str) -> Option<String> {
    let (old, new) = exchange.split_once(" >> ")?;
    let (before, after) = text.split_once(old)?;
    format!(in alloc; "{before}{new}{after}").ok()
}

// A text in which some others are exchanged, one after another.
fn all_exchanged(alloc: Global, text: &str, exchanges: &str) -> Option<String> {
    let mut text = String::from_str(alloc, text).ok()?;
    for exchange in exchanges.split(" ~ ") {
        text = exchanged(alloc, text.as_str(), exchange)?;
    }
    Some(text)
}

// The text of a document of the table.
fn text_of(alloc: Global, words: &str) -> Option<String> {
    if let Some(text) = words.strip_prefix(": ") {
        return String::from_str(alloc, text).ok();
    }
    match words.split_once(" ~ ") {
        Some((name, exchanges)) => all_exchanged(alloc, named(name), exchanges),
        None => String::from_str(alloc, named(words)).ok(),
    }
}

// Whether the answer is a name, and this text behind it.
fn has_text(answer: &str, name: &str, text: &Text) -> bool {
    match answer.split_once(": ") {
        Some((first, rest)) => first == name && rest.as_bytes() == text.bytes(),
        None => false,
    }
}

fn is_fault(alloc: Global, fault: &CovFault, answer: &str) -> bool {
    match fault {
        CovFault::UnsupportedDomain(text) => has_text(answer, "UnsupportedDomain", text),
        CovFault::UnsupportedSystem(text) => has_text(answer, "UnsupportedSystem", text),
        CovFault::UnsupportedRange(text) => has_text(answer, "UnsupportedRange", text),
        _ => is_shown(alloc, fault, answer),
    }
}

// Whether a document is written as this text.
fn is_text(alloc: Global, document: &Document, answer: &str) -> bool
    requires { IsValidDocument document.now }
{
    let Ok(tree) = document_tree(alloc, document) else {
        return false;
    };
    match tree.to_string(alloc) {
        Ok(text) => text.as_str() == answer,
        Err(_) => false,
    }
}

// Whether some bytes are read as a document of this written text, or are refused so.
fn is_read(alloc: Global, bytes: &[u8], answer: &str) -> bool {
    match read_document(alloc, bytes) {
        Ok(document) => is_text(alloc, &document, answer),
        Err(fault) => is_fault(alloc, &fault, answer),
    }
}

// Whether this is the answer to a document. A written text is also read as it stands.
fn is_answered(alloc: Global, words: &str, answer: &str) -> bool {
    match text_of(alloc, words) {
        Some(text) => {
            is_read(alloc, text.as_bytes(), answer)
                && (!answer.starts_with('{') || is_read(alloc, answer.as_bytes(), answer))
        }
        None => false,
    }
}

/// Whether this is the answer to a document, or there is none and this is a document of the same written text.
pub fn is_right(alloc: Global, words: &str, answer: &str) -> bool {
    match words.split_once(" == ") {
        Some((words, same)) => is_answered(alloc, words, answer_in(WRITTEN, same)),
        None => is_answered(alloc, words, answer),
    }
}

// Whether an empty list is no coverage, for this reason.
fn is_no_coverage(alloc: Global, answer: &str) -> bool {
    match coverage_of(alloc, &Tree::Items(Vec::new(alloc))) {
        Ok(_) => false,
        Err(fault) => is_fault(alloc, &fault, answer),
    }
}

#[test]
fn documents_are_read_and_refused(rt: HostRuntime) {
    are_right(&rt, rt.alloc(), Cases::Readings, TABLE);
    are_right(&rt, rt.alloc(), Cases::Readings, WRITTEN);
    assert!(rt; is_no_coverage(rt.alloc(), "WrongType(Coverages)"));
}
