//! Rows of targets and of paths.
use edr_base::{Items, Text};
use edr_query::{Page, Query, Shape, TargetFault, path_of, read_address, read_target};
use std::alloc::{AllocError, Global};
use std::rt::HostRuntime;

// A line for each target: the target, and the kind of page that it asks for or its refusal.
const TARGETS: &str = "\
# pages
/ => landing
/? => landing
/?f=json => landing
/?f=JSON => landing
/?f=Application/Json => landing
/?f=CoverageJSON => BadFormat
/?f=application/prs.coverage%2Bjson => BadFormat
/conformance => conformance
/conformance/ => conformance
/%63onformance => conformance
/Conformance => NoSuchPage
/collections => collections
/collections/ => collections
/collections// => NoSuchPage
//collections => NoSuchPage
/collections/grid => collection
/collections/grid/ => collection
/collections/a%2Fb => collection
/collections/a+b => collection
/collections/a%20b => collection
/collections/%3D%26%3F => collection
/collections/%FF => NoSuchPage
/collections/%C3%A9 => collection
/collections/é => collection
/collections/a%00b => collection
/collections/%zz => collection
/collections/grid/instances => instances
/collections/grid/instances/7 => instance
/collections/grid/instances/7/ => instance
/collections/grid/instances//position => NoSuchPage
/collections/grid/locations => locations
/collections/grid/Locations => NoSuchPage
/collections/grid/items => NoSuchPage
/collections/grid/instances/7/items => NoSuchPage
/collections/grid/instances/7/locations => NoSuchPage
/collections/grid/locations/A/position => NoSuchPage
/collections/grid/instances/7/position/x => NoSuchPage
/none => NoSuchPage
collections => NoSuchPage
 => NoSuchPage
? => NoSuchPage
/collections/grid?datetime=x => UnknownParameter
/collections/grid?f=json&f=json => RepeatedParameter
# positions
/collections/grid/position?coords=POINT(50 0) => position
/collections/grid/position?coords=POINT%2850+0%29 => position
/collections/grid/position?&&coords=POINT(50 0)& => position
/collections/grid/position?%63oords=POINT(50 0) => position
/collections/grid/position?Coords=POINT(50 0) => UnknownParameter
/collections/grid/position?coords+=POINT(50 0) => UnknownParameter
/collections/grid/position?coords=POINT(50 0)&= => UnknownParameter
/collections/grid/position?coords=POINT(50 0)&=x => UnknownParameter
/collections/grid/position?coords=POINT(50 0)&f => BadFormat
/collections/grid/position?coords=POINT(50 0)&f=coveragejson => position
/collections/grid/position?coords=POINT(50 0)&f=JSON => position
/collections/grid/position?coords=POINT(50 0)&f=application/prs.coverage%2Bjson => position
/collections/grid/position?coords=POINT(50 0)&f=application/prs.coverage+json => BadFormat
/collections/grid/position?coords=POINT(50 0)&f=application/json => BadFormat
/collections/grid/position?coords=POINT(50 0)&datetime=2024-01-01T01:00:00+01:00 => position
/collections/grid/position?coords=POINT(50 0)&datetime=2024-01-01T01:00:00%2B01:00 => position
/collections/grid/position?coords=POINT(50 0)&datetime=..%2F.. => position
/collections/grid/position?coords=POINT(50 0)&datetime=/2024-01-01T00:00Z => position
/collections/grid/position?coords=POINT(50 0)&datetime=2024-01-02T00:00Z/2024-01-01T00:00Z => BadDatetime
/collections/grid/position?coords=POINT(50 0)&datetime= => BadDatetime
/collections/grid/position?coords=POINT(50 0)&z=10 => position
/collections/grid/position?coords=POINT(50 0)&z=10/20 => position
/collections/grid/position?coords=POINT(50 0)&z=20/10 => BadLevel
/collections/grid/position?coords=POINT(50 0)&parameter-name=temp,wind,temp => position
/collections/grid/position?coords=POINT(50 0)&parameter-name= => position
/collections/grid/position?coords=POINT(50 0)&crs=é => position
/collections/grid/position?coords=POINT(50 0)&crs=%00%26%3D%2F => position
/collections/grid/position??coords=POINT(50 0) => UnknownParameter
/collections/grid/position?coords= => BadCoords
/collections/grid/position?coords=POINT(50 0)&z= => BadLevel
/collections/grid/position?coords=POINT(50 0)&%63oords=POINT(50 0) => RepeatedParameter
/collections/grid/position/?coords=POINT(50 0) => position
/collections/grid/position?coords=POINT ZM(50 0 1 1) => WrongGeometry
/collections/grid/cube?bbox= => BadBbox
/collections/grid/area?coords=MULTIPOLYGON(((0 0,1 0,1 1,0 0))) => area
/collections/grid/position?coords=POINT(50 0)&parameter-name=,a, => position
/collections/grid/position?coords=POINT(50 0)&crs= => position
/collections/grid/position?coords=POINT(50 0)&crs=a%2Bb+c => position
/collections/grid/position?coords=POINT(50 0)&crs=%FF => position
/collections/grid/position?coords=POINT(50 0)?x => BadCoords
/collections/grid/position?coords=MULTIPOINT(0 0,1 1) => position
/collections/grid/position?coords=MULTIPOINT Z(0 0 0,1 1 1) => WrongGeometry
/collections/grid/position?coords=POINT Z(0 0 20) => position
/collections/grid/position?coords=POINT Z(0 0 20)&z=20 => Conflict
/collections/grid/position?coords=POINT M(0 0 20) => WrongGeometry
/collections/grid/position?coords=POINT(100000001 0) => BadCoords
/collections/grid/position => MissingParameter
/collections/grid/instances/2/position?coords=POINT(0 0) => position
/collections/grid/locations/A => location
/collections/grid/locations/A?datetime=2024-01-01T00:00Z => location
/collections/grid/locations/A?coords=POINT(0 0) => UnknownParameter
# distances
/collections/grid/radius?coords=POINT(0 0)&within=5&within-units=m => radius
/collections/grid/radius?coords=POINT(0 0)&within=5.&within-units=M => radius
/collections/grid/radius?coords=POINT(0 0)&within=005.000&within-units=m => radius
/collections/grid/radius?coords=POINT(0 0)&within=5.1&within-units=m => BadDistance
/collections/grid/radius?coords=POINT(0 0)&within=.5&within-units=km => BadDistance
/collections/grid/radius?coords=POINT(0 0)&within=0.1&within-units=km => radius
/collections/grid/radius?coords=POINT(0 0)&within=1.2345&within-units=km => BadDistance
/collections/grid/radius?coords=POINT(0 0)&within=1.23400&within-units=Km => radius
/collections/grid/radius?coords=POINT(0 0)&within=1.0001&within-units=km => BadDistance
/collections/grid/radius?coords=POINT(0 0)&within=400000&within-units=km => radius
/collections/grid/radius?coords=POINT(0 0)&within=400000.001&within-units=km => BadDistance
/collections/grid/radius?coords=POINT(0 0)&within=400000001&within-units=m => BadDistance
/collections/grid/radius?coords=POINT(0 0)&within=99999999999999999999&within-units=m => BadDistance
/collections/grid/radius?coords=POINT(0 0)&within=5&within-units=mi => BadDistance
/collections/grid/radius?coords=POINT(0 0)&within=5&within-units= => BadDistance
/collections/grid/radius?coords=POINT(0 0)&within=&within-units=m => BadDistance
/collections/grid/radius?coords=POINT(0 0)&within=+5&within-units=m => BadDistance
/collections/grid/radius?coords=POINT(0 0)&within=-5&within-units=m => BadDistance
/collections/grid/radius?coords=POINT(0 0)&within=5 => MissingParameter
/collections/grid/radius?coords=MULTIPOINT(0 0)&within=5&within-units=m => WrongGeometry
# boxes
/collections/grid/cube?bbox=0,1,2,3 => cube
/collections/grid/cube?bbox=0,1,5,2,3,6 => cube
/collections/grid/cube?bbox=0,1,6,2,3,5 => BadBbox
/collections/grid/cube?bbox=2,1,0,3 => BadBbox
/collections/grid/cube?bbox=0,3,2,1 => BadBbox
/collections/grid/cube?bbox=0,1,2 => BadBbox
/collections/grid/cube?bbox=0,1,2,3,4 => BadBbox
/collections/grid/cube?bbox=0,1,2,3,4,5,6 => BadBbox
/collections/grid/cube?bbox=0,1,2, => BadBbox
/collections/grid/cube?bbox=7 => BadBbox
/collections/grid/cube?bbox=1/2 => BadBbox
/collections/grid/cube?bbox=+0.0,1.,2.00,3 => cube
/collections/grid/cube?bbox=0,0,100000001,1 => BadBbox
/collections/grid/cube?bbox=0,0,0,1,1,1&z=0 => Conflict
# areas and lines
/collections/grid/area?coords=POLYGON((0 0,9 0,0 9,0 0)) => area
/collections/grid/area?coords=POLYGON Z((0 0 0,9 0 0,0 9 0,0 0 0)) => WrongGeometry
/collections/grid/area?coords=POINT(0 0) => WrongGeometry
/collections/grid/trajectory?coords=LINESTRING M(0 0 1,1 1 2) => trajectory
/collections/grid/trajectory?coords=LINESTRING M(0 0 2,1 1 1) => BadCoords
/collections/grid/trajectory?coords=LINESTRING M(0 0 1,1 1 2)&datetime=../.. => Conflict
/collections/grid/trajectory?coords=LINESTRING M(0 0 1,1 1 2)&datetime=../..&z=x => BadLevel
/collections/grid/corridor?coords=LINESTRING(0 0,1 1)&corridor-width=1&width-units=km => corridor
/collections/grid/corridor?coords=LINESTRING(0 0,1 1)&corridor-width=1&width-units=m&corridor-height=2 => MissingParameter
/collections/grid/corridor?coords=LINESTRING(0 0,1 1)&corridor-width=1&width-units=m&height-units=m => MissingParameter
/collections/grid/corridor?coords=LINESTRING(0 0,1 1)&corridor-width=1&width-units=m&corridor-height=2&height-units=m => corridor
/collections/grid/corridor?coords=LINESTRING(0 0,1 1)&corridor-width=1&width-units=m&corridor-height=2&height-units=m&z=7 => corridor
/collections/grid/corridor?coords=LINESTRING(0 0,1 1)&corridor-width=1&width-units=m&corridor-height=2&height-units=m&z=7/8 => Conflict
/collections/grid/corridor?coords=LINESTRING Z(0 0 0,1 1 1)&corridor-width=1&width-units=m => MissingParameter
/collections/grid/corridor?coords=POINT Z(0 0 0)&corridor-width=1&width-units=m => WrongGeometry
/collections/grid/corridor?coords=LINESTRING Z(0 0 0,1 1 x)&corridor-width=1&width-units=m => BadCoords
# two refusals at once, both ways round
/collections/grid/corridor?colour=red&coords=LINESTRING(0 0,1 1)&corridor-width=1&width-units=m&crs=a&crs=a => UnknownParameter
/collections/grid/corridor?crs=a&crs=a&coords=LINESTRING(0 0,1 1)&corridor-width=1&width-units=m&colour=red => UnknownParameter
/collections/grid/corridor?colour=red&coords=LINESTRING(0 0,1 1)&corridor-width=1&width-units=m&f=XML => UnknownParameter
/collections/grid/corridor?f=XML&coords=LINESTRING(0 0,1 1)&corridor-width=1&width-units=m&colour=red => UnknownParameter
/collections/grid/corridor?colour=red&coords=LINESTRING(0 0,1 1)&corridor-width=1 => UnknownParameter
/collections/grid/corridor?coords=LINESTRING(0 0,1 1)&corridor-width=1&colour=red => UnknownParameter
/collections/grid/corridor?colour=red&corridor-width=1&width-units=m&coords=x => UnknownParameter
/collections/grid/corridor?coords=x&corridor-width=1&width-units=m&colour=red => UnknownParameter
/collections/grid/corridor?colour=red&corridor-width=1&width-units=m&coords=POINT(0 0) => UnknownParameter
/collections/grid/corridor?coords=POINT(0 0)&corridor-width=1&width-units=m&colour=red => UnknownParameter
/collections/grid/corridor?colour=red&coords=LINESTRING(0 0,1 1)&corridor-width=1&width-units=m&datetime=x => UnknownParameter
/collections/grid/corridor?datetime=x&coords=LINESTRING(0 0,1 1)&corridor-width=1&width-units=m&colour=red => UnknownParameter
/collections/grid/corridor?colour=red&coords=LINESTRING(0 0,1 1)&corridor-width=1&width-units=m&z=x => UnknownParameter
/collections/grid/corridor?z=x&coords=LINESTRING(0 0,1 1)&corridor-width=1&width-units=m&colour=red => UnknownParameter
/collections/grid/corridor?colour=red&coords=LINESTRING(0 0,1 1)&width-units=m&corridor-width=x => UnknownParameter
/collections/grid/corridor?corridor-width=x&coords=LINESTRING(0 0,1 1)&width-units=m&colour=red => UnknownParameter
/collections/grid/corridor?colour=red&coords=LINESTRING(0 0,1 1)&corridor-width=1&width-units=m&corridor-height=1&height-units=m&z=1/2 => UnknownParameter
/collections/grid/corridor?corridor-height=1&height-units=m&z=1/2&coords=LINESTRING(0 0,1 1)&corridor-width=1&width-units=m&colour=red => UnknownParameter
/collections/grid/corridor?crs=a&crs=a&coords=LINESTRING(0 0,1 1)&corridor-width=1&width-units=m&f=XML => RepeatedParameter
/collections/grid/corridor?f=XML&coords=LINESTRING(0 0,1 1)&corridor-width=1&width-units=m&crs=a&crs=a => RepeatedParameter
/collections/grid/corridor?crs=a&crs=a&coords=LINESTRING(0 0,1 1)&corridor-width=1 => RepeatedParameter
/collections/grid/corridor?coords=LINESTRING(0 0,1 1)&corridor-width=1&crs=a&crs=a => RepeatedParameter
/collections/grid/corridor?crs=a&crs=a&corridor-width=1&width-units=m&coords=x => RepeatedParameter
/collections/grid/corridor?coords=x&corridor-width=1&width-units=m&crs=a&crs=a => RepeatedParameter
/collections/grid/corridor?crs=a&crs=a&corridor-width=1&width-units=m&coords=POINT(0 0) => RepeatedParameter
/collections/grid/corridor?coords=POINT(0 0)&corridor-width=1&width-units=m&crs=a&crs=a => RepeatedParameter
/collections/grid/corridor?crs=a&crs=a&coords=LINESTRING(0 0,1 1)&corridor-width=1&width-units=m&datetime=x => RepeatedParameter
/collections/grid/corridor?datetime=x&coords=LINESTRING(0 0,1 1)&corridor-width=1&width-units=m&crs=a&crs=a => RepeatedParameter
/collections/grid/corridor?crs=a&crs=a&coords=LINESTRING(0 0,1 1)&corridor-width=1&width-units=m&z=x => RepeatedParameter
/collections/grid/corridor?z=x&coords=LINESTRING(0 0,1 1)&corridor-width=1&width-units=m&crs=a&crs=a => RepeatedParameter
/collections/grid/corridor?crs=a&crs=a&coords=LINESTRING(0 0,1 1)&width-units=m&corridor-width=x => RepeatedParameter
/collections/grid/corridor?corridor-width=x&coords=LINESTRING(0 0,1 1)&width-units=m&crs=a&crs=a => RepeatedParameter
/collections/grid/corridor?crs=a&crs=a&coords=LINESTRING(0 0,1 1)&corridor-width=1&width-units=m&corridor-height=1&height-units=m&z=1/2 => RepeatedParameter
/collections/grid/corridor?corridor-height=1&height-units=m&z=1/2&coords=LINESTRING(0 0,1 1)&corridor-width=1&width-units=m&crs=a&crs=a => RepeatedParameter
/collections/grid/corridor?f=XML&coords=LINESTRING(0 0,1 1)&corridor-width=1 => BadFormat
/collections/grid/corridor?coords=LINESTRING(0 0,1 1)&corridor-width=1&f=XML => BadFormat
/collections/grid/corridor?f=XML&corridor-width=1&width-units=m&coords=x => BadFormat
/collections/grid/corridor?coords=x&corridor-width=1&width-units=m&f=XML => BadFormat
/collections/grid/corridor?f=XML&corridor-width=1&width-units=m&coords=POINT(0 0) => BadFormat
/collections/grid/corridor?coords=POINT(0 0)&corridor-width=1&width-units=m&f=XML => BadFormat
/collections/grid/corridor?f=XML&coords=LINESTRING(0 0,1 1)&corridor-width=1&width-units=m&datetime=x => BadFormat
/collections/grid/corridor?datetime=x&coords=LINESTRING(0 0,1 1)&corridor-width=1&width-units=m&f=XML => BadFormat
/collections/grid/corridor?f=XML&coords=LINESTRING(0 0,1 1)&corridor-width=1&width-units=m&z=x => BadFormat
/collections/grid/corridor?z=x&coords=LINESTRING(0 0,1 1)&corridor-width=1&width-units=m&f=XML => BadFormat
/collections/grid/corridor?f=XML&coords=LINESTRING(0 0,1 1)&width-units=m&corridor-width=x => BadFormat
/collections/grid/corridor?corridor-width=x&coords=LINESTRING(0 0,1 1)&width-units=m&f=XML => BadFormat
/collections/grid/corridor?f=XML&coords=LINESTRING(0 0,1 1)&corridor-width=1&width-units=m&corridor-height=1&height-units=m&z=1/2 => BadFormat
/collections/grid/corridor?corridor-height=1&height-units=m&z=1/2&coords=LINESTRING(0 0,1 1)&corridor-width=1&width-units=m&f=XML => BadFormat
/collections/grid/corridor?corridor-width=1&coords=x => MissingParameter
/collections/grid/corridor?coords=x&corridor-width=1 => MissingParameter
/collections/grid/corridor?corridor-width=1&coords=POINT(0 0) => MissingParameter
/collections/grid/corridor?coords=POINT(0 0)&corridor-width=1 => MissingParameter
/collections/grid/corridor?coords=LINESTRING(0 0,1 1)&corridor-width=1&datetime=x => MissingParameter
/collections/grid/corridor?datetime=x&coords=LINESTRING(0 0,1 1)&corridor-width=1 => MissingParameter
/collections/grid/corridor?coords=LINESTRING(0 0,1 1)&corridor-width=1&z=x => MissingParameter
/collections/grid/corridor?z=x&coords=LINESTRING(0 0,1 1)&corridor-width=1 => MissingParameter
/collections/grid/corridor?coords=LINESTRING(0 0,1 1)&corridor-width=x => MissingParameter
/collections/grid/corridor?corridor-width=x&coords=LINESTRING(0 0,1 1) => MissingParameter
/collections/grid/corridor?corridor-width=x&width-units=m => MissingParameter
/collections/grid/corridor?width-units=m&corridor-width=x => MissingParameter
/collections/grid/corridor?coords=LINESTRING(0 0,1 1)&corridor-width=1&corridor-height=x&height-units=m => MissingParameter
/collections/grid/corridor?corridor-height=x&height-units=m&corridor-width=1&coords=LINESTRING(0 0,1 1) => MissingParameter
/collections/grid/radius?within=x&within-units=m => MissingParameter
/collections/grid/radius?within-units=m&within=x => MissingParameter
/collections/grid/corridor?coords=LINESTRING Z(0 0 1,1 1 1)&corridor-width=1&width-units=m&z=1 => MissingParameter
/collections/grid/corridor?z=1&corridor-width=1&width-units=m&coords=LINESTRING Z(0 0 1,1 1 1) => MissingParameter
/collections/grid/corridor?coords=LINESTRING Z(0 0 1,1 1 1)&corridor-width=1&width-units=m&corridor-height=1&height-units=km => corridor
/collections/grid/corridor?coords=LINESTRING Z(0 0 1,1 1 1)&corridor-width=1&width-units=m&corridor-height=1&height-units=km&z=1 => Conflict
/collections/grid/corridor?coords=LINESTRING Z(0 0 1,1 1 1)&corridor-width=1&width-units=m&corridor-height=x&height-units=km => BadDistance
/collections/grid/corridor?coords=LINESTRING(0 0,1 1)&corridor-width=1&corridor-height=1&height-units=m&z=1/2 => MissingParameter
/collections/grid/corridor?corridor-height=1&height-units=m&z=1/2&coords=LINESTRING(0 0,1 1)&corridor-width=1 => MissingParameter
/collections/grid/corridor?coords=x&corridor-width=1&width-units=m&datetime=x => BadCoords
/collections/grid/corridor?datetime=x&corridor-width=1&width-units=m&coords=x => BadCoords
/collections/grid/corridor?coords=x&corridor-width=1&width-units=m&z=x => BadCoords
/collections/grid/corridor?z=x&corridor-width=1&width-units=m&coords=x => BadCoords
/collections/grid/corridor?coords=x&width-units=m&corridor-width=x => BadCoords
/collections/grid/corridor?corridor-width=x&width-units=m&coords=x => BadCoords
/collections/grid/corridor?coords=x&corridor-width=1&width-units=m&corridor-height=1&height-units=m&z=1/2 => BadCoords
/collections/grid/corridor?corridor-height=1&height-units=m&z=1/2&corridor-width=1&width-units=m&coords=x => BadCoords
/collections/grid/corridor?coords=POINT(0 0)&corridor-width=1&width-units=m&datetime=x => WrongGeometry
/collections/grid/corridor?datetime=x&corridor-width=1&width-units=m&coords=POINT(0 0) => WrongGeometry
/collections/grid/corridor?coords=POINT(0 0)&corridor-width=1&width-units=m&z=x => WrongGeometry
/collections/grid/corridor?z=x&corridor-width=1&width-units=m&coords=POINT(0 0) => WrongGeometry
/collections/grid/corridor?coords=POINT(0 0)&width-units=m&corridor-width=x => WrongGeometry
/collections/grid/corridor?corridor-width=x&width-units=m&coords=POINT(0 0) => WrongGeometry
/collections/grid/corridor?coords=POINT(0 0)&corridor-width=1&width-units=m&corridor-height=1&height-units=m&z=1/2 => WrongGeometry
/collections/grid/corridor?corridor-height=1&height-units=m&z=1/2&corridor-width=1&width-units=m&coords=POINT(0 0) => WrongGeometry
/collections/grid/corridor?datetime=x&coords=LINESTRING(0 0,1 1)&corridor-width=1&width-units=m&z=x => BadDatetime
/collections/grid/corridor?z=x&coords=LINESTRING(0 0,1 1)&corridor-width=1&width-units=m&datetime=x => BadDatetime
/collections/grid/corridor?datetime=x&coords=LINESTRING(0 0,1 1)&width-units=m&corridor-width=x => BadDatetime
/collections/grid/corridor?corridor-width=x&coords=LINESTRING(0 0,1 1)&width-units=m&datetime=x => BadDatetime
/collections/grid/corridor?datetime=x&coords=LINESTRING(0 0,1 1)&corridor-width=1&width-units=m&corridor-height=1&height-units=m&z=1/2 => BadDatetime
/collections/grid/corridor?corridor-height=1&height-units=m&z=1/2&coords=LINESTRING(0 0,1 1)&corridor-width=1&width-units=m&datetime=x => BadDatetime
/collections/grid/corridor?z=x&coords=LINESTRING(0 0,1 1)&width-units=m&corridor-width=x => BadLevel
/collections/grid/corridor?corridor-width=x&coords=LINESTRING(0 0,1 1)&width-units=m&z=x => BadLevel
/collections/grid/corridor?corridor-width=x&coords=LINESTRING(0 0,1 1)&width-units=m&corridor-height=1&height-units=m&z=1/2 => BadDistance
/collections/grid/corridor?corridor-height=1&height-units=m&z=1/2&coords=LINESTRING(0 0,1 1)&width-units=m&corridor-width=x => BadDistance
/collections/grid/cube?colour=red&bbox=1,0,0,0 => UnknownParameter
/collections/grid/cube?bbox=1,0,0,0&colour=red => UnknownParameter
/collections/grid/cube?crs=a&crs=b&bbox=1,0,0,0 => RepeatedParameter
/collections/grid/cube?bbox=1,0,0,0&crs=a&crs=b => RepeatedParameter
/collections/grid/cube?f=XML&bbox=1,0,0,0 => BadFormat
/collections/grid/cube?bbox=1,0,0,0&f=XML => BadFormat
/collections/grid/cube?bbox=1,0,0,0&datetime=x => BadBbox
/collections/grid/cube?datetime=x&bbox=1,0,0,0 => BadBbox
/collections/grid/cube?bbox=1,0,0,0&z=x => BadBbox
/collections/grid/cube?z=x&bbox=1,0,0,0 => BadBbox
/collections/grid/items?coords=POINT(0 0)&colour=red => NoSuchPage
/collections/grid/items?colour=red&coords=POINT(0 0) => NoSuchPage
/collections/grid/items?coords=POINT(0 0)&z=1&z=1 => NoSuchPage
/collections/grid/items?z=1&z=1&coords=POINT(0 0) => NoSuchPage
/collections/grid/items?coords=POINT(0 0)&f=XML => NoSuchPage
/collections/grid/items?f=XML&coords=POINT(0 0) => NoSuchPage
/collections/grid/items?coords=POINT(0.5 0) => NoSuchPage
/collections/grid/items?coords=LINESTRING(0 0,1 1) => NoSuchPage
/collections/grid/items?bbox=1,0,0,0 => NoSuchPage
/collections/grid/items?coords=POINT(0 0)&within=x&within-units=m => NoSuchPage
/collections/grid/items?within=x&within-units=m&coords=POINT(0 0) => NoSuchPage
/collections/grid/items?coords=POINT(0 0)&datetime=x => NoSuchPage
/collections/grid/items?datetime=x&coords=POINT(0 0) => NoSuchPage
/collections/grid/items?coords=POINT(0 0)&z=x => NoSuchPage
/collections/grid/items?z=x&coords=POINT(0 0) => NoSuchPage
/collections/grid/items?coords=POINT Z(0 0 1)&z=1 => NoSuchPage
/collections/grid/items?z=1&coords=POINT Z(0 0 1) => NoSuchPage
";

fn kind_of(query: &Query) -> &'static str {
    match query.shape {
        Shape::Position(_) => "position",
        Shape::Radius { .. } => "radius",
        Shape::Area(_) => "area",
        Shape::Cube { .. } => "cube",
        Shape::Trajectory(_) => "trajectory",
        Shape::Corridor { .. } => "corridor",
        Shape::Location(_) => "location",
    }
}

fn page_of(page: &Page) -> &'static str {
    match page {
        Page::Landing => "landing",
        Page::Conformance => "conformance",
        Page::Collections => "collections",
        Page::Collection(_) => "collection",
        Page::Instances(_) => "instances",
        Page::Instance(..) => "instance",
        Page::Locations(_) => "locations",
        Page::Ask(query) => kind_of(query),
    }
}

// Whether a target asks for such a page, or is refused so.
fn is_answered(alloc: Global, target: &str, answer: &str) -> bool {
    match read_target(alloc, target.as_bytes()) {
        Ok(page) => page_of(&page) == answer,
        Err(TargetFault::Refused(refusal)) => refusal.code() == answer.as_bytes(),
        Err(TargetFault::OutOfMemory) => false,
    }
}

// A line for each target: the target, and its page with all ids. A query is written as its collection, instance, crs,
// names of parameters, times, levels and shape.
const PAGES: &str = "\
/collections/c%20d => collection c d
/collections/a%2Fb/instances/ => instances a/b
/collections/%3D%26%3F/instances/7 => instance =&? 7
/collections/%C3%A9/locations => locations é
/collections/grid/locations/AB => grid/- - - None None Location(Text { bytes: [65, 66] })
/collections/grid/locations/A?datetime=2024-01-01T00:00Z&z=-10 => grid/- - - Some(At(1704067200)) Some(At(-10)) Location(Text { bytes: [65] })
/collections/grid/position?coords=POINT(50 -7)&parameter-name=temp,wind,temp,,sea+ice, => grid/- - [temp][wind][][sea ice] None None Position(Points { multi: false, has_z: false, has_m: false, positions: Items { items: [Position { x: 50, y: -7, z: 0, m: 0 }] } })
/collections/grid/instances/2/position?coords=MULTIPOINT((1 2),(3 4))&crs=a%2Bb+c => grid/2 a+b c - None None Position(Points { multi: true, has_z: false, has_m: false, positions: Items { items: [Position { x: 1, y: 2, z: 0, m: 0 }, Position { x: 3, y: 4, z: 0, m: 0 }] } })
/collections/grid/radius?coords=POINT Z(1 2 3)&within=1.5&within-units=km&datetime=../1970-01-01T00:00:01Z => grid/- - - Some(Between(None, Some(1))) None Radius { geometry: Points { multi: false, has_z: true, has_m: false, positions: Items { items: [Position { x: 1, y: 2, z: 3, m: 0 }] } }, within: 1500 }
/collections/grid/area?coords=POLYGON((0 0,9 0,0 9,0 0))&z=10/20 => grid/- - - None Some(Between(10, 20)) Area(Polygons { multi: false, has_z: false, has_m: false, polygons: Items { items: [Polygon { rings: Items { items: [Items { items: [Position { x: 0, y: 0, z: 0, m: 0 }, Position { x: 9, y: 0, z: 0, m: 0 }, Position { x: 0, y: 9, z: 0, m: 0 }, Position { x: 0, y: 0, z: 0, m: 0 }] }] } }] } })
/collections/grid/cube?bbox=0,-1,5,2,3,6&datetime=../.. => grid/- - - Some(All) None Cube { lo: Spot { x: 0, y: -1 }, hi: Spot { x: 2, y: 3 }, levels: Some((5, 6)) }
/collections/grid/cube?bbox=0,1,2,3&z=1,5,7 => grid/- - - None Some(List(Items { items: [1, 5, 7] })) Cube { lo: Spot { x: 0, y: 1 }, hi: Spot { x: 2, y: 3 }, levels: None }
/collections/grid/trajectory?coords=LINESTRING M(0 1 2,3 4 5) => grid/- - - None None Trajectory(Line { has_z: false, has_m: true, positions: Items { items: [Position { x: 0, y: 1, z: 0, m: 2 }, Position { x: 3, y: 4, z: 0, m: 5 }] } })
/collections/grid/corridor?coords=LINESTRING(0 0,1 1)&corridor-width=3&width-units=km&corridor-height=20&height-units=m => grid/- - - None None Corridor { geometry: Line { has_z: false, has_m: false, positions: Items { items: [Position { x: 0, y: 0, z: 0, m: 0 }, Position { x: 1, y: 1, z: 0, m: 0 }] } }, width: 3000, height: Some(20) }
";

fn text_of(text: &Text) -> &str {
    std::str::from_utf8(text.bytes()).unwrap_or("no UTF-8")
}

fn text_in(text: &Option<Text>) -> &str {
    match text {
        Some(text) => text_of(text),
        None => "-",
    }
}

fn names_in(alloc: Global, names: &Option<Items<Text>>) -> Result<String, AllocError> {
    let Some(names) = names else {
        return String::from_str(alloc, "-");
    };
    let mut written = String::new(alloc);
    for name in names.items() {
        written.push('[')?;
        written.push_str(text_of(name))?;
        written.push(']')?;
    }
    Ok(written)
}

fn written_query(alloc: Global, query: &Query) -> Result<String, AllocError> {
    let names = names_in(alloc, &query.parameters)?;
    format!(in alloc;
        "{}/{} {} {} {:?} {:?} {:?}",
        text_of(&query.collection),
        text_in(&query.instance),
        text_in(&query.crs),
        names.as_str(),
        query.times,
        query.levels,
        query.shape
    )
}

// A page in words: of a query all parts of its copy.
fn written_page(alloc: Global, page: &Page) -> Result<String, AllocError> {
    match page {
        Page::Collection(id) | Page::Instances(id) | Page::Locations(id) => {
            format!(in alloc; "{} {}", page_of(page), text_of(id))
        }
        Page::Instance(collection, id) => {
            format!(in alloc; "{} {} {}", page_of(page), text_of(collection), text_of(id))
        }
        Page::Ask(query) => match query.copy(alloc) {
            Ok(copy) => written_query(alloc, &copy),
            Err(_) => Ok(String::new(alloc)),
        },
        _ => String::from_str(alloc, page_of(page)),
    }
}

// Whether a target asks for this page, with all that it has.
fn is_page(alloc: Global, target: &str, answer: &str) -> bool {
    match read_target(alloc, target.as_bytes()) {
        Ok(page) => match written_page(alloc, &page) {
            Ok(written) => written.as_str() == answer,
            Err(_) => false,
        },
        Err(_) => false,
    }
}

// A line for each path that names an address: the path, and how it is written.
const PATHS: &str = "\
/ => /
/conformance/ => /conformance
/%63ollections => /collections
/collections/c%20d/ => /collections/c%20d
/collections/a+b/instances => /collections/a%2Bb/instances
/collections/a%2fb/instances/%7e7-._~ => /collections/a%2Fb/instances/~7-._~
/collections/é/locations => /collections/%C3%A9/locations
/collections/g/locations/A:!*'() => /collections/g/locations/A%3A%21%2A%27%28%29
/collections/c d/position => /collections/c%20d/position
/collections/c/radius/ => /collections/c/radius
/collections/c/area => /collections/c/area
/collections/c/instances/1 2/cube => /collections/c/instances/1%202/cube
/collections/c/instances/1/trajectory => /collections/c/instances/1/trajectory
/collections/c/instances/%25/corridor => /collections/c/instances/%25/corridor
";

// Whether a path names an address that is written so.
fn is_spelled(alloc: Global, path: &str, answer: &str) -> bool {
    match read_address(alloc, path.as_bytes()) {
        Ok(Some(address)) => match path_of(alloc, &address) {
            Ok(written) => written.bytes() == answer.as_bytes(),
            Err(_) => false,
        },
        _ => false,
    }
}

#[derive(Clone, Copy)]
enum Table {
    Targets,
    Pages,
    Paths,
}

fn is_right(alloc: Global, table: Table, asked: &str, answer: &str) -> bool {
    match table {
        Table::Targets => is_answered(alloc, asked, answer),
        Table::Pages => is_page(alloc, asked, answer),
        Table::Paths => is_spelled(alloc, asked, answer),
    }
}

// The first line of a table that isn't right; none is empty.
fn first_wrong(alloc: Global, table: Table, lines: &str) -> &str {
    for line in lines.lines() {
        let (asked, answer) = line.split_once(" => ").unwrap_or((line, ""));
        if !line.starts_with('#') && !is_right(alloc, table, asked, answer) {
            return line;
        }
    }
    ""
}

#[test]
fn targets_pages_and_paths(rt: HostRuntime) {
    assert_eq!(rt; first_wrong(rt.alloc(), Table::Targets, TARGETS), "");
    assert_eq!(rt; first_wrong(rt.alloc(), Table::Pages, PAGES), "");
    assert_eq!(rt; first_wrong(rt.alloc(), Table::Paths, PATHS), "");
}
