//! Collections.
ghost use Rattle.std.specs.Prelude.{◌≡◌, ◌≢◌, ◌<◌, ◌≤◌, [], None, Some, length, All, Contains, is_some, option_map, IfOk, IfSome, OnOk, OnErr, MatchOption, IsUtf8, nat_lt, if◌then◌else◌};
ghost use Rattle.std.specs.List.{slice_index_or};
ghost use Rattle.std.specs.Arc.{arc_value};
ghost use Rattle.covjson_value.specs.Coverages.{IsReferencing};
ghost use Rattle.edr_base.specs.Limits.{node_limit};
ghost use Rattle.edr_base.specs.Names.{IsName};
ghost use Rattle.edr_ids.specs.Ids as ids;
ghost use Rattle.edr_ids.specs.Ids.{with_item, without_id};
ghost use Rattle.edr_station.specs.Stations.{StationValue, station_id, values_along, IsStation};
ghost use Rattle.edr_station.specs.Inputs.{station_of, IsInput, HasCounts};
ghost use Rattle.edr_edition.specs.Values.{InstanceValue, instance_id};
ghost use Rattle.edr_edition.specs.Instances.{IsInstance};
ghost use Rattle.edr_edition.specs.Editions.{AreParameters, IsCollection};
ghost use Rattle.edr_edition.specs.Stores.{newest};
ghost use Rattle.edr_edition.specs.Collections.{empty_collection, with_instance, without_instance, with_station, without_station, holding, parameters_in, stations_in, KeepsStations};
ghost use Rattle.edr_edition.specs.declared.kinds.Kind.TheVariants.{Grid, Station};

use crate::instances::GridInstance;
use crate::kinds::Kind;
use covjson_value::{Parameter, Referencing};
use edr_base::{Items, OutOfMemory, Text};
use edr_ids::{ById, Identified};
use edr_station::{Station as Site, StationInput, Stations};
use std::alloc::Global;
use std::marker::Model;
use std::sync::Arc;

// What a collection is called, and the systems of its coordinates.
#[derive(Drop)]
pub(crate) struct Head {
    id: Text,
    title: Text,
    kind: Kind,
    referencing: Referencing,
}

/// A collection of grids or of stations (OGC 19-086r6, collections).
///
/// Its instances, or its stations, stand in strictly ascending order of their ids, byte by byte, and have the same parameters.
/// Of its stations each has levels, or none has.
#[derive(Drop)]
pub struct CollectionData {
    head: Arc<Head>,
    // None where it has no instance and no station.
    parameters: Option<Arc<Items<Parameter>>>,
    instances: ById<GridInstance>,
    // None for a collection of grids.
    stations: Option<Stations>,
}

impl Model for CollectionData {
    ghost use Rattle.std.specs.Arc.{arc_value};
    ghost use Rattle.edr_edition.specs.Values.{CollectionValue};
    ghost use Rattle.edr_edition.specs.Editions.{IsCollection};
    ghost use Rattle.edr_edition.specs.Collections.{parameters_in, stations_in, KeepsStations};

    ghost Value = { CollectionValue };

    ghost view = { λ c. record {
      id = (arc_value c.head).id;
      title = (arc_value c.head).title;
      kind = (arc_value c.head).kind;
      referencing = (arc_value c.head).referencing;
      parameters = parameters_in c.parameters;
      instances = c.instances;
      stations = stations_in c.stations;
    } };

    ghost invariant = { λ c. IsCollection (record {
      id = (arc_value c.head).id;
      title = (arc_value c.head).title;
      kind = (arc_value c.head).kind;
      referencing = (arc_value c.head).referencing;
      parameters = parameters_in c.parameters;
      instances = c.instances;
      stations = stations_in c.stations;
    }) × KeepsStations (arc_value c.head).kind (parameters_in c.parameters) c.stations };
}

// The stations of an empty collection.
fn no_stations(kind: Kind) -> Option<Stations>
    ensures grids { kind ≡ Grid → result ≡ None }
    ensures stations { kind ≡ Station → result ≡ Some (record { parameters = 0; stations = [] }) }
{
    match kind {
        Kind::Grid => None,
        Kind::Station => Some(Stations::new(0)),
    }
}

// Some stations, or where there are none, none without parameters.
fn some_or_new(stations: Stations) -> Stations
    ensures stations { result.stations ≡ stations.stations }
    ensures parameters { result.parameters ≡ (if nat_lt 0 (length stations.stations) then stations.parameters else 0) }
{
    if stations.len() > 0 {
        stations
    } else {
        Stations::new(0)
    }
}

// A station of another id; None exactly where there is none.
fn other_than<'a>(stations: &'a Stations, id: &[u8]) -> Option<&'a Site>
    ensures { MatchOption result (without_id station_id id.now stations.now.stations ≡ [])
        (λ station. Contains (without_id station_id id.now stations.now.stations) station.now) }
{
    for place in 0..stations.len() {
        let station = stations.station(place);
        if station.id() != id {
            return Some(station);
        }
    }
    None
}

impl Identified for CollectionData {
    ghost id_of = { λ collection. collection.id };

    fn id(&self) -> &[u8] {
        self.head.id.bytes()
    }
}

impl CollectionData {
    /// Its id, which is a name.
    pub fn id(&self) -> &[u8]
        ensures id { result.now ≡ self.now.id }
        ensures collection { IsCollection self.now }
    {
        self.head.id.bytes()
    }

    /// Its title, for people; UTF-8.
    pub fn title(&self) -> &[u8]
        ensures title { result.now ≡ self.now.title }
        ensures collection { IsCollection self.now }
    {
        self.head.title.bytes()
    }

    /// Whether it has grids or stations.
    pub fn kind(&self) -> Kind
        ensures kind { result ≡ self.now.kind }
        ensures collection { IsCollection self.now }
    {
        self.head.kind
    }

    /// The systems of its coordinates.
    pub fn referencing(&self) -> &Referencing
        ensures referencing { result.now ≡ self.now.referencing }
        ensures collection { IsCollection self.now }
    {
        &self.head.referencing
    }

    /// The parameters of each of its instances or stations, in strictly ascending order of ids; none where it has neither.
    pub fn parameters(&self) -> &[Parameter]
        ensures parameters { result.now ≡ self.now.parameters }
        ensures collection { IsCollection self.now }
    {
        match &self.parameters {
            Some(shared) => shared.items(),
            None => &[],
        }
    }

    /// How many instances it has.
    pub fn instances(&self) -> usize
        ensures instances { result ≡ length self.now.instances }
        ensures collection { IsCollection self.now }
    {
        self.instances.len()
    }

    /// The instance at a place, from 0, in ascending order of ids.
    pub fn instance_at(&self, place: usize) -> &GridInstance
        requires { place < length self.now.instances }
        ensures at { (d : InstanceValue) → result.now ≡ slice_index_or self.now.instances place d }
        ensures instance { IsInstance result.now }
    {
        self.instances.at(place)
    }

    /// The instance of an id, None exactly where there is none. It takes no memory.
    pub fn instance(&self, id: &[u8]) -> Option<&GridInstance>
        ensures item { option_map (λ instance. instance.now) result ≡ ids.item_of instance_id id.now self.now.instances }
        ensures instance { IfSome result (λ instance. IsInstance instance.now) }
    {
        self.instances.item_of(id)
    }

    /// The instance with the greatest id, byte by byte; None exactly where there is no instance.
    pub fn newest(&self) -> Option<&GridInstance>
        ensures newest { option_map (λ instance. instance.now) result ≡ newest self.now.instances }
        ensures instance { IfSome result (λ instance. IsInstance instance.now) }
    {
        match self.instances.len().checked_sub(1) {
            Some(place) => Some(self.instances.at(place)),
            None => None,
        }
    }

    /// Its stations; None exactly for a collection of grids.
    pub fn stations(&self) -> Option<&Stations>
        ensures stations { MatchOption result (self.now.kind ≡ Grid)
            (λ stations. (self.now.kind ≡ Station) × (stations.now ≡ record { parameters = length self.now.parameters; stations = self.now.stations })) }
        ensures collection { IsCollection self.now }
    {
        self.stations.as_ref()
    }

    /// A collection without instances or stations.
    pub fn empty(
        alloc: Global,
        id: Text,
        kind: Kind,
        title: Text,
        referencing: Referencing,
    ) -> Result<CollectionData, OutOfMemory>
        requires id { IsName id }
        requires title { IsUtf8 title }
        requires referencing { IsReferencing referencing }
        ensures { IfOk result (λ collection. collection ≡ empty_collection id kind title referencing) }
    {
        let head = Arc::new(
            alloc,
            Head {
                id,
                title,
                kind,
                referencing,
            },
        )?;
        Ok(CollectionData {
            head,
            parameters: None,
            instances: ById::empty(),
            stations: no_stations(kind),
        })
    }

    // The same collection with other parameters, instances and stations.
    fn with(
        &self,
        parameters: Option<Arc<Items<Parameter>>>,
        instances: ById<GridInstance>,
        stations: Option<Stations>,
    ) -> Result<CollectionData, OutOfMemory>
        requires collection { IsCollection (holding self.now (parameters_in parameters) instances (stations_in stations)) }
        requires keeps { KeepsStations self.now.kind (parameters_in parameters) stations }
        ensures { IfOk result (λ collection. collection ≡ holding self.now (parameters_in parameters) instances (stations_in stations)) }
    {
        Ok(CollectionData {
            head: Arc::try_clone(&self.head)?,
            parameters,
            instances,
            stations,
        })
    }

    // Its parameters, shared, where there is something that has them.
    fn share_parameters(&self, count: usize) -> Result<Option<Arc<Items<Parameter>>>, OutOfMemory>
        ensures { IfOk result (λ shared. parameters_in shared ≡ (if nat_lt 0 count then self.now.parameters else [])) }
    {
        match &self.parameters {
            Some(parameters) if count > 0 => Ok(Some(Arc::try_clone(parameters)?)),
            _ => Ok(None),
        }
    }

    // The stations of a collection of stations, shared.
    fn share_stations(&self) -> Result<Stations, OutOfMemory>
        requires { self.now.kind ≡ Station }
        ensures { IfOk result (λ stations. stations ≡ record { parameters = length self.now.parameters; stations = self.now.stations }) }
    {
        match &self.stations {
            Some(stations) => stations.share(),
            None => unreachable!(),
        }
    }

    // The stations of a collection of stations beside one of an id that is set: of so many parameters, as the others have.
    fn stations_beside(&self, id: &[u8], parameters: usize) -> Result<Stations, OutOfMemory>
        requires kind { self.now.kind ≡ Station }
        requires same { without_id station_id id.now self.now.stations ≢ [] → length self.now.parameters ≡ parameters }
        ensures parameters { IfOk result (λ stations. stations.parameters ≡ parameters) }
        ensures same { IfOk result (λ stations. (s : StationValue) → s.id ≡ id.now → with_item station_id s stations.stations ≡ with_item station_id s self.now.stations) }
    {
        match self.other_station(id) {
            Some(_) => self.share_stations(),
            None => Ok(Stations::new(parameters)),
        }
    }

    /// An equal collection, which shares its instances and stations. It takes no memory; its only error is that there are too
    /// many copies to be counted.
    pub fn share(&self) -> Result<CollectionData, OutOfMemory>
        ensures { IfOk result (λ collection. collection ≡ self.now) }
    {
        let stations = match self.head.kind {
            Kind::Grid => None,
            Kind::Station => Some(self.share_stations()?),
        };
        self.with(self.share_parameters(1)?, self.instances.share()?, stations)
    }

    /// An instance of another id; None exactly where there is none.
    pub fn other_instance(&self, id: &[u8]) -> Option<&GridInstance>
        ensures other { MatchOption result (without_id instance_id id.now self.now.instances ≡ [])
            (λ instance. Contains (without_id instance_id id.now self.now.instances) instance.now) }
        ensures collection { IsCollection self.now }
    {
        for place in 0..self.instances.len() {
            let instance = self.instances.at(place);
            if instance.id() != id {
                return Some(instance);
            }
        }
        None
    }

    /// A station of another id; None exactly where there is none.
    pub fn other_station(&self, id: &[u8]) -> Option<&Site>
        ensures other { MatchOption result (without_id station_id id.now self.now.stations ≡ [])
            (λ station. Contains (without_id station_id id.now self.now.stations) station.now) }
        ensures collection { IsCollection self.now }
    {
        match &self.stations {
            Some(stations) => other_than(stations, id),
            None => None,
        }
    }

    // What is shared when an instance is set: its parameters, and the instances that there are.
    fn shared_for(
        &self,
        instance: &GridInstance,
    ) -> Result<(Arc<Items<Parameter>>, ById<GridInstance>), OutOfMemory>
        ensures parameters { IfOk result (λ shared. arc_value shared.0 ≡ instance.now.parameters) }
        ensures instances { IfOk result (λ shared. shared.1 ≡ self.now.instances) }
        ensures instance { IsInstance instance.now }
    {
        Ok((instance.share_parameters()?, self.instances.share()?))
    }

    /// The same collection with an instance, in place of one of its id. Other instances have the same parameters.
    ///
    /// The only error is want of memory, after which the instance is given up.
    pub fn with_instance(
        &self,
        alloc: Global,
        instance: GridInstance,
    ) -> Result<CollectionData, OutOfMemory>
        requires kind { self.now.kind ≡ Grid }
        requires same { without_id instance_id instance.id self.now.instances ≢ [] → self.now.parameters ≡ instance.parameters }
        ensures { IfOk result (λ collection. collection ≡ with_instance instance self.now) }
    {
        let _ = &self.head;
        let (parameters, mut instances) = match self.shared_for(&instance) {
            Ok(shared) => shared,
            Err(fault) => {
                // by name, since what falls at a `?` is proved anew in each function
                drop(instance);
                return Err(fault);
            }
        };
        instances.put(alloc, instance)?;
        self.with(Some(parameters), instances, None)
    }

    /// The same collection without the instance of an id; None exactly where there is no such instance. The only error is
    /// want of memory.
    pub fn without_instance(
        &self,
        alloc: Global,
        id: &[u8],
    ) -> Result<Option<CollectionData>, OutOfMemory>
        requires { self.now.kind ≡ Grid }
        ensures there { IfOk result (λ left. is_some left ≡ is_some (ids.item_of instance_id id.now self.now.instances)) }
        ensures left { IfOk result (λ left. IfSome left (λ collection. collection ≡ without_instance id.now self.now)) }
    {
        let mut instances = self.instances.share()?;
        if !instances.take_out(alloc, id)? {
            return Ok(None);
        }
        let parameters = self.share_parameters(instances.len())?;
        Ok(Some(self.with(parameters, instances, None)?))
    }

    /// The same collection with a station of some parameters, in place of one of its id. Other stations have the same
    /// parameters, and levels exactly where it has.
    ///
    /// The only error is want of memory, after which the station is given up.
    pub fn with_station(
        &self,
        alloc: Global,
        parameters: Items<Parameter>,
        input: StationInput,
    ) -> Result<CollectionData, OutOfMemory>
        requires kind { self.now.kind ≡ Station }
        requires parameters { AreParameters parameters }
        requires input { IsInput input }
        requires counts { HasCounts (length parameters) input }
        requires few { values_along (station_of input) ≤ node_limit }
        requires same { without_id station_id input.id self.now.stations ≢ [] → self.now.parameters ≡ parameters }
        requires alike { All (λ (s : StationValue). is_some s.zs ≡ is_some input.levels) (without_id station_id input.id self.now.stations) }
        ensures { IfOk result (λ collection. collection ≡ with_station parameters (station_of input) self.now) }
    {
        let _ = &self.head;
        let count = parameters.items().len();
        let mut stations = match self.stations_beside(input.id.bytes(), count) {
            Ok(stations) => stations,
            Err(fault) => {
                // by name, as above
                drop(input);
                return Err(fault);
            }
        };
        stations.set(alloc, input)?;
        let parameters = Arc::new(alloc, parameters)?;
        self.with(Some(parameters), ById::empty(), Some(stations))
    }

    /// The same collection without the station of an id; None exactly where there is no such station. The only error is want
    /// of memory.
    pub fn without_station(
        &self,
        alloc: Global,
        id: &[u8],
    ) -> Result<Option<CollectionData>, OutOfMemory>
        requires { self.now.kind ≡ Station }
        ensures there { IfOk result (λ left. is_some left ≡ is_some (ids.item_of station_id id.now self.now.stations)) }
        ensures left { IfOk result (λ left. IfSome left (λ collection. collection ≡ without_station id.now self.now)) }
    {
        let _ = &self.head;
        let mut stations = self.share_stations()?;
        if !stations.take_out(alloc, id)? {
            return Ok(None);
        }
        let parameters = self.share_parameters(stations.len())?;
        let left = self.with(parameters, ById::empty(), Some(some_or_new(stations)))?;
        Ok(Some(left))
    }
}
