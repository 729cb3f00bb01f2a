//! Lines, and what feeds of them are read as.

/// One line and a place each; a feed names them.
pub const LINES: &str =
    r#"G => {"domain":{"axes":{"t":{"values":["2024-01-01T00:00:00Z"]},"x":{"values":[0,100]},"y":{"values":[0]}},"domainType":"Grid","referencing":[{"coordinates":["x","y"],"system":{"id":"local","type":"ProjectedCRS"}}],"type":"Domain"},"parameters":{"temp":{"observedProperty":{"label":{"en":"Temperature"}},"type":"Parameter"}},"ranges":{"temp":{"axisNames":["t","y","x"],"dataType":"integer","shape":[1,1,2],"type":"NdArray","values":[10,null]}},"type":"Coverage"}
H => {"domain":{"axes":{"t":{"values":["2024-01-01T00:00:00Z"]},"x":{"values":[0,100]},"y":{"values":[0]}},"domainType":"Grid","referencing":[{"coordinates":["x","y"],"system":{"id":"local","type":"ProjectedCRS"}}],"type":"Domain"},"parameters":{"temp":{"observedProperty":{"label":{"en":"Heat"}},"type":"Parameter"}},"ranges":{"temp":{"axisNames":["t","y","x"],"dataType":"integer","shape":[1,1,2],"type":"NdArray","values":[10,null]}},"type":"Coverage"}
P => {"domain":{"axes":{"t":{"values":["2024-01-01T00:00:00Z"]},"x":{"values":[0]},"y":{"values":[0]}},"domainType":"Point","referencing":[{"coordinates":["x","y"],"system":{"id":"local","type":"ProjectedCRS"}}],"type":"Domain"},"parameters":{"temp":{"observedProperty":{"label":{"en":"Temperature"}},"type":"Parameter"}},"ranges":{"temp":{"dataType":"integer","type":"NdArray","values":[10]}},"type":"Coverage"}
N => {"domain":{"axes":{"x":{"values":[0,100]},"y":{"values":[0]}},"domainType":"Grid","referencing":[{"coordinates":["x","y"],"system":{"id":"local","type":"ProjectedCRS"}}],"type":"Domain"},"parameters":{"temp":{"observedProperty":{"label":{"en":"Temperature"}},"type":"Parameter"}},"ranges":{"temp":{"axisNames":["y","x"],"dataType":"integer","shape":[1,2],"type":"NdArray","values":[10,null]}},"type":"Coverage"}
O => {"domain":{"axes":{"t":{"values":["2024-01-01T00:00:00Z"]},"x":{"values":[0,100]},"y":{"values":[0]}},"domainType":"Grid","referencing":[{"coordinates":["x","y"],"system":{"id":"other","type":"ProjectedCRS"}}],"type":"Domain"},"parameters":{"temp":{"observedProperty":{"label":{"en":"Temperature"}},"type":"Parameter"}},"ranges":{"temp":{"axisNames":["t","y","x"],"dataType":"integer","shape":[1,1,2],"type":"NdArray","values":[10,null]}},"type":"Coverage"}
U => {"domain":{"axes":{"t":{"values":["2024-01-01T00:00:00Z"]},"x":{"values":[0,100]},"y":{"values":[0]}},"domainType":"Grid","referencing":[{"coordinates":["x","y"],"system":{"type":"ProjectedCRS"}}],"type":"Domain"},"parameters":{"temp":{"observedProperty":{"label":{"en":"Temperature"}},"type":"Parameter"}},"ranges":{"temp":{"axisNames":["t","y","x"],"dataType":"integer","shape":[1,1,2],"type":"NdArray","values":[10,null]}},"type":"Coverage"}
wind => {"domain":{"axes":{"t":{"values":["2024-01-01T00:00:00Z"]},"x":{"values":[0,100]},"y":{"values":[0]}},"domainType":"Grid","referencing":[{"coordinates":["x","y"],"system":{"id":"local","type":"ProjectedCRS"}}],"type":"Domain"},"parameters":{"temp":{"observedProperty":{"label":{"en":"Temperature"}},"type":"Parameter"},"wind":{"observedProperty":{"label":{"en":"Wind"}},"type":"Parameter"}},"ranges":{"temp":{"axisNames":["t","y","x"],"dataType":"integer","shape":[1,1,2],"type":"NdArray","values":[10,null]},"wind":{"axisNames":["t","y","x"],"dataType":"integer","shape":[1,1,2],"type":"NdArray","values":[1,2]}},"type":"Coverage"}
baremore => {"domain":{"axes":{"t":{"values":["2024-01-01T00:00:00Z"]},"x":{"values":[0,100]},"y":{"values":[0]}},"domainType":"Grid","referencing":[{"coordinates":["x","y"],"system":{"id":"local","type":"ProjectedCRS"}}],"type":"Domain"},"parameters":{"temp":{"observedProperty":{"label":{"en":"Temperature"}},"type":"Parameter"}},"ranges":{"temp":{"axisNames":["t","y","x"],"dataType":"integer","shape":[1,1,2],"type":"NdArray","values":[10,null]}},"type":"Coverage","publish":{}}
publish => {"publish":{}}
collection => {"collection":{"id":"a","kind":"grid","title":"A","crs":"local"}}
vertical => {"collection":{"id":"a","kind":"grid","title":"A","crs":"local","vertical":"height"}}
drop => {"drop":{"collection":"a"}}
dropgrid => {"drop":{"collection":"grid"}}
dropinstance => {"drop":{"collection":"grid","instance":"1"}}
dropother => {"drop":{"collection":"grid","instance":"2"}}
dropofnone => {"drop":{"collection":"none","instance":"1"}}
blank =>  
brace => {
list => []
number => 1
other => {"a":1}
two => {"publish":{},"drop":{"collection":"a"}}
published => {"publish":{"now":true}}
publishlist => {"publish":[]}
coverage => {"type":"Coverage"}
typeonly => {"type":"Collection"}
stationkind => {"collection":{"id":"a","kind":"station","title":"A","crs":"local"}}
station => {"station":{"collection":"a","id":"s","label":"S","coverage":{}}}
dropstation => {"drop":{"collection":"a","station":"s"}}
dropmore => {"drop":{"collection":"a","instance":"1","more":1}}
comma => {"collection":{"id":"a,b","kind":"grid","title":"A","crs":"local"}}
noname => {"collection":{"id":"","kind":"grid","title":"A","crs":"local"}}
notitle => {"collection":{"id":"a","kind":"grid","crs":"local"}}
titlenumber => {"collection":{"id":"a","kind":"grid","title":1,"crs":"local"}}
verticalnull => {"collection":{"id":"a","kind":"grid","title":"A","crs":"local","vertical":null}}
more => {"collection":{"id":"a","kind":"grid","title":"A","crs":"local","more":1}}
nocoverage => {"grid":{"collection":"a","instance":"1"}}
badcoverage => {"grid":{"collection":"a","instance":"1","coverage":{"type":"Coverage"}}}
numbercoverage => {"grid":{"collection":"a","instance":"1","coverage":7}}
equalkeys => {"publish":{"now":true},"publish":{}}
equalmembers => {"drop":{"collection":"b","collection":"a"}}
longname => {"collection":{"id":"nnnnnnnnnnnnnnnnnnnnnnnnnnnnnnnnnnnnnnnnnnnnnnnnnnnnnnnnnnnnnnnnnnnnnnnnnnnnnnnnnnnnnnnnnnnnnnnnnnnnnnnnnnnnnnnnnnnnnnnnnnnnnnnn","kind":"grid","title":"A","crs":"local"}}
longername => {"collection":{"id":"nnnnnnnnnnnnnnnnnnnnnnnnnnnnnnnnnnnnnnnnnnnnnnnnnnnnnnnnnnnnnnnnnnnnnnnnnnnnnnnnnnnnnnnnnnnnnnnnnnnnnnnnnnnnnnnnnnnnnnnnnnnnnnnnn","kind":"grid","title":"A","crs":"local"}}
gridmore => {"grid":{"collection":"a","instance":"1","coverage":7,"more":1}}
series => {"domain":{"axes":{"t":{"values":["2024-01-01T00:00:00Z","2024-01-02T00:00:00Z"]},"x":{"values":[5]},"y":{"values":[7]}},"domainType":"PointSeries","referencing":[{"coordinates":["x","y"],"system":{"id":"local","type":"ProjectedCRS"}}],"type":"Domain"},"parameters":{"temp":{"observedProperty":{"label":{"en":"Temperature"}},"type":"Parameter"}},"ranges":{"temp":{"axisNames":["t"],"dataType":"integer","shape":[2],"type":"NdArray","values":[3,null]}},"type":"Coverage"}
heat => {"domain":{"axes":{"t":{"values":["2024-01-01T00:00:00Z","2024-01-02T00:00:00Z"]},"x":{"values":[5]},"y":{"values":[7]}},"domainType":"PointSeries","referencing":[{"coordinates":["x","y"],"system":{"id":"local","type":"ProjectedCRS"}}],"type":"Domain"},"parameters":{"temp":{"observedProperty":{"label":{"en":"Heat"}},"type":"Parameter"}},"ranges":{"temp":{"axisNames":["t"],"dataType":"integer","shape":[2],"type":"NdArray","values":[8,9]}},"type":"Coverage"}
wind2 => {"domain":{"axes":{"t":{"values":["2024-01-01T00:00:00Z","2024-01-02T00:00:00Z"]},"x":{"values":[5]},"y":{"values":[7]}},"domainType":"PointSeries","referencing":[{"coordinates":["x","y"],"system":{"id":"local","type":"ProjectedCRS"}}],"type":"Domain"},"parameters":{"temp":{"observedProperty":{"label":{"en":"Temperature"}},"type":"Parameter"},"wind":{"observedProperty":{"label":{"en":"Wind"}},"type":"Parameter"}},"ranges":{"temp":{"axisNames":["t"],"dataType":"integer","shape":[2],"type":"NdArray","values":[3,null]},"wind":{"axisNames":["t"],"dataType":"integer","shape":[2],"type":"NdArray","values":[1,2]}},"type":"Coverage"}
far => {"domain":{"axes":{"t":{"values":["2024-01-01T00:00:00Z"]},"x":{"values":[5]},"y":{"values":[7]}},"domainType":"PointSeries","referencing":[{"coordinates":["x","y"],"system":{"id":"other","type":"ProjectedCRS"}}],"type":"Domain"},"parameters":{"temp":{"observedProperty":{"label":{"en":"Temperature"}},"type":"Parameter"}},"ranges":{"temp":{"axisNames":["t"],"dataType":"integer","shape":[1],"type":"NdArray","values":[1]}},"type":"Coverage"}
farheat => {"domain":{"axes":{"t":{"values":["2024-01-01T00:00:00Z"]},"x":{"values":[5]},"y":{"values":[7]}},"domainType":"PointSeries","referencing":[{"coordinates":["x","y"],"system":{"id":"other","type":"ProjectedCRS"}}],"type":"Domain"},"parameters":{"temp":{"observedProperty":{"label":{"en":"Heat"}},"type":"Parameter"}},"ranges":{"temp":{"axisNames":["t"],"dataType":"integer","shape":[1],"type":"NdArray","values":[1]}},"type":"Coverage"}
deep => {"domain":{"axes":{"t":{"values":["2024-01-01T00:00:00Z"]},"x":{"values":[5]},"y":{"values":[7]},"z":{"values":[-2]}},"domainType":"PointSeries","referencing":[{"coordinates":["x","y"],"system":{"id":"local","type":"ProjectedCRS"}},{"coordinates":["z"],"system":{"type":"VerticalCRS"}}],"type":"Domain"},"parameters":{"temp":{"observedProperty":{"label":{"en":"Temperature"}},"type":"Parameter"}},"ranges":{"temp":{"axisNames":["t"],"dataType":"integer","shape":[1],"type":"NdArray","values":[-4]}},"type":"Coverage"}
deepheat => {"domain":{"axes":{"t":{"values":["2024-01-01T00:00:00Z"]},"x":{"values":[5]},"y":{"values":[7]},"z":{"values":[-2]}},"domainType":"PointSeries","referencing":[{"coordinates":["x","y"],"system":{"id":"local","type":"ProjectedCRS"}},{"coordinates":["z"],"system":{"type":"VerticalCRS"}}],"type":"Domain"},"parameters":{"temp":{"observedProperty":{"label":{"en":"Heat"}},"type":"Parameter"}},"ranges":{"temp":{"axisNames":["t"],"dataType":"integer","shape":[1],"type":"NdArray","values":[1]}},"type":"Coverage"}
cell => {"domain":{"axes":{"t":{"values":["2024-01-01T00:00:00Z"]},"x":{"values":[5]},"y":{"values":[7]}},"domainType":"Grid","referencing":[{"coordinates":["x","y"],"system":{"id":"local","type":"ProjectedCRS"}}],"type":"Domain"},"parameters":{"temp":{"observedProperty":{"label":{"en":"Temperature"}},"type":"Parameter"}},"ranges":{"temp":{"axisNames":["t","y","x"],"dataType":"integer","shape":[1,1,1],"type":"NdArray","values":[6]}},"type":"Coverage"}
celldeep => {"domain":{"axes":{"t":{"values":["2024-01-01T00:00:00Z","2024-01-02T00:00:00Z"]},"x":{"values":[5]},"y":{"values":[7]},"z":{"values":[0,5]}},"domainType":"Grid","referencing":[{"coordinates":["x","y"],"system":{"id":"local","type":"ProjectedCRS"}},{"coordinates":["z"],"system":{"type":"VerticalCRS"}}],"type":"Domain"},"parameters":{"temp":{"observedProperty":{"label":{"en":"Temperature"}},"type":"Parameter"}},"ranges":{"temp":{"axisNames":["t","z","y","x"],"dataType":"integer","shape":[2,2,1,1],"type":"NdArray","values":[1,2,null,4]}},"type":"Coverage"}
cellstill => {"domain":{"axes":{"x":{"values":[5]},"y":{"values":[7]}},"domainType":"Grid","referencing":[{"coordinates":["x","y"],"system":{"id":"local","type":"ProjectedCRS"}}],"type":"Domain"},"parameters":{"temp":{"observedProperty":{"label":{"en":"Temperature"}},"type":"Parameter"}},"ranges":{"temp":{"axisNames":["y","x"],"dataType":"integer","shape":[1,1],"type":"NdArray","values":[1]}},"type":"Coverage"}
farstill => {"domain":{"axes":{"x":{"values":[5]},"y":{"values":[7]}},"domainType":"Grid","referencing":[{"coordinates":["x","y"],"system":{"id":"other","type":"ProjectedCRS"}}],"type":"Domain"},"parameters":{"temp":{"observedProperty":{"label":{"en":"Temperature"}},"type":"Parameter"}},"ranges":{"temp":{"axisNames":["y","x"],"dataType":"integer","shape":[1,1],"type":"NdArray","values":[1]}},"type":"Coverage"}
stations => {"collection":{"id":"b","kind":"station","title":"B","crs":"local"}}
otherkind => {"collection":{"id":"a","kind":"stations","title":"A","crs":"local"}}
nokind => {"collection":{"id":"a","title":"A","crs":"local"}}
dropb => {"drop":{"collection":"b"}}
drops => {"drop":{"collection":"b","station":"s"}}
dropt => {"drop":{"collection":"b","station":"t"}}
dropinstanceofb => {"drop":{"collection":"b","instance":"s"}}
dropstationofgrid => {"drop":{"collection":"grid","station":"1"}}
dropboth => {"drop":{"collection":"b","instance":"1","station":"s"}}
dropstationcomma => {"drop":{"collection":"b","station":"a,b"}}
dropstationmore => {"drop":{"collection":"b","station":"s","more":1}}
dropofnostation => {"drop":{"station":"s"}}
nolabel => {"station":{"collection":"b","id":"s","coverage":7}}
labelnumber => {"station":{"collection":"b","id":"s","label":1,"coverage":7}}
noid => {"station":{"collection":"b","label":"S","coverage":7}}
idcomma => {"station":{"collection":"b","id":"a,b","label":"S","coverage":7}}
nocollection => {"station":{"id":"s","label":"S","coverage":7}}
nostationcoverage => {"station":{"collection":"b","id":"s","label":"S"}}
stationinstance => {"station":{"collection":"b","instance":"s","label":"S","coverage":7}}
stationmore => {"station":{"collection":"b","id":"s","label":"S","coverage":7,"more":1}}
stationtwo => {"station":{"collection":"b","id":"s","label":"S","coverage":7},"publish":{}}
numberstation => {"station":{"collection":"b","id":"s","label":"S","coverage":7}}
badstation => {"station":{"collection":"b","id":"s","label":"S","coverage":{"type":"Coverage"}}}
anylabel => {"station":{"collection":"b","id":"s","label":"Größe 猫 \ud83d\ude00","coverage":{"domain":{"axes":{"t":{"values":["2024-01-01T00:00:00Z"]},"x":{"values":[5]},"y":{"values":[7]}},"domainType":"PointSeries","referencing":[{"coordinates":["x","y"],"system":{"id":"local","type":"ProjectedCRS"}}],"type":"Domain"},"parameters":{"temp":{"observedProperty":{"label":{"en":"Temperature"}},"type":"Parameter"}},"ranges":{"temp":{"axisNames":["t"],"dataType":"integer","shape":[1],"type":"NdArray","values":[1]}},"type":"Coverage"}}}
emptylabel => {"station":{"collection":"b","id":"s","label":"","coverage":{"domain":{"axes":{"t":{"values":["2024-01-01T00:00:00Z"]},"x":{"values":[5]},"y":{"values":[7]}},"domainType":"PointSeries","referencing":[{"coordinates":["x","y"],"system":{"id":"local","type":"ProjectedCRS"}}],"type":"Domain"},"parameters":{"temp":{"observedProperty":{"label":{"en":"Temperature"}},"type":"Parameter"}},"ranges":{"temp":{"axisNames":["t"],"dataType":"integer","shape":[1],"type":"NdArray","values":[1]}},"type":"Coverage"}}}"#;

/// The lines of a feed, and what it is read as. `a=G` sets the grid G as the instance 1 of the collection a, `a/2=G` as its 2,
/// and `b@s=series` that series as the station s of the collection b.
pub const FEEDS: &str = " => NothingPublished
G => 1: grid
G publish blank => 2: grid
G blank publish => 2: grid
baremore => 1: grid
equalkeys => 1:
collection equalmembers publish => 1:
longname publish => 1: nnnnnnnnnnnnnnnnnnnnnnnnnnnnnnnnnnnnnnnnnnnnnnnnnnnnnnnnnnnnnnnnnnnnnnnnnnnnnnnnnnnnnnnnnnnnnnnnnnnnnnnnnnnnnnnnnnnnnnnnnnnnnnnn
longername publish => NotFeedLine(1)
G brace => NotJson(2)
G H => 2: grid
G grid/2=H => Change(2) ParametersDiffer temp
G grid/2=wind => Change(2) ParametersDiffer wind
G grid/2=G publish => 2: grid
G grid/2=G dropinstance grid/2=wind publish => 2: grid
G grid/2=G grid=H => Change(3) ParametersDiffer temp
publish => 1:
collection publish => 1: a
collection G => 1: a grid
vertical a=G publish => 1: a
collection collection publish => Change(2) SameCollection
collection drop publish => 1:
drop publish => Change(1) UnknownCollection
a=G publish => Change(1) UnknownCollection
dropofnone => Change(1) UnknownCollection
P => Change(1) WrongKind
collection a=P => Change(2) WrongKind
N => Change(1) NoTimes
G O => Change(2) CrsDiffers
G dropgrid O => 2: grid
G U => 2: grid
U G => Change(2) CrsDiffers
G dropinstance publish => 2: grid
G dropother => Change(2) UnknownInstance
brace => NotJson(1)
blank brace => NotJson(2)
G brace H => NotJson(2)
list => NotFeedLine(1)
number => NotFeedLine(1)
other => NotFeedLine(1)
two => NotFeedLine(1)
published => NotFeedLine(1)
publishlist => NotFeedLine(1)
typeonly => NotFeedLine(1)
coverage => Cov(1) Missing(Domain)
stationkind => NothingPublished
station => Cov(1) Missing(Kind)
dropstation => Change(1) UnknownCollection
dropmore => NotFeedLine(1)
comma => NotFeedLine(1)
noname => NotFeedLine(1)
notitle => NotFeedLine(1)
titlenumber => NotFeedLine(1)
verticalnull => NotFeedLine(1)
more => NotFeedLine(1)
nocoverage => NotFeedLine(1)
badcoverage => Cov(1) Missing(Domain)
numbercoverage => Cov(1) WrongType(Coverages)
gridmore => NotFeedLine(1)
collection => NothingPublished
G collection => 1: grid
stations publish => 1: b
collection stationkind => Change(2) SameCollection
stations stations => Change(2) SameCollection
stationkind G publish => 2: a grid
stations b@s=series publish => 1: b
stations b@s=deep publish => 1: b
stations b@s=cell publish => 1: b
stations b@s=celldeep publish => 1: b
stations b@s=series b@t=cell publish => 1: b
stations b@s=deep b@t=celldeep publish => 1: b
stations b@s=series b@s=cell publish => 1: b
stations b@s=series b@s=heat publish => 1: b
stations b@s=series b@s=deep publish => 1: b
stations b@s=celldeep b@s=cell publish => 1: b
stations b@s=series b@t=heat => Change(3) ParametersDiffer temp
stations b@s=series b@t=wind2 => Change(3) ParametersDiffer wind
stations b@s=wind2 b@t=series => Change(3) ParametersDiffer wind
stations b@s=series b@t=series b@s=heat => Change(4) ParametersDiffer temp
stations b@s=series b@t=deep => Change(3) LevelsDiffer
stations b@s=deep b@t=series => Change(3) LevelsDiffer
stations b@s=deep b@t=celldeep b@s=cell => Change(4) LevelsDiffer
stations b@s=series b@t=deepheat => Change(3) ParametersDiffer temp
stations b@s=series drops b@t=deepheat publish => 1: b
stations b=G => Change(2) WrongKind
stations b=cell => Change(2) WrongKind
G grid@s=series => Change(2) WrongKind
G grid@s=far => Change(2) WrongKind
stations b@s=P => Change(2) WrongKind
stations b@s=G => Change(2) WrongKind
stations b@s=N => Change(2) WrongKind
b@s=series => Change(1) UnknownCollection
b@s=P => Change(1) UnknownCollection
stations c@s=series => Change(2) UnknownCollection
stations b@s=cellstill => Change(2) NoTimes
stations b@s=farstill => Change(2) NoTimes
stations b@s=far => Change(2) CrsDiffers
stations b@s=series b@t=farheat => Change(3) CrsDiffers
stations drops => Change(2) UnknownStation
stations b@s=series dropt => Change(3) UnknownStation
stations b@s=series drops publish => 1: b
stations b@s=series drops drops => Change(4) UnknownStation
stations b@s=series b@t=cell drops dropt b@t=deep publish => 1: b
stations b@s=series dropb publish => 1:
stations b@s=series dropinstanceofb => Change(3) WrongKind
G dropstationofgrid => Change(2) WrongKind
otherkind => NotFeedLine(1)
nokind => NotFeedLine(1)
dropboth => NotFeedLine(1)
dropstationcomma => NotFeedLine(1)
dropstationmore => NotFeedLine(1)
dropofnostation => NotFeedLine(1)
nolabel => NotFeedLine(1)
labelnumber => NotFeedLine(1)
noid => NotFeedLine(1)
idcomma => NotFeedLine(1)
nocollection => NotFeedLine(1)
nostationcoverage => NotFeedLine(1)
stationinstance => NotFeedLine(1)
stationmore => NotFeedLine(1)
stationtwo => NotFeedLine(1)
numberstation => Cov(1) WrongType(Coverages)
badstation => Cov(1) Missing(Domain)
stations anylabel publish => 1: b
stations emptylabel publish => 1: b";

/// The lines of a feed, and the summary of its last edition.
pub const SUMMARIES: &str =
    "publish => edition 1: collections 0, instances 0, stations 0, samples 0, present 0, sum 0
G => edition 1: collections 1, instances 1, stations 0, samples 2, present 1, sum 10
stations b@s=series publish => edition 1: collections 1, instances 0, stations 1, samples 2, present 1, sum 3
stations b@s=deep b@t=celldeep publish => edition 1: collections 1, instances 0, stations 2, samples 5, present 4, sum 3
stations b@s=wind2 publish => edition 1: collections 1, instances 0, stations 1, samples 4, present 3, sum 6
stations b@s=series b@t=cell G grid/2=G publish => edition 2: collections 2, instances 2, stations 2, samples 7, present 4, sum 29
stationkind a@s=deep stations b@s=series G => edition 1: collections 3, instances 1, stations 2, samples 5, present 3, sum 9
stations b@s=series b@s=heat publish => edition 1: collections 1, instances 0, stations 1, samples 2, present 2, sum 17
stations b@s=series publish b@t=cell drops publish => edition 2: collections 1, instances 0, stations 1, samples 1, present 1, sum 6
stations b@s=series drops publish => edition 1: collections 1, instances 0, stations 0, samples 0, present 0, sum 0";

/// The lines of a feed, and the label of the first station of the first collection of its last edition.
pub const LABELS: &str = "stations b@s=series publish => S
stations emptylabel b@s=series publish => S
stations b@t=series b@s=cell anylabel publish => Größe 猫 😀";

/// The bytes of a feed, one after the other, and what it is read as.
pub const BYTES: &str = "publish return feed => 1:
return feed space tab return feed publish => 1:
publish other => NotJson(1)
mark publish => NotJson(1)
publish publish => NotJson(1)
null => NotJson(1)
feed feed null => NotJson(3)";
