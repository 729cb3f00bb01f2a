//! Which nodes of the columns of a tall grid some polygons take: the edges are looked at once a column, and not once a row.
ghost use Rattle.std.specs.Prelude.{◌≡◌, ◌<◌, length, IfOk};
ghost use Rattle.edr_edition.specs.Instances.{HasGrid};
ghost use Rattle.edr_query.specs.Queries.{IsShape};
ghost use Rattle.edr_select.specs.Masks.{AreTall, HasPolygons, IsArea, LiesInColumns};
ghost use Rattle.edr_query.specs.declared.shapes.Shape.TheVariants.{Area};

use crate::grid_ranges::Columns;
use crate::reaches::polygons_of;
use edr_base::OutOfMemory;
use edr_edition::GridInstance;
use edr_geometry::RowMask;
use edr_query::Shape;
use edr_wkt::Geometry;
use std::alloc::Global;

// A grid of so many rows for each of its columns is tall.
const ROWS_A_COLUMN: usize = 64;

// Whether rows are so many more than columns that these are looked at.
fn is_tall(rows: usize, columns: usize) -> bool {
    rows / ROWS_A_COLUMN > columns
}

// For each column which of its nodes a geometry takes.
fn masks_of(
    alloc: Global,
    instance: &GridInstance,
    shape: &Shape,
    geometry: &Geometry,
    columns: &Columns,
) -> Result<Vec<RowMask>, OutOfMemory>
    requires instance { HasGrid instance.now }
    requires is { shape.now ≡ Area geometry.now }
    requires shape { IsShape shape.now }
    requires columns { LiesInColumns instance.now shape.now columns.now }
    ensures { IfOk result (λ masks. AreTall instance.now shape.now columns.now masks.items) }
{
    let _ = shape;
    let polygons = polygons_of(geometry);
    let mut masks = Vec::new(alloc);
    for place in 0..columns.xs.len() {
        let x = columns.xs.value(place);
        masks.push(RowMask::of_column(alloc, polygons, x, instance.ys())?)?;
    }
    Ok(masks)
}

// For each column of a tall grid which of its nodes some polygons take; none for other shapes and grids.
pub(crate) fn tall_masks(
    alloc: Global,
    instance: &GridInstance,
    shape: &Shape,
    columns: &Columns,
    rows: usize,
) -> Result<Vec<RowMask>, OutOfMemory>
    requires instance { HasGrid instance.now }
    requires area { IsArea shape.now }
    requires shape { IsShape shape.now }
    requires columns { LiesInColumns instance.now shape.now columns.now }
    ensures { IfOk result (λ masks. 0 < length masks.items → AreTall instance.now shape.now columns.now masks.items) }
{
    match shape {
        Shape::Area(geometry) if is_tall(rows, columns.xs.len()) => {
            masks_of(alloc, instance, shape, geometry, columns)
        }
        _ => Ok(Vec::new(alloc)),
    }
}
