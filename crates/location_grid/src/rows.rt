//! Rows of the map. They decide how fast a search is, and never what it finds.
ghost use Rattle.std.specs.Prelude.{◌≡◌, ◌<◌};
ghost use Rattle.location_grid.specs.Keys.{height_of, key_of};

use gh_base::Point;

/// Rows of one height, from the south pole to the north, each from west to east.
#[derive(Clone, Copy)]
pub struct Rows {
    height: u32,
    ghost some: { 0 < height },
}

impl Rows {
    /// Rows so high that this many of them cover an extent.
    pub fn of(extent: u32, rows: u32) -> Rows
        requires { 0 < rows }
        ensures { result.height ≡ height_of extent rows }
    {
        Rows {
            height: (extent / rows).saturating_add(1),
        }
    }

    /// Where a point stands in that order.
    pub fn key(self, point: Point) -> u64
        ensures { result ≡ key_of self.height point }
    {
        let row = point.lat.abs_diff(i32::MIN) / self.height;
        let column = point.lon.abs_diff(i32::MIN);
        u64::from(row) << 32 | u64::from(column)
    }
}
