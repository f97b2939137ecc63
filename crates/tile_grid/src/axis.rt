//! Tiles side by side on one axis.

ghost use Rattle.std.specs.Prelude.{◌≡◌, ◌≤◌, ◌<◌, ◌^◌, ◌+ℤ◌, ◌-ℤ◌, ◌<ℤ◌, ◌≤ℤ◌, ◌↔◌, ℕ, pos, neg_ℤ, unsigned_abs};
ghost use Rattle.wr_geom.specs.Bounds.{IsCoordinate};
ghost use Rattle.tile_grid.specs.Tiles.{IsTileSide};
ghost use Rattle.tile_grid.specs.Grids.{tile_of, span_over, IsNearSpan};

/// As many tiles as `count`, side by side on one axis, from the column or row `first` on.
#[derive(Clone, Copy, Debug, PartialEq, Eq)]
pub struct TileSpan {
    pub first: i32,
    pub count: u32,
}

impl TileSpan {
    /// Its tile with the index k.
    pub(crate) fn at(self, k: u32) -> i32
        requires near { IsNearSpan self }
        requires inside { k < self.count }
        ensures { result ≡ (self.first +ℤ pos k) }
    {
        self.first + k as i32
    }

    /// How many of its tiles come before a tile.
    pub(crate) fn before(self, tile: i32) -> u32
        requires near { IsNearSpan self }
        requires low { neg_ℤ (pos (2 ^ 30)) ≤ℤ tile }
        requires high { tile ≤ℤ pos (2 ^ 30) }
        ensures inside { result ≤ self.count }
        ensures before { (k : ℕ) → k < self.count → (k < result) ↔ ((self.first +ℤ pos k) <ℤ tile) }
    {
        let distance = tile - self.first;
        if distance <= 0 {
            return 0;
        }
        (distance as u32).min(self.count)
    }
}

/// The tile, on one axis, that has a coordinate.
pub(crate) fn tile_of(z: i32, side: u16) -> i32
    requires side { IsTileSide side }
    requires near { IsCoordinate z }
    ensures value { result ≡ tile_of side z }
    ensures near { IsCoordinate result }
{
    z.div_euclid(i32::from(side))
}

/// The coordinate before another.
pub(crate) fn before(z: i32) -> i32
    requires { IsCoordinate (z -ℤ pos 1) }
    ensures { result ≡ (z -ℤ pos 1) }
{
    z - 1
}

/// How many numbers there are from the first to the last.
fn count_to(first: i32, last: i32) -> u32
    requires first { IsCoordinate first }
    requires last { IsCoordinate last }
    ensures { result ≡ unsigned_abs ((last +ℤ pos 1) -ℤ first) }
{
    (last + 1 - first).unsigned_abs()
}

/// The tiles, on one axis, that have a coordinate from one up to another, without that.
pub(crate) fn span_over(from: i32, end: i32, side: u16) -> TileSpan
    requires side { IsTileSide side }
    requires from { IsCoordinate from }
    requires last { IsCoordinate (end -ℤ pos 1) }
    ensures { result ≡ span_over side from end }
{
    let last = tile_of(before(end), side);
    let first = tile_of(from, side);
    TileSpan {
        first,
        count: count_to(first, last),
    }
}
