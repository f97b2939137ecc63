ghost use Rattle.std.specs.Prelude.{◌≡◌};
ghost use Rattle.wr_geom.specs.Points.{IsPoint, point_sum};

/// A point of the plane, or a distance on each axis, in whole pixels.
#[derive(Clone, Copy, Debug, PartialEq, Eq, PartialOrd, Ord, Hash)]
pub struct Point {
    pub x: i32,
    pub y: i32,
}

impl Point {
    /// The sum on each axis; both sums must fit 32 bits.
    pub fn plus(self, o: Point) -> Point
        requires { IsPoint (point_sum self o) }
        ensures { result ≡ point_sum self o }
    {
        Point {
            x: self.x + o.x,
            y: self.y + o.y,
        }
    }
}
