/// The plane of blue, of green, of red or of alpha bytes.
#[derive(Clone, Copy, Debug, PartialEq, Eq, PartialOrd, Ord, Hash)]
pub enum Plane {
    B,
    G,
    R,
    A,
}
