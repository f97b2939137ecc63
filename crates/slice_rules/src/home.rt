//! Scroll frames with which things move.

ghost use Rattle.std.specs.Prelude.{◌≡◌, ◌↔◌, IsTrue};
ghost use Rattle.slice_rules.specs.Homes.{same_home};

/// A scroll frame by its pipeline and scroll number, or none.
pub type Home = Option<(u8, u16)>;

/// Whether two homes are the same, as `==` says.
pub fn same_home(a: Home, b: Home) -> bool
    ensures value { result ≡ same_home a b }
    ensures same { IsTrue result ↔ (a ≡ b) }
{
    match (a, b) {
        (None, None) => true,
        (Some(a), Some(b)) => a.0 == b.0 && a.1 == b.1,
        (None, Some(_)) | (Some(_), None) => false,
    }
}
