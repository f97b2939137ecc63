//! Laws of the definitions. Each function is empty: its contract is the law.

ghost use Rattle.tile_grid.specs.Laws.{MeetingIsSharingAPoint, MeetingCommutes, TilesThatMeetAreListed, ListedAreTiles, TilesComeByRow, TilesByIndex, TilesAreCounted, TilesAreInRange, ViewsHaveTileRoom};

/// Two rectangles meet where they share a point. It does nothing.
pub fn meeting_laws()
    ensures points { MeetingIsSharingAPoint }
    ensures commutes { MeetingCommutes }
{}

/// The tiles of a grid are those that its rectangle meets, by row and then by column, none twice, each in range.
/// It does nothing.
pub fn grid_laws()
    ensures meeting { TilesThatMeetAreListed }
    ensures tiles { ListedAreTiles }
    ensures order { TilesComeByRow }
    ensures index { TilesByIndex }
    ensures count { TilesAreCounted }
    ensures ranges { TilesAreInRange }
    ensures views { ViewsHaveTileRoom }
{}
