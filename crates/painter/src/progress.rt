//! The picture in one pass over the top items.

ghost use Rattle.std.specs.Prelude.{◌≡◌};
ghost use Rattle.blend_rules.specs.Colour.{IsPremultiplied};
ghost use Rattle.painter.specs.Progress.{begin, begins, entered, laid};
ghost use Rattle.painter.specs.Facts.{IsProgress};

use blend_rules::{Mode, Px, blend};
use slice_rules::{Home, same_home};

/// How many runs of one home have begun, the home of the last one, the colour of the last slice, and that of
/// the slices below it.
#[derive(Clone, Copy)]
pub(crate) struct Progress {
    pub(crate) runs: u8,
    pub(crate) home: Home,
    pub(crate) slice: Px,
    pub(crate) picture: Px,
}

/// How many slices there are at most.
const MAX_SLICES: u8 = 8;

impl Progress {
    /// Before the first top item, over the colour behind all.
    pub(crate) fn begin(behind: Px) -> Progress
        requires { IsPremultiplied behind }
        ensures value { result ≡ begin behind }
        ensures progress { IsProgress result }
    {
        Progress {
            runs: 0,
            home: None,
            slice: Px::CLEAR,
            picture: behind,
        }
    }

    /// Whether a top item of a home begins a slice.
    fn begins(self, home: Home) -> bool
        ensures { result ≡ begins home self }
    {
        if self.runs == 0 {
            return true;
        }
        self.runs < MAX_SLICES && !same_home(self.home, home)
    }

    /// The slice so far over those below it.
    pub(crate) fn laid(self) -> Px
        requires { IsProgress self }
        ensures value { result ≡ laid self }
        ensures premultiplied { IsPremultiplied result }
    {
        blend(Mode::Normal, self.slice, self.picture)
    }

    /// In the slice of a top item of a home.
    pub(crate) fn entered(self, home: Home) -> Progress
        requires { IsProgress self }
        ensures value { result ≡ entered home self }
        ensures progress { IsProgress result }
    {
        if !self.begins(home) {
            return self;
        }
        Progress {
            runs: self.runs + 1,
            home,
            slice: Px::CLEAR,
            picture: self.laid(),
        }
    }
}
