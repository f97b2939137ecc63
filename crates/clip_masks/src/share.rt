ghost use Rattle.std.specs.Prelude.{◌≡◌, ◌≤◌};
ghost use Rattle.clip_masks.specs.Outline.{share};

/// `samples` of sixteen as a share of 255, rounded to the nearest.
pub(crate) fn share_of(samples: u8) -> u8
    requires { samples ≤ 16 }
    ensures { result ≡ share samples }
{
    ((255 * samples as u16 + 8) / 16) as u8
}
