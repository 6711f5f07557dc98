// Bytes of a store moved by one place.
ghost use Rattle.std.specs.Prelude.{◌≡◌, ◌≤◌, ◌+◌};
ghost use Rattle.lists.specs.Kit.{length};
ghost use Rattle.mesh.specs.Marks.{place_bytes};
ghost use Rattle.mesh.specs.MarkPlaces.{moved_up, moved_down};

use super::places::PLACE;

// The bytes from `from` on, to before `to`, stand one place higher after; it begins with the last.
pub(crate) fn move_up(kept: &mut [u8], from: usize, to: usize)
    requires { (from ≤ to) × (to + place_bytes ≤ length kept.old) }
    ensures { kept.new ≡ moved_up kept.old from to }
{
    for i in (from..to).rev() {
        kept[i + PLACE] = kept[i];
    }
}

// The bytes from `from` on, to before `to`, stand one place lower after; it begins with the first.
pub(crate) fn move_down(kept: &mut [u8], from: usize, to: usize)
    requires { (place_bytes ≤ from) × (from ≤ to) × (to ≤ length kept.old) }
    ensures { kept.new ≡ moved_down kept.old from to }
{
    for i in from..to {
        kept[i - PLACE] = kept[i];
    }
}
