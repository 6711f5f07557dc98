// The stretch of a level in the order: the entries of it that the peel does not take.
ghost use Rattle.std.specs.Prelude.{◌≡◌, ◌≤◌, ◌<◌, ◌+◌};
ghost use Rattle.lists.specs.Kit.{ℕ, ltb, length, get_or, sets};
ghost use Rattle.mesh.specs.Limits.{max_radios};
ghost use Rattle.lists.specs.Lists.{filter};
ghost use Rattle.plan.specs.Peels.{stretch};

use super::stretch::Stretch;
use mesh::Site;

// Writes the radios of the stretch whose counter is above `most`, in their order, into the list from place `taken` on.
pub(crate) fn list_stuck(
    at: Stretch,
    most: u8,
    taken: usize,
    order: &[u16],
    counters: &[u8; Site::RADIOS as usize],
    list: &mut [u16; Site::RADIOS as usize],
)
    requires { (at.start + at.size ≤ length order.now) × (at.start + at.size ≤ max_radios) × (taken ≤ max_radios) ×
        ((p : ℕ) → p < length order.now → get_or order.now p 0 < max_radios) }
    ensures { list.new ≡ sets list.old taken
        (filter (λ (v : ℕ). ltb most (get_or counters.now v 0)) (stretch order.now at.start at.size)) }
{
    let mut end = taken;
    for i in 0..at.size {
        let v = order[at.start + i];
        if most < counters[v as usize] {
            tables::fill::put16(list, end, v);
            end += 1;
        }
    }
}
