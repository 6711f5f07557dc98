// A plan of a link call: what becomes of the lower end's stretch of the order.
ghost use Rattle.std.specs.Prelude.{◌≡◌};

// What a plan comes back with: where the stretch stands, how long it is, and how many of its radios the peel took.
#[derive(Clone, Copy)]
pub struct Plan {
    pub start: usize,
    pub size: usize,
    pub taken: usize,
}

// A plan that moves nothing.
pub fn unmoved(start: usize) -> Plan
    ensures { (result.start ≡ start) × (result.size ≡ 0) × (result.taken ≡ 0) }
{
    Plan {
        start,
        size: 0,
        taken: 0,
    }
}
