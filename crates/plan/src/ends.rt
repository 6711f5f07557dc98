// The ends of a link, which of them the walk begins at, and whether a radio leads its level.
ghost use Rattle.std.specs.Prelude.{◌≡◌, ◌∷◌};
ghost use Rattle.lists.specs.Kit.{[], min, get_or};
ghost use Rattle.plan.specs.Places.{other_end, beginning_end, stands_first};

// The number of radio v.
fn number_of(numbers: &[u8], v: usize) -> u8
    ensures { result ≡ get_or numbers.now v 0 }
{
    if v < numbers.len() {
        return numbers[v];
    }
    0
}

// The entry at place p of a list of radios or of places.
fn entry_of(list: &[u16], p: usize) -> u16
    ensures { result ≡ get_or list.now p 0 }
{
    if p < list.len() {
        return list[p];
    }
    0
}

// The smaller of two numbers.
pub fn lower(x: u8, y: u8) -> u8
    ensures { result ≡ min x y }
{
    if x < y { x } else { y }
}

// Both ends of the link a-b, listed.
pub fn both(a: u16, b: u16) -> [u16; 2]
    ensures { result ≡ a ∷ b ∷ [] }
{
    [a, b]
}

// The other end of the link a-b, where v is an end; else v itself.
pub fn other_end(a: u32, b: u32, v: u32) -> u32
    ensures { result ≡ other_end a b v }
{
    if v == a {
        return b;
    }
    if v == b {
        return a;
    }
    v
}

// The beginning end: the lower end, with equal numbers the earlier.
pub fn beginning(a: usize, b: usize, numbers: &[u8], places: &[u16]) -> usize
    ensures { result ≡ beginning_end a b numbers.now places.now }
{
    let x = number_of(numbers, a);
    let y = number_of(numbers, b);
    if x < y {
        return a;
    }
    if y < x {
        return b;
    }
    if entry_of(places, a) < entry_of(places, b) {
        return a;
    }
    b
}

// Whether the radio at place `first` stands first in its level.
pub fn leads(first: usize, level: u8, numbers: &[u8], order: &[u16]) -> bool
    ensures { result ≡ stands_first first level numbers.now order.now }
{
    if first == 0 {
        return true;
    }
    let v = entry_of(order, first - 1);
    number_of(numbers, v as usize) < level
}
