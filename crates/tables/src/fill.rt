// Tables of both widths, the 8-bit numbers and the 16-bit lists: filled, copied, compared, and lists written in front.
// Nothing is refused: of what does not fit, as much is written as fits.
ghost use Rattle.std.specs.Prelude.{◌≡◌, ◌↔◌, IsTrue};
ghost use Rattle.lists.specs.Kit.{ℕ, min, length, take, replicate, set};
ghost use Rattle.lists.specs.Lists.{overwrite};
ghost use Rattle.tables.specs.Widths.{values};

// An entry of a table. It can be written and compared, whatever its width; what is said of tables of entries is said once. The trait is
// our own: the program that is exported has no code but its own, and `Copy` and `PartialEq` would bring std's into it.
pub trait Entry {
    // The entry is the other's value after.
    fn set(&mut self, other: &Self)
        ensures { self.new ≡ other.now };

    // Whether the entry has the other's value.
    fn is(&self, other: &Self) -> bool
        ensures { IsTrue result ↔ (self.now ≡ other.now) };
}

impl Entry for u8 {
    fn set(&mut self, other: &Self)
        ensures { self.new ≡ other.now }
    {
        *self = *other;
    }

    fn is(&self, other: &Self) -> bool
        ensures { IsTrue result ↔ (self.now ≡ other.now) }
    {
        *self == *other
    }
}

impl Entry for u16 {
    fn set(&mut self, other: &Self)
        ensures { self.new ≡ other.now }
    {
        *self = *other;
    }

    fn is(&self, other: &Self) -> bool
        ensures { IsTrue result ↔ (self.now ≡ other.now) }
    {
        *self == *other
    }
}

// The smaller of two lengths.
pub fn least(a: usize, b: usize) -> usize
    ensures { result ≡ min a b }
{
    if a < b { a } else { b }
}

// Every entry of d is x after.
pub fn fill<T: Entry>(d: &mut [T], x: &T)
    ensures { d.new ≡ replicate (length d.old) x.now }
{
    for y in d.iter_mut() {
        y.set(x);
    }
}

// Entry v of d is v mod 65536 after: of at most 65536 entries, each is its own index.
pub fn index16(d: &mut [u16])
    ensures { d.new ≡ values 16 (λ (i : ℕ). i) (length d.old) }
{
    for v in 0..d.len() {
        d[v] = (v % 65536) as u16;
    }
}

// The entries of s stand in front of d after, as many as fit; later entries of d keep their content.
pub fn copy<T: Entry>(d: &mut [T], s: &[T])
    ensures { d.new ≡ overwrite (take (length d.old) s.now) d.old }
{
    let k = least(d.len(), s.len());
    for i in 0..k {
        d[i].set(&s[i]);
    }
}

// Whether both tables have the same entries, and as many. It stops at the first difference.
pub fn is_same<T: Entry>(a: &[T], b: &[T]) -> bool
    ensures { IsTrue result ↔ (a.now ≡ b.now) }
{
    if a.len() != b.len() {
        return false;
    }
    for i in 0..a.len() {
        if !a[i].is(&b[i]) {
            return false;
        }
    }
    true
}

// Writes x at a place of the list; past the list nothing changes.
pub fn put16(list: &mut [u16], at: usize, x: u16)
    ensures { list.new ≡ set list.old at x }
{
    if at < list.len() {
        list[at] = x;
    }
}
