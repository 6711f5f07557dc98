// Bytes in a row.
ghost use Rattle.std.specs.Prelude.{◌≡◌};
ghost use Rattle.lists.specs.Kit.{ℕ, eqb};
ghost use Rattle.lists.specs.Lists.{all};
ghost use Rattle.mesh.specs.Marks.{is_zeros};

// Whether every byte is x.
pub fn are_all(bytes: &[u8], x: u8) -> bool
    ensures { result ≡ all (λ (d : ℕ). eqb d x) bytes.now }
{
    for d in bytes {
        if *d != x {
            return false;
        }
    }
    true
}

// Whether every byte is zero. It looks at all of them, many at a time: nearly always they are.
fn join_zeros(bytes: &[u8]) -> bool
    ensures { result ≡ is_zeros bytes.now }
{
    let mut joined: u8 = 0;
    for d in bytes {
        joined = joined | *d;
    }
    joined == 0
}

// The same; it stops at a first byte that is not zero.
pub fn are_zeros(bytes: &[u8]) -> bool
    ensures { result ≡ is_zeros bytes.now }
{
    if bytes.len() != 0 {
        if bytes[0] != 0 {
            return false;
        }
    }
    join_zeros(bytes)
}
