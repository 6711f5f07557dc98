// The larger of two numbers, and the numbers table as a whole.
ghost use Rattle.std.specs.Prelude.{◌≡◌};
ghost use Rattle.lists.specs.Kit.{max};
ghost use Rattle.mesh.specs.Connected.{greatest};

// The larger of two numbers.
pub fn larger(a: u8, b: u8) -> u8
    ensures { result ≡ max a b }
{
    if a < b { b } else { a }
}

// The greatest number of the table; 0 where it is empty.
pub fn greatest(numbers: &[u8]) -> u8
    ensures { result ≡ greatest numbers.now }
{
    let mut top: u8 = 0;
    for x in numbers {
        top = larger(top, *x);
    }
    top
}
