// The forest of the kept links, and parents: the root of a part found, two parts made one.
ghost use Rattle.std.specs.Prelude.{◌≡◌, ◌<◌};
ghost use Rattle.lists.specs.Kit.{length, min, max, set};
ghost use Rattle.staircase.specs.Parts.{Parents, Rooted};

// The forest of the kept links: the parent of each radio of the site, the table that the links stand in, and how many they are. Parents
// tell which radios are joined: none is higher than its radio, and the lowest radio of a part is its own.
#[derive(Drop)]
pub(crate) struct Forest<'a> {
    pub(crate) parents: &'a mut [u16],
    pub(crate) table: &'a mut [u16],
    pub(crate) count: u32,
    ghost rooted: { Parents parents.now },
}

// The lowest radio of v's part. On the way radios get their parent's parent as parent, which makes later ways shorter.
pub(crate) fn root(parents: &mut [u16], v: u16) -> u16
    requires { Parents parents.old × (v < length parents.old) }
    ensures { Rooted parents.old v parents.new result }
{
    let mut x = v;
    while parents[x as usize] != x {
        let up = parents[parents[x as usize] as usize];
        parents[x as usize] = up;
        x = up;
    }
    x
}

// Makes the parts of two roots one: the lower root becomes the parent of the higher one.
pub(crate) fn join(parents: &mut [u16], x: u16, y: u16)
    requires { (x < length parents.old) × (y < length parents.old) }
    ensures { parents.new ≡ set parents.old (max x y) (min x y) }
{
    if x < y {
        parents[y as usize] = x;
    } else {
        parents[x as usize] = y;
    }
}
