// Single writes of the shell tree: a node, a name for each radio of a core.
ghost use Rattle.std.specs.Prelude.{◌≡◌};
ghost use Rattle.lists.specs.Kit.{length, set};
ghost use Rattle.floods.specs.Floods.{Floodable};
ghost use Rattle.tree.specs.Trees.{entries_set, CoreNamed};

use mesh::Node;
use rows::sets::RadioSet;

// Writes a node at a place of the list; past the list nothing changes.
pub fn put_node(nodes: &mut [Node], at: usize, node: Node)
    ensures { nodes.new ≡ set nodes.old at node }
{
    if at < nodes.len() {
        nodes[at] = node;
    }
}

// Writes x at each listed place of the answer table; past the table nothing changes.
fn name_all(list: &[u16], x: u16, answer: &mut [u16])
    ensures { answer.new ≡ entries_set x list.now answer.old }
{
    for w in list {
        tables::fill::put16(answer, *w as usize, x);
    }
}

// Floods from v over radios of the set, and writes v in the answer table for each radio that came in. The set has these no more; the
// queue holds anything after.
pub fn name_core(links: &[u8], v: u16, set: &mut RadioSet, queue: &mut [u16], answer: &mut [u16])
    requires { Floodable v (length queue.old) }
    ensures { CoreNamed links.now v set.old answer.old set.new answer.new }
{
    let k = floods::flood::flood(links, v as u32, set, queue);
    name_all(&queue[..k], v, answer);
}
