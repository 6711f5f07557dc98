// The shell tree in document 01's order: level by level, and in a level radio by radio.
ghost use Rattle.std.specs.Prelude.{◌≡◌, ◌+◌, ◌*◌, ◌≤◌, ◌<◌};
ghost use Rattle.lists.specs.Kit.{true, length};
ghost use Rattle.mesh.specs.Limits.{max_radios};
ghost use Rattle.mesh.specs.Lent.{read_of};
ghost use Rattle.mesh.specs.Tables.{graph_in};
ghost use Rattle.calls.specs.Answers.{value_reply};
ghost use Rattle.soundness.specs.Checks.{fits_sound};
ghost use Rattle.floods.specs.Floods.{Floodable};
ghost use Rattle.tree.specs.Trees.{lists, Room, stand, NodeTaken, ShellSet, LevelFrom, LevelReady, LevelsReady, Levelled, Treed};
ghost use Rattle.tree.specs.Trees.{TreeWritten};
ghost use Rattle.calls.specs.CallContracts.{TreeContract};
ghost use Rattle.tree.specs.ThreeTables.{TablesContract, columns};

use calls::Refusal;
use mesh::{Lent, Node, Site};
use rows::sets::RadioSet;

// The root's name, and its parent.
const ROOT: u16 = 65535;

// A node of a level: it comes behind the first `count` of the list, named v, with the name that v had as parent; the core of v leaves the
// set, and v is the name of its radios in the answer table. Comes back with the count after. The queue holds anything after.
fn take_node(
    links: &[u8],
    level: u8,
    v: u16,
    set: &mut RadioSet,
    queue: &mut [u16],
    nodes: &mut [Node],
    answer: &mut [u16],
    count: u32,
) -> u32
    requires { Floodable v (length queue.old) × (v < length answer.old) × (count ≤ max_radios * (level + 1)) }
    ensures { NodeTaken links.now level v
        (stand set.old (lists nodes.old answer.old) count)
        (stand set.new (lists nodes.new answer.new) result) }
{
    let node = Node {
        name: v,
        level: level as u16,
        parent: answer[v as usize],
    };
    crate::nodes::put_node(nodes, count as usize, node);
    crate::nodes::name_core(links, v, set, queue, answer);
    count + 1
}

// The radios of a level. As numbers never fall along the order, they stand in it from place `from` on; with them comes back the place
// behind them, from which the radios of the next level stand.
fn shell_of<'a>(numbers: &'a [u8], order: &'a [u16], level: u8, from: usize) -> (RadioSet, usize)
    requires { LevelFrom numbers.now order.now level from }
    ensures own { ShellSet numbers.now level result.0 }
    ensures next { LevelFrom numbers.now order.now (level + 1) result.1 }
{
    let mut set = RadioSet::empty();
    let mut i = from;
    while i < order.len() {
        let v = order[i];
        if numbers[v as usize] != level {
            return (set, i);
        }
        set.put_in(v as u32);
        i += 1;
    }
    (set, i)
}

// One level: each of its radios in turn that is still in the set, which starts as the radios of the level and of higher ones; `shell`
// has the radios of the level. The list and the answer table hold the nodes and the names with this level after, where they
// held these without it. Comes back with the count after. The set and the queue hold anything.
fn take_level(
    t: &Lent,
    level: u8,
    shell: &RadioSet,
    set: &mut RadioSet,
    queue: &mut [u16],
    nodes: &mut [Node],
    answer: &mut [u16],
    count: u32,
) -> u32
    requires { LevelReady t.now.numbers.now level shell.now set.old (length queue.old) (length answer.old) count }
    ensures few { result ≤ max_radios * (level + 1) }
    ensures levelled { Levelled t.now.links.now t.now.numbers.now level
        (lists nodes.old answer.old) count
        (lists nodes.new answer.new) result }
{
    let mut c = count;
    while let Some(v) = shell.first_common(set) {
        c = take_node(t.links, level, v as u16, set, queue, nodes, answer, c);
    }
    c
}

// All levels to the top, where the lists hold the root alone before: the list of nodes and the answer table hold the tree after. Comes back
// with the count of nodes.
fn take_levels(t: &Lent, top: usize, nodes: &mut [Node], answer: &mut [u16]) -> u32
    requires { LevelsReady t.now.numbers.now t.now.order.now top (length answer.old) }
    ensures { Treed t.now.links.now t.now.numbers.now top
        (lists nodes.old answer.old)
        (lists nodes.new answer.new) result }
{
    let mut queue = [0u16; Site::RADIOS as usize];
    let mut all = floods::level::at_least(t.numbers, 1);
    let (_, mut from) = shell_of(t.numbers, t.order, 0, 0);
    let mut count: u32 = 1;
    for k in 1..top + 1 {
        let mut set = all;
        let (shell, next) = shell_of(t.numbers, t.order, k as u8, from);
        from = next;
        count = take_level(
            t, k as u8, &shell, &mut set, &mut queue, nodes, answer, count,
        );
        all.take_set(&shell);
    }
    count
}

// The whole tree, for sound tables: comes back with the count of nodes, the root with them. The nodes stand in front of their list, by
// level and then name, and each radio's node name in front of the answer table; later entries keep their content.
fn grow(t: &Lent, nodes: &mut [Node], answer: &mut [u16]) -> u32
    requires { (fits_sound (length t.now.numbers.now) (read_of t.now) ≡ true) ×
        Room (length t.now.numbers.now) (lists nodes.old answer.old) }
    ensures { TreeWritten (graph_in (length t.now.numbers.now) t.now.links.now)
        (lists nodes.old answer.old) result
        (lists nodes.new answer.new) }
{
    let many = t.numbers.len();
    tables::fill::fill(&mut answer[..many], &ROOT);
    let root = Node {
        name: ROOT,
        level: 0,
        parent: ROOT,
    };
    crate::nodes::put_node(nodes, 0, root);
    let top = tables::fill::least(
        tables::numbers::greatest(t.numbers) as usize,
        Site::NEIGHBOURS as usize,
    );
    take_levels(t, top, nodes, answer)
}

// The shell tree: the count of its nodes. The list of nodes, which must have n + 1 places, has them in front, and the answer table each
// radio's node name; later entries keep their content. Refused by questions 1 to 3, it leaves both as they were. The columns of the list
// are the tree in three tables.
pub fn shell_tree(t: &Lent, nodes: &mut [Node], answer: &mut [u16]) -> Result<u32, Refusal>
    ensures tree { TreeContract t.now.radios (read_of t.now) nodes.old answer.old (value_reply result)
        nodes.new answer.new }
    ensures tables { TablesContract t.now.radios (length nodes.old) (read_of t.now) (columns nodes.old answer.old) (value_reply result)
        (columns nodes.new answer.new) }
{
    let others = (t.radios as usize) < tables::fill::least(nodes.len(), answer.len() + 1);
    if let Err(refusal) = soundness::ask(t, others) {
        return Err(refusal);
    }
    Ok(grow(t, nodes, answer))
}
