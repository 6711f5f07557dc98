// The text of the shell tree: a line for each node, then each radio's node in one line.
ghost use Rattle.std.specs.Prelude.{◌≡◌, ◌++◌};
ghost use Rattle.mesh.specs.Lent.{read_of};
ghost use Rattle.text.specs.Text.{bytes_of};
ghost use Rattle.text.specs.Print.{buffer_at, Puts};
ghost use Rattle.site_program.specs.Texts.{radios_line, node_line, node_lines};
ghost use Rattle.site_program.specs.Said.{TreeSaid};

use calls::Refusal;
use mesh::{Lent, Node, Site};

// The most nodes that a tree may have: one for each radio, and the root.
const PLACES: usize = Site::RADIOS as usize + 1;

// Puts the line of a node: name, level, parent.
fn put_node(out: &mut [u8], at: usize, node: Node) -> usize
    ensures { Puts (buffer_at out.old at) (node_line node) (buffer_at out.new result) }
{
    let after_word = text::put_text(out, at, b"node");
    let after_name = text::put_field(out, after_word, node.name as u64);
    let after_level = text::put_field(out, after_name, node.level as u64);
    let after_parent = text::put_field(out, after_level, node.parent as u64);
    text::put_byte(out, after_parent, b'\n')
}

// Puts a line for each node.
fn put_nodes(out: &mut [u8], nodes: &[Node]) -> usize
    ensures { Puts (buffer_at out.old 0) (node_lines nodes.now) (buffer_at out.new result) }
{
    let mut place: usize = 0;
    for i in 0..nodes.len() {
        place = put_node(out, place, nodes[i]);
    }
    place
}

// Puts the nodes, and each radio's node.
fn put_tree(nodes: &[Node], names: &[u16], out: &mut [u8]) -> usize
    ensures { Puts (buffer_at out.old 0) (node_lines nodes.now ++ radios_line (bytes_of "nodes") names.now)
        (buffer_at out.new result) }
{
    let lines = put_nodes(out, nodes);
    let word = text::put_text(out, lines, b"nodes");
    text::put_fields(out, word, names)
}

// The shell tree.
pub(crate) fn tree(t: &Lent, out: &mut [u8]) -> Result<usize, Refusal>
    ensures { TreeSaid t.now.radios (read_of t.now) out.old result out.new }
{
    let none = Node {
        name: 0,
        level: 0,
        parent: 0,
    };
    let mut nodes = [none; PLACES];
    let mut answer = [0u16; Site::RADIOS as usize];
    let count = tree::levels::shell_tree(t, &mut nodes, &mut answer)?;
    let many = tables::fill::least(count as usize, PLACES);
    let radios = tables::fill::least(t.radios as usize, Site::RADIOS as usize);
    Ok(put_tree(&nodes[..many], &answer[..radios], out))
}
