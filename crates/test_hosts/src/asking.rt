// The shell tree in a list of nodes of its own, whose fields are handed on as words.
use calls::Value;
use mesh::{Lent, Node};

// Two places more than the largest tree needs.
pub const PLACES: usize = 515;

// The words of their fields.
pub const FIELDS: usize = 3 * PLACES;

// What a place holds before the call.
const BLANK: Node = Node {
    name: crate::host::KEPT,
    level: crate::host::KEPT,
    parent: crate::host::KEPT,
};

// Writes the fields of each place: name, level and parent.
fn spread(nodes: &[Node; PLACES], fields: &mut [u16]) {
    for i in 0..PLACES {
        let node = nodes[i];
        tables::fill::put16(fields, 3 * i, node.name);
        tables::fill::put16(fields, 3 * i + 1, node.level);
        tables::fill::put16(fields, 3 * i + 2, node.parent);
    }
}

// Asks for the shell tree, lending `room` places, at most all, and writes the fields of every place of the list after it.
pub fn ask(t: &Lent, room: usize, answer: &mut [u16], fields: &mut [u16]) -> Value {
    let k = room.min(PLACES);
    let mut nodes = [BLANK; PLACES];
    let reply = summerbugle::sb_tree(
        t.radios,
        t.links,
        t.numbers,
        t.order,
        &mut nodes[..k],
        answer,
    );
    spread(&nodes, fields);
    reply
}
