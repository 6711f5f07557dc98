// The public interface: the calls of the link engine, exported to C, and nothing else. Each is the call of the crate that has
// it, under the same contract. No call has a `requires`.
#![tactic(auto)]

ghost use Rattle.std.specs.Prelude.{◌≡◌};
ghost use Rattle.lists.specs.Kit.{true, false};
ghost use Rattle.hosts.specs.Public.{this_version};
ghost use Rattle.mesh.specs.Lent.{lent};
ghost use Rattle.calls.specs.CallContracts.{ClearContract, CheckContract, LinkContract, AskContract, CommitContract, BatchContract, HearContract};
ghost use Rattle.calls.specs.CallContracts.{ReadContract};
ghost use Rattle.calls.specs.CallContracts.{WriteContract, BlockContract, NumberContract, NeighboursContract, LinkedContract, FirstContract, LaterContract};
ghost use Rattle.calls.specs.CallContracts.{LiftContract, CoreContract, BackboneContract, TreeContract, SheetContract, ScriptLengthContract};
ghost use Rattle.calls.specs.CallContracts.{ScriptContract};
ghost use Rattle.calls.specs.CallContracts.{StaircaseContract, SetContract, RemoveContract, ReturnContract};

use calls::{Block, Later, Pair, Reply, Value};
use hearing::hear;
use links::{ask, batch, commit};
use mesh::{Lent, Node};
use queries::{backbone, cores, radios};
use script::writer;
use soundness::wake;

// The version of the calls and of what they are lent.
const VERSION: u32 = 1;

// The version: it goes up where a host that was written for the one before would notice.
#[unsafe(no_mangle)]
pub extern "C" fn sb_version() -> u32
    ensures { result ≡ this_version }
{
    VERSION
}

// Clears a site: zero links, zero numbers, the order 0 to n - 1. Refused by 1 and 2: then every table keeps its content.
#[unsafe(no_mangle)]
pub extern "C" fn sb_clear(n: u32, links: &mut [u8], numbers: &mut [u8], order: &mut [u16]) -> u32
    ensures { ClearContract n (lent links.old numbers.old order.old) result
        (lent links.new numbers.new order.new) }
{
    calls::number(tables::clear::clear(n, links, numbers, order))
}

// Checks the tables: value 1 when they are sound, 0 when not. Refused by 1 and 2: then the value is 0.
#[unsafe(no_mangle)]
pub extern "C" fn sb_check<'a>(
    n: u32,
    links: &'a [u8],
    numbers: &'a [u8],
    order: &'a [u16],
) -> Value
    ensures { CheckContract n (lent links.now numbers.now order.now) result }
{
    Value::from(soundness::check(&Lent {
        radios: n,
        links,
        numbers,
        order,
    }))
}

// Takes the link between a and b up. Accepted: step +1, or 0 when no number changed, and the changed radios ascending in front
// of the answer table, whose later entries keep their content. Refused by 1 to 7: zeros, and every table keeps its content.
#[unsafe(no_mangle)]
pub extern "C" fn sb_link_up(
    n: u32,
    a: u32,
    b: u32,
    links: &mut [u8],
    numbers: &mut [u8],
    order: &mut [u16],
    answer: &mut [u16],
) -> Reply
    ensures { LinkContract true n a b (lent links.old numbers.old order.old) answer.old result
        (lent links.new numbers.new order.new) answer.new }
{
    let change = links::link::link(true, n, a, b, links, numbers, order, answer);
    Reply::from(change)
}

// Takes the link between a and b down: as `sb_link_up`, with the step -1, or 0 when no number changed. Refused by 1 to 6.
#[unsafe(no_mangle)]
pub extern "C" fn sb_link_down(
    n: u32,
    a: u32,
    b: u32,
    links: &mut [u8],
    numbers: &mut [u8],
    order: &mut [u16],
    answer: &mut [u16],
) -> Reply
    ensures { LinkContract false n a b (lent links.old numbers.old order.old) answer.old result
        (lent links.new numbers.new order.new) answer.new }
{
    let change = links::link::link(false, n, a, b, links, numbers, order, answer);
    Reply::from(change)
}

// Takes the links of the list, two entries each, up one by one, and stops at the first that 4 to 7 refuse. The number is that of the link
// refused, or 0; the value counts the links done, which remain: the only refusal beside which a change and a count stand. Refused by 1 to
// 3, before any link: the value is 0, and every table keeps its content.
#[unsafe(no_mangle)]
pub extern "C" fn sb_link_batch(
    n: u32,
    links: &mut [u8],
    numbers: &mut [u8],
    order: &mut [u16],
    list: &[u16],
) -> Value
    ensures { BatchContract n list.now (lent links.old numbers.old order.old) result
        (lent links.new numbers.new order.new) }
{
    batch::reply(batch::batch(n, links, numbers, order, list))
}

// Brings the site to the links that both ends hear: links that are not agreed go down, by lower radio and then higher, then agreed links
// come up, likewise. The value counts the one-sided pairs, which are marked in the further table, all its other bits zero. Refused by 1 to
// 3, 14 and 7, before anything changes: the value is 0, and every table keeps its content.
#[unsafe(no_mangle)]
pub extern "C" fn sb_hear(
    n: u32,
    links: &mut [u8],
    numbers: &mut [u8],
    order: &mut [u16],
    heard: &[u8],
    further: &mut [u8],
) -> Value
    ensures { HearContract n heard.now (lent links.old numbers.old order.old) further.old result
        (lent links.new numbers.new order.new) further.new }
{
    Value::from(hear::hear(n, links, numbers, order, heard, further))
}

// What taking the link between a and b up would change: the step and count that `sb_link_up` would answer now, and the changed radios
// ascending in front of the answer table, whose later entries keep their content. Refused by 1 to 7: zeros, and the answer table keeps its
// content.
#[unsafe(no_mangle)]
pub extern "C" fn sb_ask_up<'a>(
    n: u32,
    a: u32,
    b: u32,
    links: &'a [u8],
    numbers: &'a [u8],
    order: &'a [u16],
    answer: &mut [u16],
) -> Reply
    ensures { AskContract true n a b (lent links.now numbers.now order.now) answer.old result
        answer.new }
{
    Reply::from(ask::ask(
        true,
        &Lent {
            radios: n,
            links,
            numbers,
            order,
        },
        a,
        b,
        answer,
    ))
}

// What taking the link between a and b down would change: as `sb_ask_up`. Refused by 1 to 6.
#[unsafe(no_mangle)]
pub extern "C" fn sb_ask_down<'a>(
    n: u32,
    a: u32,
    b: u32,
    links: &'a [u8],
    numbers: &'a [u8],
    order: &'a [u16],
    answer: &mut [u16],
) -> Reply
    ensures { AskContract false n a b (lent links.now numbers.now order.now) answer.old result
        answer.new }
{
    Reply::from(ask::ask(
        false,
        &Lent {
            radios: n,
            links,
            numbers,
            order,
        },
        a,
        b,
        answer,
    ))
}

// Takes the link between a and b up where `step` and `changed` are exactly what `sb_ask_up` would give now. Accepted: step and count as
// `sb_link_up` answers them. Refused by 1 to 7 and 16: zeros, and every table keeps its content.
#[unsafe(no_mangle)]
pub extern "C" fn sb_commit_up(
    n: u32,
    a: u32,
    b: u32,
    step: i8,
    links: &mut [u8],
    numbers: &mut [u8],
    order: &mut [u16],
    changed: &[u16],
) -> Reply
    ensures { CommitContract true n a b step changed.now (lent links.old numbers.old order.old) result
        (lent links.new numbers.new order.new) }
{
    Reply::from(commit::commit(true, n, a, b, step, links, numbers, order, changed))
}

// Takes the link between a and b down: as `sb_commit_up`, with what `sb_ask_down` would give now. Refused by 1 to 6 and 16.
#[unsafe(no_mangle)]
pub extern "C" fn sb_commit_down(
    n: u32,
    a: u32,
    b: u32,
    step: i8,
    links: &mut [u8],
    numbers: &mut [u8],
    order: &mut [u16],
    changed: &[u16],
) -> Reply
    ensures { CommitContract false n a b step changed.now (lent links.old numbers.old order.old) result
        (lent links.new numbers.new order.new) }
{
    Reply::from(commit::commit(false, n, a, b, step, links, numbers, order, changed))
}

// The number of radio v. Refused by 1 to 4: then the value is 0.
#[unsafe(no_mangle)]
pub extern "C" fn sb_number<'a>(
    n: u32,
    v: u32,
    links: &'a [u8],
    numbers: &'a [u8],
    order: &'a [u16],
) -> Value
    ensures { NumberContract n v (lent links.now numbers.now order.now) result }
{
    Value::from(radios::number(
        &Lent {
            radios: n,
            links,
            numbers,
            order,
        },
        v,
    ))
}

// How many neighbours radio v has. Refused by 1 to 4.
#[unsafe(no_mangle)]
pub extern "C" fn sb_neighbours<'a>(
    n: u32,
    v: u32,
    links: &'a [u8],
    numbers: &'a [u8],
    order: &'a [u16],
) -> Value
    ensures { NeighboursContract n v (lent links.now numbers.now order.now) result }
{
    Value::from(radios::neighbours(
        &Lent {
            radios: n,
            links,
            numbers,
            order,
        },
        v,
    ))
}

// 1 when a and b are linked, 0 when not; a radio with itself: 0. Refused by 1 to 4.
#[unsafe(no_mangle)]
pub extern "C" fn sb_linked<'a>(
    n: u32,
    a: u32,
    b: u32,
    links: &'a [u8],
    numbers: &'a [u8],
    order: &'a [u16],
) -> Value
    ensures { LinkedContract n a b (lent links.now numbers.now order.now) result }
{
    Value::from(radios::linked(
        &Lent {
            radios: n,
            links,
            numbers,
            order,
        },
        a,
        b,
    ))
}

// Which of a and b stands first in the order; the same radio twice: that radio. Refused by 1 to 4.
#[unsafe(no_mangle)]
pub extern "C" fn sb_first<'a>(
    n: u32,
    a: u32,
    b: u32,
    links: &'a [u8],
    numbers: &'a [u8],
    order: &'a [u16],
) -> Value
    ensures { FirstContract n a b (lent links.now numbers.now order.now) result }
{
    Value::from(radios::first(
        &Lent {
            radios: n,
            links,
            numbers,
            order,
        },
        a,
        b,
    ))
}

// How many neighbours of radio v stand after it in the order, and the first of them, 65,535 when there are none. Refused by 1 to 4:
// then both are 0.
#[unsafe(no_mangle)]
pub extern "C" fn sb_later_of<'a>(
    n: u32,
    v: u32,
    links: &'a [u8],
    numbers: &'a [u8],
    order: &'a [u16],
) -> Later
    ensures { LaterContract n v (lent links.now numbers.now order.now) result }
{
    Later::from(wake::later_of(
        &Lent {
            radios: n,
            links,
            numbers,
            order,
        },
        v,
    ))
}

// The first pair, by lower radio and then higher, whose link is down, would be taken up now, and would raise the number of radio v.
// Nothing changes. Refused by 1 to 4, and by 20 exactly if there is none: then low and high are 0.
#[unsafe(no_mangle)]
pub extern "C" fn sb_lift<'a>(
    n: u32,
    v: u32,
    links: &'a [u8],
    numbers: &'a [u8],
    order: &'a [u16],
) -> Pair
    ensures { LiftContract n v (lent links.now numbers.now order.now) result }
{
    Pair::from(lift::lift(
        &Lent {
            radios: n,
            links,
            numbers,
            order,
        },
        v,
    ))
}

// The connected core of v at level k: the count, and the radios ascending in front of the answer table. Refused by 1 to 4 and 8:
// then the answer table keeps its content.
#[unsafe(no_mangle)]
pub extern "C" fn sb_core<'a>(
    n: u32,
    v: u32,
    k: u32,
    links: &'a [u8],
    numbers: &'a [u8],
    order: &'a [u16],
    answer: &mut [u16],
) -> Value
    ensures { CoreContract n v k (lent links.now numbers.now order.now) answer.old result answer.new }
{
    Value::from(cores::core(
        &Lent {
            radios: n,
            links,
            numbers,
            order,
        },
        v,
        k,
        answer,
    ))
}

// The backbone, part by part: the count, and the radios ascending in front of the answer table. Refused by 1 to 3: then the
// answer table keeps its content.
#[unsafe(no_mangle)]
pub extern "C" fn sb_backbone<'a>(
    n: u32,
    links: &'a [u8],
    numbers: &'a [u8],
    order: &'a [u16],
    answer: &mut [u16],
) -> Value
    ensures { BackboneContract n (lent links.now numbers.now order.now) answer.old result answer.new }
{
    Value::from(backbone::backbone(
        &Lent {
            radios: n,
            links,
            numbers,
            order,
        },
        answer,
    ))
}

// The shell tree: the count of nodes, the root with them. The nodes stand by level and then name in front of the list of nodes,
// which must have n + 1 places, and each radio's node name in front of the answer table. Refused by 1 to 3: then both keep their
// content.
#[unsafe(no_mangle)]
pub extern "C" fn sb_tree<'a, 's, 't>(
    n: u32,
    links: &'a [u8],
    numbers: &'a [u8],
    order: &'a [u16],
    nodes: &'s mut [Node],
    answer: &'t mut [u16],
) -> Value
    ensures { TreeContract n (lent links.now numbers.now order.now) nodes.old answer.old result
        nodes.new answer.new }
{
    Value::from(tree::levels::shell_tree(
        &Lent {
            radios: n,
            links,
            numbers,
            order,
        },
        nodes,
        answer,
    ))
}

// The staircase tree: the count of the kept links, and the links in front of the table, which must have 2 n entries, two entries each,
// lower radio first. Refused by 1 to 3: then the table keeps its content.
#[unsafe(no_mangle)]
pub extern "C" fn sb_staircase<'a>(
    n: u32,
    links: &'a [u8],
    numbers: &'a [u8],
    order: &'a [u16],
    table: &mut [u16],
) -> Value
    ensures { StaircaseContract n (lent links.now numbers.now order.now) table.old result table.new }
{
    Value::from(staircase::staircase(
        &Lent {
            radios: n,
            links,
            numbers,
            order,
        },
        table,
    ))
}

// Writes the site's image in front of the buffer: the value is its length in bytes, and bytes past it keep their content. Refused
// by 1 to 3 and 9: then the buffer keeps its content.
#[unsafe(no_mangle)]
pub extern "C" fn sb_image_write(
    n: u32,
    links: &[u8],
    numbers: &[u8],
    order: &[u16],
    buffer: &mut [u8],
) -> Value
    ensures { WriteContract n (lent links.now numbers.now order.now) buffer.old result buffer.new }
{
    Value::from(image_writer::writer::write(
        &Lent {
            radios: n,
            links,
            numbers,
            order,
        },
        buffer,
    ))
}

// Writes the site sheet in front of the page, in lines of 64 columns and a line feed: the value is its length in bytes, and bytes past it
// keep their content. Refused by 1 to 3 and 12: then the page keeps its content.
#[unsafe(no_mangle)]
pub extern "C" fn sb_sheet(
    n: u32,
    links: &[u8],
    numbers: &[u8],
    order: &[u16],
    page: &mut [u8],
) -> Value
    ensures { SheetContract n (lent links.now numbers.now order.now) page.old result page.new }
{
    Value::from(sheet::sheet(
        &Lent {
            radios: n,
            links,
            numbers,
            order,
        },
        page,
    ))
}

// The length in bytes of the script that rebuilds the site. Refused by 1 to 3: then the value is 0.
#[unsafe(no_mangle)]
pub extern "C" fn sb_script_length(n: u32, links: &[u8], numbers: &[u8], order: &[u16]) -> Value
    ensures { ScriptLengthContract n (lent links.now numbers.now order.now) result }
{
    Value::from(writer::length(&Lent {
        radios: n,
        links,
        numbers,
        order,
    }))
}

// Writes the script that rebuilds the site in front of the text buffer: the value is its length in bytes, and bytes past it keep their
// content. Refused by 1 to 3 and 13: then the buffer keeps its content.
#[unsafe(no_mangle)]
pub extern "C" fn sb_script_write(
    n: u32,
    links: &[u8],
    numbers: &[u8],
    order: &[u16],
    text: &mut [u8],
) -> Value
    ensures { ScriptContract n (lent links.now numbers.now order.now) text.old result text.new }
{
    Value::from(writer::write(
        &Lent {
            radios: n,
            links,
            numbers,
            order,
        },
        text,
    ))
}

// Reads an image of n radios into the tables: links and order as the image lists them, the numbers worked out. Refused by 1, 2,
// 9, 10, 15 and 11: then every table keeps its content.
#[unsafe(no_mangle)]
pub extern "C" fn sb_image_read(
    n: u32,
    links: &mut [u8],
    numbers: &mut [u8],
    order: &mut [u16],
    image: &[u8],
) -> u32
    ensures { ReadContract n image.now (lent links.old numbers.old order.old) result
        (lent links.new numbers.new order.new) }
{
    calls::number(image_reader::reader::read(n, links, numbers, order, image))
}

// Sets the mark of the name in the store: the image of the tables, in place of a mark of that name. Refused by 1, 2, 3, 17 and 19: then
// the store keeps its content.
#[unsafe(no_mangle)]
pub extern "C" fn sb_mark_set(
    n: u32,
    links: &[u8],
    numbers: &[u8],
    order: &[u16],
    name: &[u8],
    store: &mut [u8],
) -> u32
    ensures { SetContract n name.now (lent links.now numbers.now order.now) store.old result
        store.new }
{
    calls::number(marks::set(
        &Lent {
            radios: n,
            links,
            numbers,
            order,
        },
        name,
        store,
    ))
}

// Removes the mark of the name from the store: its place serves another. Refused by 1, 2, 3, 17 and 18: then the store keeps its
// content.
#[unsafe(no_mangle)]
pub extern "C" fn sb_mark_remove(
    n: u32,
    links: &[u8],
    numbers: &[u8],
    order: &[u16],
    name: &[u8],
    store: &mut [u8],
) -> u32
    ensures { RemoveContract n name.now (lent links.now numbers.now order.now) store.old result
        store.new }
{
    calls::number(marks::remove(
        &Lent {
            radios: n,
            links,
            numbers,
            order,
        },
        name,
        store,
    ))
}

// Comes back to the mark of the name: links, numbers and order as they were when it was set. Refused by 1, 2, 3, 17 and 18: then every
// table keeps its content.
#[unsafe(no_mangle)]
pub extern "C" fn sb_mark_return(
    n: u32,
    links: &mut [u8],
    numbers: &mut [u8],
    order: &mut [u16],
    name: &[u8],
    store: &[u8],
) -> u32
    ensures { ReturnContract n name.now store.now (lent links.old numbers.old order.old) result
        (lent links.new numbers.new order.new) }
{
    calls::number(marks::come_back(n, links, numbers, order, name, store))
}

// A step of the block reader whose next block is `next`: where the payload lies in the image, and the number of the next block;
// after the last block the end. Refused by 9 and 10. At the end and on a refusal the part is empty and the number is kept.
#[unsafe(no_mangle)]
pub extern "C" fn sb_image_block(image: &[u8], next: usize) -> Block
    ensures { BlockContract image.now next result }
{
    block_reader::blocks::block(image, next)
}
