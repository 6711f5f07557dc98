// Named marks: set, removed, come back to. `store` puts question 17 to the lent store and says where a name stands. Places are moved within
// the store, and nothing of one is copied to the stack.
#![tactic(auto)]

ghost use Rattle.std.specs.Prelude.{◌≡◌, ◌<◌};
ghost use Rattle.lists.specs.Kit.{length};
ghost use Rattle.mesh.specs.Lent.{lent, read_of};
ghost use Rattle.calls.specs.Answers.{call_number};
ghost use Rattle.mesh.specs.Marks.{place_bytes, places, store_bytes};
ghost use Rattle.calls.specs.CallContracts.{SetContract, RemoveContract, ReturnContract};
ghost use Rattle.marks.specs.Placing.{Markable, mark_place, put_place};

use calls::Refusal;
use image_reader::reader;
use image_writer::writer;
use mesh::Lent;
use places::{NAME, PLACE};
use store::PLACES;
use tables::fill;

mod names;
mod places;
mod shift;
mod store;
mod zeros;

// The place is the mark of the name and the tables after.
fn put_mark(t: &Lent, name: &[u8], place: &mut [u8])
    requires { Markable t.now.radios (read_of t.now) name.now × (length place.old ≡ place_bytes) }
    ensures { place.new ≡ mark_place t.now.radios (read_of t.now) name.now }
{
    fill::fill(place, &0);
    fill::copy(place, name);
    let _ = writer::write(t, &mut place[NAME..]);
}

// Place i of the store is that mark after.
fn put_at(t: &Lent, name: &[u8], kept: &mut [u8], i: usize)
    requires { Markable t.now.radios (read_of t.now) name.now × (length kept.old ≡ store_bytes) × (i < places) }
    ensures { kept.new ≡ put_place kept.old i (mark_place t.now.radios (read_of t.now) name.now) }
{
    let at = PLACE * i;
    let end = at + PLACE;
    put_mark(t, name, &mut kept[at..end]);
}

// Sets the mark of the name: the image of the tables, in place of one of that name. Refused by 1, 2, 3, 17 and 19: then every byte of
// the store keeps its content.
pub fn set(t: &Lent, name: &[u8], kept: &mut [u8]) -> Result<(), Refusal>
    ensures { SetContract t.now.radios name.now (read_of t.now) kept.old (call_number result) kept.new }
{
    let spot = match store::spot_of(t, name, kept) {
        Ok(spot) => spot,
        Err(refusal) => return Err(refusal),
    };
    if spot.there {
        put_at(t, name, kept, spot.rank);
        return Ok(());
    }
    if spot.used == PLACES {
        return Err(Refusal::MarksFull);
    }
    shift::move_up(kept, PLACE * spot.rank, PLACE * spot.used);
    put_at(t, name, kept, spot.rank);
    Ok(())
}

// Removes the mark of the name: later marks move one place down, and the last place used is unused after. Refused by 1, 2, 3, 17 and
// 18: then every byte of the store keeps its content.
pub fn remove(t: &Lent, name: &[u8], kept: &mut [u8]) -> Result<(), Refusal>
    ensures { RemoveContract t.now.radios name.now (read_of t.now) kept.old (call_number result) kept.new }
{
    let spot = match store::spot_of(t, name, kept) {
        Ok(spot) => spot,
        Err(refusal) => return Err(refusal),
    };
    if !spot.there {
        return Err(Refusal::NoMark);
    }
    shift::move_down(kept, PLACE * (spot.rank + 1), PLACE * spot.used);
    let last = PLACE * (spot.used - 1);
    let end = last + PLACE;
    fill::fill(&mut kept[last..end], &0);
    Ok(())
}

// Comes back to the mark of the name: links and order as its image lists them, the numbers worked out. Refused by 1, 2, 3, 17 and 18:
// then every table keeps its content.
pub fn come_back(
    n: u32,
    links: &mut [u8],
    numbers: &mut [u8],
    order: &mut [u16],
    name: &[u8],
    kept: &[u8],
) -> Result<(), Refusal>
    ensures { ReturnContract n name.now kept.now (lent links.old numbers.old order.old) (call_number result)
        (lent links.new numbers.new order.new) }
{
    let t = Lent {
        radios: n,
        links,
        numbers,
        order,
    };
    let spot = match store::spot_of(&t, name, kept) {
        Ok(spot) => spot,
        Err(refusal) => return Err(refusal),
    };
    if !spot.there {
        return Err(Refusal::NoMark);
    }
    let at = PLACE * spot.rank;
    let end = at + PLACE;
    let from = at + NAME;
    let to = from + places::image_size(n, &kept[at..end]);
    reader::read(n, links, numbers, order, &kept[from..to])
}
