// traversal.rs: a short closed ring, written on the way, in one walk with every test. Any other is written by two walks (`lists`).
#![tactic(auto)]

ghost use Rattle.std.specs.Prelude.{◌≡◌, ◌<◌, ◌≤◌, length};
ghost use Rattle.corner.specs.Corner.{absent};
ghost use Rattle.traversal_lists.specs.Outcome.{outcome, walked_on};
ghost use Rattle.traversal_short.specs.Tried.{Short, Tried};

use corner::Corner;
use refusal::Refusal;
use table::at_there;
use traversal_lists::{Kind, Ring, by_two_walks, entry};
use traversal_visits::{Corners, all_live, onward, used_slots};

// Writes a closed ring of at most 16 corners in one walk, with every test: how many they are. None where it is no such ring: then up to 16
// entries have been written all the same.
fn write_short(kind: Kind, on: &Corners, start: Corner, list: &mut [u32]) -> Option<u32>
    requires { (start.0 < absent) × (16 ≤ length list.old) }
    ensures { Short kind on.now start.0 result list.old list.new }
{
    let last = start.previous();
    let mut o = last.0;
    for i in 0..used_slots(on.used, 16) {
        let b = o as usize / 3 * 3;
        if !all_live(on.cm, on.used, b) {
            return None;
        }
        list[i as usize] = entry(kind, on.cv, true, Corner(o));
        o = at_there(on.co, onward(true, o as usize, b), u32::MAX);
        if o == last.0 {
            return Some(i + 1);
        }
    }
    None
}

// The same, with a loop for each kind of list: the kind is asked for once a ring and not at each step.
fn write_short_as(kind: Kind, on: &Corners, start: Corner, list: &mut [u32]) -> Option<u32>
    requires { (start.0 < absent) × (16 ≤ length list.old) }
    ensures { Short kind on.now start.0 result list.old list.new }
{
    match kind {
        Kind::Corners => write_short(Kind::Corners, on, start, list),
        Kind::Vertices => write_short(Kind::Vertices, on, start, list),
        Kind::Faces => write_short(Kind::Faces, on, start, list),
        Kind::Edges => write_short(Kind::Edges, on, start, list),
        Kind::BoundingEdges => write_short(Kind::BoundingEdges, on, start, list),
    }
}

// Writes a closed ring of at most 16 corners in one walk: how many they are. None where it is no such ring, or the list is shorter: what
// the list had is held meanwhile, and put back then.
#[tactic(auto, using(crate::proofs::Short::tried_none, crate::proofs::Short::tried_done))]
fn by_one_walk(kind: Kind, on: &Corners, start: Corner, list: &mut [u32]) -> Option<u32>
    ensures { Tried kind on.now start.0 result list.old list.new }
{
    if list.len() < 16 || on.used <= start.0 {
        return None;
    }
    let mut held: [u32; 16] = [0; 16];
    held.copy_from_slice(&list[..16]);
    let done = write_short_as(kind, on, start, list);
    if done.is_none() {
        list[..16].copy_from_slice(&held);
    }
    done
}

// The list of the walk that begins at start: by one walk where that will do, as for most; else by two. Each way is called here alone,
// so that the compiler makes one function of all.
#[tactic(auto, using(crate::proofs::Short::tried_else))]
pub fn ring_from(kind: Kind, on: &Corners, start: Corner, list: &mut [u32]) -> Result<Ring, Refusal>
    ensures { outcome result list.new ≡ walked_on kind on.now start.0 list.old }
{
    match by_one_walk(kind, on, start, list) {
        Some(n) => Ok(Ring {
            visited: n,
            written: n,
        }),
        None => by_two_walks(kind, on, start, list),
    }
}
