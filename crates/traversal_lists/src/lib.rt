// traversal.rs: the five lists of a walk about a vertex, written to a lent list. All are maps of one walk.
//
// A walk is made twice: first to count, so that a refused call writes nothing; then as many swings again, without a test, to write.
#![tactic(auto)]

ghost use Rattle.std.specs.Prelude.{◌≡◌, Ok, true, false, cond, map, ◌<◌, ◌≤◌, leb, length};
ghost use Rattle.corner.specs.Corner.{absent, turn};
ghost use Rattle.refusal.specs.Refusal.{number_of};
ghost use Rattle.table.specs.Slots.{opposite_at};
ghost use Rattle.traversal_visits.specs.Walk.{walk, counted};
ghost use Rattle.traversal_visits.specs.declared.Counted.TheVariants.{Closed, Open};
ghost use Rattle.traversal_lists.specs.Reached.{reached, Inside};
ghost use Rattle.traversal_lists.specs.Lists.{entry as entry_of, twice as twice_of};
ghost use Rattle.traversal_lists.specs.Outcome.{outcome, walked_on, needed, too_short};

use corner::Corner;
use refusal::Refusal;
use table::at_there;
use traversal_visits::{Corners, Counted, count_walk};

// Which list is asked for.
#[derive(Clone, Copy, PartialEq, Eq)]
pub enum Kind {
    Corners,
    Vertices,
    Faces,
    Edges,
    BoundingEdges,
}

// How many corners a ring call visited, and how many entries it wrote.
#[derive(Clone, Copy, PartialEq, Eq)]
pub struct Ring {
    pub visited: u32,
    pub written: u32,
}

// ---- the walk, written

// What a list has for the corner that a swing crossing to o leads to.
#[tactic(auto, using(corner::proofs::Turns::turn_twice, traversal_visits::proofs::Steps::turn_forth, traversal_visits::proofs::Steps::turn_face), unfolding(crate::specs::Lists::entry))]
pub fn entry(kind: Kind, cv: &[u32], left: bool, o: Corner) -> u32
    requires { (o.0 < length cv.now) × (length cv.now < absent) }
    ensures { result ≡ entry_of kind cv.now left (turn left o.0) }
{
    match kind {
        Kind::Corners | Kind::BoundingEdges => o.turn_index(left) as u32,
        Kind::Vertices => at_there(cv, o.0 as usize, 0),
        Kind::Faces => o.0 / 3,
        Kind::Edges => o.turn_index(!left) as u32,
    }
}

// Whether the first corner has an entry on both sides of a border.
#[tactic(auto, unfolding(crate::specs::Lists::twice))]
fn twice(kind: Kind) -> bool
    ensures { result ≡ twice_of kind }
{
    matches!(kind, Kind::Vertices | Kind::Edges)
}

// Writes a list full with the entries of one side: those of the corners that crossing to o leads to, and so on from there. They have been
// counted: nothing is tested here.
fn write_side(kind: Kind, left: bool, on: &Corners, o: u32, list: &mut [u32])
    requires { Inside left on.now.co.now (length on.now.cv.now) (length list.old) o }
    ensures { list.new ≡ map (entry_of kind on.now.cv.now left) (reached left on.now.co.now (length list.old) o) }
{
    let mut at = o;
    for slot in list.iter_mut() {
        *slot = entry(kind, on.cv, left, Corner(at));
        at = at_there(on.co, Corner(at).turn_index(!left), u32::MAX);
    }
}

// What the right side begins with: the first corner where it has an entry there too, by the slot that leads to it; else the next one.
fn right_from(kind: Kind, co: &[u32], start: Corner) -> u32
    requires { (start.0 < absent) × (turn false start.0 < length co.now) }
    ensures { result ≡ cond (twice_of kind) (turn true start.0) (opposite_at co.now (turn false start.0)) }
{
    if twice(kind) {
        start.next().0
    } else {
        at_there(co, start.previous_index(), u32::MAX)
    }
}

// ---- the call

// The list of a closed ring with l corners after the first; there is room for it.
fn write_closed(kind: Kind, on: &Corners, start: Corner, list: &mut [u32], l: u32) -> Ring
    requires l_value { Closed l ≡ counted (walk on.now.co.now on.now.cm.now on.now.used start.0) }
    requires l_in_bounds { needed kind (Closed l) ≤ length list.old }
    ensures { outcome (Ok result) list.new ≡ walked_on kind on.now start.0 list.old }
{
    let n = l + 1;
    write_side(kind, true, on, start.previous().0, &mut list[..n as usize]);
    Ring {
        visited: n,
        written: n,
    }
}

// How many entries more than visits a list has on a border.
fn extra(kind: Kind) -> u32
    ensures { result ≡ cond (twice_of kind) 1 0 }
{
    u32::from(twice(kind))
}

// The list of an open fan with l corners to the left of the first and r to its right; there is room for it.
fn write_open(kind: Kind, on: &Corners, start: Corner, list: &mut [u32], l: u32, r: u32) -> Ring
    requires r_value { Open l r ≡ counted (walk on.now.co.now on.now.cm.now on.now.used start.0) }
    requires r_in_bounds { needed kind (Open l r) ≤ length list.old }
    ensures { outcome (Ok result) list.new ≡ walked_on kind on.now start.0 list.old }
{
    let n = l + 1;
    let seen = n + r;
    let m = r + extra(kind);
    let o = right_from(kind, on.co, start);
    let (before, after) = list.split_at_mut(n as usize);
    write_side(kind, true, on, start.previous().0, before);
    write_side(kind, false, on, o, &mut after[..m as usize]);
    Ring {
        visited: seen,
        written: n + m,
    }
}

// Whether a list of so many words has room for a walk's entries. A tangled walk, too, has a first one.
fn has_room(kind: Kind, w: Counted, room: usize) -> bool
    ensures { result ≡ leb (needed kind w) room }
{
    match w {
        Counted::Tangled => 1 <= room,
        Counted::Closed(l) => l as usize + 1 <= room,
        Counted::Open(l, r) => l as usize + 1 + r as usize + extra(kind) as usize <= room,
    }
}

// Why there is no list where it is too short: a tangled walk goes before it.
fn too_short(w: Counted) -> Refusal
    ensures { number_of result ≡ too_short w }
{
    match w {
        Counted::Tangled => Refusal::Tangled,
        Counted::Closed(_) | Counted::Open(_, _) => Refusal::ShortList,
    }
}

// The list of the walk that begins at start, which is counted before anything is written.
pub fn by_two_walks(
    kind: Kind,
    on: &Corners,
    start: Corner,
    list: &mut [u32],
) -> Result<Ring, Refusal>
    ensures { outcome result list.new ≡ walked_on kind on.now start.0 list.old }
{
    let w = count_walk(on.co, on.cm, on.used, start);
    if !has_room(kind, w, list.len()) {
        return Err(too_short(w));
    }
    match w {
        Counted::Tangled => Err(Refusal::Tangled),
        Counted::Closed(l) => Ok(write_closed(kind, on, start, list, l)),
        Counted::Open(l, r) => Ok(write_open(kind, on, start, list, l, r)),
    }
}
