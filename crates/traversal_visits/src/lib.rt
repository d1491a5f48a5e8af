// traversal.rs: the corners that a walk about a vertex visits, counted: swings to the left from the vertex's corner until it is back there, or,
// past a border, from that corner to the right too. It is made with every test, on any table.
#![tactic(auto)]

ghost use Rattle.std.specs.Prelude.{◌≡◌, true, not, cond, ℕ, ◌+◌, ◌-◌, ◌*◌, ◌/◌, ◌<◌, ◌≤◌, min, eqb, length};
ghost use Rattle.corner.specs.Corner.{absent, turn};
ghost use Rattle.table.specs.Parts.{seen};
ghost use Rattle.table.specs.Table.{shaped};
ghost use Rattle.traversal_visits.specs.Walk.{unmarked as unmarked_of, face_live, last_crossed, side, walk, counted};
ghost use Rattle.traversal_visits.specs.declared.End.TheVariants.{AtBorder, AtTangle};

use corner::Corner;
use table::{Seen, at_there};

// The corners that walks go over: their vertices, opposites and marks, and how many are used. The used ones have slots in all three.
#[derive(Clone, Copy)]
pub struct Corners<'a> {
    pub cv: &'a [u32],
    pub co: &'a [u32],
    pub cm: &'a [u32],
    pub used: u32,
    pub ghost below: { length cv.now < absent },
    pub ghost vertices: { used ≤ length cv.now },
    pub ghost opposites: { used ≤ length co.now },
    pub ghost marks: { used ≤ length cm.now },
}

// How one side of a walk ends.
#[derive(Clone, Copy, PartialEq, Eq)]
pub enum End {
    AtBorder,
    AtTangle,
    AtStart,
}

// One side of a walk, counted: its visits after the first corner, and how it ends.
#[derive(Clone, Copy)]
pub struct Count {
    pub visits: u32,
    pub end: End,
}

// A walk, counted: its visits after the first corner, to the left and to the right.
#[derive(Clone, Copy)]
pub enum Counted {
    Tangled,
    Closed(u32),
    Open(u32, u32),
}

// How many slots are used: those below the count and the room.
pub fn used_slots(count: u32, room: usize) -> u32
    ensures { result ≡ min count room }
{
    (count as usize).min(room) as u32
}

impl<'a> Corners<'a> {
    // Those of a table whose parts agree.
    pub fn of(t: &Seen<'a>) -> Corners<'a>
        requires { shaped (seen t.now) ≡ true }
        ensures { (result.cv.now ≡ t.now.cv.now) × (result.co.now ≡ t.now.co.now) × (result.cm.now ≡ t.now.cm.now)
            × (result.used ≡ min t.now.corners (length t.now.cm.now)) }
    {
        Corners {
            cv: t.cv,
            co: t.co,
            cm: t.cm,
            used: used_slots(t.corners, t.cm.len()),
        }
    }
}

// ---- one swing

// Whether the three corners of the face that begins at slot b have mark 0. All three are read first: one test is made of them.
#[tactic(auto, unfolding(crate::specs::Walk::unmarked))]
fn unmarked(cm: &[u32], b: usize) -> bool
    requires { b + 2 < length cm.now }
    ensures { result ≡ unmarked_of cm.now b }
{
    let x = at_there(cm, b, 1);
    let y = at_there(cm, b + 1, 1);
    let z = at_there(cm, b + 2, 1);
    x == 0 && y == 0 && z == 0
}

// Whether the face that begins at slot b is used, and its three corners live. This and the count of a walk take the parts that they read, and
// no `Corners`, which asks for the vertices too.
#[tactic(auto, using(crate::proofs::Steps::face_marks_lem, crate::proofs::Steps::face_out))]
pub fn all_live(cm: &[u32], used: u32, b: usize) -> bool
    requires used_in_bounds { used ≤ length cm.now }
    requires b_le_absent { b ≤ absent }
    ensures { (c : ℕ) → b ≡ c / 3 * 3 → result ≡ face_live cm.now used c }
{
    b + 2 < used as usize && unmarked(cm, b)
}

// The slot that the walk goes on from after it has crossed to o: before o (to the left) or after it. It is `turn_index` to the other
// side, by the first slot of o's face, which the loop has at hand.
#[tactic(auto, using(crate::proofs::Steps::onward_first, crate::proofs::Steps::onward_before, crate::proofs::Steps::onward_last, crate::proofs::Steps::onward_after))]
pub fn onward(left: bool, o: usize, b: usize) -> usize
    requires { (b ≡ o / 3 * 3) × (o < absent) }
    ensures { result ≡ turn (not left) o }
{
    if left {
        if o == b { b + 2 } else { o - 1 }
    } else if o == b + 2 {
        b
    } else {
        o + 1
    }
}

// The corner that is crossed to where a walk to the left is back at its start. A walk to the right does not close.
#[tactic(auto, unfolding(crate::specs::Walk::last_crossed))]
fn last_crossed(left: bool, start: Corner) -> Corner
    requires { start.0 < absent }
    ensures { result.0 ≡ last_crossed left start.0 }
{
    if left {
        start.previous()
    } else {
        Corner::ABSENT
    }
}

// ---- the walk, counted

// How a side ends where it crosses to no live face.
fn end_at(o: Corner) -> End
    ensures { result ≡ cond (eqb o.0 absent) AtBorder AtTangle }
{
    if o.is_absent() {
        End::AtBorder
    } else {
        End::AtTangle
    }
}

// Counts the visits of one side after its first corner, which are fewer than `most`. It crosses from slot to slot, as the Rust does, so
// that a step turns about one corner only, and divides by 3 once.
fn count_side(left: bool, co: &[u32], cm: &[u32], used: u32, start: Corner, most: u32) -> Count
    requires there { (used ≤ length co.now) × (used ≤ length cm.now) }
    requires begun { (0 < most) × (face_live cm.now used start.0 ≡ true) }
    ensures { (result.visits ≡ length (side left co.now cm.now used start.0 (most - 1) start.0).visits)
        × (result.end ≡ (side left co.now cm.now used start.0 (most - 1) start.0).end) }
{
    let last = last_crossed(left, start);
    let mut via = start.turn_index(left);
    for visits in 0..most {
        let o = at_there(co, via, u32::MAX);
        let b = o as usize / 3 * 3;
        if !all_live(cm, used, b) {
            return Count {
                visits,
                end: end_at(Corner(o)),
            };
        }
        if o == last.0 {
            return Count {
                visits,
                end: End::AtStart,
            };
        }
        via = onward(left, o as usize, b);
    }
    Count {
        visits: most - 1,
        end: End::AtTangle,
    }
}

pub fn count_walk(co: &[u32], cm: &[u32], used: u32, start: Corner) -> Counted
    requires { (used ≤ length co.now) × (used ≤ length cm.now) }
    ensures { result ≡ counted (walk co.now cm.now used start.0) }
{
    if !all_live(cm, used, start.0 as usize / 3 * 3) {
        return Counted::Tangled;
    }
    let l = count_side(true, co, cm, used, start, used);
    match l.end {
        End::AtTangle => Counted::Tangled,
        End::AtStart => Counted::Closed(l.visits),
        End::AtBorder => {
            let r = count_side(false, co, cm, used, start, used - l.visits);
            match r.end {
                End::AtBorder => Counted::Open(l.visits, r.visits),
                _ => Counted::Tangled,
            }
        }
    }
}
