// The records of the stored list that change the table themselves: new rooms, the counts, one entry of a part.
#![tactic(auto)]

ghost use Rattle.std.specs.Prelude.{◌≡◌};
ghost use Rattle.table.specs.Parts.{lent, SameParts};
ghost use Rattle.words.specs.Same.{one_unless};
ghost use Rattle.vectors_list.specs.Op.{number_of};
ghost use Rattle.vectors_changes.specs.Change.{played, rooms_after, room_as, rooms_right, rooms_left, counts_left, put_made, put_left};

use table::{Lent, Seen, at, put};
use vectors_list::Op;
use vertex::float_of;

// The lengths of the six parts: at first none has an entry.
#[derive(Clone, Copy, Default)]
pub struct Rooms {
    pub cv: u32,
    pub co: u32,
    pub cm: u32,
    pub vc: u32,
    pub vm: u32,
    pub vp: u32,
}

// ---- 1 rooms

// Record 1 gives new lengths; any other keeps them.
#[tactic(auto, unfolding(crate::specs::Change::rooms_after))]
pub fn rooms_after(op: Op, w: &[u32], old: Rooms) -> Rooms
    ensures { result ≡ rooms_after (number_of op) w.now old }
{
    if op == Op::Rooms {
        Rooms {
            cv: at(w, 0, 0),
            co: at(w, 2, 0),
            cm: at(w, 4, 0),
            vc: at(w, 6, 0),
            vm: at(w, 8, 0),
            vp: at(w, 10, 0),
        }
    } else {
        old
    }
}

// Whether a part has the length that word i lists.
#[tactic(auto, unfolding(crate::specs::Change::room_as))]
fn is_sized<T: Copy>(w: &[u32], i: usize, part: &[T]) -> bool
    ensures { result ≡ room_as w.now i part.now }
{
    part.len() == at(w, i, 0) as usize
}

#[tactic(auto, unfolding(crate::specs::Change::rooms_right))]
fn rooms_right(t: &Seen, w: &[u32]) -> bool
    ensures { result ≡ rooms_right w.now (room_as w.now 0 t.now.cv.now) (room_as w.now 2 t.now.co.now) (room_as w.now 4 t.now.cm.now)
        (room_as w.now 6 t.now.vc.now) (room_as w.now 8 t.now.vm.now) (room_as w.now 10 t.now.vp.now) }
{
    ((is_sized(w, 0, t.cv) && is_sized(w, 2, t.co))
        && (is_sized(w, 4, t.cm) && is_sized(w, 6, t.vc)))
        && (is_sized(w, 8, t.vm) && is_sized(w, 10, t.vp))
        && w.len() == 12
}

#[tactic(auto, unfolding(crate::specs::Change::rooms_left, crate::specs::Change::filled_as, crate::specs::Change::points_as))]
pub fn replay_rooms(t: &mut Lent, w: &[u32]) -> bool
    ensures parts { SameParts t.old t.new }
    ensures played { played (one_unless result) (lent t.new)
        ≡ rooms_left t.old.cv.now t.old.co.now t.old.cm.now t.old.vc.now t.old.vm.now t.old.vp.now w.now }
{
    let right = rooms_right(&t.seen(), w);
    t.cv.fill(at(w, 1, 0));
    t.co.fill(at(w, 3, 0));
    t.cm.fill(at(w, 5, 0));
    t.vc.fill(at(w, 7, 0));
    t.vm.fill(at(w, 9, 0));
    t.vp.fill(float_of(at(w, 11, 0)));
    t.vertices = 0;
    t.corners = 0;
    right
}

// ---- 2 counts

pub fn replay_counts(t: &mut Lent, w: &[u32]) -> bool
    ensures parts { SameParts t.old t.new }
    ensures played { played (one_unless result) (lent t.new) ≡ counts_left (lent t.old) w.now }
{
    t.vertices = at(w, 0, 0);
    t.corners = at(w, 1, 0);
    w.len() == 2
}

// ---- 3 put

#[tactic(auto, unfolding(crate::specs::Change::put_made, crate::specs::Change::put_as, crate::specs::Change::put_number_as))]
fn put_entry(t: &mut Lent, w: &[u32])
    ensures parts { SameParts t.old t.new }
    ensures made { lent t.new ≡ put_made (lent t.old) w.now }
{
    let i = at(w, 1, 0) as usize;
    let v = at(w, 2, 0);
    // A part's number is the stored list's.
    match at(w, 0, 0) {
        0 => put(t.cv, i, v),
        1 => put(t.co, i, v),
        2 => put(t.cm, i, v),
        3 => put(t.vc, i, v),
        4 => put(t.vm, i, v),
        5 => put(t.vp, i, float_of(v)),
        _ => {}
    }
}

#[tactic(auto, unfolding(crate::specs::Change::put_right))]
pub fn replay_put(t: &mut Lent, w: &[u32]) -> bool
    ensures parts { SameParts t.old t.new }
    ensures played { played (one_unless result) (lent t.new) ≡ put_left (lent t.old) w.now }
{
    put_entry(t, w);
    at(w, 0, 0) < 6 && w.len() == 3
}
