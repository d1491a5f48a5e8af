// builder.rs, second half: each vertex keeps the fan of its corner, and each other fan gets a new vertex at the same point.
//
// The BTreeSet of corners of each vertex lives in the table's marks, which are all 0 until the build ends. First the fan of every vertex's
// corner is marked 1. Then the corners that are left are threaded, from the last to the first: a vertex's mark names its least corner
// that is left, and that corner's mark the next one (as number + 2; 0 is none: a mark is a lent number, and no other memory is
// lent). So no pass goes over all corners for a vertex: the work
// is that of the fans, of one pass over the corners and of one over the vertices.
//
// Each function says besides that no part's length has changed: the reads and the loops of the next one rest on that.
#![tactic(auto)]

ghost use Rattle.std.specs.Prelude.{◌≡◌, ◌+◌, ◌<◌};
ghost use Rattle.table.specs.Table.{with_corner_mark};
ghost use Rattle.table.specs.Parts.{SameParts, lent};
ghost use Rattle.ring.specs.Ring.{ring};
ghost use Rattle.builder_build.specs.Build.{give as give_of, isolated};
ghost use Rattle.builder_fans.specs.Chains.{shared_of, with_shared, Roomy, SameRooms, with_vertex_mark, with_threads, marked, mark_of, threads, thread_of, threaded, rings, step_of, chain_from, chain_of, chains_of, Ended, isolate_of};

use corner::Corner;
use refusal::Refusal;
use table::Lent;
use vertex::Vertex;

// ---- the corners that are left

#[tactic(auto, unfolding(crate::specs::Chains::mark_of))]
fn mark_one(co: &[u32], vc: &[u32], cm: &mut [u32], n: u32, v: u32)
    ensures { cm.new ≡ mark_of (ring co.now n) vc.now v cm.old }
{
    if let Some(c) = table::corner_of(vc, Vertex(v)).present() {
        ring::label(co, n, c, cm, 1);
    }
}

// Marks the corners in the fan of their vertex's corner.
pub fn mark_fans(t: &mut Lent)
    ensures parts { SameParts t.old t.new }
    ensures rooms { SameRooms (lent t.old) (lent t.new) }
    ensures marked { lent t.new ≡ with_corner_mark (lent t.old) (marked (rings (lent t.old)) t.old.vc.now t.old.vertices 0 t.old.cm.now) }
{
    let n = t.corners;
    let (co, vc, cm) = (&mut *t.co, &mut *t.vc, &mut *t.cm);
    for v in 0..t.vertices {
        mark_one(co, vc, cm, n, v);
    }
}

// A corner that is left goes to the front of its vertex's chain.
#[tactic(auto, unfolding(crate::specs::Chains::thread_of))]
fn thread_one(cv: &[u32], cm: &mut [u32], vm: &mut [u32], c: u32)
    requires { c + 2 < 4294967296 }
    ensures { threads cm.new vm.new ≡ thread_of cv.now c (threads cm.old vm.old) }
{
    if table::at(cm, c as usize, 0) == 0 {
        let v = table::at(cv, c as usize, 0);
        let next = table::at(vm, v as usize, 0);
        table::put(cm, c as usize, next);
        table::put(vm, v as usize, c + 2);
    }
}

// From the last corner to the first, so that a chain ascends.
pub fn thread_left(t: &mut Lent)
    requires { t.old.corners < 4294967293 }
    ensures parts { SameParts t.old t.new }
    ensures rooms { SameRooms (lent t.old) (lent t.new) }
    ensures threaded { lent t.new ≡ with_threads (lent t.old) (threaded t.old.cv.now t.old.corners (threads t.old.cm.now t.old.vm.now)) }
{
    let (cv, cm, vm) = (&mut *t.cv, &mut *t.cm, &mut *t.vm);
    for c in (0..t.corners).rev() {
        thread_one(cv, cm, vm, c);
    }
}

// ---- new vertices

// A new vertex at v's point takes the corner c and its fan.
fn give(t: &mut Lent, v: Vertex, c: Corner)
    requires { t.old.vertices + 1 < 4294967296 }
    ensures parts { SameParts t.old t.new }
    ensures rooms { SameRooms (lent t.old) (lent t.new) }
    ensures given { lent t.new ≡ with_shared (lent t.old) (give_of (rings (lent t.old)) v.0 c.0 (shared_of (lent t.old))) }
{
    let u = Vertex(t.vertices);
    let n = t.corners;
    let (co, cv) = (&mut *t.co, &mut *t.cv);
    ring::label(co, n, c, cv, u.0);
    table::set_corner(t.vc, u, c);
    let p = table::position(t.seen().vp, v);
    table::set_position(t.vp, u, p);
    t.vertices += 1;
}

// One corner of the chain: where it is still v's, a new vertex, if there is room.
fn one_corner(t: &mut Lent, room: u32, v: Vertex, c: Corner) -> Result<(), Refusal>
    requires { Roomy room (lent t.old) }
    ensures parts { SameParts t.old t.new }
    ensures rooms { SameRooms (lent t.old) (lent t.new) }
    ensures ended { Ended room (lent t.old) (step_of (rings (lent t.old)) v.0 c.0 (shared_of (lent t.old))) (lent t.new) result }
{
    if table::vertex_of(t.seen().cv, c) != v {
        return Ok(());
    }
    if t.vertices == room {
        return Err(Refusal::NoVertexRoom);
    }
    give(t, v, c);
    Ok(())
}

// The corners of v's chain from first on.
fn take_chain(t: &mut Lent, room: u32, v: Vertex, first: u32) -> Result<(), Refusal>
    requires { Roomy room (lent t.old) }
    ensures parts { SameParts t.old t.new }
    ensures rooms { SameRooms (lent t.old) (lent t.new) }
    ensures ended { Ended room (lent t.old) (chain_from (lent t.old) v.0 first (shared_of (lent t.old))) (lent t.new) result }
{
    let mut h = first;
    for _step in 0..t.corners {
        if h < 2 {
            return Ok(());
        }
        let c = h - 2;
        one_corner(t, room, v, Corner(c))?;
        h = table::at(t.seen().cm, c as usize, 0);
    }
    Ok(())
}

fn one_vertex(t: &mut Lent, room: u32, v: Vertex) -> Result<(), Refusal>
    requires { Roomy room (lent t.old) }
    ensures parts { SameParts t.old t.new }
    ensures rooms { SameRooms (lent t.old) (lent t.new) }
    ensures ended { Ended room (lent t.old) (chain_of (lent t.old) v.0 (shared_of (lent t.old))) (lent t.new) result }
{
    let first = table::at(t.seen().vm, v.0 as usize, 0);
    take_chain(t, room, v, first)
}

// All vertices, ascending. How many there may be is given, and need not be what the parts hold. Refused or not, only what is shared changes.
pub fn spread(t: &mut Lent, room: u32) -> Result<(), Refusal>
    requires { Roomy room (lent t.old) }
    ensures parts { SameParts t.old t.new }
    ensures rooms { SameRooms (lent t.old) (lent t.new) }
    ensures ended { Ended room (lent t.old) (chains_of (lent t.old) t.old.vertices 0 (shared_of (lent t.old))) (lent t.new) result }
{
    for v in 0..t.vertices {
        one_vertex(t, room, Vertex(v))?;
    }
    Ok(())
}

// ---- deleted vertices

#[tactic(auto, unfolding(crate::specs::Chains::isolate_of))]
fn isolate_one(vc: &[u32], vm: &mut [u32], v: u32)
    ensures { vm.new ≡ isolate_of vc.now v vm.old }
{
    if table::corner_of(vc, Vertex(v)).is_absent() {
        table::set_mark(vm, v, 1);
    }
}

// A vertex without a corner is marked deleted.
pub fn isolate(t: &mut Lent)
    ensures parts { SameParts t.old t.new }
    ensures rooms { SameRooms (lent t.old) (lent t.new) }
    ensures isolated { lent t.new ≡ with_vertex_mark (lent t.old) (isolated t.old.vc.now t.old.vertices 0 t.old.vm.now) }
{
    let (vc, vm) = (&mut *t.vc, &mut *t.vm);
    for v in 0..t.vertices {
        isolate_one(vc, vm, v);
    }
}
