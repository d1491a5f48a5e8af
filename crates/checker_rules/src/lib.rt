// R1 to R6 as tests of one slot, on any table. They only read, and need no memory. The cost of a test is bounded, but for R5's fans (`near`).
#![tactic(auto)]

ghost use Rattle.std.specs.Prelude.{true, false, ◌≡◌};
ghost use Rattle.table.specs.Parts.{seen};
ghost use Rattle.table.specs.Table.{corner_room, vertex_room};
ghost use Rattle.checker_rules.specs.Near.{across as across_of, beside as beside_of, hits as hits_of, near as near_of};
ghost use Rattle.checker_rules.specs.Tests.{counts_test, mark_test, face_test, vertex_test, differ_test, back_test, mates_test, opposite_test, corner_test, fan_test, point_test, holds as holds_of};

use checker_kinds::Test;
use corner::Corner;
use table::{Seen, at, corner_of, is_live, opposite_of, position, vertex_of};
use vertex::Vertex;

// ---- R5's two walks: does a corner lie in the fan of another?
//
// A corner walks only as far as the nearest smaller corner of its fan, which is of order n log n over any mesh, also where all corners are of
// one vertex.

// The corner that a swing across o ends at: none where there is no opposite, and from ABSENT the walk stays there.
fn across(left: bool, o: Corner) -> Corner
    ensures { result.0 ≡ across_of left o.0 }
{
    if o.is_absent() {
        return Corner::ABSENT;
    }
    Corner(o.turn_index(left) as u32)
}

// One swing, ABSENT past a border. From ABSENT it stays there: that reads past every room.
#[tactic(auto, unfolding(crate::specs::Near::beside))]
fn beside(left: bool, co: &[u32], c: Corner) -> Corner
    ensures { result.0 ≡ beside_of left co.now c.0 }
{
    across(left, Corner(at(co, c.turn_index(left), u32::MAX)))
}

fn hits(s: Corner, c: Corner, x: Corner) -> bool
    ensures { result ≡ hits_of s.0 c.0 x.0 }
{
    x == s || x < c
}

// From c to the left and to the right in turn, till either walk meets s, or a corner before c, which has passed this test already. The
// walk to the right waits for the one to the left: most corners are through with the first swing.
fn meets(co: &[u32], s: Corner, c: Corner, room: u32) -> bool
    ensures { result ≡ near_of co.now s.0 c.0 room
        (beside_of true co.now c.0) (beside_of false co.now c.0) }
{
    let mut a = c;
    let mut b = c;
    for _step in 0..room {
        a = beside(true, co, a);
        if hits(s, c, a) {
            return true;
        }
        b = beside(false, co, b);
        if hits(s, c, b) {
            return true;
        }
    }
    false
}

// Both walks start at c itself, which is looked at once.
pub fn near(co: &[u32], s: Corner, c: Corner, room: u32) -> bool
    ensures { result ≡ near_of co.now s.0 c.0 room c.0 c.0 }
{
    room != 0 && (hits(s, c, c) || meets(co, s, c, room - 1))
}

// ---- R1 to R4

// "R1 Counts are within room; the corner count is a multiple of 3."
#[tactic(auto, unfolding(crate::specs::Tests::counts_test))]
pub fn counts_test(t: &Seen) -> bool
    ensures { result ≡ counts_test (corner_room (seen t.now)) (vertex_room (seen t.now)) t.now.vertices t.now.corners }
{
    t.corners as usize <= t.cm.len() && t.vertices as usize <= t.vm.len() && t.corners % 3 == 0
}

// "R2 Marks are 0 or 1 ..."
#[tactic(auto, unfolding(crate::specs::Tests::mark_test))]
pub fn mark_test(marks: &[u32], i: u32) -> bool
    ensures { result ≡ mark_test marks.now i }
{
    at(marks, i as usize, 1) <= 1
}

// "... a face's three marks agree": at each of its corners, with the next one.
#[tactic(auto, unfolding(crate::specs::Tests::face_test))]
fn face_test(cm: &[u32], c: Corner) -> bool
    ensures { result ≡ face_test cm.now c.0 }
{
    at(cm, c.next_index(), 1) == at(cm, c.index(), 1)
}

// "R3 A live corner's vertex is a used, live vertex ..."
#[tactic(auto, unfolding(crate::specs::Tests::vertex_test))]
fn vertex_test(t: &Seen, c: Corner) -> bool
    ensures { result ≡ vertex_test t.now.cv.now t.now.cm.now t.now.vm.now t.now.vertices t.now.corners c.0 }
{
    let v = vertex_of(t.cv, c);
    !is_live(t.cm, t.corners, c.index()) || is_live(t.vm, t.vertices, v.index())
}

// "... a live face's three differ": at each of its corners, from the next one.
#[tactic(auto, unfolding(crate::specs::Tests::differ_test))]
fn differ_test(t: &Seen, c: Corner) -> bool
    ensures { result ≡ differ_test t.now.cv.now t.now.cm.now t.now.corners c.0 }
{
    !is_live(t.cm, t.corners, c.index()) || at(t.cv, c.index(), 0) != at(t.cv, c.next_index(), 0)
}

// "... with the edge running the other way": that of o, against that of c.
#[tactic(auto, unfolding(crate::specs::Tests::back_test))]
fn back_test(cv: &[u32], c: Corner, o: Corner) -> bool
    ensures { result ≡ back_test cv.now c.0 o.0 }
{
    at(cv, o.next_index(), 0) == at(cv, c.previous_index(), 0)
        && at(cv, o.previous_index(), 0) == at(cv, c.next_index(), 0)
}

// "... a used live corner whose opposite is this one ..."
#[tactic(auto, unfolding(crate::specs::Tests::mates_test))]
fn mates_test(t: &Seen, c: Corner, o: Corner) -> bool
    ensures { result ≡ mates_test t.now.cv.now t.now.co.now t.now.cm.now t.now.corners c.0 o.0 }
{
    is_live(t.cm, t.corners, o.index()) && opposite_of(t.co, o) == c && back_test(t.cv, c, o)
}

// "R4 A live corner's opposite is absent, or ..."
#[tactic(auto, unfolding(crate::specs::Tests::opposite_test))]
fn opposite_test(t: &Seen, c: Corner) -> bool
    ensures { result ≡ opposite_test t.now.cv.now t.now.co.now t.now.cm.now t.now.corners c.0 }
{
    let o = opposite_of(t.co, c);
    !is_live(t.cm, t.corners, c.index()) || o.is_absent() || mates_test(t, c, o)
}

// ---- R5 and R6

// "R5 A live vertex's corner is a live corner of that vertex ..."
#[tactic(auto, unfolding(crate::specs::Tests::corner_test))]
fn corner_test(t: &Seen, v: Vertex) -> bool
    ensures { result ≡ corner_test t.now.cv.now t.now.cm.now t.now.vc.now t.now.vm.now t.now.vertices t.now.corners v.0 }
{
    let c = corner_of(t.vc, v);
    !is_live(t.vm, t.vertices, v.index())
        || is_live(t.cm, t.corners, c.index()) && vertex_of(t.cv, c) == v
}

// "... and every live corner of the vertex lies in the fan of that one."
#[tactic(auto, unfolding(crate::specs::Tests::fan_test))]
fn fan_test(t: &Seen, c: Corner) -> bool
    ensures { result ≡ fan_test t.now.cv.now t.now.co.now t.now.cm.now t.now.vc.now t.now.corners c.0 }
{
    !is_live(t.cm, t.corners, c.index())
        || near(t.co, corner_of(t.vc, vertex_of(t.cv, c)), c, t.corners)
}

// "R6 The three numbers of a live vertex are finite."
#[tactic(auto, unfolding(crate::specs::Tests::point_test))]
fn point_test(t: &Seen, v: Vertex) -> bool
    ensures { result ≡ point_test t.now.vm.now t.now.vp.now t.now.vertices v.0 }
{
    !is_live(t.vm, t.vertices, v.index()) || position(t.vp, v).finite()
}

// ---- one test of one slot

// The tests have kinds, and no closures stand for them: a broken one is named, by its rule and its slot.
#[tactic(auto, unfolding(crate::specs::Tests::holds))]
pub fn holds(test: Test, t: &Seen, i: u32) -> bool
    ensures { result ≡ holds_of test (seen t.now) i }
{
    match test {
        Test::Counts => counts_test(t),
        Test::CornerMark => mark_test(t.cm, i),
        Test::FaceMark => face_test(t.cm, Corner(i)),
        Test::VertexMark => mark_test(t.vm, i),
        Test::CornerVertex => vertex_test(t, Corner(i)),
        Test::FaceVertex => differ_test(t, Corner(i)),
        Test::Opposite => opposite_test(t, Corner(i)),
        Test::VertexCorner => corner_test(t, Vertex(i)),
        Test::CornerFan => fan_test(t, Corner(i)),
        Test::Finite => point_test(t, Vertex(i)),
    }
}
