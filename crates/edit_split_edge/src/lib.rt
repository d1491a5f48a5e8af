// edit.rs, split_edge: puts a new vertex and one or two new faces on the end. It reads a plan first, and then writes one part after the other. It
// tests nothing: it is called where the answer of the command is 0. The drawings stand in specs/.
//
// The writers of a part ask only that the new numbers fit, where they make some; `HasRoom` gives it to all.
#![tactic(auto)]

ghost use Rattle.std.specs.Prelude.{◌≢◌, ◌≡◌, ◌+◌, ◌<◌};
ghost use Rattle.corner.specs.Corner.{absent};
ghost use Rattle.table.specs.Table.{opposite};
ghost use Rattle.table.specs.Parts.{SameParts, lent};
ghost use Rattle.edit_plans.specs.Plans.{EdgeThere, HasRoom, InnerEdge};
ghost use Rattle.edit_split_edge.specs.SplitEdge.{split_points, split_corners, inner_vertices, inner_opposites, boundary_vertices, boundary_opposites, split_inner_edge, split_boundary_edge, split_edge};

use corner::Corner;
use edit_plans::{Around, Triangle, read_around, read_triangle};
use table::{Lent, put_new};
use vertex::{Point, Vertex};

// ---- what it writes, part by part: a border edge and an inner one have a plan and a drawing each

// The old vertex moves to the new point, the new vertex takes the old place.
#[tactic(auto, unfolding(crate::specs::SplitEdge::split_points))]
fn split_points(vp: &mut [f32], v: Vertex, u: Vertex, at: Point)
    ensures { vp.new ≡ split_points v.0 u.0 at vp.old }
{
    let old = table::position(vp, v);
    table::set_position(vp, v, at);
    table::set_position(vp, u, old);
}

#[tactic(auto, unfolding(crate::specs::SplitEdge::split_corners))]
fn split_corners(vc: &mut [u32], v: Vertex, u: Vertex, c: Corner, d: Corner)
    ensures { vc.new ≡ split_corners v.0 u.0 c.0 d.0 vc.old }
{
    table::set_corner(vc, v, c);
    table::set_corner(vc, u, d);
}

// The new vertex at all corners of the moved one but the one on the split edge, which gets its number back. The ring is walked before the
// new face has opposites.
#[tactic(auto, using(crate::proofs::Without::boundary_kept, table::proofs::Stored::three_stored))]
fn boundary_vertices(cv: &mut [u32], co: &[u32], p: Triangle, u: Vertex, n: u32)
    ensures { cv.new ≡ boundary_vertices p u.0 n co.now cv.old }
{
    put_new(cv, n, [p.v1.0, u.0, p.v2.0]);
    let v2 = table::vertex_of(cv, p.c2);
    ring::label(co, n, p.c2, cv, u.0);
    table::set_vertex(cv, p.c2, v2);
}

#[tactic(auto, using(table::proofs::Stored::three_stored), unfolding(crate::specs::SplitEdge::boundary_opposites))]
fn boundary_opposites(co: &mut [u32], p: Triangle, n: u32)
    requires { n + 6 < absent }
    ensures { co.new ≡ boundary_opposites p n co.old }
{
    put_new(co, n, [u32::MAX; 3]);
    let c4 = Corner(n + 1);
    let c5 = Corner(n + 2);
    table::make_corners_opposite(co, p.o0, c5);
    table::make_corners_opposite(co, p.c0, c4);
}

// As boundary_vertices, with two corners on the split edge.
#[tactic(auto, using(crate::proofs::Without::inner_kept, edit_plans::proofs::Stored::six_stored))]
fn inner_vertices(cv: &mut [u32], co: &[u32], p: Around, u: Vertex, n: u32)
    ensures { cv.new ≡ inner_vertices p u.0 n co.now cv.old }
{
    put_new(cv, n, [p.v1.0, u.0, p.v2.0, u.0, p.v3.0, p.v2.0]);
    let v2 = table::vertex_of(cv, p.c2);
    let v3 = table::vertex_of(cv, p.c3);
    ring::label(co, n, p.c2, cv, u.0);
    table::set_vertex(cv, p.c2, v2);
    table::set_vertex(cv, p.c3, v3);
}

// The opposite of c5 is read here, and not in the plan: where the moved vertex has only the two faces of the edge and no border, o0 is c5,
// and the first pair has just been written there. The new corners have their names of the drawing.
#[tactic(auto, using(edit_plans::proofs::Stored::six_stored), unfolding(crate::specs::SplitEdge::inner_opposites))]
fn inner_opposites(co: &mut [u32], p: Around, n: u32)
    requires { n + 6 < absent }
    ensures { co.new ≡ inner_opposites p n co.old }
{
    put_new(co, n, [u32::MAX; 6]);
    let c6 = Corner(n);
    let c7 = Corner(n + 1);
    let c8 = Corner(n + 2);
    let c9 = Corner(n + 3);
    let c10 = Corner(n + 4);
    let c11 = Corner(n + 5);
    table::make_corners_opposite(co, p.o0, c8);
    let o5 = table::opposite_of(co, p.c5);
    table::make_corners_opposite(co, o5, c11);
    table::make_corners_opposite(co, p.c0, c7);
    table::make_corners_opposite(co, p.c5, c9);
    table::make_corners_opposite(co, c6, c10);
}

// ---- the whole

// Splits the border edge opposite to the corner.
#[tactic(auto, using(table::proofs::Stored::three_stored), unfolding(crate::specs::SplitEdge::split_boundary_edge))]
fn split_boundary_edge(t: &mut Lent, edge: Corner, at: Point)
    requires room { HasRoom (lent t.old) }
    requires edge { edge.0 < absent }
    ensures parts { SameParts t.old t.new }
    ensures table { lent t.new ≡ split_boundary_edge (lent t.old) edge.0 at }
{
    let p = read_triangle(&t.seen(), edge.previous());
    let u = Vertex(t.vertices);
    let n = t.corners;
    // The call takes several parts: the check wants each lent under a name of its own.
    let (cv, co) = (&mut *t.cv, &mut *t.co);
    boundary_vertices(cv, co, p, u, n);
    boundary_opposites(t.co, p, n);
    put_new(t.cm, n, [0; 3]);
    split_corners(t.vc, p.v2, u, p.c2, Corner(n + 1));
    table::set_mark(t.vm, u.0, 0);
    split_points(t.vp, p.v2, u, at);
    t.vertices += 1;
    t.corners += 3;
}

// Splits the inner edge opposite to the corner.
#[tactic(auto, using(edit_plans::proofs::Stored::six_stored), unfolding(crate::specs::SplitEdge::split_inner_edge))]
fn split_inner_edge(t: &mut Lent, edge: Corner, at: Point)
    requires room { HasRoom (lent t.old) }
    requires edge { InnerEdge (lent t.old) edge.0 }
    ensures parts { SameParts t.old t.new }
    ensures table { lent t.new ≡ split_inner_edge (lent t.old) edge.0 at }
{
    let p = read_around(&t.seen(), edge);
    let u = Vertex(t.vertices);
    let n = t.corners;
    // The call takes several parts: the check wants each lent under a name of its own.
    let (cv, co) = (&mut *t.cv, &mut *t.co);
    inner_vertices(cv, co, p, u, n);
    inner_opposites(t.co, p, n);
    put_new(t.cm, n, [0; 6]);
    split_corners(t.vc, p.v2, u, p.c2, Corner(n + 1));
    table::set_mark(t.vm, u.0, 0);
    split_points(t.vp, p.v2, u, at);
    t.vertices += 1;
    t.corners += 6;
}

#[tactic(auto, unfolding(crate::specs::SplitEdge::split_edge))]
pub fn split_edge(t: &mut Lent, edge: Corner, at: Point)
    requires room { HasRoom (lent t.old) }
    requires edge { edge.0 < absent }
    requires edge_there { opposite (lent t.old) edge.0 ≢ absent → EdgeThere t.old.cv.now t.old.co.now edge.0 }
    ensures parts { SameParts t.old t.new }
    ensures table { lent t.new ≡ split_edge (lent t.old) edge.0 at }
{
    if table::opposite_of(t.seen().co, edge).is_absent() {
        split_boundary_edge(t, edge, at);
    } else {
        split_inner_edge(t, edge, at);
    }
}
