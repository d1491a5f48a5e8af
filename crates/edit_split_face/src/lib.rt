// edit.rs, split_face: puts a new vertex and two new faces on the end. It reads a plan first, and then writes one part after the other. It tests
// nothing: it is called where the answer of the command is 0. The drawing stands in specs/.
//
// The writers of a part ask only that the new numbers fit, where they make some; `HasRoom` gives it to all.
#![tactic(auto)]

ghost use Rattle.std.specs.Prelude.{◌≡◌, ◌+◌, ◌<◌};
ghost use Rattle.corner.specs.Corner.{absent, first_corner};
ghost use Rattle.table.specs.Parts.{SameParts, lent};
ghost use Rattle.edit_plans.specs.Plans.{HasRoom};
ghost use Rattle.edit_split_face.specs.SplitFace.{face_vertices, face_opposites, face_corners, split_face};

use corner::{Corner, Face};
use edit_plans::{Triangle, read_triangle};
use table::{Lent, put_new};
use vertex::{Point, Vertex};

#[tactic(auto, using(edit_plans::proofs::Stored::six_stored), unfolding(crate::specs::SplitFace::face_vertices))]
fn face_vertices(cv: &mut [u32], p: Triangle, u: Vertex, n: u32)
    ensures { cv.new ≡ face_vertices p u.0 n cv.old }
{
    put_new(cv, n, [p.v1.0, p.v2.0, u.0, p.v2.0, p.v0.0, u.0]);
    table::set_vertex(cv, p.c2, u);
}

// The pairs of the three faces with each other, then with what lay beyond the old one. The new corners have their names of the drawing.
#[tactic(auto, using(edit_plans::proofs::Stored::six_stored), unfolding(crate::specs::SplitFace::face_opposites))]
fn face_opposites(co: &mut [u32], p: Triangle, n: u32)
    requires { n + 6 < absent }
    ensures { co.new ≡ face_opposites p n co.old }
{
    put_new(co, n, [u32::MAX; 6]);
    let c3 = Corner(n);
    let c4 = Corner(n + 1);
    let c5 = Corner(n + 2);
    let c6 = Corner(n + 3);
    let c7 = Corner(n + 4);
    let c8 = Corner(n + 5);
    table::make_corners_opposite(co, p.c0, c4);
    table::make_corners_opposite(co, c3, c7);
    table::make_corners_opposite(co, c6, p.c1);
    table::make_corners_opposite(co, c8, p.o1);
    table::make_corners_opposite(co, c5, p.o0);
}

#[tactic(auto, unfolding(crate::specs::SplitFace::face_corners))]
fn face_corners(vc: &mut [u32], p: Triangle, u: Vertex, n: u32)
    requires { n + 6 < absent }
    ensures { vc.new ≡ face_corners p u.0 n vc.old }
{
    table::set_corner(vc, u, p.c2);
    table::set_corner(vc, p.v2, Corner(n + 1));
}

#[tactic(auto, using(edit_plans::proofs::Stored::six_stored), unfolding(crate::specs::SplitFace::split_face))]
pub fn split_face(t: &mut Lent, face: Face, at: Point)
    requires room { HasRoom (lent t.old) }
    requires face { first_corner face.0 < absent }
    ensures parts { SameParts t.old t.new }
    ensures table { lent t.new ≡ split_face (lent t.old) face.0 at }
{
    let p = read_triangle(&t.seen(), face.corner());
    let u = Vertex(t.vertices);
    let n = t.corners;
    face_vertices(t.cv, p, u, n);
    face_opposites(t.co, p, n);
    put_new(t.cm, n, [0; 6]);
    face_corners(t.vc, p, u, n);
    table::set_mark(t.vm, u.0, 0);
    table::set_position(t.vp, u, at);
    t.vertices += 1;
    t.corners += 6;
}
