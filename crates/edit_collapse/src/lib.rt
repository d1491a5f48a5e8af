// edit.rs, collapse_edge: reads a plan first, and then writes one part after the other. It tests nothing: it is called where the answer of the
// command is 0. The drawing stands in specs/.
#![tactic(auto)]

ghost use Rattle.std.specs.Prelude.{◌≡◌, ◌<◌, IfSome};
ghost use Rattle.corner.specs.Corner.{absent};
ghost use Rattle.corner.specs.Told.{told};
ghost use Rattle.table.specs.Parts.{SameParts, lent};
ghost use Rattle.edit_plans.specs.Plans.{InnerEdge};
ghost use Rattle.edit_collapse.specs.Collapse.{winged, collapse_vertices, collapse_opposites, collapse_marks, collapse_corners, collapse_edge};

use corner::Corner;
use edit_plans::{Around, read_around};
use table::Lent;
use vertex::{Point, Vertex};

// The corner of a vertex beside the collapsed edge.
#[tactic(auto, unfolding(crate::specs::Collapse::winged))]
fn set_corner_for_wing_vertex(
    vc: &mut [u32],
    v: Vertex,
    left: Option<Corner>,
    right: Option<Corner>,
)
    requires { IfSome left (λ c. c.0 < absent) × IfSome right (λ c. c.0 < absent) }
    ensures { vc.new ≡ winged vc.old v.0 (told left) (told right) }
{
    if let Some(c) = left {
        table::set_corner(vc, v, c.previous());
    } else if let Some(c) = right {
        table::set_corner(vc, v, c.next());
    }
}

// The kept vertex at every corner of the deleted one.
#[tactic(auto, unfolding(crate::specs::Collapse::collapse_vertices))]
fn collapse_vertices(cv: &mut [u32], co: &[u32], vc: &[u32], p: Around, n: u32)
    ensures { cv.new ≡ collapse_vertices p n co.now vc.now cv.old }
{
    let c = table::corner_of(vc, p.v0);
    ring::label(co, n, c, cv, p.v2.0);
}

#[tactic(auto, unfolding(crate::specs::Collapse::collapse_opposites))]
fn collapse_opposites(co: &mut [u32], p: Around)
    ensures { co.new ≡ collapse_opposites p co.old }
{
    table::make_corners_opposite(co, p.o0, p.o2);
    table::make_corners_opposite(co, p.o5, p.o3);
}

// Both faces deleted.
#[tactic(auto, using(crate::proofs::Marks::one_more), unfolding(crate::specs::Collapse::collapse_marks))]
fn collapse_marks(cm: &mut [u32], p: Around)
    ensures { cm.new ≡ collapse_marks p cm.old }
{
    for c in [p.c4, p.c5, p.c3, p.c1, p.c2, p.c0] {
        table::set_mark(cm, c.0, 1);
    }
}

// Make sure vertices are not referencing deleted corners.
#[tactic(auto, using(crate::proofs::Either::or_told), unfolding(crate::specs::Collapse::collapse_corners))]
fn collapse_corners(vc: &mut [u32], p: Around)
    ensures { vc.new ≡ collapse_corners p vc.old }
{
    let o0 = p.o0.present();
    let o2 = p.o2.present();
    let o3 = p.o3.present();
    let o5 = p.o5.present();
    set_corner_for_wing_vertex(vc, p.v3, o3, o5);
    set_corner_for_wing_vertex(vc, p.v1, o0, o2);
    set_corner_for_wing_vertex(vc, p.v2, o5.or(o2), o0.or(o3));
}

#[tactic(auto, unfolding(crate::specs::Collapse::collapse_edge))]
pub fn collapse_edge(t: &mut Lent, edge: Corner, at: Point)
    requires { InnerEdge (lent t.old) edge.0 }
    ensures parts { SameParts t.old t.new }
    ensures table { lent t.new ≡ collapse_edge (lent t.old) edge.0 at }
{
    let p = read_around(&t.seen(), edge);
    let n = t.corners;
    // The call takes several parts: the check wants each lent under a name of its own.
    let (cv, co, vc) = (&mut *t.cv, &mut *t.co, &mut *t.vc);
    collapse_vertices(cv, co, vc, p, n);
    collapse_corners(t.vc, p);
    collapse_marks(t.cm, p);
    table::set_mark(t.vm, p.v0.0, 1);
    table::set_position(t.vp, p.v2, at);
    collapse_opposites(t.co, p);
}
