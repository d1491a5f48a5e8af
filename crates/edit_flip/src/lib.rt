// edit.rs, flip_edge: reads a plan first, and then writes one part after the other. It tests nothing: it is called where the answer of the
// command is 0. The drawing stands in specs/.
#![tactic(auto)]

ghost use Rattle.std.specs.Prelude.{◌≡◌, length};
ghost use Rattle.table.specs.Parts.{SameParts, lent};
ghost use Rattle.edit_plans.specs.Plans.{around, CornersThere, VerticesThere, InnerEdge};
ghost use Rattle.edit_flip.specs.Flip.{flip_vertices, flip_opposites, flip_corners, flip_edge};

use corner::Corner;
use edit_plans::{Around, read_around};
use table::{Lent, pair_there};

#[tactic(auto, unfolding(crate::specs::Flip::flip_vertices))]
fn flip_vertices(cv: &mut [u32], p: Around)
    requires { CornersThere (length cv.old) p }
    ensures { cv.new ≡ flip_vertices p cv.old }
{
    cv[p.c0.index()] = p.v1.0;
    cv[p.c1.index()] = p.v2.0;
    cv[p.c2.index()] = p.v3.0;
    cv[p.c3.index()] = p.v3.0;
    cv[p.c4.index()] = p.v0.0;
    cv[p.c5.index()] = p.v1.0;
}

#[tactic(auto, unfolding(crate::specs::Flip::flip_opposites))]
fn flip_opposites(co: &mut [u32], p: Around)
    requires { CornersThere (length co.old) p }
    ensures { co.new ≡ flip_opposites p co.old }
{
    pair_there(co, p.c0, p.o5);
    co[p.c1.index()] = p.c4.0;
    co[p.c4.index()] = p.c1.0;
    pair_there(co, p.c2, p.o0);
    pair_there(co, p.c3, p.o2);
    pair_there(co, p.c5, p.o3);
}

#[tactic(auto, unfolding(crate::specs::Flip::flip_corners))]
fn flip_corners(vc: &mut [u32], p: Around)
    requires { VerticesThere (length vc.old) p }
    ensures { vc.new ≡ flip_corners p vc.old }
{
    vc[p.v0.index()] = p.c4.0;
    vc[p.v1.index()] = p.c0.0;
    vc[p.v2.index()] = p.c1.0;
    vc[p.v3.index()] = p.c2.0;
}

#[tactic(auto, unfolding(crate::specs::Flip::flip_edge))]
pub fn flip_edge(t: &mut Lent, edge: Corner)
    requires edge { InnerEdge (lent t.old) edge.0 }
    requires vertices { VerticesThere (length t.old.vc.now) (around t.old.cv.now t.old.co.now edge.0) }
    ensures parts { SameParts t.old t.new }
    ensures table { lent t.new ≡ flip_edge (lent t.old) edge.0 }
{
    let p = read_around(&t.seen(), edge);
    flip_vertices(t.cv, p);
    flip_opposites(t.co, p);
    flip_corners(t.vc, p);
}
