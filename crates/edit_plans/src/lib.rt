// edit.rs: what the four edits begin with. Each reads a plan first, all of it before its first write, and the splits put new faces on the end.
// The drawings stand in specs/.
#![tactic(auto)]

ghost use Rattle.std.specs.Prelude.{◌≡◌, ◌<◌};
ghost use Rattle.corner.specs.Corner.{absent};
ghost use Rattle.table.specs.Parts.{seen};
ghost use Rattle.edit_plans.specs.Plans.{triangle, around, InnerEdge};

use corner::Corner;
use table::Seen;
use vertex::Vertex;

// The corners of a face, their vertices, and the opposites of the first two.
#[derive(Clone, Copy)]
pub struct Triangle {
    pub c0: Corner,
    pub c1: Corner,
    pub c2: Corner,
    pub v0: Vertex,
    pub v1: Vertex,
    pub v2: Vertex,
    pub o0: Corner,
    pub o1: Corner,
}

// The corners of the two faces at an edge, their vertices, and the opposites across the four outer edges.
#[derive(Clone, Copy)]
pub struct Around {
    pub c0: Corner,
    pub c1: Corner,
    pub c2: Corner,
    pub c3: Corner,
    pub c4: Corner,
    pub c5: Corner,
    pub v0: Vertex,
    pub v1: Vertex,
    pub v2: Vertex,
    pub v3: Vertex,
    pub o0: Corner,
    pub o2: Corner,
    pub o3: Corner,
    pub o5: Corner,
}

#[tactic(auto, unfolding(crate::specs::Plans::triangle))]
pub fn read_triangle(t: &Seen, c0: Corner) -> Triangle
    requires { c0.0 < absent }
    ensures { result ≡ triangle t.now.cv.now t.now.co.now c0.0 }
{
    let c1 = c0.next();
    let c2 = c1.next();
    Triangle {
        c0,
        c1,
        c2,
        v0: table::vertex_of(t.cv, c0),
        v1: table::vertex_of(t.cv, c1),
        v2: table::vertex_of(t.cv, c2),
        o0: table::opposite_of(t.co, c0),
        o1: table::opposite_of(t.co, c1),
    }
}

#[tactic(auto, using(corner::proofs::Turns::next_next), unfolding(crate::specs::Plans::around))]
pub fn read_around(t: &Seen, c1: Corner) -> Around
    requires { InnerEdge (seen t.now) c1.0 }
    ensures { result ≡ around t.now.cv.now t.now.co.now c1.0 }
{
    let c2 = c1.next();
    let c0 = c1.previous();
    let c4 = table::opposite_there(t.co, c1);
    let c5 = c4.next();
    let c3 = c4.previous();
    Around {
        c0,
        c1,
        c2,
        c3,
        c4,
        c5,
        v0: table::vertex_there(t.cv, c0),
        v1: table::vertex_there(t.cv, c1),
        v2: table::vertex_there(t.cv, c2),
        v3: table::vertex_there(t.cv, c4),
        o0: table::opposite_there(t.co, c0),
        o2: table::opposite_there(t.co, c2),
        o3: table::opposite_there(t.co, c3),
        o5: table::opposite_there(t.co, c5),
    }
}
