// builder.rs: what is asked of the points, and of a face before it is kept: its indices, and the edges of it that are known. The HashMap of
// edges is a plain search over the kept corners.
//
// For each face there is one pass over the kept faces, which looks for its six directed edges at once: its own three, that must not be
// held yet, and the same three the other way round, whose corners become opposites.
#![tactic(auto)]

ghost use Rattle.std.specs.Prelude.{◌≡◌, cond, ◌+◌, ◌<◌, ◌%◌};
ghost use Rattle.refusal.specs.Refusal.{answer_of};
ghost use Rattle.builder_build.specs.Build.{known as known_of, repeated as repeated_of};
ghost use Rattle.builder_edges.specs.Search.{noted, look_of, face_look, touched, among_of, sought, taken_by};

use corner::Corner;
use refusal::Refusal;
use vertex::Vertex;

// A face, by its three vertices.
#[derive(Clone, Copy)]
pub struct Triangle {
    pub a: Vertex,
    pub b: Vertex,
    pub c: Vertex,
}

// ---- the search

// The corners whose edges run from b to c, from c to a, and so on, if there are such.
#[derive(Clone, Copy)]
pub struct Found {
    pub bc: Option<Corner>,
    pub ca: Option<Corner>,
    pub ab: Option<Corner>,
    pub cb: Option<Corner>,
    pub ac: Option<Corner>,
    pub ba: Option<Corner>,
}

// What the search from x to y has found once it has seen the corner k, whose edge runs from tail to head: the first is kept.
#[tactic(auto, unfolding(crate::specs::Search::noted))]
fn note(
    o: Option<Corner>,
    k: Corner,
    tail: Vertex,
    head: Vertex,
    x: Vertex,
    y: Vertex,
) -> Option<Corner>
    ensures { result ≡ noted o k.0 tail.0 head.0 x.0 y.0 }
{
    if tail == x && head == y && o.is_none() {
        Some(k)
    } else {
        o
    }
}

// All six searches at one corner.
#[tactic(auto, unfolding(crate::specs::Search::look_of))]
fn look(f: Found, k: Corner, tail: Vertex, head: Vertex, t: Triangle) -> Found
    ensures { result ≡ look_of f k.0 tail.0 head.0 t.a.0 t.b.0 t.c.0 }
{
    Found {
        bc: note(f.bc, k, tail, head, t.b, t.c),
        ca: note(f.ca, k, tail, head, t.c, t.a),
        ab: note(f.ab, k, tail, head, t.a, t.b),
        cb: note(f.cb, k, tail, head, t.c, t.b),
        ac: note(f.ac, k, tail, head, t.a, t.c),
        ba: note(f.ba, k, tail, head, t.b, t.a),
    }
}

impl Triangle {
    fn has(self, v: Vertex) -> bool
        ensures { result ≡ among_of v.0 self.a.0 self.b.0 self.c.0 }
    {
        v == self.a || v == self.b || v == self.c
    }

    // Is a vertex of the other face one of this one's?
    fn touches(self, o: Triangle) -> bool
        ensures { result ≡ touched o.a.0 o.b.0 o.c.0 self.a.0 self.b.0 self.c.0 }
    {
        self.has(o.a) || self.has(o.b) || self.has(o.c)
    }
}

// The kept face from corner i on. Nearly all have none of the three vertices, and leave f as it is.
fn look_face(cv: &[u32], i: u32, f: &mut Found, t: Triangle)
    requires { i + 2 < 4294967296 }
    ensures { f.new ≡ face_look cv.now i t.a.0 t.b.0 t.c.0 f.old }
{
    let (first, second, third) = (Corner(i), Corner(i + 1), Corner(i + 2));
    let kept = Triangle {
        a: table::vertex_of(cv, first),
        b: table::vertex_of(cv, second),
        c: table::vertex_of(cv, third),
    };
    if t.touches(kept) {
        let g = look(*f, first, kept.b, kept.c, t);
        let h = look(g, second, kept.c, kept.a, t);
        *f = look(h, third, kept.a, kept.b, t);
    }
}

// One pass over the kept faces.
pub fn find_edges(cv: &[u32], n: u32, t: Triangle) -> Found
    requires n_bound { n < 4294967293 }
    requires n_value { n % 3 ≡ 0 }
    ensures { result ≡ sought cv.now n t.a.0 t.b.0 t.c.0 }
{
    let mut f = Found {
        bc: None,
        ca: None,
        ab: None,
        cb: None,
        ac: None,
        ba: None,
    };
    for k in 0..n / 3 {
        look_face(cv, 3 * k, &mut f, t);
    }
    f
}

impl Found {
    // Does a kept face have one of the face's three directed edges?
    pub fn taken(self) -> bool
        ensures { result ≡ taken_by self }
    {
        self.bc.is_some() || self.ca.is_some() || self.ab.is_some()
    }
}

// ---- what is asked of a face

impl Triangle {
    // A count is of no kind: the numbers of vertices are held to it.
    pub fn known(self, count: u32) -> bool
        ensures { result ≡ known_of count self.a.0 self.b.0 self.c.0 }
    {
        self.a.0 < count && self.b.0 < count && self.c.0 < count
    }

    pub fn repeated(self) -> bool
        ensures { result ≡ repeated_of self.a.0 self.b.0 self.c.0 }
    {
        self.a == self.b || self.b == self.c || self.c == self.a
    }
}

// An index that is no vertex before two equal ones. The findings come as bools: which of the two refuses stands here alone, and the same of
// the points below.
pub fn refusal(unknown: bool, twice: bool) -> Result<(), Refusal>
    ensures { answer_of result ≡ cond unknown 2 (cond twice 3 0) }
{
    if unknown {
        return Err(Refusal::UnknownVertex);
    }
    if twice {
        return Err(Refusal::RepeatedVertex);
    }
    Ok(())
}

// ---- what is asked of the points

// More points than room before a point not finite.
pub fn points_refusal(over: bool, infinite: bool) -> Result<(), Refusal>
    ensures { answer_of result ≡ cond over 5 (cond infinite 4 0) }
{
    if over {
        return Err(Refusal::NoVertexRoom);
    }
    if infinite {
        return Err(Refusal::NotFinite);
    }
    Ok(())
}
