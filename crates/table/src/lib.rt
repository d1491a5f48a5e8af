// mod.rs, and the helper functions of edit.rs and builder.rs: the lent table, and the slots of its six parts.
//
// Every read and write is total, but for those of a slot that is known to be there. Past the end a read gives what get_or gives there (no
// opposite, no corner, a mark that says deleted, else 0) and a write does nothing, so that no caller owes a bound; on a well-formed table
// no index is ever past the end.
#![tactic(auto)]

ghost use Rattle.std.specs.Prelude.{◌≡◌, ◌+◌, ◌*◌, ◌<◌, get_or, set, length, min};
ghost use Rattle.corner.specs.Corner.{absent};
ghost use Rattle.table.specs.Slots.{vertex_at, opposite_at, corner_at, nought, point_at, with_point, with_pair, stored};
ghost use Rattle.table.specs.Table.{blank as blank_of, Shaped, shaped, live};
ghost use Rattle.table.specs.Parts.{SameParts, lent, seen};

use corner::Corner;
use vertex::{Point, Vertex};

// ---- the table

pub const MAX_VERTICES: usize = 65535;

pub const MAX_CORNERS: usize = 196605;

// A table lent to be written: the corners' vertices, opposites and marks, the vertices' corners, marks and points, and how many vertex
// slots and corner slots are used. A function that is lent two parts is handed them out of a pair, `let (cv, co) = (&mut *t.cv, &mut *t.co);`:
// the borrow checker does not cover them behind `t` itself.
#[derive(Drop)]
pub struct Lent<'a> {
    pub cv: &'a mut [u32],
    pub co: &'a mut [u32],
    pub cm: &'a mut [u32],
    pub vc: &'a mut [u32],
    pub vm: &'a mut [u32],
    pub vp: &'a mut [f32],
    pub vertices: u32,
    pub corners: u32,
}

// The same, lent to be read.
#[derive(Clone, Copy)]
pub struct Seen<'a> {
    pub cv: &'a [u32],
    pub co: &'a [u32],
    pub cm: &'a [u32],
    pub vc: &'a [u32],
    pub vm: &'a [u32],
    pub vp: &'a [f32],
    pub vertices: u32,
    pub corners: u32,
}

impl Seen<'_> {
    // The test behind answer 1.
    #[tactic(auto, unfolding(crate::specs::Table::shaped_by))]
    pub fn is_shaped(&self) -> bool
        ensures { result ≡ shaped (seen self.now) }
    {
        self.cm.len() <= MAX_CORNERS
            && self.vm.len() <= MAX_VERTICES
            && self.cv.len() == self.cm.len()
            && self.co.len() == self.cm.len()
            && self.vc.len() == self.vm.len()
            && self.vp.len() == 3 * self.vm.len()
    }
}

impl<'a> Lent<'a> {
    pub fn seen(&self) -> Seen<'_>
        ensures { seen result ≡ lent self.now }
    {
        Seen {
            cv: self.cv,
            co: self.co,
            cm: self.cm,
            vc: self.vc,
            vm: self.vm,
            vp: self.vp,
            vertices: self.vertices,
            corners: self.corners,
        }
    }

    // Every slot blank, and none used, as a refused build leaves them.
    pub fn blank(&mut self)
        requires { Shaped (lent self.old) }
        ensures parts { SameParts self.old self.new }
        ensures table { lent self.new ≡ blank_of (length self.old.cm.now) (length self.old.vm.now) }
    {
        self.cv.fill(0);
        self.co.fill(u32::MAX);
        self.cm.fill(0);
        self.vc.fill(u32::MAX);
        self.vm.fill(0);
        self.vp.fill(0.0);
        self.vertices = 0;
        self.corners = 0;
    }
}

// ---- one slot of a part

pub fn at<T: Copy>(l: &[T], i: usize, none: T) -> T
    ensures { result ≡ get_or l.now i none }
{
    l.get(i).copied().unwrap_or(none)
}

pub fn put<T: Copy>(l: &mut [T], i: usize, v: T)
    ensures { l.new ≡ set l.old i v }
{
    if i < l.len() {
        l[i] = v;
    }
}

// ---- slots that are known to be there
//
// The caller says so, and nothing is tested: the two faces at an edge of a well-formed table are there, and the corners that a walk has
// counted. The tests of total reads and writes, and the values that stand in past the end, were two fifths of a flip's instructions.

pub fn at_there<T: Copy>(l: &[T], i: usize, none: T) -> T
    requires { i < length l.now }
    ensures { result ≡ get_or l.now i none }
{
    l[i]
}

pub fn vertex_there(cv: &[u32], c: Corner) -> Vertex
    requires { c.0 < length cv.now }
    ensures { result.0 ≡ vertex_at cv.now c.0 }
{
    Vertex(at_there(cv, c.index(), 0))
}

pub fn opposite_there(co: &[u32], c: Corner) -> Corner
    requires { c.0 < length co.now }
    ensures { result.0 ≡ opposite_at co.now c.0 }
{
    Corner(at_there(co, c.index(), u32::MAX))
}

// Makes a, whose slot is there, and b, which may be absent, opposite to each other.
pub fn pair_there(co: &mut [u32], a: Corner, b: Corner)
    requires { a.0 < length co.old }
    ensures { co.new ≡ with_pair co.old a.0 b.0 }
{
    co[a.index()] = b.0;
    put(co, b.index(), a.0);
}

// ---- a corner's slot

pub fn vertex_of(cv: &[u32], c: Corner) -> Vertex
    ensures { result.0 ≡ vertex_at cv.now c.0 }
{
    Vertex(at(cv, c.index(), 0))
}

pub fn opposite_of(co: &[u32], c: Corner) -> Corner
    ensures { result.0 ≡ opposite_at co.now c.0 }
{
    Corner(at(co, c.index(), u32::MAX))
}

pub fn set_vertex(cv: &mut [u32], c: Corner, v: Vertex)
    ensures { cv.new ≡ set cv.old c.0 v.0 }
{
    put(cv, c.index(), v.0);
}

pub fn set_opposite(co: &mut [u32], c: Corner, o: Corner)
    ensures { co.new ≡ set co.old c.0 o.0 }
{
    put(co, c.index(), o.0);
}

// Makes the given corners opposite to each other. Either may be absent: the absent corner's slot lies past every room, so that nothing is
// written for it.
pub fn make_corners_opposite(co: &mut [u32], a: Corner, b: Corner)
    ensures { co.new ≡ with_pair co.old a.0 b.0 }
{
    set_opposite(co, a, b);
    set_opposite(co, b, a);
}

// ---- a vertex's slot

pub fn corner_of(vc: &[u32], v: Vertex) -> Corner
    ensures { result.0 ≡ corner_at vc.now v.0 }
{
    Corner(at(vc, v.index(), u32::MAX))
}

pub fn set_corner(vc: &mut [u32], v: Vertex, c: Corner)
    ensures { vc.new ≡ set vc.old v.0 c.0 }
{
    put(vc, v.index(), c.0);
}

#[tactic(auto, unfolding(crate::specs::Slots::nought))]
pub fn position(vp: &[f32], v: Vertex) -> Point
    ensures { result ≡ point_at vp.now v.0 }
{
    let i = 3 * v.index();
    Point {
        x: at(vp, i, 0.0),
        y: at(vp, i + 1, 0.0),
        z: at(vp, i + 2, 0.0),
    }
}

pub fn set_position(vp: &mut [f32], v: Vertex, p: Point)
    ensures { vp.new ≡ with_point vp.old v.0 p }
{
    let i = 3 * v.index();
    put(vp, i, p.x);
    put(vp, i + 1, p.y);
    put(vp, i + 2, p.z);
}

// ---- marks

// Used with mark 0.
#[tactic(auto, unfolding(crate::specs::Table::live))]
pub fn is_live(marks: &[u32], n: u32, i: usize) -> bool
    ensures { result ≡ live marks.now n i }
{
    i < n as usize && at(marks, i, 1) == 0
}

pub fn set_mark(marks: &mut [u32], i: u32, mark: u32)
    ensures { marks.new ≡ set marks.old i mark }
{
    put(marks, i as usize, mark);
}

// ---- new slots of one part, from n on

// One test for all of them, and one copy, as on a table with room; else each that is there, and nothing past the end.
#[tactic(auto, using(crate::proofs::Stored::copied, crate::proofs::Stored::one_more))]
pub fn put_new<const N: usize>(l: &mut [u32], n: u32, values: [u32; N])
    ensures { l.new ≡ stored l.old n values.entry }
{
    let i = n as usize;
    if i + N <= l.len() {
        l[i..i + N].copy_from_slice(&values);
    } else {
        for (k, v) in values.iter().enumerate() {
            put(l, i + k, *v);
        }
    }
}
