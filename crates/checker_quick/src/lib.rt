// The quick pass: R1 to R4 at once, face by face, so that a face's slots are read once and its corners need no division by 3.
//
// It only ever says that all is well. Where it does not, the tests are made one by one, and name the lowest rule and slot. It begins by seeing
// that the corners in use are there, so that no read of theirs has a test of its own.
#![tactic(auto)]

ghost use Rattle.std.specs.Prelude.{◌≡◌, ◌&&◌, true, ℕ, ◌+◌, ◌%◌, ◌<◌, ◌≤◌, eqb, IfSome};
ghost use Rattle.corner.specs.Corner.{next, previous};
ghost use Rattle.table.specs.Parts.{seen};
ghost use Rattle.table.specs.Slots.{vertex_at, opposite_at, mark_at};
ghost use Rattle.table.specs.Table.{live, corner_room, vertex_room};
ghost use Rattle.checker_kinds.specs.Kinds.{test_at};
ghost use Rattle.checker_rules.specs.Tests.{counts_test, mark_test, opposite_test, AllHold};
ghost use Rattle.checker_quick.specs.Fits.{There, CornerFits, Fits};

use checker_rules::{counts_test, mark_test};
use corner::Corner;
use table::{Seen, at_there, is_live, opposite_there, vertex_there};
use vertex::Vertex;

// How many of the tests, in their order, the quick pass settles: those of R1 to R4.
pub const SETTLED: usize = 7;

// A table whose corners in use are there, in whole faces.
#[derive(Clone, Copy)]
struct Used<'a> {
    t: Seen<'a>,
    ghost there: { There (seen t) },
}

impl<'a> Used<'a> {
    // The table, where R1 holds and the corners in use are there.
    fn of(t: &Seen<'a>) -> Option<Self>
        ensures { IfSome result (λ u. (u.t ≡ t.now) × (counts_test (corner_room (seen t.now)) (vertex_room (seen t.now)) t.now.vertices t.now.corners ≡ true)) }
    {
        let nc = t.corners as usize;
        if nc <= t.cv.len() && nc <= t.co.len() && counts_test(t) {
            return Some(Used { t: *t });
        }
        None
    }

    // o is live, and its opposite is c. (A count is of no kind: o's number is held to it.)
    #[tactic(auto, unfolding(table::specs::Table::live))]
    fn paired(&self, c: Corner, o: Corner) -> bool
        ensures { result ≡ (live self.now.t.cm.now self.now.t.corners o.0 && eqb (opposite_at self.now.t.co.now o.0) c.0) }
    {
        o.0 < self.t.corners
            && at_there(self.t.cm, o.index(), 1) == 0
            && opposite_there(self.t.co, o) == c
    }

    // The corner after o is of vertex ahead, and the one before it of vertex behind.
    fn runs(&self, o: Corner, ahead: Vertex, behind: Vertex) -> bool
        requires { o.0 < self.now.t.corners }
        ensures { result ≡ (eqb (vertex_at self.now.t.cv.now (next o.0)) ahead.0 && eqb (vertex_at self.now.t.cv.now (previous o.0)) behind.0) }
    {
        at_there(self.t.cv, o.next_index(), 0) == ahead.0
            && at_there(self.t.cv, o.previous_index(), 0) == behind.0
    }

    // R4 at c, where the vertices of the corners after and before it are at hand.
    fn edge_fits(&self, c: Corner, ahead: Vertex, behind: Vertex) -> bool
        requires { c.0 < self.now.t.corners }
        ensures { ahead.0 ≡ vertex_at self.now.t.cv.now (next c.0) → behind.0 ≡ vertex_at self.now.t.cv.now (previous c.0) → result ≡ true
            → opposite_test self.now.t.cv.now self.now.t.co.now self.now.t.cm.now self.now.t.corners c.0 ≡ true }
    {
        let o = opposite_there(self.t.co, c);
        o.is_absent() || self.paired(c, o) && self.runs(o, behind, ahead)
    }

    // R3 and R4 at c, where its vertex is at hand too.
    fn corner_fits(&self, c: Corner, own: Vertex, ahead: Vertex, behind: Vertex) -> bool
        requires { c.0 < self.now.t.corners }
        ensures { own.0 ≡ vertex_at self.now.t.cv.now c.0 → ahead.0 ≡ vertex_at self.now.t.cv.now (next c.0)
            → behind.0 ≡ vertex_at self.now.t.cv.now (previous c.0) → result ≡ true
            → CornerFits (seen self.now.t) c.0 }
    {
        own != ahead
            && is_live(self.t.vm, self.t.vertices, own.index())
            && self.edge_fits(c, ahead, behind)
    }

    // R3 and R4 at the three corners of a face, from its first one.
    fn sides_fit(&self, f: u32) -> bool
        requires { (f % 3 ≡ 0) × (f + 3 ≤ self.now.t.corners) }
        ensures { result ≡ true → (i : ℕ) → f ≤ i → i < f + 3 → CornerFits (seen self.now.t) i }
    {
        let a = vertex_there(self.t.cv, Corner(f));
        let b = vertex_there(self.t.cv, Corner(f + 1));
        let c = vertex_there(self.t.cv, Corner(f + 2));
        self.corner_fits(Corner(f), a, b, c)
            && self.corner_fits(Corner(f + 1), b, c, a)
            && self.corner_fits(Corner(f + 2), c, a, b)
    }

    // The second and the third corner of a face have this mark.
    fn agree(&self, f: u32, mark: u32) -> bool
        requires { f + 3 ≤ self.now.t.corners }
        ensures { result ≡ (eqb (mark_at self.now.t.cm.now (f + 1)) mark && eqb (mark_at self.now.t.cm.now (f + 2)) mark) }
    {
        at_there(self.t.cm, f as usize + 1, 1) == mark
            && at_there(self.t.cm, f as usize + 2, 1) == mark
    }

    // R2 to R4 of a face, from its first corner.
    fn face_fits(&self, f: u32) -> bool
        requires { (f % 3 ≡ 0) × (f + 3 ≤ self.now.t.corners) }
        ensures { result ≡ true → (i : ℕ) → f ≤ i → i < f + 3 → Fits (seen self.now.t) i }
    {
        let mark = at_there(self.t.cm, f as usize, 1);
        self.agree(f, mark) && (mark == 1 || mark == 0 && self.sides_fit(f))
    }

    // R2 to R4 of all faces.
    fn faces_fit(&self) -> bool
        ensures { result ≡ true → (i : ℕ) → i < self.now.t.corners → Fits (seen self.now.t) i }
    {
        for f in 0..self.t.corners / 3 {
            if !self.face_fits(3 * f) {
                return false;
            }
        }
        true
    }
}

// R2 of the vertices.
fn marks_fit(vm: &[u32], nv: u32) -> bool
    ensures { result ≡ true → (i : ℕ) → i < nv → mark_test vm.now i ≡ true }
{
    (0..nv).all(|v| mark_test(vm, v))
}

// The tests that the quick pass settles pass at every slot, as far as it tells.
pub fn passes(t: &Seen) -> bool
    ensures { result ≡ true → (k : ℕ) → k < SETTLED → AllHold (test_at k) (seen t.now) }
{
    match Used::of(t) {
        Some(used) => marks_fit(t.vm, t.vertices) && used.faces_fit(),
        None => false,
    }
}
