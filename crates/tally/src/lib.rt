// Vertices, edges and faces of a table, counted; and the commands of a script, by their kind.
#![tactic(auto)]

ghost use Rattle.std.specs.Prelude.{◌≡◌, ℕ, Bool};
ghost use Rattle.table.specs.Parts.{seen};
ghost use Rattle.table.specs.Euler.{count as count_below, vertex_count, face_count, bare_count, edge_count};
ghost use Rattle.tally.specs.Tally.{bare as bare_of, paired as paired_of};
ghost use Rattle.tally.specs.Commands.{kind_of, number_of, of_kind as of_kind_in};

use corner::Corner;
use std::fmt;
use table::{Seen, at, is_live, opposite_of};

// How many numbers below n pass.
fn count<F: Fn(u32) -> bool>(n: u32, passes: F) -> u32
    requires { F.IsAlwaysCallable passes }
    ensures { (p : ℕ → Bool) → ((i : ℕ) (r : Bool) → F.post passes i r → r ≡ p i) → result ≡ count_below n p }
{
    let mut total = 0;
    for i in 0..n {
        total += u32::from(passes(i));
    }
    total
}

// ---- the table

// A live corner without an opposite; the next, one with. Each has a definition of its own.
#[tactic(auto, unfolding(crate::specs::Tally::bare))]
fn bare(t: &Seen, c: Corner) -> bool
    ensures { result ≡ bare_of t.now.co.now t.now.cm.now t.now.corners c.0 }
{
    is_live(t.cm, t.corners, c.index()) && opposite_of(t.co, c).is_absent()
}

// A live corner with one.
#[tactic(auto, unfolding(crate::specs::Tally::paired))]
fn paired(t: &Seen, c: Corner) -> bool
    ensures { result ≡ paired_of t.now.co.now t.now.cm.now t.now.corners c.0 }
{
    is_live(t.cm, t.corners, c.index()) && !opposite_of(t.co, c).is_absent()
}

#[derive(Clone, Copy, PartialEq, Eq)]
pub struct Sizes {
    pub vertices: u32,
    pub edges: u64,
    pub faces: u32,
    pub border: u32,
}

impl fmt::Display for Sizes {
    fn fmt<W: fmt::Write>(&self, f: &mut fmt::Formatter<W>) -> fmt::Result {
        let Sizes {
            vertices,
            edges,
            faces,
            border,
        } = *self;
        let sum = u64::from(vertices) + u64::from(faces);
        // V-E+F may be below nought.
        let sign = if edges > sum { "-" } else { "" };
        let euler = sum.abs_diff(edges);
        write!(
            f,
            "{vertices} vertices, {edges} edges, {faces} faces, V-E+F {sign}{euler}, {border} border edges"
        )
    }
}

// "Edges are live corners without opposite plus half of those with one."
#[tactic(auto, unfolding(table::specs::Euler::vertex_count, table::specs::Euler::face_count, table::specs::Euler::bare_count, table::specs::Euler::paired_count, table::specs::Euler::edge_count, crate::specs::Tally::bare, crate::specs::Tally::paired))]
pub fn tally(t: &Seen) -> Sizes
    ensures { (result.vertices ≡ vertex_count (seen t.now)) × (result.edges ≡ edge_count (seen t.now))
        × (result.faces ≡ face_count (seen t.now)) × (result.border ≡ bare_count (seen t.now)) }
{
    let vertices = count(t.vertices, |v| is_live(t.vm, t.vertices, v as usize));
    let faces = count(
        t.corners / 3,
        |f| is_live(t.cm, t.corners, 3 * (f as usize)),
    );
    let border = count(t.corners, |c| bare(t, Corner(c)));
    let inner = count(t.corners, |c| paired(t, Corner(c)));
    Sizes {
        vertices,
        edges: u64::from(border) + u64::from(inner) / 2,
        faces,
        border,
    }
}

// ---- the answers of a script

// The kinds of a command, and any other word.
#[derive(Clone, Copy, PartialEq, Eq)]
pub enum Kind {
    Collapse,
    Flip,
    SplitEdge,
    SplitFace,
    Unknown,
}

impl From<u32> for Kind {
    ghost from_gives = { λ word kind. number_of kind ≡ kind_of word };

    #[tactic(auto, unfolding(crate::specs::Commands::kind_of))]
    fn from(word: u32) -> Kind {
        match word {
            1 => Kind::Collapse,
            2 => Kind::Flip,
            3 => Kind::SplitEdge,
            4 => Kind::SplitFace,
            _ => Kind::Unknown,
        }
    }
}

impl fmt::Display for Kind {
    fn fmt<W: fmt::Write>(&self, f: &mut fmt::Formatter<W>) -> fmt::Result {
        f.write_str(match self {
            Kind::Collapse => "collapse edge",
            Kind::Flip => "flip edge",
            Kind::SplitEdge => "split edge",
            Kind::SplitFace => "split face",
            Kind::Unknown => "unknown kind",
        })
    }
}

// Whether command i is of the kind, and, unless all are asked for, answered 0.
#[tactic(auto, unfolding(crate::specs::Commands::of_kind))]
fn of_kind(script: &[u32], answers: &[u32], kind: Kind, all: bool, i: u32) -> bool
    ensures { result ≡ of_kind_in script.now answers.now (number_of kind) all i }
{
    let k = Kind::from(at(script, 5 * (i as usize), 0));
    k == kind && (all || at(answers, i as usize, 0) == 0)
}

// How many of the first n commands are of the kind, and, unless all are asked for, answered 0. Which is asked for is a bool, as the
// definition `of_kind` takes it.
pub fn commands(script: &[u32], answers: &[u32], kind: Kind, all: bool, n: u32) -> u32
    ensures { result ≡ count_below n (of_kind_in script.now answers.now (number_of kind) all) }
{
    count(n, |i| of_kind(script, answers, kind, all, i))
}
