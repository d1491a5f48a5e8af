// The archive for C: every entry point, with the parts of a table one by one. Each takes any bytes, and none has a `requires`; what it answers
// and leaves is the contract of the function that it calls. include/strandomir.h says the same for a caller in C.
//
// The parts of a table: the corners' vertices, opposites and marks (cv, co, cm), the vertices' corners, marks and points (vc, vm, vp). The
// parts, the counts, a corner and a vertex go one by one, since C knows no `Lent`, `Seen`, `Corner` or `Vertex`: the calls for rings and moves
// differ in one name each, since C has a name for each.
#![tactic(auto)]

ghost use Rattle.std.specs.Prelude.{◌≡◌};
ghost use Rattle.builder_build.specs.Build.{built, build as build_of};
ghost use Rattle.checker.specs.Order.{verdict_of};
ghost use Rattle.script.specs.Run.{RunOutcome};
ghost use Rattle.traversal.specs.Ring.{ring_of};
ghost use Rattle.traversal_lists.specs.declared.Kind.TheVariants.{Corners, Vertices, Faces, Edges, BoundingEdges};
ghost use Rattle.walker.specs.Walker.{to_next, to_previous, to_opposite, swung_left, swung_right};
ghost use Rattle.strandomir.specs.Told.{verdict, listing, MovedBy};
ghost use Rattle.strandomir_c.specs.Lent.{before, after, seen};

use strandomir::{Built, Checked, Listed, Moved, Ran};
use table::{Lent, Seen};
use traversal_lists::Kind;
use vertex::Vertex;
use walker::Move;

// ---- build, check, run

// Takes any six parts with their counts, points (three numbers each) and faces (three vertices each). Answers 0, 1, 2, 3, 4, 5 or 6,
// the faces skipped and the new counts. Leaves the table built; blank, where it is refused; untouched, where the answer is 1.
#[unsafe(no_mangle)]
pub extern "C" fn strandomir_build(
    cv: &mut [u32],
    co: &mut [u32],
    cm: &mut [u32],
    vc: &mut [u32],
    vm: &mut [u32],
    vp: &mut [f32],
    vertices: u32,
    corners: u32,
    points: &[f32],
    faces: &[u32],
) -> Built
    ensures { built result.answer result.skipped (after cv co cm vc vm vp result.vertices result.corners)
        ≡ build_of (before cv co cm vc vm vp vertices corners) points.now faces.now }
{
    let mut t = Lent {
        cv,
        co,
        cm,
        vc,
        vm,
        vp,
        vertices,
        corners,
    };
    let result = builder::build(&mut t, points, faces);
    Built::new(result, t.vertices, t.corners)
}

// Takes any table. Answers 0 where it is well-formed, 1, or 7 with the lowest broken rule and the lowest slot that breaks it.
// It only reads.
#[unsafe(no_mangle)]
pub extern "C" fn strandomir_check(
    cv: &[u32],
    co: &[u32],
    cm: &[u32],
    vc: &[u32],
    vm: &[u32],
    vp: &[f32],
    vertices: u32,
    corners: u32,
) -> Checked
    ensures { verdict result ≡ verdict_of (seen cv co cm vc vm vp vertices corners) }
{
    let t = Seen {
        cv,
        co,
        cm,
        vc,
        vm,
        vp,
        vertices,
        corners,
    };
    checker::check(&t).into()
}

// Takes any table, a script of five words a command, and room for one answer word each. Answers 0, 1, 8, or 7 with rule and slot, and the
// counts after it. Leaves a well-formed table, V−E+F as it was, and an answer word for each command; after 1, 8 or 7 all is untouched.
#[unsafe(no_mangle)]
pub extern "C" fn strandomir_run(
    cv: &mut [u32],
    co: &mut [u32],
    cm: &mut [u32],
    vc: &mut [u32],
    vm: &mut [u32],
    vp: &mut [f32],
    vertices: u32,
    corners: u32,
    script: &[u32],
    answers: &mut [u32],
) -> Ran
    ensures { RunOutcome script.now answers.old (before cv co cm vc vm vp vertices corners)
        result.answer result.rule result.slot answers.new (after cv co cm vc vm vp result.vertices result.corners) }
{
    let mut t = Lent {
        cv,
        co,
        cm,
        vc,
        vm,
        vp,
        vertices,
        corners,
    };
    let result = script::run(&mut t, script, answers);
    Ran::new(result, t.vertices, t.corners)
}

// ---- rings
//
// Each takes any table, a vertex and a lent list. It answers 0, 1, 9, 10, 15 or 16, how many corners the walk visited and how many entries
// it wrote, and leaves those at the front of the list. The table is only read; a refused call writes nothing.

// The corners around a vertex.
#[unsafe(no_mangle)]
pub extern "C" fn strandomir_ring_corners(
    cv: &[u32],
    co: &[u32],
    cm: &[u32],
    vc: &[u32],
    vm: &[u32],
    vp: &[f32],
    vertices: u32,
    corners: u32,
    vertex: u32,
    list: &mut [u32],
) -> Listed
    ensures { listing result list.new ≡ ring_of Corners vertex (seen cv co cm vc vm vp vertices corners)
        list.old }
{
    let t = Seen {
        cv,
        co,
        cm,
        vc,
        vm,
        vp,
        vertices,
        corners,
    };
    traversal::ring(Kind::Corners, &t, Vertex(vertex), list).into()
}

// The vertices next to a vertex.
#[unsafe(no_mangle)]
pub extern "C" fn strandomir_ring_vertices(
    cv: &[u32],
    co: &[u32],
    cm: &[u32],
    vc: &[u32],
    vm: &[u32],
    vp: &[f32],
    vertices: u32,
    corners: u32,
    vertex: u32,
    list: &mut [u32],
) -> Listed
    ensures { listing result list.new ≡ ring_of Vertices vertex (seen cv co cm vc vm vp vertices corners)
        list.old }
{
    let t = Seen {
        cv,
        co,
        cm,
        vc,
        vm,
        vp,
        vertices,
        corners,
    };
    traversal::ring(Kind::Vertices, &t, Vertex(vertex), list).into()
}

// The faces around a vertex.
#[unsafe(no_mangle)]
pub extern "C" fn strandomir_ring_faces(
    cv: &[u32],
    co: &[u32],
    cm: &[u32],
    vc: &[u32],
    vm: &[u32],
    vp: &[f32],
    vertices: u32,
    corners: u32,
    vertex: u32,
    list: &mut [u32],
) -> Listed
    ensures { listing result list.new ≡ ring_of Faces vertex (seen cv co cm vc vm vp vertices corners)
        list.old }
{
    let t = Seen {
        cv,
        co,
        cm,
        vc,
        vm,
        vp,
        vertices,
        corners,
    };
    traversal::ring(Kind::Faces, &t, Vertex(vertex), list).into()
}

// The edges at a vertex, each as its corner.
#[unsafe(no_mangle)]
pub extern "C" fn strandomir_ring_edges(
    cv: &[u32],
    co: &[u32],
    cm: &[u32],
    vc: &[u32],
    vm: &[u32],
    vp: &[f32],
    vertices: u32,
    corners: u32,
    vertex: u32,
    list: &mut [u32],
) -> Listed
    ensures { listing result list.new ≡ ring_of Edges vertex (seen cv co cm vc vm vp vertices corners)
        list.old }
{
    let t = Seen {
        cv,
        co,
        cm,
        vc,
        vm,
        vp,
        vertices,
        corners,
    };
    traversal::ring(Kind::Edges, &t, Vertex(vertex), list).into()
}

// The edges opposite a vertex, each as its corner.
#[unsafe(no_mangle)]
pub extern "C" fn strandomir_ring_bounding_edges(
    cv: &[u32],
    co: &[u32],
    cm: &[u32],
    vc: &[u32],
    vm: &[u32],
    vp: &[f32],
    vertices: u32,
    corners: u32,
    vertex: u32,
    list: &mut [u32],
) -> Listed
    ensures { listing result list.new ≡ ring_of BoundingEdges vertex (seen cv co cm vc vm vp vertices corners)
        list.old }
{
    let t = Seen {
        cv,
        co,
        cm,
        vc,
        vm,
        vp,
        vertices,
        corners,
    };
    traversal::ring(Kind::BoundingEdges, &t, Vertex(vertex), list).into()
}

// ---- moves
//
// Each takes the corner that a walker stands at, and any table. It answers 0, 1, 9, 10 or 15 and whether the walker moved, and leaves the
// corner that it moved to: the old one after a refusal, and where there is no opposite. The table is only read.

// To the next corner of the face.
#[unsafe(no_mangle)]
pub extern "C" fn strandomir_move_to_next<'s, 'a>(
    corner: &'s mut u32,
    cv: &'a [u32],
    co: &'a [u32],
    cm: &'a [u32],
    vc: &'a [u32],
    vm: &'a [u32],
    vp: &'a [f32],
    vertices: u32,
    corners: u32,
) -> Moved
    ensures { MovedBy (to_next (seen cv co cm vc vm vp vertices corners)
        corner.old) result corner.new }
{
    let t = Seen {
        cv,
        co,
        cm,
        vc,
        vm,
        vp,
        vertices,
        corners,
    };
    strandomir::go(Move::Next, &t, corner)
}

// To the previous corner of the face.
#[unsafe(no_mangle)]
pub extern "C" fn strandomir_move_to_previous<'s, 'a>(
    corner: &'s mut u32,
    cv: &'a [u32],
    co: &'a [u32],
    cm: &'a [u32],
    vc: &'a [u32],
    vm: &'a [u32],
    vp: &'a [f32],
    vertices: u32,
    corners: u32,
) -> Moved
    ensures { MovedBy (to_previous (seen cv co cm vc vm vp vertices corners)
        corner.old) result corner.new }
{
    let t = Seen {
        cv,
        co,
        cm,
        vc,
        vm,
        vp,
        vertices,
        corners,
    };
    strandomir::go(Move::Previous, &t, corner)
}

// Across the edge that the corner names.
#[unsafe(no_mangle)]
pub extern "C" fn strandomir_move_to_opposite<'s, 'a>(
    corner: &'s mut u32,
    cv: &'a [u32],
    co: &'a [u32],
    cm: &'a [u32],
    vc: &'a [u32],
    vm: &'a [u32],
    vp: &'a [f32],
    vertices: u32,
    corners: u32,
) -> Moved
    ensures { MovedBy (to_opposite (seen cv co cm vc vm vp vertices corners)
        corner.old) result corner.new }
{
    let t = Seen {
        cv,
        co,
        cm,
        vc,
        vm,
        vp,
        vertices,
        corners,
    };
    strandomir::go(Move::Opposite, &t, corner)
}

// About the vertex to the left: next, opposite, next.
#[unsafe(no_mangle)]
pub extern "C" fn strandomir_swing_left_or_stay<'s, 'a>(
    corner: &'s mut u32,
    cv: &'a [u32],
    co: &'a [u32],
    cm: &'a [u32],
    vc: &'a [u32],
    vm: &'a [u32],
    vp: &'a [f32],
    vertices: u32,
    corners: u32,
) -> Moved
    ensures { MovedBy (swung_left (seen cv co cm vc vm vp vertices corners)
        corner.old) result corner.new }
{
    let t = Seen {
        cv,
        co,
        cm,
        vc,
        vm,
        vp,
        vertices,
        corners,
    };
    strandomir::go(Move::SwingLeft, &t, corner)
}

// About the vertex to the right: previous, opposite, previous.
#[unsafe(no_mangle)]
pub extern "C" fn strandomir_swing_right_or_stay<'s, 'a>(
    corner: &'s mut u32,
    cv: &'a [u32],
    co: &'a [u32],
    cm: &'a [u32],
    vc: &'a [u32],
    vm: &'a [u32],
    vp: &'a [f32],
    vertices: u32,
    corners: u32,
) -> Moved
    ensures { MovedBy (swung_right (seen cv co cm vc vm vp vertices corners)
        corner.old) result corner.new }
{
    let t = Seen {
        cv,
        co,
        cm,
        vc,
        vm,
        vp,
        vertices,
        corners,
    };
    strandomir::go(Move::SwingRight, &t, corner)
}
