// builder.rs, first half: points and faces.
#![tactic(auto)]

ghost use Rattle.std.specs.Prelude.{◌≡◌, ◌+◌, ◌<◌, ◌≤◌, ◌%◌, length, set};
ghost use Rattle.std.proofs.lemmas.List.Edits.{sets};
ghost use Rattle.corner.specs.Told.{told};
ghost use Rattle.table.specs.Slots.{with_pair};
ghost use Rattle.builder_build.specs.Build.{all_finite, face as face_of, faces as faces_of};
ghost use Rattle.builder_faces.specs.Steps.{so_far, stepped};

use builder_edges::{Found, Triangle, find_edges, refusal};
use corner::Corner;
use refusal::Refusal;
use vertex::Vertex;

// ---- points

pub fn all_finite(points: &[f32]) -> bool
    ensures { result ≡ all_finite points.now }
{
    points.iter().all(|x| vertex::is_finite(*x))
}

// The points into the first slots. One by one: a copy of no fixed length by copy_from_slice is a call of memmove, which no caller need have.
pub fn add_vertices(vp: &mut [f32], points: &[f32])
    requires { length points.now ≤ length vp.old }
    ensures { vp.new ≡ sets vp.old 0 points.now }
{
    for (k, x) in points.iter().enumerate() {
        vp[k] = *x;
    }
}

// ---- one face

fn or_absent(o: Option<Corner>) -> Corner
    ensures { result.0 ≡ told o }
{
    o.unwrap_or(Corner::ABSENT)
}

// Each new corner with its mate, the corner whose edge runs the other way, if there is one.
fn set_opposites(co: &mut [u32], n: u32, f: Found)
    requires { n + 3 < 4294967296 }
    ensures { co.new ≡ with_pair (with_pair (with_pair co.old n (told f.cb)) (n + 1) (told f.ac)) (n + 2) (told f.ba) }
{
    table::make_corners_opposite(co, Corner(n), or_absent(f.cb));
    table::make_corners_opposite(co, Corner(n + 1), or_absent(f.ac));
    table::make_corners_opposite(co, Corner(n + 2), or_absent(f.ba));
}

// A vertex's corner is the last one made for it.
fn set_corners(vc: &mut [u32], n: u32, t: Triangle)
    requires { n + 3 < 4294967296 }
    ensures { vc.new ≡ set (set (set vc.old t.a.0 n) t.b.0 (n + 1)) t.c.0 (n + 2) }
{
    table::set_corner(vc, t.a, Corner(n));
    table::set_corner(vc, t.b, Corner(n + 1));
    table::set_corner(vc, t.c, Corner(n + 2));
}

// How many corners the faces so far have made, and how many faces were skipped.
#[derive(Clone, Copy)]
pub struct Added {
    pub corners: u32,
    pub skipped: usize,
}

// One face: refused, skipped or kept. The three parts go one by one, and not as a `Lent`: so no clause has to say that the others stay.
fn add_face(
    cv: &mut [u32],
    co: &mut [u32],
    vc: &mut [u32],
    count: u32,
    room: u32,
    k: Added,
    t: Triangle,
) -> Result<Added, Refusal>
    requires room_bound { room < 4294967293 }
    requires n_le_room { k.corners ≤ room }
    requires n_value { k.corners % 3 ≡ 0 }
    requires skipped_bound { k.skipped + 1 < 18446744073709551616 }
    ensures { stepped result cv.new co.new vc.new
        ≡ face_of count room (so_far cv.old co.old vc.old k.corners k.skipped) t.a.0 t.b.0 t.c.0 }
{
    refusal(!t.known(count), t.repeated())?;
    let n = k.corners;
    let f = find_edges(cv, n, t);
    if f.taken() {
        return Ok(Added {
            corners: n,
            skipped: k.skipped + 1,
        });
    }
    if room < n + 3 {
        return Err(Refusal::NoCornerRoom);
    }
    table::put_new(cv, n, [t.a.0, t.b.0, t.c.0]);
    set_opposites(co, n, f);
    set_corners(vc, n, t);
    Ok(Added {
        corners: n + 3,
        skipped: k.skipped,
    })
}

// All faces, in triples; one or two indices left at the end are ignored.
pub fn add_faces(
    cv: &mut [u32],
    co: &mut [u32],
    vc: &mut [u32],
    count: u32,
    room: u32,
    faces: &[u32],
) -> Result<Added, Refusal>
    requires { room < 4294967293 }
    ensures { stepped result cv.new co.new vc.new
        ≡ faces_of count room (so_far cv.old co.old vc.old 0 0) faces.now }
{
    let mut added = Added {
        corners: 0,
        skipped: 0,
    };
    let (triples, _) = faces.as_chunks::<3>();
    for &[a, b, c] in triples {
        let t = Triangle {
            a: Vertex(a),
            b: Vertex(b),
            c: Vertex(c),
        };
        added = add_face(cv, co, vc, count, room, added, t)?;
    }
    Ok(added)
}
