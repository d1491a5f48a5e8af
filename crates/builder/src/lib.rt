// builder.rs: a table from points and faces, in lent memory.
#![tactic(auto)]

ghost use Rattle.std.specs.Prelude.{◌≡◌, ◌/◌, List, Float, length};
ghost use Rattle.refusal.specs.Refusal.{answer_of};
ghost use Rattle.table.specs.Table.{corner_room, vertex_room};
ghost use Rattle.table.specs.Parts.{SameParts, lent};
ghost use Rattle.builder_build.specs.Build.{built, go, build as build_of, finish as finish_of, faces as faces_of, start, laid};
ghost use Rattle.builder_fans.specs.Chains.{SameRooms};
ghost use Rattle.builder.specs.Calls.{skipped_of, outcome, faces_in, Begun, Fresh};

use builder_edges::points_refusal;
use refusal::Refusal;
use table::Lent;

// After the faces: duplicates, then deleted vertices. The marks hold the corners left until the duplicates are done.
fn finish(t: &mut Lent, skipped: usize) -> Result<usize, Refusal>
    requires { Begun (lent t.old) skipped }
    ensures parts { SameParts t.old t.new }
    ensures rooms { SameRooms (lent t.old) (lent t.new) }
    ensures finished { (points : List Float) → t.old.vp.now ≡ laid (vertex_room (lent t.old)) points
        → outcome (lent t.old) result (lent t.new)
        ≡ finish_of (corner_room (lent t.old)) (vertex_room (lent t.old)) t.old.vertices points (go (faces_in (lent t.old) skipped)) }
{
    let room = t.vm.len() as u32;
    builder_fans::mark_fans(t);
    builder_fans::thread_left(t);
    builder_fans::spread(t, room)?;
    t.cm.fill(0);
    t.vm.fill(0);
    builder_fans::isolate(t);
    Ok(skipped)
}

// Points, faces and the rest, on a blank table. One that is refused is left as it stands.
fn add_all(t: &mut Lent, points: &[f32], faces: &[u32]) -> Result<usize, Refusal>
    requires { Fresh (lent t.old) points.now }
    ensures parts { SameParts t.old t.new }
    ensures rooms { SameRooms (lent t.old) (lent t.new) }
    ensures added { outcome (lent t.old) result (lent t.new)
        ≡ finish_of (corner_room (lent t.old)) (vertex_room (lent t.old)) (length points.now / 3) points.now
        (faces_of (length points.now / 3) (corner_room (lent t.old)) (start (corner_room (lent t.old)) (vertex_room (lent t.old))) faces.now) }
{
    builder_faces::add_vertices(t.vp, points);
    let count = (points.len() / 3) as u32;
    let room = t.cm.len() as u32;
    let (cv, co, vc) = (&mut *t.cv, &mut *t.co, &mut *t.vc);
    let added = builder_faces::add_faces(cv, co, vc, count, room, faces)?;
    t.vertices = count;
    t.corners = added.corners;
    finish(t, added.skipped)
}

// Builds the lent table. Ok: how many faces were skipped. Refused for its parts it is as it was, and for all else blank.
pub fn build(t: &mut Lent, points: &[f32], faces: &[u32]) -> Result<usize, Refusal>
    ensures parts { SameParts t.old t.new }
    ensures built { built (answer_of result) (skipped_of result) (lent t.new)
        ≡ build_of (lent t.old) points.now faces.now }
{
    if !t.seen().is_shaped() || points.len() % 3 != 0 {
        return Err(Refusal::Parts);
    }
    t.blank();
    let over = t.vm.len() < points.len() / 3;
    points_refusal(over, !builder_faces::all_finite(points))?;
    let done = add_all(t, points, faces);
    if done.is_err() {
        t.blank();
    }
    done
}
