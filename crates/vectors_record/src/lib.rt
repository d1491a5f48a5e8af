// One record of the stored list, played on the current table: the call that it asks for is made, and what comes out is held to what it lists.
// Then the same on parts at their largest: it is lent as much of them as the current table has.
#![tactic(auto)]

ghost use Rattle.std.specs.Prelude.{◌≡◌, min, length};
ghost use Rattle.table.specs.Table.{table};
ghost use Rattle.table.specs.Parts.{lent, SameParts};
ghost use Rattle.words.specs.Same.{one_unless};
ghost use Rattle.vectors_list.specs.Op.{number_of};
ghost use Rattle.vectors_changes.specs.Change.{played};
ghost use Rattle.vectors_record.specs.Record.{record_left};
ghost use Rattle.vectors_record.specs.Replay.{number_count, list_count, Replayed};

use table::{Lent, at};
use vectors_calls::{answer_room, replay_build, replay_run};
use vectors_changes::{Rooms, replay_counts, replay_put, replay_rooms};
use vectors_list::Op;
use vectors_looks::look;

// A record on parts of the current lengths, with room for the numbers and the list that it lists: whether it comes out as listed.
// A record is data, and its op says which call it lists: so it is matched here.
#[tactic(auto, unfolding(crate::specs::Record::record_left))]
pub fn play(op: Op, t: &mut Lent, w: &[u32], numbers: &mut [f32], list: &mut [u32]) -> bool
    ensures parts { SameParts t.old t.new }
    ensures played { played (one_unless result) (lent t.new)
        ≡ record_left (number_of op) (lent t.old) w.now (length numbers.old) (length list.old) }
{
    match op {
        Op::Rooms => replay_rooms(t, w),
        Op::Counts => replay_counts(t, w),
        Op::Put => replay_put(t, w),
        Op::Build => replay_build(t, w, numbers),
        Op::Run => replay_run(t, w, list),
        Op::Check | Op::Ring | Op::Move | Op::Slots | Op::Unknown => look(op, &t.seen(), w, list),
    }
}

// How many numbers a record lists for the build.
#[tactic(auto, unfolding(crate::specs::Replay::number_count))]
fn number_count(op: Op, w: &[u32]) -> u32
    ensures { result ≡ number_count (number_of op) w.now }
{
    if op == Op::Build { at(w, 4, 0) } else { 0 }
}

// How long a list it lends to the run or the ring.
#[tactic(auto, unfolding(crate::specs::Replay::list_count))]
fn list_count(op: Op, w: &[u32]) -> u32
    ensures { result ≡ list_count (number_of op) w.now }
{
    match op {
        Op::Run => answer_room(w),
        Op::Ring => at(w, 5, 0),
        Op::Rooms
        | Op::Counts
        | Op::Put
        | Op::Build
        | Op::Check
        | Op::Move
        | Op::Slots
        | Op::Unknown => 0,
    }
}

// A record on parts that are lent one by one: whether it comes out as listed, and the counts after it. `replay` lends them so, since a
// `Lent` that is made of slices of another's fields gets no proof.
fn play_parts(
    op: Op,
    cv: &mut [u32],
    co: &mut [u32],
    cm: &mut [u32],
    vc: &mut [u32],
    vm: &mut [u32],
    vp: &mut [f32],
    vertices: u32,
    corners: u32,
    w: &[u32],
    numbers: &mut [f32],
    list: &mut [u32],
) -> (bool, u32, u32)
    ensures { played (one_unless result.0) (table cv.new co.new cm.new vc.new vm.new vp.new result.1 result.2)
        ≡ record_left (number_of op) (table cv.old co.old cm.old vc.old vm.old vp.old vertices corners) w.now
        (length numbers.old) (length list.old) }
{
    let mut t = Lent {
        cv,
        co,
        cm,
        vc,
        vm,
        vp,
        vertices,
        corners,
    };
    let right = play(op, &mut t, w, numbers, list);
    (right, t.vertices, t.corners)
}

// A record on parts, numbers and a list at their largest, of which it is lent the first entries.
pub fn replay(
    op: Op,
    n: Rooms,
    t: &mut Lent,
    w: &[u32],
    numbers: &mut [f32],
    list: &mut [u32],
) -> bool
    ensures parts { SameParts t.old t.new }
    ensures replayed { Replayed n (number_of op) (lent t.old) w.now
        (min (number_count (number_of op) w.now) (length numbers.old)) (min (list_count (number_of op) w.now) (length list.old))
        (one_unless result) (lent t.new) }
{
    let a = (n.cv as usize).min(t.cv.len());
    let b = (n.co as usize).min(t.co.len());
    let c = (n.cm as usize).min(t.cm.len());
    let d = (n.vc as usize).min(t.vc.len());
    let e = (n.vm as usize).min(t.vm.len());
    let f = (n.vp as usize).min(t.vp.len());
    let p = (number_count(op, w) as usize).min(numbers.len());
    let q = (list_count(op, w) as usize).min(list.len());
    let (right, vertices, corners) = play_parts(
        op,
        &mut t.cv[..a],
        &mut t.co[..b],
        &mut t.cm[..c],
        &mut t.vc[..d],
        &mut t.vm[..e],
        &mut t.vp[..f],
        t.vertices,
        t.corners,
        w,
        &mut numbers[..p],
        &mut list[..q],
    );
    t.vertices = vertices;
    t.corners = corners;
    right
}
