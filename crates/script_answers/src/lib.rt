// What stands in a command's way: its checks in their order. Where none refuses, `script_step` does the command.
#![tactic(auto)]

ghost use Rattle.std.specs.Prelude.{◌≡◌};
ghost use Rattle.refusal.specs.Refusal.{answer_of};
ghost use Rattle.table.specs.Parts.{seen};
ghost use Rattle.script_command.specs.Checks.{first as first_of};
ghost use Rattle.script_answers.specs.Answers.{corner_target, face_target, not_finite, no_room, no_opposite, same_wings};
ghost use Rattle.script_answers.specs.Answers.{flip_answer, collapse_answer, split_edge_answer, split_face_answer};

use corner::{Corner, Face};
use edge_collapse::Judgement;
use refusal::Refusal;
use script_command::{corners_for, room_for, targeted};
use table::Seen;
use vertex::Point;

// ---- the checks: a count is of no kind, and a target's number is held to it

fn corner_target(t: &Seen, c: Corner) -> Result<(), Refusal>
    ensures { answer_of result ≡ corner_target (seen t.now) c.0 }
{
    targeted(c.0 < t.corners, table::at(t.cm, c.0 as usize, 1))
}

fn face_target(t: &Seen, f: Face) -> Result<(), Refusal>
    ensures { answer_of result ≡ face_target (seen t.now) f.0 }
{
    targeted(f.0 < t.corners / 3, table::at(t.cm, 3 * (f.0 as usize), 1))
}

fn not_finite(p: Point) -> Result<(), Refusal>
    ensures { answer_of result ≡ not_finite p }
{
    if p.finite() {
        Ok(())
    } else {
        Err(Refusal::NotFinite)
    }
}

fn no_opposite(t: &Seen, c: Corner) -> Result<(), Refusal>
    ensures { answer_of result ≡ no_opposite (seen t.now) c.0 }
{
    if table::opposite_of(t.co, c).is_absent() {
        Err(Refusal::Border)
    } else {
        Ok(())
    }
}

fn same_wings(t: &Seen, c: Corner) -> Result<(), Refusal>
    ensures { answer_of result ≡ same_wings (seen t.now) c.0 }
{
    let o = table::opposite_of(t.co, c);
    if table::vertex_of(t.cv, c) == table::vertex_of(t.cv, o) {
        Err(Refusal::SameVertex)
    } else {
        Ok(())
    }
}

fn no_room(t: &Seen, n: u32) -> Result<(), Refusal>
    ensures { answer_of result ≡ no_room (seen t.now) n }
{
    room_for(t.vertices, t.vm.len(), t.corners, t.cm.len(), n)
}

// A new vertex at p, and n new corners.
#[tactic(auto, using(script_command::proofs::Chain::chain))]
fn no_place(t: &Seen, p: Point, n: u32) -> Result<(), Refusal>
    ensures { answer_of result ≡ first_of (not_finite p) (no_room (seen t.now) n) }
{
    not_finite(p)?;
    no_room(t, n)
}

// ---- the kinds

#[tactic(auto, using(script_command::proofs::Chain::chain), unfolding(crate::specs::Answers::flip_answer))]
pub fn flip_answer(t: &Seen, c: Corner) -> Result<(), Refusal>
    ensures { answer_of result ≡ flip_answer (seen t.now) c.0 }
{
    corner_target(t, c)?;
    no_opposite(t, c)?;
    same_wings(t, c)
}

#[tactic(auto, using(script_command::proofs::Chain::chain), unfolding(crate::specs::Answers::split_edge_answer))]
pub fn split_edge_answer(t: &Seen, c: Corner, p: Point) -> Result<(), Refusal>
    ensures { answer_of result ≡ split_edge_answer (seen t.now) c.0 p }
{
    corner_target(t, c)?;
    let n = corners_for(table::opposite_of(t.co, c));
    no_place(t, p, n)
}

#[tactic(auto, using(script_command::proofs::Chain::chain), unfolding(crate::specs::Answers::split_face_answer))]
pub fn split_face_answer(t: &Seen, f: Face, p: Point) -> Result<(), Refusal>
    ensures { answer_of result ≡ split_face_answer (seen t.now) f.0 p }
{
    face_target(t, f)?;
    no_place(t, p, 6)
}

#[tactic(auto, using(crate::proofs::Told::told), unfolding(crate::specs::Answers::collapse_answer))]
pub fn collapse_answer(t: &Seen, c: Corner, p: Point) -> Result<(), Refusal>
    ensures { answer_of result ≡ collapse_answer (seen t.now) c.0 p }
{
    // The rings are walked only where no cheaper check refuses.
    corner_target(t, c)?;
    not_finite(p)?;
    match edge_collapse::judge(t, c) {
        Judgement::Boundary => Err(Refusal::Border),
        Judgement::Unsafe => {
            same_wings(t, c)?;
            Err(Refusal::Unsafe)
        }
        Judgement::Safe => same_wings(t, c),
    }
}
