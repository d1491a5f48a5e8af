// The records of the stored list that call the build and the run: what comes out is held to what they list.
#![tactic(auto)]

ghost use Rattle.std.specs.Prelude.{◌≡◌, length};
ghost use Rattle.refusal.specs.Refusal.{answer_of};
ghost use Rattle.table.specs.Parts.{lent, SameParts};
ghost use Rattle.builder.specs.Calls.{skipped_of};
ghost use Rattle.script.specs.Told.{answer_told, rule_told, slot_told};
ghost use Rattle.words.specs.Same.{one_unless};
ghost use Rattle.vectors_looks.specs.Judge.{two_are, three_are};
ghost use Rattle.vectors_changes.specs.Change.{played};
ghost use Rattle.vectors_calls.specs.Calls.{
  faces_of,
  built_as,
  build_right,
  build_left,
  script_of,
  answer_room,
  answer_fill,
  answers_as,
  answers_sized,
  ran_as,
  run_right,
  run_left,
};

use checker::Fault;
use refusal::Refusal;
use script::Unrun;
use table::{Lent, Seen, at};
use vectors_looks::{three_are, two_are};
use words::{first, holds, past, put_numbers};

// Whether word k and the next are the table's counts.
fn counts_are(t: &Seen, w: &[u32], k: u32) -> bool
    ensures { result ≡ two_are w.now k t.now.vertices t.now.corners }
{
    two_are(w, k, t.vertices as usize, t.corners as usize)
}

// ---- 4 build

#[tactic(auto, unfolding(crate::specs::Calls::faces_of))]
fn faces_of(w: &[u32]) -> &[u32]
    ensures { result.now ≡ faces_of w.now }
{
    past(w, 5 + at(w, 4, 0) as usize)
}

#[tactic(auto, unfolding(crate::specs::Calls::built_as))]
fn built_as(built: Result<usize, Refusal>, t: &Seen, w: &[u32]) -> bool
    ensures { result ≡ built_as w.now (answer_of built) (skipped_of built) t.now.vertices t.now.corners }
{
    let answer = refusal::answer(&built);
    let skipped = built.unwrap_or(0);
    two_are(w, 0, answer as usize, skipped) && counts_are(t, w, 2)
}

#[tactic(auto, unfolding(crate::specs::Calls::build_right))]
fn build_right(built: Result<usize, Refusal>, t: &Seen, w: &[u32], n: usize) -> bool
    ensures { result ≡ build_right w.now n (answer_of built) (skipped_of built) t.now.vertices t.now.corners }
{
    let p = at(w, 4, 0) as usize;
    built_as(built, t, w) && (n == p && 5 + p <= w.len())
}

// There is room for as many numbers as are listed.
#[tactic(auto, unfolding(crate::specs::Calls::build_left))]
pub fn replay_build(t: &mut Lent, w: &[u32], numbers: &mut [f32]) -> bool
    ensures parts { SameParts t.old t.new }
    ensures played { played (one_unless result) (lent t.new) ≡ build_left (lent t.old) w.now (length numbers.old) }
{
    put_numbers(past(w, 5), 0, numbers);
    let built = builder::build(t, numbers, faces_of(w));
    build_right(built, &t.seen(), w, numbers.len())
}

// ---- 6 run

#[tactic(auto, unfolding(crate::specs::Calls::script_of))]
fn script_of(w: &[u32]) -> &[u32]
    ensures { result.now ≡ script_of w.now }
{
    first(past(w, 6), at(w, 5, 0) as usize)
}

#[tactic(auto, unfolding(crate::specs::Calls::answer_room))]
pub fn answer_room(w: &[u32]) -> u32
    ensures { result ≡ answer_room w.now }
{
    at(w, 6 + at(w, 5, 0) as usize, 0)
}

#[tactic(auto, unfolding(crate::specs::Calls::answer_fill))]
fn answer_fill(w: &[u32]) -> u32
    ensures { result ≡ answer_fill w.now }
{
    at(w, 7 + at(w, 5, 0) as usize, 0)
}

#[tactic(auto, unfolding(crate::specs::Calls::answers_as))]
fn answers_as(w: &[u32], answers: &[u32]) -> bool
    ensures { result ≡ answers_as w.now answers.now }
{
    holds(answers, past(w, 8 + at(w, 5, 0) as usize), 0)
}

#[tactic(auto, unfolding(crate::specs::Calls::answers_sized))]
fn answers_sized(w: &[u32], n: usize) -> bool
    ensures { result ≡ answers_sized w.now n }
{
    let s = at(w, 5, 0) as usize;
    let a = answer_room(w) as usize;
    n == a && w.len() == 8 + s + a
}

fn told_as(ran: Result<(), Unrun>, w: &[u32]) -> bool
    ensures { result ≡ three_are w.now 0 (answer_told ran) (rule_told ran) (slot_told ran) }
{
    let broken = Refusal::NotWellFormed.number() as usize;
    match ran {
        Ok(()) => three_are(w, 0, 0, 0, 0),
        Err(Unrun::Misfit) => three_are(w, 0, Refusal::Misfit.number() as usize, 0, 0),
        Err(Unrun::Table(Fault::Parts)) => three_are(w, 0, Refusal::Parts.number() as usize, 0, 0),
        Err(Unrun::Table(Fault::Broken { rule, slot })) => {
            three_are(w, 0, broken, rule as usize, slot as usize)
        }
    }
}

#[tactic(auto, unfolding(crate::specs::Calls::ran_as))]
fn ran_as(ran: Result<(), Unrun>, t: &Seen, w: &[u32]) -> bool
    ensures { result ≡ ran_as w.now (answer_told ran) (rule_told ran) (slot_told ran) t.now.vertices t.now.corners }
{
    told_as(ran, w) && counts_are(t, w, 3)
}

#[tactic(auto, unfolding(crate::specs::Calls::run_right))]
fn run_right(ran: Result<(), Unrun>, t: &Seen, w: &[u32], answers: &[u32]) -> bool
    ensures { result ≡ run_right w.now answers.now (answer_told ran) (rule_told ran) (slot_told ran) t.now.vertices t.now.corners }
{
    ran_as(ran, t, w) && answers_as(w, answers) && answers_sized(w, answers.len())
}

// There is room for as many answer words as are listed.
#[tactic(auto, unfolding(crate::specs::Calls::run_left))]
pub fn replay_run(t: &mut Lent, w: &[u32], answers: &mut [u32]) -> bool
    ensures parts { SameParts t.old t.new }
    ensures played { played (one_unless result) (lent t.new) ≡ run_left (lent t.old) w.now (length answers.old) }
{
    answers.fill(answer_fill(w));
    let ran = script::run(t, script_of(w), answers);
    run_right(ran, &t.seen(), w, answers)
}
