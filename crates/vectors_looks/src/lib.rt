// The records of the stored list that only look at the table: the call that a record asks for is made, and what comes out is held to what
// it lists.
#![tactic(auto)]

ghost use Rattle.std.specs.Prelude.{◌≡◌, List, ℕ, length};
ghost use Rattle.table.specs.Parts.{seen};
ghost use Rattle.checker.specs.Told.{told as verdict_told};
ghost use Rattle.traversal_lists.specs.Outcome.{outcome};
ghost use Rattle.walker.specs.Told.{told_step};
ghost use Rattle.vectors_list.specs.Op.{number_of};
ghost use Rattle.vectors_looks.specs.Judge.{two_are, three_are, checked_as, ringed_as, moved_as};
ghost use Rattle.vectors_looks.specs.Look.{
  ring_kind_of,
  move_kind_of,
  next_part,
  part_right,
  points_right,
  corners_right,
  vertices_right,
  check_right,
  ring_as,
  ring_right,
  move_right,
  slots_right,
  look_right,
};

use checker::Fault;
use corner::Corner;
use refusal::Refusal;
use table::{Seen, at};
use traversal_lists::{Kind, Ring};
use vectors_list::Op;
use vertex::Vertex;
use walker::{Move, Walker};
use words::{first, hold_numbers, holds, past};

// ---- what is listed

// Whether the words from k on are these.
#[tactic(auto, unfolding(crate::specs::Judge::two_are, crate::specs::Judge::word_is))]
pub fn two_are(w: &[u32], k: u32, a: usize, b: usize) -> bool
    ensures { result ≡ two_are w.now k a b }
{
    let i = k as usize;
    at(w, i, 0) as usize == a && at(w, i + 1, 0) as usize == b
}

#[tactic(auto, unfolding(crate::specs::Judge::three_are, crate::specs::Judge::word_is))]
pub fn three_are(w: &[u32], k: u32, a: usize, b: usize, c: usize) -> bool
    ensures { result ≡ three_are w.now k a b c }
{
    two_are(w, k, a, b) && at(w, k as usize + 2, 0) as usize == c
}

#[tactic(auto, unfolding(crate::specs::Judge::checked_as))]
fn checked_as(found: Result<(), Fault>, w: &[u32]) -> bool
    ensures { result ≡ checked_as w.now (verdict_told found) }
{
    match found {
        Ok(()) => three_are(w, 0, 0, 0, 0),
        Err(Fault::Parts) => three_are(w, 0, Refusal::Parts.number() as usize, 0, 0),
        Err(Fault::Broken { rule, slot }) => three_are(
            w,
            0,
            Refusal::NotWellFormed.number() as usize,
            rule as usize,
            slot as usize,
        ),
    }
}

#[tactic(auto, unfolding(crate::specs::Judge::moved_as))]
fn moved_as(went: Result<bool, Refusal>, there: Corner, w: &[u32]) -> bool
    ensures { result ≡ moved_as w.now (record { corner = there; step = told_step went }) }
{
    match went {
        Ok(moved) => three_are(w, 2, 0, usize::from(moved), there.0 as usize),
        Err(e) => three_are(w, 2, e.number() as usize, 0, there.0 as usize),
    }
}

// ---- 5 check

#[tactic(auto, unfolding(crate::specs::Look::check_right))]
fn replay_check(t: &Seen, w: &[u32]) -> bool
    ensures { result ≡ check_right (seen t.now) w.now }
{
    checked_as(checker::check(t), w) && w.len() == 3
}

// ---- 7 ring

// No `From`: any other word stands for the last kind in this list alone, and is held to be wrong besides.
#[tactic(auto, unfolding(crate::specs::Look::ring_kind_of))]
fn ring_kind(word: u32) -> Kind
    ensures { result ≡ ring_kind_of word }
{
    match word {
        0 => Kind::Corners,
        1 => Kind::Vertices,
        2 => Kind::Faces,
        3 => Kind::Edges,
        _ => Kind::BoundingEdges,
    }
}

// A refused ring visits and writes nothing.
#[tactic(auto, unfolding(crate::specs::Judge::ringed_as))]
fn ringed_as(ring: &Result<Ring, Refusal>, w: &[u32]) -> bool
    ensures { (list : List ℕ) → result ≡ ringed_as w.now (outcome ring.now list).answer (outcome ring.now list).visited (outcome ring.now list).written }
{
    match ring {
        Ok(r) => three_are(w, 2, 0, r.visited as usize, r.written as usize),
        Err(e) => three_are(w, 2, e.number() as usize, 0, 0),
    }
}

// Whether the list has the listed length, begins with the words and holds the fill after them.
#[tactic(auto, unfolding(crate::specs::Look::ring_as, crate::specs::Judge::word_is))]
fn ring_as(ring: Result<Ring, Refusal>, w: &[u32], list: &[u32]) -> bool
    ensures { result ≡ ring_as w.now (outcome ring list.now) }
{
    (ringed_as(&ring, w) && holds(list, past(w, 7), at(w, 6, 0)))
        && (at(w, 0, 0) < 5 && at(w, 5, 0) as usize == list.len())
}

// The list has the listed length.
#[tactic(auto, unfolding(crate::specs::Look::ring_right))]
fn replay_ring(t: &Seen, w: &[u32], list: &mut [u32]) -> bool
    ensures { result ≡ ring_right (seen t.now) (length list.old) w.now }
{
    list.fill(at(w, 6, 0));
    let ring = traversal::ring(ring_kind(at(w, 0, 0)), t, Vertex(at(w, 1, 0)), list);
    ring_as(ring, w, list)
}

// ---- 8 move

// No `From`, as for a ring's kind.
#[tactic(auto, unfolding(crate::specs::Look::move_kind_of))]
fn move_kind(word: u32) -> Move
    ensures { result ≡ move_kind_of word }
{
    match word {
        0 => Move::Next,
        1 => Move::Previous,
        2 => Move::Opposite,
        3 => Move::SwingLeft,
        _ => Move::SwingRight,
    }
}

// A walker is made at the corner, and goes in place.
#[tactic(auto, using(crate::proofs::Moves::same_move), unfolding(crate::specs::Look::move_right))]
fn replay_move(t: &Seen, w: &[u32]) -> bool
    ensures { result ≡ move_right (seen t.now) w.now }
{
    let kind = at(w, 0, 0);
    let mut walker = Walker {
        corner: Corner(at(w, 1, 0)),
    };
    let went = walker.go(move_kind(kind), t);
    moved_as(went, walker.corner, w) && kind < 5 && w.len() == 5
}

// ---- 9 slots

// Each part is rest, m, m words: where the next begins.
#[tactic(auto, unfolding(crate::specs::Look::next_part))]
fn next_part(w: &[u32]) -> &[u32]
    ensures { result.now ≡ next_part w.now }
{
    past(w, 2 + at(w, 1, 0) as usize)
}

// Whether all its words are there, and the part holds them.
#[tactic(auto, unfolding(crate::specs::Look::part_right, crate::specs::Look::whole_part))]
fn part_right(part: &[u32], w: &[u32]) -> bool
    ensures { result ≡ part_right part.now w.now }
{
    let m = at(w, 1, 0) as usize;
    2 + m <= w.len() && holds(part, first(past(w, 2), m), at(w, 0, 0))
}

// The same of floats, which are held to the words as bits: three lines over `hold_numbers`, as the other is over `holds`.
#[tactic(auto, unfolding(crate::specs::Look::points_right, crate::specs::Look::whole_part))]
fn points_right(part: &[f32], w: &[u32]) -> bool
    ensures { result ≡ points_right part.now w.now }
{
    let m = at(w, 1, 0) as usize;
    2 + m <= w.len() && hold_numbers(part, first(past(w, 2), m), at(w, 0, 0))
}

#[tactic(auto, unfolding(crate::specs::Look::corners_right))]
fn corners_right(t: &Seen, w: &[u32]) -> bool
    ensures { result ≡ corners_right t.now.cv.now t.now.co.now t.now.cm.now w.now }
{
    let second = next_part(w);
    let third = next_part(second);
    part_right(t.cv, w) && part_right(t.co, second) && part_right(t.cm, third)
}

// The points are the last: nothing follows them.
#[tactic(auto, unfolding(crate::specs::Look::vertices_right))]
fn vertices_right(t: &Seen, w: &[u32]) -> bool
    ensures { result ≡ vertices_right t.now.vc.now t.now.vm.now t.now.vp.now w.now }
{
    let second = next_part(w);
    let third = next_part(second);
    (part_right(t.vc, w) && part_right(t.vm, second))
        && (points_right(t.vp, third) && next_part(third).is_empty())
}

#[tactic(auto, unfolding(crate::specs::Look::slots_right))]
fn replay_slots(t: &Seen, w: &[u32]) -> bool
    ensures { result ≡ slots_right t.now.cv.now t.now.co.now t.now.cm.now t.now.vc.now t.now.vm.now t.now.vp.now w.now }
{
    corners_right(t, w) && vertices_right(t, next_part(next_part(next_part(w))))
}

// The records that only look at the table. An unknown op is wrong.
#[tactic(auto, unfolding(crate::specs::Look::look_right))]
pub fn look(op: Op, t: &Seen, w: &[u32], list: &mut [u32]) -> bool
    ensures { result ≡ look_right (number_of op) (seen t.now) (length list.old) w.now }
{
    match op {
        Op::Check => replay_check(t, w),
        Op::Ring => replay_ring(t, w, list),
        Op::Move => replay_move(t, w),
        Op::Slots => replay_slots(t, w),
        Op::Rooms | Op::Counts | Op::Put | Op::Build | Op::Run | Op::Unknown => false,
    }
}
