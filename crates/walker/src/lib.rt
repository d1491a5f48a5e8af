// walker.rs: a walker stands at one corner, and is moved to the next, the previous or the opposite corner, or swings about its vertex.
// The lent table goes beside it.
#![tactic(auto)]

ghost use Rattle.std.specs.Prelude.{◌≡◌, true, false, IfOk, IfErr};
ghost use Rattle.refusal.specs.Refusal.{answer_of};
ghost use Rattle.refusal.specs.declared.Refusal.TheVariants.{Tangled};
ghost use Rattle.table.specs.Parts.{seen};
ghost use Rattle.table.specs.Table.{live};
ghost use Rattle.walker.specs.Told.{told, told_step};
ghost use Rattle.walker.specs.Walker.{refusal as refusal_of, step_over, swing_to, moved_by};

use corner::Corner;
use refusal::Refusal;
use table::{Seen, is_live, opposite_of};

#[derive(Clone, Copy, PartialEq, Eq)]
pub enum Move {
    Next,
    Previous,
    Opposite,
    SwingLeft,
    SwingRight,
}

// A walker: one corner number.
#[derive(Clone, Copy, PartialEq, Eq)]
pub struct Walker {
    pub corner: Corner,
}

// ---- steps

// To slot i, which has to be live.
#[tactic(auto, using(table::proofs::Lives::live_true))]
fn step_to(t: &Seen, i: usize) -> Result<Corner, Refusal>
    ensures ok { IfOk result (λ d. (d.0 ≡ i) × (live t.now.cm.now t.now.corners i ≡ true)) }
    ensures err { IfErr result (λ e. (e ≡ Tangled) × (live t.now.cm.now t.now.corners i ≡ false)) }
{
    if is_live(t.cm, t.corners, i) {
        Ok(Corner(i as u32))
    } else {
        Err(Refusal::Tangled)
    }
}

// An absent opposite makes the walker stay.
#[tactic(auto, unfolding(crate::specs::Walker::step_over, crate::specs::Walker::step_to))]
fn cross(t: &Seen, from: Corner) -> Result<Option<Corner>, Refusal>
    ensures { told from.0 result ≡ step_over (seen t.now).corner_opposite (seen t.now).corner_mark t.now.corners from.0 }
{
    let Some(o) = opposite_of(t.co, from).present() else {
        return Ok(None);
    };
    Ok(Some(step_to(t, o.index())?))
}

// next, opposite, next; or previous, opposite, previous.
#[tactic(auto, unfolding(crate::specs::Walker::swing_to, crate::specs::Walker::step_to))]
fn swing(left: bool, t: &Seen, from: Corner) -> Result<Option<Corner>, Refusal>
    ensures { told from.0 result ≡ swing_to left (seen t.now).corner_opposite (seen t.now).corner_mark t.now.corners from.0 }
{
    let via = step_to(t, from.turn_index(left))?;
    let Some(o) = opposite_of(t.co, via).present() else {
        return Ok(None);
    };
    let o = step_to(t, o.index())?;
    Ok(Some(step_to(t, o.turn_index(left))?))
}

// The refusals that every move begins with. A count is of no kind: the corner's number is held to it.
#[tactic(auto, unfolding(crate::specs::Walker::refusal, crate::specs::Walker::standing))]
fn stands(t: &Seen, corner: Corner) -> Result<(), Refusal>
    ensures { answer_of result ≡ refusal_of (seen t.now) corner.0 }
{
    if !t.is_shaped() {
        return Err(Refusal::Parts);
    }
    if !(corner.0 < t.corners && corner.index() < t.cm.len()) {
        return Err(Refusal::NoTarget);
    }
    if table::at(t.cm, corner.index(), 1) == 0 {
        Ok(())
    } else {
        Err(Refusal::Deleted)
    }
}

// ---- moves

// Where a move leads from a corner: nowhere past an absent opposite. Refused, the walker stands where it was.
#[tactic(auto, unfolding(crate::specs::Walker::unless, crate::specs::Walker::step_to))]
pub fn moved(to: Move, t: &Seen, from: Corner) -> Result<Option<Corner>, Refusal>
    ensures { told from.0 result ≡ moved_by to (seen t.now) from.0 }
{
    stands(t, from)?;
    match to {
        Move::Next => Ok(Some(step_to(t, from.next_index())?)),
        Move::Previous => Ok(Some(step_to(t, from.previous_index())?)),
        Move::Opposite => cross(t, from),
        Move::SwingLeft => swing(true, t, from),
        Move::SwingRight => swing(false, t, from),
    }
}

impl Walker {
    // Moves the walker in place, and tells whether it moved.
    pub fn go(&mut self, to: Move, t: &Seen) -> Result<bool, Refusal>
        ensures step { told_step result ≡ (moved_by to (seen t.now) self.old.corner.0).step }
        ensures corner { self.new.corner ≡ (moved_by to (seen t.now) self.old.corner.0).corner }
    {
        match moved(to, t, self.corner)? {
            Some(d) => {
                self.corner = d;
                Ok(true)
            }
            None => Ok(false),
        }
    }
}
