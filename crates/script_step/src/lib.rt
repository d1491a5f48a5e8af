// One command on a table: answered first, and done where nothing stands in its way.
#![tactic(auto)]

ghost use Rattle.refusal.specs.Refusal.{answer_of};
ghost use Rattle.table.specs.Parts.{lent, SameParts};
ghost use Rattle.table.specs.Rules.{Good};
ghost use Rattle.script_command.specs.declared.Edit.TheVariants.{Collapse, Flip, SplitEdge, SplitFace};
ghost use Rattle.script_step.specs.Stepped.{GoodFour, Stepped};

use corner::{Corner, Face};
use refusal::Refusal;
use script_command::Edit;
use table::Lent;
use vertex::Point;

// One function a kind: each has its own clause. `Good` is asked of each, and no field of the table holds it: it does not stand between the
// writes of an edit.

pub fn flip(t: &mut Lent, c: Corner) -> Result<(), Refusal>
    requires { GoodFour (lent t.old) }
    ensures parts { SameParts t.old t.new }
    ensures stepped { Stepped (lent t.old) (Flip c) (answer_of result) (lent t.new) }
{
    script_answers::flip_answer(&t.seen(), c)?;
    edit_flip::flip_edge(t, c);
    Ok(())
}

pub fn collapse(t: &mut Lent, c: Corner, p: Point) -> Result<(), Refusal>
    requires { Good (lent t.old) }
    ensures parts { SameParts t.old t.new }
    ensures stepped { Stepped (lent t.old) (Collapse c p) (answer_of result) (lent t.new) }
{
    script_answers::collapse_answer(&t.seen(), c, p)?;
    edit_collapse::collapse_edge(t, c, p);
    Ok(())
}

pub fn split_edge(t: &mut Lent, c: Corner, p: Point) -> Result<(), Refusal>
    requires { Good (lent t.old) }
    ensures parts { SameParts t.old t.new }
    ensures stepped { Stepped (lent t.old) (SplitEdge c p) (answer_of result) (lent t.new) }
{
    script_answers::split_edge_answer(&t.seen(), c, p)?;
    edit_split_edge::split_edge(t, c, p);
    Ok(())
}

pub fn split_face(t: &mut Lent, f: Face, p: Point) -> Result<(), Refusal>
    requires { Good (lent t.old) }
    ensures parts { SameParts t.old t.new }
    ensures stepped { Stepped (lent t.old) (SplitFace f p) (answer_of result) (lent t.new) }
{
    script_answers::split_face_answer(&t.seen(), f, p)?;
    edit_split_face::split_face(t, f, p);
    Ok(())
}

// ---- any command, by its kind

pub fn step(t: &mut Lent, e: Edit) -> Result<(), Refusal>
    requires { Good (lent t.old) }
    ensures parts { SameParts t.old t.new }
    ensures stepped { Stepped (lent t.old) e (answer_of result) (lent t.new) }
{
    match e {
        Edit::Collapse(c, p) => collapse(t, c, p),
        Edit::Flip(c) => flip(t, c),
        Edit::SplitEdge(c, p) => split_edge(t, c, p),
        Edit::SplitFace(f, p) => split_face(t, f, p),
        Edit::Unknown => Err(Refusal::UnknownKind),
    }
}
