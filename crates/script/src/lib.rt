// A script of commands on a table.
#![tactic(auto)]

ghost use Rattle.std.specs.Prelude.{◌≡◌, ◌*◌, ◌≤◌, length, Err};
ghost use Rattle.refusal.specs.Refusal.{number_of};
ghost use Rattle.table.specs.Parts.{lent, SameParts};
ghost use Rattle.table.specs.Rules.{Good};
ghost use Rattle.script.specs.declared.Unrun.TheVariants.{Table};
ghost use Rattle.script.specs.Commands.{Completed};
ghost use Rattle.script.specs.Run.{RunOutcome};
ghost use Rattle.script.specs.Told.{answer_told, rule_told, slot_told};

use checker::Fault;
use refusal::Refusal;
use table::Lent;

// Why a script is not run: it is no whole number of commands or has too few answer words, or the table is not fit.
#[derive(Clone, Copy, PartialEq, Eq)]
pub enum Unrun {
    Misfit,
    Table(Fault),
}

impl Unrun {
    pub fn refusal(self) -> Refusal
        ensures { number_of result ≡ answer_told (Err self) }
    {
        match self {
            Unrun::Misfit => Refusal::Misfit,
            Unrun::Table(fault) => fault.refusal(),
        }
    }
}

impl From<Fault> for Unrun {
    ghost from_gives = { λ fault unrun. unrun ≡ Table fault };

    fn from(fault: Fault) -> Unrun {
        Unrun::Table(fault)
    }
}

// The first n commands of a script, one answer word each; n as the definition `Completed` takes it, which may be fewer than it has.
pub fn run_commands(t: &mut Lent, script: &[u32], answers: &mut [u32], n: usize)
    requires good { Good (lent t.old) }
    requires n_in_bounds { 5 * n ≤ length script.now }
    ensures parts { SameParts t.old t.new }
    ensures completed { Completed script.now n answers.old answers.new (lent t.old) (lent t.new) }
{
    for i in 0..n {
        let done = script_step::step(t, script_command::decode(script, i));
        table::put(answers, i, refusal::answer(&done));
    }
}

// "The run checks the table once, then writes one answer word per command and goes on after a refused one." A run that is not refused keeps
// the table well-formed and V−E+F as it was.
pub fn run(t: &mut Lent, script: &[u32], answers: &mut [u32]) -> Result<(), Unrun>
    ensures parts { SameParts t.old t.new }
    ensures outcome { RunOutcome script.now answers.old (lent t.old)
        (answer_told result) (rule_told result) (slot_told result) answers.new (lent t.new) }
{
    if !t.seen().is_shaped() {
        return Err(Unrun::Table(Fault::Parts));
    }
    if !script_command::fits(script.len(), answers.len()) {
        return Err(Unrun::Misfit);
    }
    checker::check(&t.seen())?;
    run_commands(t, script, answers, script.len() / 5);
    Ok(())
}
