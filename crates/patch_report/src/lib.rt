// What is said of a patch: a line for the check, for each refused command and for what came of the script; and the edits, said so.
//
// A write that fails is passed over: the edits go on.
#![tactic(auto)]

ghost use Rattle.std.specs.Prelude.{◌≡◌, ◌≤◌};
ghost use Rattle.table.specs.Parts.{SameParts, lent};
ghost use Rattle.script.specs.Run.{RunOutcome};
ghost use Rattle.script.specs.Told.{answer_told, rule_told, slot_told};

use checker::Fault;
use refusal::Refusal;
use script::Unrun;
use table::{Lent, at};
use tally::Kind;

// ---- answers

// What a call answered, after what it was.
pub fn say_answer<P: Print>(rt: &P, what: &str, answer: Result<(), Refusal>) {
    let _ = match answer {
        Ok(()) => println!(rt; "{what}: 0, done"),
        Err(refusal) => println!(rt; "{what}: {}, {refusal}", refusal.number()),
    };
}

// ---- the script

// One line for a refused command: its number, kind, target, the answer and its meaning. The word 0 says that it was done.
fn say_refused<P: Print>(rt: &P, script: &[u32], answers: &[u32], i: u32) {
    let k = 5 * (i as usize);
    if let Ok(refusal) = Refusal::try_from(at(answers, i as usize, 0)) {
        let kind = Kind::from(at(script, k, 0));
        let target = at(script, k + 1, 0);
        let number = refusal.number();
        let _ = println!(rt; "command {i}: {kind} at {target} refused: {number}, {refusal}");
    }
}

// There are n commands, as the file's head says: a u32, as they are counted and printed; the answers have room for the most.
fn say_all_refused<P: Print>(rt: &P, script: &[u32], answers: &[u32], n: u32) {
    for i in 0..n {
        say_refused(rt, script, answers, i);
    }
}

// How many of each kind were done.
fn say_tallies<P: Print>(rt: &P, script: &[u32], answers: &[u32], n: u32) {
    for kind in [
        Kind::Collapse,
        Kind::Flip,
        Kind::SplitEdge,
        Kind::SplitFace,
        Kind::Unknown,
    ] {
        let all = tally::commands(script, answers, kind, true, n);
        let done = tally::commands(script, answers, kind, false, n);
        let _ = println!(rt; "{kind}: {done} done of {all}");
    }
}

// ---- the edits

// The table is built: it is checked, measured, edited and measured again.
pub fn edit<P: Print>(
    rt: &P,
    t: &mut Lent,
    script: &[u32],
    answers: &mut [u32],
    n: u32,
) -> Result<(), Unrun>
    ensures parts { SameParts t.old t.new }
    ensures outcome { RunOutcome script.now answers.old (lent t.old)
        (answer_told result) (rule_told result) (slot_told result) answers.new (lent t.new) }
{
    say_answer(
        rt,
        "check",
        checker::check(&t.seen()).map_err(Fault::refusal),
    );
    let before = tally::tally(&t.seen());
    let ran = script::run(t, script, answers);
    let after = tally::tally(&t.seen());
    say_all_refused(rt, script, answers, n);
    say_tallies(rt, script, answers, n);
    let _ = println!(rt; "before: {before}");
    let _ = println!(rt; "after: {after}");
    say_answer(rt, "run", ran.map_err(Unrun::refusal));
    ran
}
