// The checker: R1 to R6 on any table, the lowest broken rule and the lowest slot that breaks it. It only reads, and needs no memory.
//
// Each rule is one or two tests of a slot (`rules`): the first test that fails at a slot is found, and the first slot where it does. Before
// that a quick pass over the faces (`quick`) settles R1 to R4 at once where nothing is broken.
//
// The cost is of order n, but for R5's fans (`near`), which are of order n log n.
#![tactic(auto)]

ghost use Rattle.std.specs.Prelude.{◌≡◌, ◌<◌, IfSome, unwrap_or};
ghost use Rattle.refusal.specs.Refusal.{number_of};
ghost use Rattle.table.specs.Parts.{seen};
ghost use Rattle.checker_kinds.specs.Kinds.{span};
ghost use Rattle.checker.specs.Order.{first_of, ruled as ruled_of, verdict_of};
ghost use Rattle.checker.specs.Told.{told, refusal_of};

use checker_kinds::Test;
use checker_quick::{SETTLED, passes};
use checker_rules::holds;
use refusal::Refusal;
use table::Seen;

// What is wrong with a table.
#[derive(Clone, Copy, PartialEq, Eq)]
pub enum Fault {
    // The lent parts disagree in length, or a room is above the maximum.
    Parts,
    // The lowest broken rule, and the lowest slot that breaks it.
    Broken { rule: u32, slot: u32 },
}

impl Fault {
    pub fn refusal(self) -> Refusal
        ensures which { result ≡ refusal_of self }
        ensures number { number_of result ≡ (told (Err self)).answer }
    {
        match self {
            Fault::Parts => Refusal::Parts,
            Fault::Broken { .. } => Refusal::NotWellFormed,
        }
    }
}

// The first slot that fails a test.
fn first_of(test: Test, t: &Seen) -> Option<u32>
    ensures first { unwrap_or result (span test t.now.vertices t.now.corners) ≡ first_of test (seen t.now) }
    ensures within { IfSome result (λ i. i < span test t.now.vertices t.now.corners) }
{
    (0..test.span(t.vertices, t.corners)).find(|i| !holds(test, t, *i))
}

// The first test that a slot fails.
fn ruled(t: &Seen) -> Result<(), Fault>
    ensures { told result ≡ ruled_of (seen t.now) }
{
    let settled = if passes(t) { SETTLED } else { 0 };
    for test in &Test::ALL[settled..] {
        if let Some(i) = first_of(*test, t) {
            return Err(Fault::Broken {
                rule: test.rule(),
                slot: test.slot(i),
            });
        }
    }
    Ok(())
}

pub fn check(t: &Seen) -> Result<(), Fault>
    ensures { told result ≡ verdict_of (seen t.now) }
{
    if t.is_shaped() {
        ruled(t)
    } else {
        Err(Fault::Parts)
    }
}
