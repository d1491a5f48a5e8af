// What C gets: the answers of the calls, as structs of numbers, since C has no `Result`. The archive `strandomir_c` has the calls; include/strandomir.h says the
// same for a caller in C.
#![tactic(auto)]

ghost use Rattle.std.specs.Prelude.{◌≡◌};
ghost use Rattle.refusal.specs.Refusal.{answer_of};
ghost use Rattle.table.specs.Parts.{seen};
ghost use Rattle.builder.specs.Calls.{skipped_of};
ghost use Rattle.script.specs.Told.{answer_told, rule_told, slot_told};
ghost use Rattle.walker.specs.Walker.{moved_by};
ghost use Rattle.strandomir.specs.Told.{IsVerdict, IsListing, MovedBy};

use checker::Fault;
use corner::Corner;
use refusal::Refusal;
use script::Unrun;
use table::Seen;
use traversal_lists::Ring;
use walker::{Move, Walker};

// What a build answers: the counts are those of the table it leaves.
#[repr(C)]
#[derive(Clone, Copy, PartialEq, Eq)]
pub struct Built {
    pub answer: u32,
    pub vertices: u32,
    pub corners: u32,
    pub skipped: usize,
}

// What a check answers: rule and slot are 0 but for 7.
#[repr(C)]
#[derive(Clone, Copy, PartialEq, Eq)]
pub struct Checked {
    pub answer: u32,
    pub rule: u32,
    pub slot: u32,
}

// What a run answers: a check's answer, and the counts of the table it leaves.
#[repr(C)]
#[derive(Clone, Copy, PartialEq, Eq)]
pub struct Ran {
    pub answer: u32,
    pub rule: u32,
    pub slot: u32,
    pub vertices: u32,
    pub corners: u32,
}

// What a ring answers.
#[repr(C)]
#[derive(Clone, Copy, PartialEq, Eq)]
pub struct Listed {
    pub answer: u32,
    pub visited: u32,
    pub written: u32,
}

// What a move answers: `moved` is 1 where the walker moved, else 0.
#[repr(C)]
#[derive(Clone, Copy, PartialEq, Eq)]
pub struct Moved {
    pub answer: u32,
    pub moved: u32,
}

impl Built {
    pub fn new(of: Result<usize, Refusal>, vertices: u32, corners: u32) -> Self
        ensures answer { result.answer ≡ answer_of of }
        ensures skipped { result.skipped ≡ skipped_of of }
        ensures vertices { result.vertices ≡ vertices }
        ensures corners { result.corners ≡ corners }
    {
        let answer = refusal::answer(&of);
        let skipped = of.unwrap_or(0);
        Built {
            answer,
            vertices,
            corners,
            skipped,
        }
    }
}

impl From<Result<(), Fault>> for Checked {
    ghost from_gives = { IsVerdict };

    fn from(of: Result<(), Fault>) -> Checked {
        match of {
            Ok(()) => Checked {
                answer: 0,
                rule: 0,
                slot: 0,
            },
            Err(Fault::Parts) => Checked {
                answer: Refusal::Parts.number(),
                rule: 0,
                slot: 0,
            },
            Err(Fault::Broken { rule, slot }) => Checked {
                answer: Refusal::NotWellFormed.number(),
                rule,
                slot,
            },
        }
    }
}

impl Ran {
    pub fn new(of: Result<(), Unrun>, vertices: u32, corners: u32) -> Self
        ensures answer { result.answer ≡ answer_told of }
        ensures rule { result.rule ≡ rule_told of }
        ensures slot { result.slot ≡ slot_told of }
        ensures vertices { result.vertices ≡ vertices }
        ensures corners { result.corners ≡ corners }
    {
        let broken = Refusal::NotWellFormed.number();
        let (answer, rule, slot) = match of {
            Ok(()) => (0, 0, 0),
            Err(Unrun::Misfit) => (Refusal::Misfit.number(), 0, 0),
            Err(Unrun::Table(Fault::Parts)) => (Refusal::Parts.number(), 0, 0),
            Err(Unrun::Table(Fault::Broken { rule, slot })) => (broken, rule, slot),
        };
        Ran {
            answer,
            rule,
            slot,
            vertices,
            corners,
        }
    }
}

impl From<Result<Ring, Refusal>> for Listed {
    ghost from_gives = { IsListing };

    fn from(of: Result<Ring, Refusal>) -> Listed {
        match of {
            Ok(ring) => Listed {
                answer: 0,
                visited: ring.visited,
                written: ring.written,
            },
            Err(e) => Listed {
                answer: e.number(),
                visited: 0,
                written: 0,
            },
        }
    }
}

// A move in C's terms: the corner is left where the walker then stands. Inlined into each call, which asks for one move: the table then stays
// in registers, and no move is looked for. Called, a swing took half as many instructions again.
#[inline(always)]
pub fn go(to: Move, t: &Seen, corner: &mut u32) -> Moved
    ensures { MovedBy (moved_by to (seen t.now) corner.old) result corner.new }
{
    let mut walker = Walker {
        corner: Corner(*corner),
    };
    let step = walker.go(to, t);
    *corner = walker.corner.0;
    Moved {
        answer: refusal::answer(&step),
        moved: u32::from(step.unwrap_or(false)),
    }
}
