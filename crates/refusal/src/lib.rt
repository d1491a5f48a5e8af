// Why a call is refused. Callers in C, and the answer words of a script, have its number; 0 says that nothing was in the way.
#![tactic(auto)]

ghost use Rattle.std.specs.Prelude.{◌≡◌};
ghost use Rattle.refusal.specs.Refusal.{number_of, answer_of, Decodes};

use std::fmt;

#[derive(Clone, Copy, PartialEq, Eq)]
pub enum Refusal {
    Parts,
    UnknownVertex,
    RepeatedVertex,
    NotFinite,
    NoVertexRoom,
    NoCornerRoom,
    NotWellFormed,
    Misfit,
    NoTarget,
    Deleted,
    Border,
    SameVertex,
    Unsafe,
    UnknownKind,
    Tangled,
    ShortList,
}

impl Refusal {
    pub fn number(self) -> u32
        ensures { result ≡ number_of self }
    {
        match self {
            Refusal::Parts => 1,
            Refusal::UnknownVertex => 2,
            Refusal::RepeatedVertex => 3,
            Refusal::NotFinite => 4,
            Refusal::NoVertexRoom => 5,
            Refusal::NoCornerRoom => 6,
            Refusal::NotWellFormed => 7,
            Refusal::Misfit => 8,
            Refusal::NoTarget => 9,
            Refusal::Deleted => 10,
            Refusal::Border => 11,
            Refusal::SameVertex => 12,
            Refusal::Unsafe => 13,
            Refusal::UnknownKind => 14,
            Refusal::Tangled => 15,
            Refusal::ShortList => 16,
        }
    }
}

// A number that is no refusal's: 0, which is told where nothing was in the way, or one past the last.
#[derive(Clone, Copy, PartialEq, Eq)]
pub struct NoRefusal(pub u32);

impl TryFrom<u32> for Refusal {
    type Error = NoRefusal;

    ghost try_from_gives = { Decodes };

    fn try_from(number: u32) -> Result<Self, NoRefusal> {
        match number {
            1 => Ok(Refusal::Parts),
            2 => Ok(Refusal::UnknownVertex),
            3 => Ok(Refusal::RepeatedVertex),
            4 => Ok(Refusal::NotFinite),
            5 => Ok(Refusal::NoVertexRoom),
            6 => Ok(Refusal::NoCornerRoom),
            7 => Ok(Refusal::NotWellFormed),
            8 => Ok(Refusal::Misfit),
            9 => Ok(Refusal::NoTarget),
            10 => Ok(Refusal::Deleted),
            11 => Ok(Refusal::Border),
            12 => Ok(Refusal::SameVertex),
            13 => Ok(Refusal::Unsafe),
            14 => Ok(Refusal::UnknownKind),
            15 => Ok(Refusal::Tangled),
            16 => Ok(Refusal::ShortList),
            0 | 17..=u32::MAX => Err(NoRefusal(number)),
        }
    }
}

// The answer of a call: 0, or the number of its refusal.
pub fn answer<T>(of: &Result<T, Refusal>) -> u32
    ensures { result ≡ answer_of of.now }
{
    match of {
        Ok(_) => 0,
        Err(e) => e.number(),
    }
}

impl fmt::Display for Refusal {
    fn fmt<W: fmt::Write>(&self, f: &mut fmt::Formatter<W>) -> fmt::Result {
        f.write_str(match self {
            Refusal::Parts => "lent parts disagree in length, or room above the maximum",
            Refusal::UnknownVertex => "vertex index too large",
            Refusal::RepeatedVertex => "repeated vertex in a face",
            Refusal::NotFinite => "point not finite",
            Refusal::NoVertexRoom => "no vertex room",
            Refusal::NoCornerRoom => "no corner room",
            Refusal::NotWellFormed => "not well-formed",
            Refusal::Misfit => "script not a multiple of five words, or too few answer words",
            Refusal::NoTarget => "no such target",
            Refusal::Deleted => "target deleted",
            Refusal::Border => "border",
            Refusal::SameVertex => "same vertex on both sides",
            Refusal::Unsafe => "unsafe collapse",
            Refusal::UnknownKind => "unknown kind",
            Refusal::Tangled => "tangled walk",
            Refusal::ShortList => "list room too small",
        })
    }
}
