// The stored list, record by record: what a record asks for, and the words that it lists. docs/FORMATS.md has its form.
#![tactic(auto)]

ghost use Rattle.std.specs.Prelude.{◌≡◌, length, IfSome};
ghost use Rattle.std.specs.Iterator.{at_most};
ghost use Rattle.vectors_list.specs.Op.{number_of, op_of};
ghost use Rattle.vectors_list.specs.Records.{First};

use std::fmt;
use table::at;
use words::{first, past};

// What a record lists. It is data: the crates above match it.
#[derive(Clone, Copy, PartialEq, Eq)]
pub enum Op {
    Rooms,
    Counts,
    Put,
    Build,
    Check,
    Run,
    Ring,
    Move,
    Slots,
    Unknown,
}

impl Op {
    pub fn number(self) -> u32
        ensures { result ≡ number_of self }
    {
        match self {
            Op::Unknown => 0,
            Op::Rooms => 1,
            Op::Counts => 2,
            Op::Put => 3,
            Op::Build => 4,
            Op::Check => 5,
            Op::Run => 6,
            Op::Ring => 7,
            Op::Move => 8,
            Op::Slots => 9,
        }
    }
}

impl From<u32> for Op {
    ghost from_gives = { λ word op. op ≡ op_of word };

    #[tactic(auto, unfolding(crate::specs::Op::op_of))]
    fn from(word: u32) -> Op {
        match word {
            1 => Op::Rooms,
            2 => Op::Counts,
            3 => Op::Put,
            4 => Op::Build,
            5 => Op::Check,
            6 => Op::Run,
            7 => Op::Ring,
            8 => Op::Move,
            9 => Op::Slots,
            _ => Op::Unknown,
        }
    }
}

impl fmt::Display for Op {
    fn fmt<W: fmt::Write>(&self, f: &mut fmt::Formatter<W>) -> fmt::Result {
        f.write_str(match self {
            Op::Rooms => "rooms",
            Op::Counts => "counts",
            Op::Put => "put",
            Op::Build => "build",
            Op::Check => "check",
            Op::Run => "run",
            Op::Ring => "ring",
            Op::Move => "move",
            Op::Slots => "slots",
            Op::Unknown => "unknown",
        })
    }
}

// The word of its op, and the words that follow its length: all of them, or as many as there are before the list ends.
#[derive(Clone, Copy)]
pub struct Record<'a> {
    pub op: u32,
    pub words: &'a [u32],
    pub whole: bool,
}

// The records that begin at the first of these words. Each has at least one.
#[derive(Drop)]
pub struct Records<'a> {
    pub rest: &'a [u32],
}

impl<'a> Iterator for Records<'a> {
    type Item = Record<'a>;

    ghost next_gives = { λ old r new. IfSome r (λ x. First old.rest.now x new.rest.now) };

    ghost remaining = { λ s. at_most (length s.rest.now) };

    fn next(&mut self) -> Option<Record<'a>> {
        let op = *self.rest.first()?;
        let n = at(self.rest, 1, 0) as usize;
        let words = first(past(self.rest, 2), n);
        self.rest = past(self.rest, 2 + n);
        Some(Record {
            op,
            words,
            whole: words.len() == n,
        })
    }
}
