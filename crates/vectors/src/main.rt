// The stored list, replayed record by record against the library: a line for each record that comes out otherwise than listed, then how
// many records of each op there are, how often each answer is listed, and how many records were wrong.
#![tactic(auto)]

ghost use Rattle.std.specs.Prelude.{◌≡◌, ◌≤◌, length, drop};
ghost use Rattle.vectors_list.specs.Op.{number_of};
ghost use Rattle.vectors.specs.Places.{place_of, told};

use std::fs::File;
use std::io::Read;
use std::{env, io};
use table::{Lent, at};
use vectors_changes::{Rooms, rooms_after};
use vectors_list::{Op, Records};
use vectors_record::replay;
use words::{bump, first, past, read_words};

// ---- the list: 25 buffers of 65,536 bytes hold more than the largest

// How many words it has. Whole words of each buffer are counted, and not bytes as for a patch, whose end is looked for.
fn load<R: Read>(from: &mut R, words: &mut [u32]) -> u32
    ensures { result ≤ 409600 }
{
    let mut n = 0;
    for _turn in 0u32..25 {
        n += read_words(from, n, words) / 4;
    }
    n
}

// The records start after the 1,024 bytes of text.
fn records(words: &[u32]) -> Records<'_>
    ensures { result.rest.now ≡ drop 256 words.now }
{
    Records {
        rest: past(words, 256),
    }
}

// ---- the replay

// How many records are wrong: those that come out otherwise, and one that the end of the file cuts off. Each takes a word, of which no more
// are looked at than the buffer has: so they are counted, and the sum is not cut.
fn play<P: Print>(rt: &P, words: &[u32], t: &mut Lent, numbers: &mut [f32], list: &mut [u32]) -> u32
    ensures { result ≤ 409600 }
{
    let mut rooms = Rooms::default();
    let mut wrong: u32 = 0;
    for (k, record) in records(first(words, 409600)).enumerate() {
        let op = Op::from(record.op);
        rooms = rooms_after(op, record.words, rooms);
        let right = replay(op, rooms, t, record.words, numbers, list);
        if !(right && record.whole) {
            let _ = println!(rt; "wrong: record {k}, op {}", record.op);
            wrong += 1;
        }
    }
    wrong
}

// The parts at their largest, the numbers of the longest build, and the longest list.
fn replay_all<P: Print>(rt: &P, words: &[u32]) -> u32
    ensures { result ≤ 409600 }
{
    let mut cv = [0; 196608];
    let mut co = [0; 196608];
    let mut cm = [0; 196608];
    let mut vc = [0; 65536];
    let mut vm = [0; 65536];
    let mut vp = [0.0; 196608];
    let mut numbers = [0.0; 4096];
    let mut list = [0; 4096];
    let mut t = Lent {
        cv: &mut cv,
        co: &mut co,
        cm: &mut cm,
        vc: &mut vc,
        vm: &mut vm,
        vp: &mut vp,
        vertices: 0,
        corners: 0,
    };
    play(rt, words, &mut t, &mut numbers, &mut list)
}

// ---- the tallies

// Where a record lists its call's answer.
#[tactic(auto, unfolding(crate::specs::Places::place_of))]
fn place(op: Op) -> Option<usize>
    ensures { told result ≡ place_of (number_of op) }
{
    match op {
        Op::Build | Op::Check | Op::Run => Some(0),
        Op::Ring | Op::Move => Some(2),
        Op::Rooms | Op::Counts | Op::Put | Op::Slots | Op::Unknown => None,
    }
}

// The answers of a run's commands: as many as it has, after the script and the two words that follow it.
fn note_commands(w: &[u32], answers: &mut [u32])
    ensures { length answers.new ≡ length answers.old }
{
    let s = at(w, 5, 0) as usize;
    for k in 0..s / 5 {
        bump(answers, at(w, 8 + s + k, 0));
    }
}

// A run that was done lists an answer for each command.
fn note_answers(op: Op, w: &[u32], answers: &mut [u32])
    ensures { length answers.new ≡ length answers.old }
{
    if let Some(i) = place(op) {
        // A word that is not there counts for no answer.
        bump(answers, at(w, i, u32::MAX));
    }
    if op == Op::Run && at(w, 0, 0) == 0 {
        note_commands(w, answers);
    }
}

fn say_tallies<P: Print>(rt: &P, words: &[u32]) {
    let mut ops = [0; 10];
    let mut answers = [0; 17];
    for record in records(words) {
        let op = Op::from(record.op);
        bump(&mut ops, op.number());
        note_answers(op, record.words, &mut answers);
    }
    for op in [
        Op::Rooms,
        Op::Counts,
        Op::Put,
        Op::Build,
        Op::Check,
        Op::Run,
        Op::Ring,
        Op::Move,
        Op::Slots,
    ] {
        let _ = println!(rt; "{op}: {}", at(&ops, op.number() as usize, 0));
    }
    for (k, n) in answers.iter().enumerate() {
        let _ = println!(rt; "answer {k}: {n}");
    }
}

// ---- the job

// The file is read, replayed and counted.
fn replay_file<P: Print, R: Read>(rt: &P, from: &mut R, words: &mut [u32])
    ensures { length words.new ≡ length words.old }
{
    let n = load(from, words) as usize;
    let list = first(words, n);
    let wrong = replay_all(rt, list);
    say_tallies(rt, list);
    let _ = println!(rt; "wrong: {wrong}");
}

fn main(rt: HostRuntime) -> io::Result<()> {
    let Some(path) = env::args(&rt)?.nth(1) else {
        let _ = rt.eprintln("path: Invalid argument");
        return Ok(());
    };
    let mut file = match File::open(&rt, path.as_str()) {
        Ok(file) => file,
        Err(e) => {
            let _ = eprintln!(rt; "{path}: {e}");
            return Ok(());
        }
    };
    let mut words = [0; 409600];
    replay_file(&rt, &mut file, &mut words);
    Ok(())
}
