// The main job: one patch file, named on the command line, is built, checked and edited by its script, and what came of it is printed.
//
// A write that fails is passed over: the job goes on.
#![tactic(auto)]

ghost use Rattle.std.specs.Prelude.{◌≤◌};

use patch_file::{face_words, fault, point_words, script_words};
use patch_report::{edit, say_answer};
use std::fs::File;
use std::io::Read;
use std::{env, io};
use table::{Lent, at};
use words::{first, put_numbers, read_words};

// The file as words: how many bytes it has. One buffer more than a patch can fill is read, to see that the file ends.
fn load<R: Read>(from: &mut R, words: &mut [u32]) -> u32
    ensures { result ≤ 1048576 }
{
    let mut bytes = 0;
    for _turn in 0u32..16 {
        bytes += read_words(from, bytes / 4, words);
    }
    bytes
}

// ---- the job

fn build_and_edit<P: Print>(
    rt: &P,
    words: &[u32],
    t: &mut Lent,
    numbers: &mut [f32],
    answers: &mut [u32],
) {
    let listed = point_words(words);
    put_numbers(listed, 0, numbers);
    match builder::build(t, first(numbers, listed.len()), face_words(words)) {
        Ok(skipped) => {
            let points = at(words, 1, 0);
            let faces = at(words, 2, 0);
            let _ = println!(rt; "build: {points} points, {faces} faces, {skipped} skipped");
            let _ = edit(rt, t, script_words(words), answers, at(words, 3, 0));
        }
        Err(refusal) => say_answer(rt, "patch: the build is refused", Err(refusal)),
    }
}

fn job<P: Print>(rt: &P, words: &[u32]) {
    let mut numbers = [0.0; 49152];
    let mut answers = [0; 16384];
    let mut cv = [0; 196605];
    let mut co = [0; 196605];
    let mut cm = [0; 196605];
    let mut vc = [0; 65535];
    let mut vm = [0; 65535];
    let mut vp = [0.0; 196605];
    let mut t = Lent {
        cv: &mut cv,
        co: &mut co,
        cm: &mut cm,
        vc: &mut vc,
        vm: &mut vm,
        vp: &mut vp,
        vertices: 0,
        corners: 0,
    };
    build_and_edit(rt, words, &mut t, &mut numbers, &mut answers);
}

fn main(rt: HostRuntime) -> io::Result<()> {
    let Some(path) = env::args(&rt)?.nth(1) else {
        let _ = println!(rt; "patch: name one patch file");
        return Ok(());
    };
    let Ok(mut file) = File::open(&rt, path.as_str()) else {
        let _ = println!(rt; "patch: the file cannot be opened");
        return Ok(());
    };
    let mut words = [0; 262144];
    let bytes = load(&mut file, &mut words);
    match fault(&words, bytes) {
        Ok(()) => job(&rt, &words),
        Err(what) => {
            let _ = println!(rt; "patch: {what}");
        }
    }
    Ok(())
}
