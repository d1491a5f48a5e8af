// One command of a script: decoded from five words; and the checks that need no table. `answers` has the rest of them, each in its place.
#![tactic(auto)]

ghost use Rattle.std.specs.Prelude.{◌≡◌, ◌+◌, ◌*◌, ◌<◌, length};
ghost use Rattle.refusal.specs.Refusal.{answer_of};
ghost use Rattle.script_command.specs.Decode.{command_at};
ghost use Rattle.script_command.specs.Checks.{targeted as targeted_of, room_for, corners_for, fits as fits_of};

use corner::{Corner, Face};
use refusal::Refusal;
use vertex::Point;

// An edit is one of four things, three of them carrying a point. Any other kind is unknown.
#[derive(Clone, Copy)]
pub enum Edit {
    Collapse(Corner, Point),
    Flip(Corner),
    SplitEdge(Corner, Point),
    SplitFace(Face, Point),
    Unknown,
}

// Command i of a script. A flip's last three words are not read. The kind word is matched as the rules name it: 1 to 4, and a range for any
// other.
#[tactic(auto, unfolding(crate::specs::Decode::command_at, crate::specs::Decode::decoded))]
pub fn decode(s: &[u32], i: usize) -> Edit
    requires { 5 * i + 4 < length s.now }
    ensures { result ≡ command_at s.now i }
{
    let j = 5 * i;
    let target = s[j + 1];
    match s[j] {
        1 => Edit::Collapse(Corner(target), Point::of_bits(s[j + 2], s[j + 3], s[j + 4])),
        2 => Edit::Flip(Corner(target)),
        3 => Edit::SplitEdge(Corner(target), Point::of_bits(s[j + 2], s[j + 3], s[j + 4])),
        4 => Edit::SplitFace(Face(target), Point::of_bits(s[j + 2], s[j + 3], s[j + 4])),
        0 | 5..=u32::MAX => Edit::Unknown,
    }
}

// ---- the checks

#[tactic(auto, unfolding(crate::specs::Checks::targeted))]
pub fn targeted(used: bool, mark: u32) -> Result<(), Refusal>
    ensures { answer_of result ≡ targeted_of used mark }
{
    if !used {
        return Err(Refusal::NoTarget);
    }
    if mark != 0 {
        return Err(Refusal::Deleted);
    }
    Ok(())
}

// One vertex and n corners more.
#[tactic(auto, unfolding(crate::specs::Checks::room_for, crate::specs::Checks::first))]
pub fn room_for(
    vertices: u32,
    vroom: usize,
    corners: u32,
    croom: usize,
    n: u32,
) -> Result<(), Refusal>
    ensures { answer_of result ≡ room_for vertices vroom corners croom n }
{
    if vroom < vertices as usize + 1 {
        return Err(Refusal::NoVertexRoom);
    }
    if croom < corners as usize + n as usize {
        return Err(Refusal::NoCornerRoom);
    }
    Ok(())
}

// "An inner edge or a face needs 1 vertex and 6 corners; a border edge 1 and 3."
pub fn corners_for(o: Corner) -> u32
    ensures { result ≡ corners_for o.0 }
{
    if o.is_absent() { 3 } else { 6 }
}

// "script not a multiple of five words, or fewer answer words than commands" is 8.
#[tactic(auto, unfolding(crate::specs::Checks::fits))]
pub fn fits(words: usize, answers: usize) -> bool
    ensures { result ≡ fits_of words answers }
{
    words % 5 == 0 && words / 5 <= answers
}
