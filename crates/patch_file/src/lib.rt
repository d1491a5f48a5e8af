// The patch file, as words: what is wrong with it, and its parts.
//
// docs/FORMATS.md has its form: four words (the magic one; how many points, faces and commands), then the words of each.
#![tactic(auto)]

ghost use Rattle.std.specs.Prelude.{◌≡◌, ◌+◌, ◌*◌, get_or};
ghost use Rattle.patch_file.specs.File.{size as size_of, limited, ended, fault_of, answer_of, point_words, face_words, script_words};

use std::fmt;
use table::at;
use words::{first, past};

// ---- what is wrong with a file

#[derive(Clone, Copy, PartialEq, Eq)]
pub enum FileFault {
    Empty,
    NotAPatch,
    AboveALimit,
    CutShort,
    TooLong,
}

impl fmt::Display for FileFault {
    fn fmt<W: fmt::Write>(&self, f: &mut fmt::Formatter<W>) -> fmt::Result {
        f.write_str(match self {
            FileFault::Empty => "the file is empty or cannot be read",
            FileFault::NotAPatch => "the file is no patch: it does not begin with STR1",
            FileFault::AboveALimit => {
                "the file is above a limit: 16384 points, 32768 faces, 16384 commands"
            }
            FileFault::CutShort => "the file is cut short",
            FileFault::TooLong => "the file is longer than it says",
        })
    }
}

// ---- the four words at the start

// "STR1"
const MAGIC: u32 = 827479123;

const HEAD_BYTES: u32 = 16;

const MAX_POINTS: u32 = 16384;

const MAX_FACES: u32 = 32768;

const MAX_COMMANDS: u32 = 16384;

// How many points, faces and commands a patch says that it has.
#[derive(Clone, Copy)]
struct Head {
    points: u32,
    faces: u32,
    commands: u32,
}

impl Head {
    fn of(words: &[u32]) -> Head
        ensures { (result.points ≡ get_or words.now 1 0) × (result.faces ≡ get_or words.now 2 0) × (result.commands ≡ get_or words.now 3 0) }
    {
        Head {
            points: at(words, 1, 0),
            faces: at(words, 2, 0),
            commands: at(words, 3, 0),
        }
    }

    // How many bytes such a patch has.
    fn size(self) -> u64
        ensures { result ≡ size_of self.points self.faces self.commands }
    {
        u64::from(HEAD_BYTES)
            + 12 * u64::from(self.points)
            + 12 * u64::from(self.faces)
            + 20 * u64::from(self.commands)
    }

    #[tactic(auto, unfolding(crate::specs::File::limited, script_command::specs::Checks::first))]
    fn check_limits(self) -> Result<(), FileFault>
        ensures { answer_of result ≡ limited self.points self.faces self.commands }
    {
        if self.points > MAX_POINTS || self.faces > MAX_FACES || self.commands > MAX_COMMANDS {
            return Err(FileFault::AboveALimit);
        }
        Ok(())
    }

    #[tactic(auto, unfolding(crate::specs::File::ended, script_command::specs::Checks::first))]
    fn check_size(self, bytes: u32) -> Result<(), FileFault>
        ensures { answer_of result ≡ ended bytes (size_of self.points self.faces self.commands) }
    {
        let size = self.size();
        if u64::from(bytes) < size {
            return Err(FileFault::CutShort);
        }
        if u64::from(bytes) > size {
            return Err(FileFault::TooLong);
        }
        Ok(())
    }

    // The word that the faces begin at, and the one that the script begins at.
    fn faces_from(self) -> usize
        ensures { result ≡ 4 + 3 * self.points }
    {
        4 + 3 * self.points as usize
    }

    fn script_from(self) -> usize
        ensures { result ≡ 4 + 3 * self.points + 3 * self.faces }
    {
        self.faces_from() + 3 * self.faces as usize
    }
}

// What is wrong with a file of that many bytes.
#[tactic(auto, unfolding(crate::specs::File::fault_of, script_command::specs::Checks::first))]
pub fn fault(words: &[u32], bytes: u32) -> Result<(), FileFault>
    ensures { answer_of result ≡ fault_of words.now bytes }
{
    if bytes == 0 {
        return Err(FileFault::Empty);
    }
    if at(words, 0, 0) != MAGIC {
        return Err(FileFault::NotAPatch);
    }
    if bytes < HEAD_BYTES {
        return Err(FileFault::CutShort);
    }
    let head = Head::of(words);
    head.check_limits()?;
    head.check_size(bytes)
}

// ---- the parts of a patch

// The words of its points.
pub fn point_words(words: &[u32]) -> &[u32]
    ensures { result.now ≡ point_words words.now }
{
    first(past(words, 4), 3 * Head::of(words).points as usize)
}

// The words of its faces.
pub fn face_words(words: &[u32]) -> &[u32]
    ensures { result.now ≡ face_words words.now }
{
    let head = Head::of(words);
    first(past(words, head.faces_from()), 3 * head.faces as usize)
}

// The words of its script.
pub fn script_words(words: &[u32]) -> &[u32]
    ensures { result.now ≡ script_words words.now }
{
    let head = Head::of(words);
    first(past(words, head.script_from()), 5 * head.commands as usize)
}
