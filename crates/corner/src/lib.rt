// corner.rs: the number of a corner, and of a face. An absent corner is a number too, so that a slot holds nothing but a u32.
#![tactic(auto)]

ghost use Rattle.std.specs.Prelude.{◌≡◌, ◌≢◌, ◌+◌, ◌*◌, ◌<◌, eqb, IfSome};
ghost use Rattle.corner.specs.Told.{told};
ghost use Rattle.corner.specs.Corner.{absent, next as next_of, previous as previous_of, face as face_of, first_corner, turn as turn_of};

#[derive(Clone, Copy, PartialEq, Eq, PartialOrd, Ord)]
pub struct Corner(pub u32);

#[derive(Clone, Copy, PartialEq, Eq, PartialOrd, Ord)]
pub struct Face(pub u32);

impl Corner {
    pub const ABSENT: Corner = Corner(u32::MAX);

    pub fn new(index: u32) -> Self
        ensures { result.0 ≡ index }
    {
        Corner(index)
    }

    pub fn index(self) -> usize
        ensures { result ≡ self.0 }
    {
        self.0 as usize
    }

    pub fn is_absent(self) -> bool
        ensures { result ≡ eqb self.0 absent }
    {
        self == Corner::ABSENT
    }

    // The corner, if there is one.
    pub fn present(self) -> Option<Corner>
        ensures told { told result ≡ self.0 }
        ensures there { IfSome result (λ c. c.0 ≢ absent) }
    {
        if self.is_absent() { None } else { Some(self) }
    }

    // The slot of the next corner. It fits a usize for every number, the absent corner's too: the reads of a walk owe nothing.
    #[tactic(auto, unfolding(crate::specs::Corner::next))]
    pub fn next_index(self) -> usize
        ensures { result ≡ next_of self.0 }
    {
        let i = self.0 as usize;
        if i % 3 == 2 { i - 2 } else { i + 1 }
    }

    #[tactic(auto, unfolding(crate::specs::Corner::previous))]
    pub fn previous_index(self) -> usize
        ensures { result ≡ previous_of self.0 }
    {
        let i = self.0 as usize;
        if i % 3 == 0 { i + 2 } else { i - 1 }
    }

    // The slot that a swing to the left, or to the right, crosses from. The side is a bool, as the definitions `turn` and `sweep` take it: an
    // enum would be turned to one at each of them.
    pub fn turn_index(self, left: bool) -> usize
        ensures { result ≡ turn_of left self.0 }
    {
        if left {
            self.next_index()
        } else {
            self.previous_index()
        }
    }

    #[tactic(auto, using(crate::proofs::Turns::next_below))]
    pub fn next(self) -> Self
        requires { self.0 < absent }
        ensures { (result.0 ≡ next_of self.0) × (result.0 < absent) }
    {
        Corner(self.next_index() as u32)
    }

    #[tactic(auto, using(crate::proofs::Turns::previous_below))]
    pub fn previous(self) -> Self
        requires { self.0 < absent }
        ensures { (result.0 ≡ previous_of self.0) × (result.0 < absent) }
    {
        Corner(self.previous_index() as u32)
    }

    pub fn face(self) -> Face
        ensures { result.0 ≡ face_of self.0 }
    {
        Face(self.0 / 3)
    }
}

impl Face {
    // The face's first corner.
    pub fn corner(self) -> Corner
        requires { first_corner self.0 < absent }
        ensures { (result.0 ≡ first_corner self.0) × (result.0 < absent) }
    {
        Corner(3 * self.0)
    }
}
