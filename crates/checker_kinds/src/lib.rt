// The ten tests by name: the order in which they are made, the rule that each belongs to, the slots that it goes over and the slot that it
// names.
#![tactic(auto)]

ghost use Rattle.std.specs.Prelude.{◌≡◌};
ghost use Rattle.checker_kinds.specs.Kinds.{rule_of, span as span_of, slot_of};

// What is tested, in the order of the tests.
#[derive(Clone, Copy)]
pub enum Test {
    Counts,
    CornerMark,
    FaceMark,
    VertexMark,
    CornerVertex,
    FaceVertex,
    Opposite,
    VertexCorner,
    CornerFan,
    Finite,
}

impl Test {
    // All tests, in their order.
    pub const ALL: [Test; 10] = [
        Test::Counts,
        Test::CornerMark,
        Test::FaceMark,
        Test::VertexMark,
        Test::CornerVertex,
        Test::FaceVertex,
        Test::Opposite,
        Test::VertexCorner,
        Test::CornerFan,
        Test::Finite,
    ];

    #[tactic(auto, unfolding(crate::specs::Kinds::rule_of))]
    pub fn rule(self) -> u32
        ensures { result ≡ rule_of self }
    {
        match self {
            Test::Counts => 1,
            Test::CornerMark | Test::FaceMark | Test::VertexMark => 2,
            Test::CornerVertex | Test::FaceVertex => 3,
            Test::Opposite => 4,
            Test::VertexCorner | Test::CornerFan => 5,
            Test::Finite => 6,
        }
    }

    // How many slots a test goes over: the counts are one thing to test.
    #[tactic(auto, unfolding(crate::specs::Kinds::span))]
    pub fn span(self, nv: u32, nc: u32) -> u32
        ensures { result ≡ span_of self nv nc }
    {
        match self {
            Test::Counts => 1,
            Test::VertexMark | Test::VertexCorner | Test::Finite => nv,
            Test::CornerMark
            | Test::FaceMark
            | Test::CornerVertex
            | Test::FaceVertex
            | Test::Opposite
            | Test::CornerFan => nc,
        }
    }

    // The slot that is named: "faces by their first corner".
    #[tactic(auto, unfolding(crate::specs::Kinds::slot_of))]
    pub fn slot(self, i: u32) -> u32
        ensures { result ≡ slot_of self i }
    {
        match self {
            Test::FaceMark | Test::FaceVertex => i - i % 3,
            _ => i,
        }
    }
}
