// vertex.rs: the number of a vertex, and its point. Every 32-bit pattern is a float here, and every float has a pattern: the logic
// has one NaN, whose pattern is 0x7fc0_0000.
#![tactic(auto)]

ghost use Rattle.std.specs.Prelude.{◌≡◌};
ghost use Rattle.std.specs.Float.{binary32};
ghost use Rattle.std.specs.Float.Ieee.{to_bits, of_bits};
ghost use Rattle.std.specs.Float.Ieee.Scale.{finite};
ghost use Rattle.vertex.specs.Point.{finite_point, point_of_bits};

use std::num::{f32_from_bits_with_nan, f32_to_bits_with_nan};

#[derive(Clone, Copy, PartialEq, Eq, PartialOrd, Ord)]
pub struct Vertex(pub u32);

#[derive(Clone, Copy)]
pub struct Point {
    pub x: f32,
    pub y: f32,
    pub z: f32,
}

impl Vertex {
    pub fn new(index: u32) -> Self
        ensures { result.0 ≡ index }
    {
        Vertex(index)
    }

    pub fn index(self) -> usize
        ensures { result ≡ self.0 }
    {
        self.0 as usize
    }
}

// No infinity and no NaN.
#[tactic(auto, using(crate::proofs::Finite::finite_same))]
pub fn is_finite(x: f32) -> bool
    ensures { result ≡ finite x }
{
    x.is_finite()
}

pub fn float_of(bits: u32) -> f32
    ensures { result ≡ of_bits binary32 bits }
{
    f32_from_bits_with_nan(bits)
}

pub fn bits_of(x: f32) -> u32
    ensures { result ≡ to_bits binary32 x }
{
    f32_to_bits_with_nan(x)
}

impl Point {
    #[tactic(auto, unfolding(crate::specs::Point::point_of_bits))]
    pub fn of_bits(x: u32, y: u32, z: u32) -> Self
        ensures { result ≡ point_of_bits x y z }
    {
        Point {
            x: float_of(x),
            y: float_of(y),
            z: float_of(z),
        }
    }

    pub fn finite(self) -> bool
        ensures { result ≡ finite_point self }
    {
        is_finite(self.x) && is_finite(self.y) && is_finite(self.z)
    }
}
