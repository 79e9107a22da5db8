// What forward and a step give, as document 01 has it; backward gives a count. What is said of them is in specs/.
#![tactic(auto)]

use plane::Rect;

/// What is said beside a list: how many rectangles, their area, and the edge of the points.
#[derive(Clone, Copy, Debug, PartialEq, Eq)]
pub struct Sums {
    pub count: usize,
    pub area: u64,
    pub edge: u64,
}

/// A step's rectangle, and how many points are left.
#[derive(Clone, Copy, Debug, PartialEq, Eq)]
pub struct Step {
    pub rect: Rect,
    pub count: usize,
}
