// The rectangles that a sweep has begun and not ended. What is said of them, and of where a sweep stands, is in specs/; that the sweep
// gives the rule's list is shown in proofs/.
#![tactic(auto)]

/// A rectangle that has begun: its left and right side, the row that it begins on, and its place in the list.
#[derive(Clone, Copy)]
pub struct Live {
    pub left: i32,
    pub right: i32,
    pub row: i32,
    pub place: i32,
}
