// What every entry point shares: why an input is refused, and at which place.
// What is said of a call is in specs/.
#![tactic(auto)]

ghost use Rattle.std.specs.Prelude.{◌≡◌, Some, nat_eq};
ghost use Rattle.std.specs.List.{find};
ghost use Rattle.entry.specs.Checks.{accepted, refused};
ghost use Rattle.entry.specs.Entry.{counted, told};
ghost use Rattle.entry.specs.Refusals.{number_of, IsNumbered, refusal_text, unknown_text};

use std::error::Error;
use std::fmt;

/// Why an input is refused, with the number that documents 01 and 02 give to it.
#[derive(Clone, Copy, Debug, PartialEq, Eq)]
pub enum Reason {
    /// The array has numbers left over.
    Length = 1,
    /// There are more points, rectangles, lines or bytes than are taken.
    Many = 2,
    /// The working array is too short.
    Work = 3,
    /// A coordinate is out of range.
    Range = 4,
    /// A point stands twice.
    Repeated = 5,
    /// A row has an odd number of points.
    Row = 6,
    /// A column has an odd number of points.
    Column = 7,
    /// The result needs more room.
    Room = 8,
    /// A rectangle has a side below 1.
    Flat = 9,
    /// No point is left.
    Drained = 10,
    /// A line is not two numbers.
    Text = 11,
    /// The bytes end too early.
    Truncated = 12,
    /// A record is malformed or out of order, a path or a reference.
    Record = 13,
    /// A boundary does not close.
    Open = 14,
    /// An edge is neither horizontal nor vertical.
    Slanted = 15,
    /// The structure is not there.
    Absent = 16,
    /// Two boundaries overlap.
    Overlap = 17,
}

impl Reason {
    /// The refusal for this reason, at a place.
    pub fn at(self, place: usize) -> Refusal
        ensures { result ≡ record { reason = self; place = place } }
    {
        Refusal {
            reason: self,
            place: place as u64,
        }
    }
}

// Every reason.
const REASONS: [Reason; 17] = [
    Reason::Length,
    Reason::Many,
    Reason::Work,
    Reason::Range,
    Reason::Repeated,
    Reason::Row,
    Reason::Column,
    Reason::Room,
    Reason::Flat,
    Reason::Drained,
    Reason::Text,
    Reason::Truncated,
    Reason::Record,
    Reason::Open,
    Reason::Slanted,
    Reason::Absent,
    Reason::Overlap,
];

impl From<Reason> for u32 {
    ghost from_gives = { λ reason number. number ≡ number_of reason };

    fn from(reason: Reason) -> u32 {
        reason as u32
    }
}

/// A number that no reason has.
#[derive(Clone, Copy, Debug, PartialEq, Eq)]
pub struct UnknownReason(pub u32);

impl fmt::Display for UnknownReason {
    ghost output = { λ unknown. Some (unknown_text unknown) };

    fn fmt<W: fmt::Write>(&self, f: &mut fmt::Formatter<W>) -> fmt::Result {
        write!(f, "no refusal has number {}", self.0)
    }
}

impl Error for UnknownReason {}

// The first of some reasons that has a number.
fn with_number(reasons: &[Reason], number: u32) -> Option<Reason>
    ensures { result ≡ find (λ reason. nat_eq (number_of reason) number) reasons.now }
{
    reasons
        .iter()
        .copied()
        .find(|reason| u32::from(*reason) == number)
}

// No derive gives the reason of a number.
impl TryFrom<u32> for Reason {
    type Error = UnknownReason;

    ghost try_from_gives = { IsNumbered };

    fn try_from(number: u32) -> Result<Self, UnknownReason> {
        with_number(&REASONS, number).ok_or(UnknownReason(number))
    }
}

/// A refusal: why, and the place of what offends.
#[derive(Clone, Copy, Debug, PartialEq, Eq)]
pub struct Refusal {
    pub reason: Reason,
    pub place: u64,
}

impl fmt::Display for Refusal {
    ghost output = { λ refusal. Some (refusal_text refusal) };

    fn fmt<W: fmt::Write>(&self, f: &mut fmt::Formatter<W>) -> fmt::Result {
        let number = u32::from(self.reason);
        let place = self.place;
        write!(f, "refused {number} place {place}")
    }
}

impl Error for Refusal {}

// ---- The answer of one that counts

/// The answer's number where nothing is refused.
pub const DONE: u32 = 0;

/// What one that counts answers, in the documents' numbers. The count is of points, rectangles, lines or bytes, and 0 on a refusal.
#[derive(Clone, Copy, Debug, PartialEq, Eq)]
pub struct Counted {
    pub answer: u32,
    pub place: u64,
    pub count: usize,
}

// A function `refusal` of the crate would differ from the type `Refusal` in case alone.
impl Counted {
    /// The answer where nothing is refused.
    pub fn done(count: usize) -> Counted
        ensures { result ≡ counted accepted count }
    {
        Counted {
            answer: DONE,
            place: 0,
            count,
        }
    }

    /// The answer of a refusal: any number at any place.
    pub fn refusal(answer: u32, place: u64) -> Counted
        ensures { result ≡ counted (refused answer place) 0 }
    {
        Counted {
            answer,
            place,
            count: 0,
        }
    }
}

impl From<Result<usize, Refusal>> for Counted {
    ghost from_gives = { λ answer counted. counted ≡ told answer };

    fn from(answer: Result<usize, Refusal>) -> Counted {
        match answer {
            Ok(count) => Counted::done(count),
            Err(Refusal { reason, place }) => Counted::refusal(u32::from(reason), place),
        }
    }
}
