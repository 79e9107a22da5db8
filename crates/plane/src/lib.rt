// The words of the plane, as document 01 has them, and the point and the rectangle at a place of an array. What is said of them is in specs/.
#![tactic(auto)]

ghost use Rattle.std.specs.Prelude.{◌+◌, ◌*◌, ◌<◌, ◌≡◌, ℕ, List, [], ◌∷◌, length, drop, get_or, ℤ, nat_abs, ◌-ℤ◌, MatchOption, IfSome};
ghost use Rattle.std.specs.Iterator.{YieldsFirst, item_count};
ghost use Rattle.plane.specs.Words.{origin, same, before, points_of, point_at, rect_size, rects_of, rect_at};
ghost use Rattle.plane.specs.Keys.{raised, lowered, row_step, key_of, point_of};

use std::marker::PhantomData;

/// A point of the plane. The order of its fields is that of points: y, then x.
#[derive(Clone, Copy, Debug, Default, PartialEq, Eq, PartialOrd, Ord)]
pub struct Point {
    pub y: i32,
    pub x: i32,
}

/// A rectangle: its lower left corner (x, y), its width w and its height h.
#[derive(Clone, Copy, Debug, Default, PartialEq, Eq)]
pub struct Rect {
    pub x: i32,
    pub y: i32,
    pub w: i32,
    pub h: i32,
}

// ---- Numbers of document 01

/// The low end of the range.
pub const LOW_END: i32 = -1_000_000_000;

/// The high end.
pub const HIGH_END: i32 = 1_000_000_000;

/// The most points that forward and a step take.
pub const MOST_POINTS: usize = 4096;

/// The most rectangles that backward takes.
pub const MOST_RECTS: usize = 16384;

/// How many numbers of an array a rectangle has.
pub const RECT_SIZE: usize = 4;

// ---- Two points: what the derived `==` and `<` say, in document 01's words

/// Whether x and y are the same.
pub fn same_point(p: Point, q: Point) -> bool
    ensures { result ≡ same p q }
{
    p == q
}

/// In the order of y, then x.
pub fn comes_before(p: Point, q: Point) -> bool
    ensures { result ≡ before p q }
{
    p < q
}

// ---- Keys: numbers that rise in the order of y, then x, and tell the point. They are plain numbers, which the library sorts, and `From` would not say
// which number of a point is meant

/// From a key to the one of the next row.
pub const ROW_STEP: u64 = 4_294_967_296;

/// How far a number is above the lowest of 32 bits. It is cut to 32 bits before it is widened, so that the compiler flips one bit.
pub fn raise(z: i32) -> u64
    ensures value { result ≡ raised z }
    ensures upper_bound { result < row_step }
{
    (((z as i64) + 2_147_483_648) as u32) as u64
}

// The number that is so far above the lowest.
fn lower(n: u64) -> i32
    requires { n < row_step }
    ensures { result ≡ lowered n }
{
    ((n as i64) - 2_147_483_648) as i32
}

/// A point's key.
pub fn key_of(p: Point) -> u64
    ensures { result ≡ key_of p }
{
    raise(p.y) * ROW_STEP + raise(p.x)
}

/// The point of a key.
pub fn point_of(k: u64) -> Point
    ensures { result ≡ point_of k }
{
    Point {
        x: lower(k % ROW_STEP),
        y: lower(k / ROW_STEP),
    }
}

// ---- Items in an array

/// What stands in an array as so many numbers, item after item. Numbers that are too few for one more belong to none.
pub trait Packed: Copy {
    ghost items_of: { List ℤ → List Self };

    ghost blank: { Self };

    // How many numbers an item has.
    ghost size: { ℕ };

    /// The first item, and the numbers after it.
    fn split_first(numbers: &[i32]) -> Option<(Self, &[i32])>
        ensures items { MatchOption result (items_of numbers.now ≡ []) (λ r. items_of numbers.now ≡ r.0 ∷ items_of r.1.now) }
        ensures rest { IfSome result (λ r. r.1.now ≡ drop size numbers.now) };

    /// The item at place i, and one of zeros where there is none.
    fn at(numbers: &[i32], i: usize) -> Self
        ensures { result ≡ get_or (items_of numbers.now) i blank };
}

impl Packed for Point {
    ghost items_of = { points_of };

    ghost blank = { origin };

    ghost size = { 2 };

    fn split_first(numbers: &[i32]) -> Option<(Self, &[i32])> {
        let [x, y, rest @ ..] = numbers else {
            return None;
        };
        Some((Point { x: *x, y: *y }, rest))
    }

    fn at(numbers: &[i32], i: usize) -> Self {
        if i < numbers.len() / 2 {
            return Point {
                x: numbers[2 * i],
                y: numbers[2 * i + 1],
            };
        }
        Point::default()
    }
}

impl Packed for Rect {
    ghost items_of = { rects_of };

    ghost blank = { rect_at [] 0 };

    ghost size = { rect_size };

    fn split_first(numbers: &[i32]) -> Option<(Self, &[i32])> {
        let [x, y, w, h, rest @ ..] = numbers else {
            return None;
        };
        let rect = Rect {
            x: *x,
            y: *y,
            w: *w,
            h: *h,
        };
        Some((rect, rest))
    }

    fn at(numbers: &[i32], i: usize) -> Self {
        if i < numbers.len() / RECT_SIZE {
            return Rect {
                x: numbers[RECT_SIZE * i],
                y: numbers[RECT_SIZE * i + 1],
                w: numbers[RECT_SIZE * i + 2],
                h: numbers[RECT_SIZE * i + 3],
            };
        }
        Rect::default()
    }
}

/// The items of an array, one after another.
#[derive(Drop)]
pub struct Items<'a, T> {
    pub rest: &'a [i32],
    of: PhantomData<T>,
}

impl<'a, T: Packed> Iterator for Items<'a, T> {
    type Item = T;

    ghost next_gives = { YieldsFirst (λ s. T.items_of s.rest.now) };

    ghost remaining = { item_count (λ s. T.items_of s.rest.now) };

    fn next(&mut self) -> Option<T> {
        let (item, rest) = T::split_first(self.rest)?;
        self.rest = rest;
        Some(item)
    }
}

// Each names what it gives; one function of both would have to be told the type at nearly every call.

/// The points of an array.
pub fn points_in(numbers: &[i32]) -> Items<'_, Point>
    ensures { result.rest.now ≡ numbers.now }
{
    Items {
        rest: numbers,
        of: PhantomData,
    }
}

/// The rectangles of an array.
pub fn rects_in(numbers: &[i32]) -> Items<'_, Rect>
    ensures { result.rest.now ≡ numbers.now }
{
    Items {
        rest: numbers,
        of: PhantomData,
    }
}

// ---- Points in an array

/// The point (0, 0).
pub fn origin() -> Point
    ensures { result ≡ origin }
{
    Point::default()
}

/// The point at place i, and (0, 0) where there is none.
pub fn point_at(a: &[i32], i: usize) -> Point
    ensures { result ≡ point_at (points_of a.now) i }
{
    Point::at(a, i)
}
