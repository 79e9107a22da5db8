// Panbuckle: the corner points of right-angled shapes become disjoint rectangles, and back.
// The public functions are `forward` and `step`, at the end, and `backward`, passed on from the crate `outline`. What they promise, the
// rule, the refusals and the answers are the definitions of the crate `rule`.
#![tactic(auto)]

ghost use Rattle.std.specs.Prelude.{◌≡◌, true, false, [], ◌-ℤ◌, length, ◌+◌, ◌*◌, ◌<◌, ◌≤◌, MatchOption};
ghost use Rattle.std.proofs.Math.Option.{get_or};
ghost use Rattle.std.specs.Int.{w32};
ghost use Rattle.std.proofs.Common.{SFits};
ghost use Rattle.std.specs.Int.Signed.{lt_z};
ghost use Rattle.plane.specs.Words.{points_of, same};
ghost use Rattle.plane.specs.Edge.{edge_length};
ghost use Rattle.entry.specs.Checks.{verdict};
ghost use Rattle.entry.specs.Entry.{counted, told};
ghost use Rattle.rule.specs.Rule.{first_in, right_of, pick_k, pick_l, pick_m, rect_of, toggle, toggle_four, IsFirst};
ghost use Rattle.rule.specs.Working.{work_of};
ghost use Rattle.rule.specs.StepCall.{step_checks, step_told, StepAccepted, StepDone};
ghost use Rattle.rule.specs.ForwardCall.{forward_told, ForwardDone};
ghost use Rattle.panbuckle.specs.declared.TheConstants.{MOST_ROWS};
ghost use Rattle.panbuckle.specs.Inner.{held, put, cross, over_width, Begun, Rows, beside, Toggled, OddBeside, Between, most};

use checks::check_points;
pub use entry::{Reason, Refusal};
pub use outline::backward;
pub use plane::{MOST_POINTS, MOST_RECTS, Point, Rect};
use plane::{point_at, points_in};
pub use rule::{Step, Sums};
use std::marker::Model;
use sweep::sweep_points;

// ---- Points in an array

// The point in p's column on q's row.
fn corner(p: Point, q: Point) -> Point
    ensures { result ≡ cross p q }
{
    Point { x: p.x, y: q.y }
}

// At a place that is there; `gdsii` passes over one that is not.
fn put_point(a: &mut [i32], i: usize, p: Point)
    requires { 2 * i + 1 < length a.old }
    ensures { a.new ≡ put a.old i p }
{
    a[2 * i] = p.x;
    a[2 * i + 1] = p.y;
}

// Toggles a point of the first n: a present one is removed and the last takes its place, an absent one is added. Gives the new count.
// The array and the count are apart, since both are the caller's in the C interface: the array is lent, and may go on past the points.
fn toggled(a: &mut [i32], n: usize, p: Point) -> usize
    requires { (2 * n ≤ length a.old) × (2 * length (toggle (held n a.old) p) ≤ length a.old) }
    ensures value { result ≡ length (toggle (held n a.old) p) }
    ensures a_after { a.new ≡ work_of (most n result) (toggle (held n a.old) p) a.old }
{
    let place = points_in(&a[..2 * n]).position(
        |q| -> bool
            ensures { result ≡ same p q }
        { p == q },
    );
    let Some(i) = place else {
        put_point(a, n, p);
        return n + 1;
    };
    let last = n - 1;
    let moved = point_at(a, last);
    put_point(a, i, moved);
    put_point(a, last, Point::default());
    last
}

// ---- K, L and the width: a chain each, of which one function of a closure would say no less. K and L go by the names that the rule gives them

// The first point, in the order of y, then x.
fn pick_k(points: &[i32]) -> Point
    ensures { result ≡ pick_k (points_of points.now) }
{
    points_in(points).min().unwrap_or_default()
}

fn is_right_of(k: Point, p: Point) -> bool
    ensures { result ≡ right_of k p }
{
    p.y == k.y && k.x < p.x
}

// The first point right of k on its row.
fn pick_l(points: &[i32], k: Point) -> Point
    ensures { result ≡ pick_l k (points_of points.now) }
{
    points_in(points)
        .filter(|p| is_right_of(k, *p))
        .min()
        .unwrap_or(k)
}

// Above k, from its column to before l's.
fn is_over(k: Point, l: Point, p: Point) -> bool
    ensures { result ≡ over_width k l p }
{
    k.y < p.y && k.x <= p.x && p.x < l.x
}

// The first such point, and k where there is none.
fn first_over(points: &[i32], k: Point, l: Point) -> Point
    ensures { result ≡ get_or (first_in (over_width k l) (points_of points.now)) k }
{
    points_in(points)
        .filter(|p| is_over(k, l, *p))
        .min()
        .unwrap_or(k)
}

// ---- The stop row

// Left of k, from low's row to below end's.
fn is_beside(k: Point, low: Point, end: Point, p: Point) -> bool
    ensures { result ≡ beside k low end p }
{
    p.x < k.x && low.y <= p.y && p.y < end.y
}

// As many rows as the table holds: 8 KiB.
const MOST_ROWS: usize = 1024;

// Rows, each by a point in an array: fewer than a limit, and below an end.
#[derive(Drop)]
struct OddRows {
    end: Point,
    count: usize,
    limit: usize,
    array: [i32; 2 * MOST_ROWS],
}

impl Model for OddRows {
    ghost Value = { Rows };

    ghost view = { λ r. record { end = r.end; rows = held r.count r.array } };

    ghost invariant = { λ r. (r.count < r.limit) × (2 ≤ r.limit) × (r.limit ≤ MOST_ROWS) };
}

impl OddRows {
    // No rows. A pass with a small limit is fast.
    fn new(end: Point) -> OddRows
        ensures { result ≡ record { end = end; rows = [] } }
    {
        OddRows {
            end,
            count: 0,
            limit: 16,
            array: [0; 2 * MOST_ROWS],
        }
    }

    // Twice the limit, up to as many rows as the array holds.
    fn widen(&mut self)
        ensures { self.new ≡ self.old }
    {
        self.limit = (2 * self.limit).min(MOST_ROWS);
    }

    // Toggles p's row. If the rows reach the limit then, the highest is given up and is their end.
    fn toggle(&mut self, p: Point)
        ensures { Toggled p self.old.end self.old.rows self.new.end self.new.rows }
    {
        self.count = toggled(&mut self.array, self.count, p);
        if self.count < self.limit {
            return;
        }
        let Some(top) = points_in(&self.array[..2 * self.count]).max() else {
            return;
        };
        self.end = top;
        self.count = toggled(&mut self.array, self.count, top);
    }

    // Leaves the points of k's column on the rows with an odd number of points left of k, each once, from low's row to below an end: that is
    // m, or a lower row, where too many rows were odd at once.
    fn gather(&mut self, points: &[i32], k: Point, low: Point, m: Point)
        requires { lt_z low.y m.y ≡ true }
        ensures between { Between low m self.new.end }
        ensures odd_beside { OddBeside k low self.new.end (points_of points.now) self.new.rows }
    {
        self.count = 0;
        self.end = m;
        for p in points_in(points) {
            if is_beside(k, low, self.end, p) {
                self.toggle(corner(k, p));
            }
        }
    }

    // The lowest row.
    fn lowest(&self) -> Option<Point>
        ensures { MatchOption result (self.now.rows ≡ []) (λ r. IsFirst (λ p. true) self.now.rows r) }
    {
        points_in(&self.array[..2 * self.count]).min()
    }
}

// (xK, M): the lowest row with a point over the width, or a lower one with an odd number of points left of K. No row below
// `low` is such a one. Where a pass gives up rows and finds none below them, the next goes on there.
fn stop_row(points: &[i32], k: Point, l: Point) -> Point
    requires { Begun (points_of points.now) k l }
    ensures { result ≡ record { x = k.x; y = pick_m k l (points_of points.now) } }
{
    let over = first_over(points, k, l);
    let mut rows = OddRows::new(over);
    let mut low = k;
    while low.y < over.y {
        rows.gather(points, k, low, over);
        if let Some(row) = rows.lowest() {
            return row;
        }
        low = rows.end;
        rows.widen();
    }
    corner(k, over)
}

// ---- One step

// Toggles K, L, (xK, M) and (xL, M), in this order. Gives the new count.
fn toggle_four(a: &mut [i32], n: usize, k: Point, l: Point, m: Point) -> usize
    requires begun { Begun (held n a.old) k l }
    requires room { 2 * n ≤ length a.old }
    ensures value { result ≡ length (toggle_four (held n a.old) k l m.y) }
    ensures a_after { a.new ≡ work_of n (toggle_four (held n a.old) k l m.y) a.old }
{
    let n1 = toggled(a, n, k);
    let n2 = toggled(a, n1, l);
    let n3 = toggled(a, n2, corner(k, m));
    toggled(a, n3, corner(l, m))
}

// The rectangle from K to L and M.
fn reached(k: Point, l: Point, m: Point) -> Rect
    requires { SFits w32 (l.x -ℤ k.x) × SFits w32 (m.y -ℤ k.y) }
    ensures { result ≡ rect_of k l m.y }
{
    Rect {
        x: k.x,
        y: k.y,
        w: l.x - k.x,
        h: m.y - k.y,
    }
}

// A step of points that are known to be accepted.
fn take_rectangle(work: &mut [i32], n: usize) -> Step
    requires { StepAccepted work.old n }
    ensures { StepDone work.old n (step_told (Ok result)) work.new }
{
    let points = &work[..2 * n];
    let k = pick_k(points);
    let l = pick_l(points, k);
    let m = stop_row(points, k, l);
    let rect = reached(k, l, m);
    let count = toggle_four(work, n, k, l, m);
    Step { rect, count }
}

// ---- Checks

// What a step's checks refuse; or the edge of the points, for which a step has no use.
fn check_work(work: &[i32], n: usize) -> Result<usize, Refusal>
    ensures { told result ≡ counted (verdict (step_checks work.now n)) (edge_length (held n work.now)) }
{
    if MOST_POINTS < n {
        return Err(Reason::Many.at(0));
    }
    if work.len() < 2 * n {
        return Err(Reason::Work.at(0));
    }
    if n == 0 {
        return Err(Reason::Drained.at(0));
    }
    check_points(&work[..2 * n])
}

// ---- The public functions

/// The rectangles of the array's points, written to `rects`, with their count, their area and the length of the outline of the cells that they
/// cover; or a refusal, which leaves `rects` as it was. `points` is only read; `work` needs two numbers for each point.
pub fn forward(points: &[i32], work: &mut [i32], rects: &mut [i32]) -> Result<Sums, Refusal>
    ensures { ForwardDone points.now work.old rects.old (forward_told result) work.new rects.new }
{
    sweep_points(points, work, rects)
}

/// One rectangle of the `count` points at the start of `work`, which then holds the points that are left, and their count; or a
/// refusal, which leaves `work` as it was.
pub fn step(work: &mut [i32], count: usize) -> Result<Step, Refusal>
    ensures { StepDone work.old count (step_told result) work.new }
{
    check_work(work, count)?;
    Ok(take_rectangle(work, count))
}
