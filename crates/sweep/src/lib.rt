// Forward by a sweep: upward row by row, and along each row from left to right. The public function is `sweep_points`, at the end; it
// promises what the crate `rule` says of forward.
// The places of the points in order have equal points side by side, and these are dropped two by two: the points that remain are swept.
// The live rectangles, begun and not ended, stand by rising x on two stacks in the working array: those left of where the sweep is at its
// start, those right of it at its end. On a row the points and the live rectangles are walked through together. Where a point falls into a
// live rectangle, or one begins left of it and reaches it, it ends: its rectangle is done, and its two ends are points of the row like the
// others. The points of a row, two by two, begin new rectangles. That this gives the rule's list is shown in the crate `live`.
#![tactic(auto)]

ghost use Rattle.std.specs.Prelude.{◌≡◌, not, cond, Ok, Err, eqb, length, slice_get, ◌-ℤ◌, ◌+◌, ◌*◌, ◌<◌, ◌≤◌};
ghost use Rattle.std.specs.Int.{w32};
ghost use Rattle.std.proofs.Common.{SFits};
ghost use Rattle.plane.specs.Lists.{at_start};
ghost use Rattle.plane.specs.Words.{eq_z, points_of, rect_size, flat_rects, area_of, most_points};
ghost use Rattle.plane.specs.Edge.{edge_length};
ghost use Rattle.plane.specs.Swaps.{paired_at};
ghost use Rattle.entry.specs.Refusals.{number_of};
ghost use Rattle.entry.specs.Checks.{verdict};
ghost use Rattle.entry.specs.Entry.{counted, told};
ghost use Rattle.rule.specs.Rule.{rule_list};
ghost use Rattle.rule.specs.ForwardCall.{ForwardAccepted, sums_of, points_remaining, forward_list, ForwardDone, forward_told, input_checks};
ghost use Rattle.live.specs.Stands.{far};
ghost use Rattle.sweep.specs.Inner.{put_at, live_size, live_at, put_live, x_on, reached_at, nearer, start_of, taken_from, end_put, end_put_work};
ghost use Rattle.sweep.specs.Inner.{passing, cut_to, cut_work, ended_box, Turned, swept, room_for, Ready, OneMore, Underway, Advanced};
ghost use Rattle.sweep.specs.Inner.{KeptPast, same_place, standing, Ordered, StandFor};

use checks::order_points;
use entry::{Reason, Refusal};
use live::Live;
use plane::{MOST_POINTS, Point, RECT_SIZE, Rect, point_at};
use rule::Sums;

// ---- The points that are swept

// Those of an array, at places of it, in order. The working array goes beside: it is written, and these are only read.
#[derive(Clone, Copy)]
struct Points<'a> {
    given: &'a [i32],
    order: &'a [u16],
}

impl Points<'_> {
    // The point with this number.
    fn get(self, i: usize) -> Option<Point>
        ensures { result ≡ slice_get (swept self.entry) i }
    {
        let place = *self.order.get(i)?;
        Some(point_at(self.given, place as usize))
    }

    // Whether the point with this number is equal to the next one.
    fn is_paired(self, i: usize) -> bool
        requires { i < length self.order.now }
        ensures { result ≡ paired_at (same_place (points_of self.entry.given.now)) 0 self.entry.order.now i }
    {
        if i + 1 < self.order.len() {
            let p = point_at(self.given, self.order[i] as usize);
            return p == point_at(self.given, self.order[i + 1] as usize);
        }
        false
    }

    // How many live rectangles there is room for.
    fn room(self) -> usize
        ensures { result ≡ room_for (swept self.entry) }
    {
        self.order.len() / 2
    }
}

// ---- Four numbers in an array

// Puts a rectangle's four numbers, or a live one's, at place i of an array of these.
fn put_four(numbers: &mut [i32], i: usize, four: [i32; 4])
    requires { rect_size * (i + 1) ≤ length numbers.old }
    ensures { numbers.new ≡ put_at numbers.old i four }
{
    numbers[RECT_SIZE * i] = four[0];
    numbers[RECT_SIZE * i + 1] = four[1];
    numbers[RECT_SIZE * i + 2] = four[2];
    numbers[RECT_SIZE * i + 3] = four[3];
}

// How many numbers a live rectangle has in the working array.
const LIVE_SIZE: usize = 4;

// Without a test of the place, which the sweep knows to be there: its moves run fast.
fn live_at(work: &[i32], i: usize) -> Live
    requires { live_size * (i + 1) ≤ length work.now }
    ensures { result ≡ live_at work.now i }
{
    Live {
        left: work[LIVE_SIZE * i],
        right: work[LIVE_SIZE * i + 1],
        row: work[LIVE_SIZE * i + 2],
        place: work[LIVE_SIZE * i + 3],
    }
}

// ---- Where a sweep stands

// Right of every coordinate: x of an end that is not there, so that the nearer of two ends is the lesser number whichever of them are there.
const FAR: i32 = 2_000_000_000;

// The number of the next point, of live rectangles passed, the place of the first one ahead, and how many rectangles have begun; the row,
// and on it the right end of the rectangle that ended last and the left end of one that begins, each FAR where there is none.
#[derive(Clone, Copy)]
struct Sweep {
    next: usize,
    passed: usize,
    ahead: usize,
    given: usize,
    row: i32,
    carried: i32,
    opened: i32,
}

// A rectangle of the list, and its place there.
#[derive(Clone, Copy)]
struct Placed {
    rect: Rect,
    place: usize,
}

impl Sweep {
    // Before the first point, with room for so many live rectangles.
    fn new(room: usize) -> Self
        ensures { result ≡ start_of room }
    {
        Sweep {
            next: 0,
            passed: 0,
            ahead: room,
            given: 0,
            row: -FAR,
            carried: FAR,
            opened: FAR,
        }
    }

    // ---- What is next

    // x of the point, if it is on the row.
    fn on_row(&self, p: Option<Point>) -> i32
        ensures { result ≡ x_on self.now.row p }
    {
        match p {
            Some(p) if p.y == self.row => p.x,
            _ => FAR,
        }
    }

    // The nearer of the end at x and the right end carried.
    fn nearer(&self, x: i32) -> i32
        ensures { result ≡ nearer self.now x }
    {
        if x < self.carried { x } else { self.carried }
    }

    fn is_open(&self) -> bool
        ensures { result ≡ not (eq_z self.now.opened far) }
    {
        self.opened != FAR
    }

    // The live rectangle that is next before the place `end`, unless x is left of it.
    fn reached(&self, work: &[i32], end: usize, x: i32) -> Option<Live>
        requires { live_size * end ≤ length work.now }
        ensures { result ≡ reached_at work.now self.now.ahead end x }
    {
        if self.ahead < end {
            let k = live_at(work, self.ahead);
            if k.left <= x {
                return Some(k);
            }
        }
        None
    }

    // ---- Ends on the row

    // The nearer of the point at x and the right end carried is taken.
    fn take(&mut self, x: i32)
        requires { self.old.next ≤ most_points }
        ensures { self.new ≡ taken_from self.old x }
    {
        if x < self.carried {
            self.next += 1;
        } else {
            self.carried = FAR;
        }
    }

    // An end at x: it opens a rectangle, or closes the one that is open. `OneMore` is of the working array too, and so no fact of a sweep alone.
    fn put_end(&mut self, work: &mut [i32], x: i32)
        requires { OneMore self.old (length work.old) }
        ensures value { self.new ≡ end_put self.old x }
        ensures work_after { work.new ≡ end_put_work work.old self.old x }
    {
        if !self.is_open() {
            self.opened = x;
            return;
        }
        put_four(
            work,
            self.passed,
            [self.opened, x, self.row, self.given as i32],
        );
        self.passed += 1;
        self.given += 1;
        self.opened = FAR;
    }

    // ---- Live rectangles that the sweep comes to

    // The next one ahead goes on.
    fn pass(&mut self, work: &mut [i32], k: Live)
        requires { OneMore self.old (length work.old) }
        ensures value { self.new ≡ passing self.old }
        ensures work_after { work.new ≡ put_live work.old self.old.passed k }
    {
        put_four(work, self.passed, [k.left, k.right, k.row, k.place]);
        self.passed += 1;
        self.ahead += 1;
    }

    // The next one ahead ends, and its right end is carried. Its left end goes with the nearer of the point at t and the end carried before, if that
    // is there too, or is put on the row.
    fn cut(&mut self, work: &mut [i32], t: i32, k: Live)
        requires { OneMore self.old (length work.old) }
        ensures value { self.new ≡ cut_to self.old t k }
        ensures work_after { work.new ≡ cut_work work.old self.old t k }
    {
        if self.nearer(t) == k.left {
            self.take(t);
        } else {
            self.put_end(work, k.left);
        }
        self.ahead += 1;
        self.carried = k.right;
    }

    // The rectangle that ends on the row.
    fn ended(&self, k: Live) -> Rect
        requires { SFits w32 (k.right -ℤ k.left) × SFits w32 (self.now.row -ℤ k.row) }
        ensures { result ≡ ended_box self.now k }
    {
        Rect {
            x: k.left,
            y: k.row,
            w: k.right - k.left,
            h: self.row - k.row,
        }
    }

    // ---- The next row

    // Turns to the row of its first point: the live rectangles that end right of it are ahead again. It goes down two stacks at once, of which no range
    // tells.
    fn turn(&mut self, work: &mut [i32], p: Point)
        requires { (self.old.passed ≤ self.old.ahead) × (live_size * self.old.ahead ≤ length work.old) }
        ensures { Turned p self.old work.old self.new work.new }
    {
        while 0 < self.passed {
            let k = live_at(work, self.passed - 1);
            if k.right <= p.x {
                break;
            }
            self.passed -= 1;
            self.ahead -= 1;
            put_four(work, self.ahead, [k.left, k.right, k.row, k.place]);
        }
        self.row = p.y;
    }

    // ---- One move

    // The next move of a sweep of these points: the rectangle that is done with it, if one is. Nothing but DRAINED is refused: no point is left,
    // and the loops leave on it, in the form that document 01 names.
    // In line in both loops over it, which keep where the sweep stands in registers.
    #[inline(always)]
    fn advance(&mut self, points: Points<'_>, work: &mut [i32]) -> Result<Option<Placed>, Refusal>
        requires { Underway (swept points) work.old self.old far }
        ensures { Advanced (swept points.entry) self.old work.old result self.new work.new }
    {
        let next = points.get(self.next);
        let t = self.on_row(next);
        if t == self.carried {
            if t != FAR {
                self.next += 1;
                self.carried = FAR;
                return Ok(None);
            }
            let Some(p) = next else {
                return Err(Reason::Drained.at(0));
            };
            self.turn(work, p);
            return Ok(None);
        }
        let x = self.nearer(t);
        let Some(k) = self.reached(work, points.room(), x) else {
            self.take(t);
            self.put_end(work, x);
            return Ok(None);
        };
        if self.is_open() | (x < k.right) {
            let rect = self.ended(k);
            self.cut(work, t, k);
            return Ok(Some(Placed {
                rect,
                place: k.place as usize,
            }));
        }
        self.pass(work, k);
        Ok(None)
    }
}

// ---- The list

fn area_of(r: Rect) -> u64
    ensures { result ≡ area_of r }
{
    (r.w.unsigned_abs() as u64) * (r.h.unsigned_abs() as u64)
}

// DRAINED ends a sweep. Any other refusal is passed on as it is; that none comes is what the contracts of both loops say.
fn unless_drained(refusal: Refusal) -> Result<(), Refusal>
    ensures { result ≡ cond (eqb (number_of refusal.reason) 10) (Ok tt) (Err refusal) }
{
    if refusal.reason != Reason::Drained {
        return Err(refusal);
    }
    Ok(())
}

// What is said beside the list, with the edge that is told.
fn sum_all(points: Points<'_>, work: &mut [i32], edge: u64) -> Result<Sums, Refusal>
    requires { Ready (swept points) (length work.old) }
    ensures kept { KeptPast (2 * length (swept points.entry)) work.old work.new }
    ensures sums { result ≡ Ok (sums_of (rule_list (swept points.entry)) edge) }
{
    let mut z = Sweep::new(points.room());
    let mut count: usize = 0;
    let mut area: u64 = 0;
    loop {
        match z.advance(points, work) {
            Ok(Some(Placed { rect, .. })) => {
                area += area_of(rect);
                count += 1;
            }
            Ok(None) => {}
            Err(refusal) => {
                unless_drained(refusal)?;
                return Ok(Sums { count, area, edge });
            }
        }
    }
}

// Writes the list.
fn write_all(points: Points<'_>, work: &mut [i32], rects: &mut [i32]) -> Result<(), Refusal>
    requires ready { Ready (swept points) (length work.old) }
    requires has_room { rect_size * length (rule_list (swept points)) ≤ length rects.old }
    ensures done { result ≡ Ok tt }
    ensures kept { KeptPast (2 * length (swept points.entry)) work.old work.new }
    ensures output { rects.new ≡ at_start (flat_rects (rule_list (swept points.entry))) rects.old }
{
    let mut z = Sweep::new(points.room());
    loop {
        match z.advance(points, work) {
            Ok(Some(Placed { rect, place })) => {
                put_four(rects, place, [rect.x, rect.y, rect.w, rect.h]);
            }
            Ok(None) => {}
            Err(refusal) => return unless_drained(refusal),
        }
    }
}

// Forward of points that the checks pass, with this edge, for which those at these places stand: sums the rectangles, and writes only where all
// have room.
fn count_then_write(
    points: Points<'_>,
    work: &mut [i32],
    rects: &mut [i32],
    edge: u64,
) -> Result<Sums, Refusal>
    requires forward_accepted { ForwardAccepted points.given.now (length work.old) (rect_size * length (forward_list points.given.now)) }
    requires stand_for { StandFor points.given.now (length work.old) points.order.now }
    requires edge_value { edge ≡ edge_length (points_remaining points.given.now) }
    ensures { ForwardDone points.entry.given.now work.old rects.old (forward_told result) work.new rects.new }
{
    let given = points.given.len() / 2;
    let sums = sum_all(points, work, edge)?;
    if rects.len() / RECT_SIZE < sums.count {
        work[..2 * given].fill(0);
        return Err(Reason::Room.at(sums.count));
    }
    write_all(points, work, rects)?;
    work[..2 * given].fill(0);
    Ok(sums)
}

// ---- The points that remain

// Drops places of equal points two by two, where they stand side by side. Gives how many are left at the start. It goes on by one place or by two,
// as no range does.
fn drop_pairs(given: &[i32], order: &mut [u16]) -> usize
    ensures value { result ≡ length (standing (points_of given.now) order.old) }
    ensures order_after { order.new ≡ at_start (standing (points_of given.now) order.old) order.old }
{
    let mut i = 0;
    let mut left = 0;
    while i < order.len() {
        let points = Points { given, order };
        if points.is_paired(i) {
            i += 2;
        } else {
            order[left] = order[i];
            left += 1;
            i += 1;
        }
    }
    left
}

// ---- Checks

// The edge of the points as given, or what forward's checks before the room is known refuse. Where nothing is refused, `order` begins with the places
// of the points in order.
fn check_input(
    points: &[i32],
    work: usize,
    order: &mut [u16; MOST_POINTS],
) -> Result<usize, Refusal>
    ensures value { told result ≡ counted (verdict (input_checks points.now work)) (edge_length (points_of points.now)) }
    ensures ordered { Ordered points.now work order.new }
{
    let n = points.len() / 2;
    if points.len() % 2 != 0 {
        return Err(Reason::Length.at(0));
    }
    if MOST_POINTS < n {
        return Err(Reason::Many.at(0));
    }
    if work < 2 * n {
        return Err(Reason::Work.at(0));
    }
    order_points(points, order)
}

// ---- The public function

/// The rectangles of the points that remain of the array's, written to `rects`, with their count, their area and the points' edge; or a refusal,
/// which leaves `rects` as it was. `points` is only read; `work` needs two numbers for each point given.
pub fn sweep_points(points: &[i32], work: &mut [i32], rects: &mut [i32]) -> Result<Sums, Refusal>
    ensures { ForwardDone points.now work.old rects.old (forward_told result) work.new rects.new }
{
    let mut order: [u16; MOST_POINTS] = [0; MOST_POINTS];
    let edge = check_input(points, work.len(), &mut order)?;
    let n = points.len() / 2;
    let left = drop_pairs(points, &mut order[..n]);
    let remaining = Points {
        given: points,
        order: &order[..left],
    };
    count_then_write(remaining, work, rects, edge as u64)
}
