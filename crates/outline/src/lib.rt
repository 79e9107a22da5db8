// The corner points of a list of rectangles: the points of its outline.
// The public function is `backward`, at the end. What it promises, the rule, the refusals and the answer are the definitions of the crate
// `rule`.
// A point is told by its key, a number that rises in the order of y, then x. The keys of all corners would be half a mebibyte, so the
// points are listed in batches: one pass over the rectangles gathers the lowest keys from a start on, as many as a small array holds.
#![tactic(auto)]

ghost use Rattle.std.specs.Prelude.{◌≡◌, true, false, [], ◌∷◌, length, take, ◌+◌, ◌*◌, ◌/◌, ◌<◌, ◌≤◌, MatchResult};
ghost use Rattle.plane.specs.Lists.{at_start};
ghost use Rattle.plane.specs.Words.{rect_in_range, flat, corners_of, rects_of, flat_points};
ghost use Rattle.entry.specs.Checks.{refused, verdict};
ghost use Rattle.entry.specs.Entry.{told};
ghost use Rattle.entry.specs.Refusals.{number_of};
ghost use Rattle.rule.specs.Back.{back_list};
ghost use Rattle.rule.specs.BackwardCall.{backward_points, backward_checks, BackwardAccepted, BackwardDone};
ghost use Rattle.rule.specs.Rows.{AcceptedRects};
ghost use Rattle.outline.specs.declared.TheConstants.{MOST_KEYS};
ghost use Rattle.outline.specs.Inner.{spans_range, keys_of, points_of_keys, misses, OddOnes, Keys, Takes, IsBatch};

use entry::{Reason, Refusal};
use plane::{
    HIGH_END, LOW_END, MOST_RECTS, Point, RECT_SIZE, ROW_STEP, Rect, key_of, point_of, rects_in,
};
use std::marker::Model;

// ---- Checks

fn is_flat(r: Rect) -> bool
    ensures { result ≡ flat r }
{
    r.w < 1 || r.h < 1
}

// Whether a coordinate and the far side are in range. The far side is made in 64 bits, so that it cannot wrap.
fn spans_range(near: i32, by: i32) -> bool
    ensures { result ≡ spans_range near by }
{
    let range = i64::from(LOW_END)..=i64::from(HIGH_END);
    let low = i64::from(near);
    range.contains(&low) && range.contains(&(low + i64::from(by)))
}

fn is_in_range(r: Rect) -> bool
    ensures { result ≡ rect_in_range r }
{
    spans_range(r.x, r.w) && spans_range(r.y, r.h)
}

// What is refused of the rectangles, whatever the room.
fn check_rects(rects: &[i32]) -> Result<(), Refusal>
    ensures { MatchResult result (λ _. BackwardAccepted rects.now (2 * length (backward_points rects.now))) (λ e. (out : _) → verdict (backward_checks rects.now out) ≡ refused (number_of e.reason) e.place) }
{
    if rects.len() % RECT_SIZE != 0 {
        return Err(Reason::Length.at(0));
    }
    if MOST_RECTS < rects.len() / RECT_SIZE {
        return Err(Reason::Many.at(0));
    }
    if let Some(i) = rects_in(rects).position(is_flat) {
        return Err(Reason::Flat.at(i));
    }
    if let Some(i) = rects_in(rects).position(|r| !is_in_range(r)) {
        return Err(Reason::Range.at(i));
    }
    Ok(())
}

// ---- Keys

// No key of a point in range is below this one: that of the low end's row.
const START: u64 = 1_147_483_648 * ROW_STEP;

// Above every key of a point in range.
const END: u64 = 3_147_483_649 * ROW_STEP;

// The keys of a rectangle's corners, a row after the other, the left one first.
fn corner_keys(r: Rect) -> [u64; 4]
    requires { rect_in_range r ≡ true }
    ensures { result ≡ keys_of (corners_of r) }
{
    let right = r.x + r.w;
    let top = r.y + r.h;
    [
        key_of(Point { x: r.x, y: r.y }),
        key_of(Point { x: right, y: r.y }),
        key_of(Point { x: r.x, y: top }),
        key_of(Point { x: right, y: top }),
    ]
}

// ---- The keys that stand an odd number of times

// Leaves at the start the keys that stand an odd number of times, once each, in order. Gives how many they are. It reads and writes one slice, at two
// places, as no iterator does.
fn odd_ones(keys: &mut [u64]) -> usize
    ensures upper_bound { result ≤ length keys.old }
    ensures odd_ones { OddOnes keys.old (take result keys.new) }
{
    sorting::sort(keys);
    let mut left = 0;
    for i in 0..keys.len() {
        let k = keys[i];
        if 0 < left && keys[left - 1] == k {
            left -= 1;
        } else {
            keys[left] = k;
            left += 1;
        }
    }
    left
}

// ---- A batch

// As many keys as a batch holds, and as many as it keeps where it is full: 10.5 KiB of keys leave the rest of a stack of 13.5 for calls, of which the
// library's sort takes most.
const MOST_KEYS: usize = 1344;

const KEPT_KEYS: usize = MOST_KEYS / 2;

// Keys from a start to below an end: the first `count` of an array.
#[derive(Drop)]
struct Batch {
    start: u64,
    end: u64,
    count: usize,
    array: [u64; MOST_KEYS],
}

impl Model for Batch {
    ghost Value = { Keys };

    ghost view = { λ b. record { start = b.start; end = b.end; keys = take b.count b.array } };

    ghost invariant = { λ b. b.count ≤ MOST_KEYS };
}

impl Batch {
    // Keys yet to be gathered.
    fn new() -> Batch {
        Batch {
            start: START,
            end: END,
            count: 0,
            array: [0; MOST_KEYS],
        }
    }

    fn keys(&self) -> &[u64]
        ensures { result.now ≡ self.now.keys }
    {
        &self.array[..self.count]
    }

    // Leaves the keys that stand an odd number of times, once each, in order.
    fn keep_odd(&mut self)
        ensures start { self.new.start ≡ self.old.start }
        ensures end { self.new.end ≡ self.old.end }
        ensures odd_ones { OddOnes self.old.keys self.new.keys }
    {
        self.count = odd_ones(&mut self.array[..self.count]);
    }

    // Makes room. If too many keys stand an odd number of times, only the lowest are kept, and the batch ends where the others begin.
    fn make_room(&mut self)
        ensures room { length self.new.keys < MOST_KEYS }
        ensures takes { Takes [] self.old self.new }
    {
        self.keep_odd();
        if KEPT_KEYS < self.count {
            self.end = self.array[KEPT_KEYS];
            self.count = KEPT_KEYS;
        }
    }

    // Whether all keys from left to right are out of reach.
    fn misses(&self, left: u64, right: u64) -> bool
        ensures { result ≡ misses self.now.start self.now.end left right }
    {
        (right < self.start) | (self.end <= left)
    }

    // Takes a key, if it is in reach.
    fn offer(&mut self, k: u64)
        ensures { Takes (k ∷ []) self.old self.new }
    {
        if self.count == MOST_KEYS {
            self.make_room();
        }
        if !self.misses(k, k) {
            self.array[self.count] = k;
            self.count += 1;
        }
    }

    // Takes the keys of a rectangle's corners.
    fn offer_corners(&mut self, r: Rect)
        requires { (flat r ≡ false) × (rect_in_range r ≡ true) }
        ensures { Takes (keys_of (corners_of r)) self.old self.new }
    {
        let [left, right, top_left, top_right] = corner_keys(r);
        // Both tests are made before any branch: on rectangles at random a branch on each of them is a third slower.
        if self.misses(left, right) & self.misses(top_left, top_right) {
            return;
        }
        self.offer(left);
        self.offer(right);
        self.offer(top_left);
        self.offer(top_right);
    }

    // Where the next batch may end: as far on as this one goes, if that has many keys, for then one pass seldom finds too many.
    fn next_end(&self) -> u64
        requires { (self.now.start < self.now.end) × (self.now.end ≤ END) }
        ensures { (result ≤ END) × (self.now.end < END → self.now.end < result) }
    {
        let width = self.end - self.start;
        if self.count < KEPT_KEYS / 2 || END - self.end < width {
            return END;
        }
        self.end + width
    }

    // Gathers the keys of the points from the start to below an end: the one given, or a lower one, where they are too many.
    fn gather(&mut self, rects: &[i32], start: u64, end: u64)
        requires accepted_rects { AcceptedRects (rects_of rects.now) }
        requires start_lt_end { start < end }
        ensures { IsBatch (back_list (rects_of rects.now)) start end self.new }
    {
        self.start = start;
        self.end = end;
        self.count = 0;
        for r in rects_in(rects) {
            self.offer_corners(r);
        }
        self.keep_odd();
    }
}

// ---- The points

// Writes the points of the keys.
fn put_points(keys: &[u64], points: &mut [i32])
    requires { 2 * length keys.now ≤ length points.old }
    ensures { points.new ≡ at_start (flat_points (points_of_keys keys.now)) points.old }
{
    for (i, k) in keys.iter().enumerate() {
        let p = point_of(*k);
        points[2 * i] = p.x;
        points[2 * i + 1] = p.y;
    }
}

// Lists the points batch by batch, and writes those that have room. Gives how many they are.
fn list_points(rects: &[i32], batch: &mut Batch, points: &mut [i32]) -> usize
    requires { AcceptedRects (rects_of rects.now) }
    ensures value { result ≡ length (back_list (rects_of rects.now)) }
    ensures points_after { 2 * length (back_list (rects_of rects.now)) ≤ length points.old → points.new ≡ at_start (flat_points (back_list (rects_of rects.now))) points.old }
{
    let mut start = START;
    let mut end = END;
    let mut listed = 0;
    while start < END {
        batch.gather(rects, start, end);
        let keys = batch.keys();
        let from = 2 * listed;
        listed += keys.len();
        if 2 * listed <= points.len() {
            put_points(keys, &mut points[from..]);
        }
        end = batch.next_end();
        start = batch.end;
    }
    listed
}

// Backward of rectangles that are accepted. The points are counted first and written only where all have room, but where there is room
// for every corner.
fn outlined(rects: &[i32], points: &mut [i32]) -> Result<usize, Refusal>
    requires { BackwardAccepted rects.now (2 * length (backward_points rects.now)) }
    ensures { BackwardDone rects.now points.old (told result) points.new }
{
    let mut batch = Batch::new();
    if points.len() / 8 < rects.len() / RECT_SIZE {
        let needed = list_points(rects, &mut batch, &mut []);
        if points.len() / 2 < needed {
            return Err(Reason::Room.at(needed));
        }
    }
    Ok(list_points(rects, &mut batch, points))
}

// ---- The public function

/// The points that are a corner of an odd number of the rectangles, in order, written to `points`, with their count; or a refusal, which
/// leaves `points` as it was. `rects` is only read.
pub fn backward(rects: &[i32], points: &mut [i32]) -> Result<usize, Refusal>
    ensures { BackwardDone rects.now points.old (told result) points.new }
{
    check_rects(rects)?;
    outlined(rects, points)
}
