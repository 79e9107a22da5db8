// A picture of what the program makes of its input: an SVG with the rectangles, their numbers and the points, or with the point that
// is refused. What it shows and where is in specs/.
#![tactic(auto)]

ghost use Rattle.std.specs.Prelude.{◌≤◌, ◌≡◌};
ghost use Rattle.plane.specs.Lists.{odd};
ghost use Rattle.plane.specs.Words.{same, points_of, rects_of};
ghost use Rattle.numerals.specs.Numerals.{decimal};
ghost use Rattle.text.specs.Program.{outcome_told, program_report};
ghost use Rattle.text.specs.Sentences.{sentence};
ghost use Rattle.drawing.specs.Plan.{box_of, dot_radius};
ghost use Rattle.drawing.specs.Picture.{filled, head_of, block_of, blocks, dot_of, dots, mark_of, list_says, refusal_says, list_part, point_part, mark_part, say_part, svg_of, picture_of, list_shown, sums_shown, Drawn};
ghost use Rattle.drawing.specs.Inner.{Draws};

use entry::Refusal;
use numerals::{put_bytes, put_number};
use panbuckle::{Point, Rect, Sums, forward};
use plane::{RECT_SIZE, points_in, rects_in, same_point};
use reading::read_points;
use text::{MOST_LIST, MOST_SAID, MOST_WORK, Outcome, answer, complaint, names_one};

mod plan;

use plan::{Frame, View};

/// The most bytes of a picture: its head and what it says, 3,200 rectangles and 4,096 points.
pub const MOST_DRAWN: usize = 800_000;

// Stands for a number in a template.
const BLANK: u8 = b'@';

// What is said of no list.
const NO_SUMS: Sums = Sums {
    count: 0,
    area: 0,
    edge: 0,
};

// The output that is drawn into, byte after byte, and how many bytes are there. It is lent: a page to be copied would need as much room again.
// The view, and what is drawn, go beside it: in a struct of all each contract would also say that they stay.
#[derive(Drop)]
struct Paper<'a> {
    room: &'a mut [u8],
    len: usize,
}

impl Paper<'_> {
    ghost use Rattle.drawing.specs.Inner.{Draws};

    // Adds bytes, if all have room.
    fn add(&mut self, bytes: &[u8])
        ensures { Draws self.old bytes.now self.new }
    {
        self.len = put_bytes(self.room, self.len, bytes);
    }

    // Adds a number's digits, likewise.
    fn add_number(&mut self, n: u64)
        ensures { Draws self.old (decimal n) self.new }
    {
        self.len = put_number(self.room, self.len, n);
    }
}

// ---- Parts of a picture

// A template, with the numbers in the places of its `@`.
fn fill(page: &mut Paper, template: &[u8], numbers: &[u64])
    ensures { Draws page.old (filled template.now numbers.now) page.new }
{
    let mut numbers = numbers.iter();
    for b in template {
        if *b == BLANK {
            page.add_number(numbers.next().copied().unwrap_or(0));
        } else {
            page.add(&[*b]);
        }
    }
}

// The picture's size, its colours and its paper.
fn add_head(page: &mut Paper, view: View)
    ensures { Draws page.old (head_of view) page.new }
{
    let left = view.free_beside() + 2000;
    let height = view.height + 10_000;
    fill(
        page,
        b"<svg xmlns='http://www.w3.org/2000/svg' width='1040' height='@' viewBox='-@ -8000 104000 @'>\n<style>.paper{fill:white}.list rect{fill:lightsteelblue;stroke:navy;stroke-width:40}.list text{font-family:sans-serif;text-anchor:middle;fill:black}.points circle{fill:black}.points .gone{fill:white;stroke:black;stroke-width:60}.bad{fill:none;stroke:red;stroke-width:150}.said{font:2400px sans-serif}.why{font:1500px sans-serif}</style>\n<rect class='paper' x='-@' y='-8000' width='104000' height='@'/>\n<g class='list'>\n",
        &[height / 100, left, height, left, height],
    );
}

// A rectangle with its number in the middle.
fn add_block(page: &mut Paper, view: View, number: usize, r: Rect)
    ensures { Draws page.old (block_of number (box_of view r)) page.new }
{
    let b = view.box_of(r);
    let size = (b.w * 2 / 5).min((b.h * 3 / 4).min(4000));
    let numbers = [
        b.x,
        b.y,
        b.w,
        b.h,
        b.x + b.w / 2,
        b.y + b.h / 2,
        size,
        number as u64,
    ];
    fill(
        page,
        b"<rect x='@' y='@' width='@' height='@'/><text x='@' y='@' dy='.35em' font-size='@'>@</text>\n",
        &numbers,
    );
}

// The rectangles of a list, numbered from 0.
fn add_blocks(page: &mut Paper, view: View, list: &[i32])
    ensures { Draws page.old (blocks view 0 (rects_of list.now)) page.new }
{
    for (i, r) in rects_in(list).enumerate() {
        add_block(page, view, i, r);
    }
}

// Whether p is listed an odd number of times.
fn stands(points: &[i32], p: Point) -> bool
    ensures { result ≡ odd (same p) (points_of points.now) }
{
    points_in(points).fold(false, |odd, q| odd ^ same_point(p, q))
}

// A point: filled if it stands, hollow if it cancels.
fn add_dot(page: &mut Paper, view: View, radius: u64, stands: bool, p: Point)
    ensures { Draws page.old (dot_of view radius stands p) page.new }
{
    let template: &[u8] = if stands {
        b"<circle cx='@' cy='@' r='@'/>\n"
    } else {
        b"<circle class='gone' cx='@' cy='@' r='@'/>\n"
    };
    fill(page, template, &[view.column(p), view.line(p), radius]);
}

fn add_dots(page: &mut Paper, view: View, radius: u64, points: &[i32])
    ensures { Draws page.old (dots view radius (points_of points.now) (points_of points.now)) page.new }
{
    for p in points_in(points) {
        add_dot(page, view, radius, stands(points, p), p);
    }
}

// The mark of a point: its row, its column and a ring.
fn add_mark(page: &mut Paper, view: View, radius: u64, p: Point)
    requires { radius ≤ 300 }
    ensures { Draws page.old (mark_of view radius p) page.new }
{
    let x = view.column(p);
    let y = view.line(p);
    fill(
        page,
        b"<path class='bad' d='M0 @H@M@ 0V@'/><circle class='bad' cx='@' cy='@' r='@'/>\n",
        &[y, view.width, x, view.height, x, y, radius + 800],
    );
}

// What is said above a list: its sums.
fn add_sums(page: &mut Paper, view: View, sums: Sums)
    ensures { Draws page.old (list_says view sums) page.new }
{
    fill(
        page,
        b"<text class='said' x='-@' y='-3000'>rects @ area @ edge @</text>\n",
        &[view.free_beside(), sums.count as u64, sums.area, sums.edge],
    );
}

// What is said above points that are refused: the refusal's number and place, and the sentence.
fn add_refusal(page: &mut Paper, view: View, refusal: Refusal, outcome: Outcome)
    requires { outcome.refusal ≡ Some refusal }
    ensures { Draws page.old (refusal_says view (outcome_told outcome)) page.new }
{
    let left = view.free_beside();
    let number = u64::from(u32::from(refusal.reason));
    fill(
        page,
        b"<text class='said' x='-@' y='-5000'>refused @ place @</text>\n<text class='why' x='-@' y='-2200'>",
        &[left, number, refusal.place, left],
    );
    let mut said = [0; MOST_SAID];
    let n = complaint(outcome.into(), &mut said);
    page.add(&said[..n]);
    page.add(b"</text>\n");
}

// ---- The picture

// The rectangles, in list order.
fn add_list(page: &mut Paper, view: View, list: &[i32])
    ensures { Draws page.old (list_part view (rects_of list.now)) page.new }
{
    add_head(page, view);
    add_blocks(page, view, list);
    page.add(b"</g>\n<g class='points'>\n");
}

// A point's radius: the more points, the smaller.
fn radius_for(count: usize) -> u64
    ensures value { result ≡ dot_radius count }
    ensures upper_bound { result ≤ 300 }
{
    30_000 / (100 + count as u64 / 16)
}

fn add_points(page: &mut Paper, view: View, points: &[i32])
    ensures { Draws page.old (point_part view (points_of points.now)) page.new }
{
    add_dots(page, view, radius_for(points.len() / 2), points);
    page.add(b"</g>\n");
}

// The mark of the point that a refusal names.
fn add_offender(page: &mut Paper, view: View, points: &[i32], outcome: Outcome)
    ensures { Draws page.old (mark_part view (points_of points.now) (outcome_told outcome)) page.new }
{
    let Some(refusal) = outcome.refusal else {
        return;
    };
    if names_one(u32::from(refusal.reason)) {
        add_mark(page, view, radius_for(points.len() / 2), outcome.point);
    }
}

// What is said above.
fn add_answer(page: &mut Paper, view: View, sums: Sums, outcome: Outcome)
    ensures { Draws page.old (say_part view sums (outcome_told outcome)) page.new }
{
    match outcome.refusal {
        Some(refusal) => add_refusal(page, view, refusal, outcome),
        None => add_sums(page, view, sums),
    }
}

// The points, the list that they have, and what the program says of them.
fn add_picture(page: &mut Paper, points: &[i32], list: &[i32], sums: Sums, outcome: Outcome)
    ensures { Draws page.old (svg_of (points_of points.now) (rects_of list.now) sums (outcome_told outcome)) page.new }
{
    let view = View::of(Frame::of(points));
    add_list(page, view, list);
    add_points(page, view, points);
    add_offender(page, view, points, outcome);
    add_answer(page, view, sums, outcome);
    page.add(b"</svg>\n");
}

// The points read are fractured as the program does, and drawn; of points that are refused there is no list.
fn draw(page: &mut Paper, points: &[i32], outcome: Outcome)
    ensures { Draws page.old (svg_of (points_of points.now) (list_shown points.now) (sums_shown points.now) (outcome_told outcome)) page.new }
{
    let mut work = [0; MOST_WORK];
    let mut rects = [0; MOST_LIST];
    let sums = forward(points, &mut work, &mut rects).unwrap_or(NO_SUMS);
    add_picture(
        page,
        points,
        &rects[..RECT_SIZE * sums.count],
        sums,
        outcome,
    );
}

// The points of an input are read and drawn, with what the program knows at its end. This is found first, so that the stack that it took is
// free for them.
fn draw_input(page: &mut Paper, input: &[u8], outcome: Outcome)
    requires { outcome_told outcome ≡ program_report input.now }
    ensures { Draws page.old (picture_of input.now) page.new }
{
    let mut points = [0; MOST_WORK];
    let count = read_points(input, &mut points).unwrap_or(0);
    draw(page, &points[..2 * count], outcome);
}

// What the program knows of an input at its end; what it prints is not kept.
fn outcome_of(input: &[u8]) -> Outcome
    ensures { outcome_told result ≡ program_report input.now }
{
    let mut no_room = [0; 1];
    answer(input, &mut no_room)
}

/// Draws the picture of what the program makes of an input, and gives how many bytes it has; with less room than MOST_DRAWN it draws
/// nothing and gives 0.
pub fn picture(input: &[u8], out: &mut [u8]) -> usize
    ensures { Drawn input.now out.old result out.new }
{
    if out.len() < MOST_DRAWN {
        return 0;
    }
    let mut page = Paper { room: out, len: 0 };
    draw_input(&mut page, input, outcome_of(input));
    page.len
}
