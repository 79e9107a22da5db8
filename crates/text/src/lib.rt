// The program's whole behaviour on slices: bytes in, bytes out. What is refused, printed and said is in specs/.
#![tactic(auto)]

ghost use Rattle.std.specs.Prelude.{◌+◌, ◌*◌, ◌≤◌, ◌≡◌, ◌++◌, length};
ghost use Rattle.plane.specs.Lists.{put_at};
ghost use Rattle.plane.specs.Words.{points_of, rects_of, rect_size};
ghost use Rattle.entry.specs.Refusals.{number_of};
ghost use Rattle.numerals.specs.Bytes.{Put};
ghost use Rattle.text.specs.Program.{sums_line, rect_line, list_lines, refusal_line, names_one, offender, outcome_told, ProgramDone};
ghost use Rattle.text.specs.Sentences.{many_says, names_point, room_says, text_says, sentence};
ghost use Rattle.text.specs.Inner.{Fractured, Listed};

use entry::{Reason, Refusal};
use numerals::{Page, put_bytes};
use panbuckle::{Point, Rect, Sums, forward};
use plane::{MOST_POINTS, RECT_SIZE, origin, point_at, rects_in};
use reading::{MOST_BYTES, read_points};

/// The most rectangles of a list.
pub const MOST_LISTED: usize = 3200;

/// The most numbers of a list.
pub const MOST_LIST: usize = RECT_SIZE * MOST_LISTED;

/// The most numbers of a working array.
pub const MOST_WORK: usize = 2 * MOST_POINTS;

/// The most bytes that are printed: a line of the sums and 3,200 lines of rectangles.
pub const MOST_PRINTED: usize = 153679;

/// The most bytes of a sentence.
pub const MOST_SAID: usize = 200;

// The most bytes of a refusal's line.
const MOST_REFUSED: usize = 64;

/// What the program knows at its end: what it refused, if anything, with the point that this names, or (0, 0); and how many bytes were read
/// and printed.
#[derive(Clone, Copy, Debug, PartialEq, Eq)]
pub struct Outcome {
    pub refusal: Option<Refusal>,
    pub point: Point,
    pub read: usize,
    pub printed: usize,
}

/// The same in document 01's numbers: the answer, 0 where nothing is refused, and its place.
#[derive(Clone, Copy, Debug, PartialEq, Eq)]
pub struct Report {
    pub answer: u32,
    pub place: u64,
    pub point: Point,
    pub read: usize,
    pub printed: usize,
}

impl From<Outcome> for Report {
    ghost from_gives = { λ outcome report. report ≡ outcome_told outcome };

    fn from(outcome: Outcome) -> Report {
        let Outcome {
            refusal,
            point,
            read,
            printed,
        } = outcome;
        let (answer, place) = match refusal {
            Some(refusal) => (u32::from(refusal.reason), refusal.place),
            None => (0, 0),
        };
        Report {
            answer,
            place,
            point,
            read,
            printed,
        }
    }
}

// ---- What is printed

fn add_rect(page: &mut Page<MOST_PRINTED>, r: Rect)
    requires { length page.old + length (rect_line r) ≤ MOST_PRINTED }
    ensures { page.new ≡ page.old ++ rect_line r }
{
    page.add_signed(r.x);
    page.add(b" ");
    page.add_signed(r.y);
    page.add(b" ");
    page.add_signed(r.w);
    page.add(b" ");
    page.add_signed(r.h);
    page.add(b"\n");
}

fn add_sums(page: &mut Page<MOST_PRINTED>, sums: Sums)
    requires { length page.old + length (sums_line sums) ≤ MOST_PRINTED }
    ensures { page.new ≡ page.old ++ sums_line sums }
{
    page.add(b"rects ");
    page.add_number(sums.count as u64);
    page.add(b" area ");
    page.add_number(sums.area);
    page.add(b" edge ");
    page.add_number(sums.edge);
    page.add(b"\n");
}

// A list: the sums, and then the rectangles. Its page is lent: to hand back so long a one would copy it twice.
fn add_list(page: &mut Page<MOST_PRINTED>, sums: Sums, rects: &[i32])
    requires { length page.old + length (list_lines sums (rects_of rects.now)) ≤ MOST_PRINTED }
    ensures { page.new ≡ page.old ++ list_lines sums (rects_of rects.now) }
{
    add_sums(page, sums);
    for r in rects_in(rects) {
        add_rect(page, r);
    }
}

fn refusal_page(refusal: Refusal) -> Page<MOST_REFUSED>
    ensures { result ≡ refusal_line (number_of refusal.reason) refusal.place }
{
    let mut page = Page::new();
    page.add(b"refused ");
    page.add_number(u64::from(u32::from(refusal.reason)));
    page.add(b" place ");
    page.add_number(refusal.place);
    page.add(b"\n");
    page
}

// Puts what is written on a page into an output, if it has room there, and gives how many bytes it has.
fn print<const N: usize>(page: &Page<N>, out: &mut [u8]) -> usize
    ensures value { result ≡ length page.now }
    ensures out_after { out.new ≡ put_at out.old 0 page.now }
{
    let bytes = page.bytes();
    put_bytes(out, 0, bytes);
    bytes.len()
}

// ---- The program

/// Whether a refusal with this number names a point. It is asked of any number, also of one that no refusal has.
pub fn names_one(number: u32) -> bool
    ensures { result ≡ names_one number }
{
    number == u32::from(Reason::Range)
        || number == u32::from(Reason::Row)
        || number == u32::from(Reason::Column)
}

// The point that a refusal names; (0, 0), if it names none.
fn point_named(points: &[i32], refusal: Refusal) -> Point
    ensures { result ≡ offender (number_of refusal.reason) refusal.place (points_of points.now) }
{
    if names_one(u32::from(refusal.reason)) {
        return point_at(points, refusal.place as usize);
    }
    origin()
}

// What forward makes of points. It has its work here, so that its stack is free again when the list is printed.
fn fracture(points: &[i32], rects: &mut [i32]) -> Result<Sums, Refusal>
    ensures { Fractured points.now rects.old result rects.new }
{
    let mut work = [0; MOST_WORK];
    forward(points, &mut work, rects)
}

fn print_list(sums: Sums, rects: &[i32], out: &mut [u8]) -> usize
    requires { length (list_lines sums (rects_of rects.now)) ≤ MOST_PRINTED }
    ensures value { result ≡ length (list_lines sums (rects_of rects.now)) }
    ensures out_after { out.new ≡ put_at out.old 0 (list_lines sums (rects_of rects.now)) }
{
    let mut page = Page::new();
    add_list(&mut page, sums, rects);
    print(&page, out)
}

// The program on the points that were read, from a text of so many bytes.
fn list(points: &[i32], read: usize, out: &mut [u8]) -> Outcome
    ensures { Listed points.now read out.old (outcome_told result) out.new }
{
    let mut rects = [0; MOST_LIST];
    match fracture(points, &mut rects) {
        Ok(sums) => Outcome {
            refusal: None,
            point: origin(),
            read,
            printed: print_list(sums, &rects[..RECT_SIZE * sums.count], out),
        },
        Err(refusal) => Outcome {
            refusal: Some(refusal),
            point: point_named(points, refusal),
            read,
            printed: print(&refusal_page(refusal), out),
        },
    }
}

/// What the program prints for an input, put into `out` if it has room there, and what it knows at its end.
pub fn answer(input: &[u8], out: &mut [u8]) -> Outcome
    ensures { ProgramDone input.now out.old (outcome_told result) out.new }
{
    let mut points = [0; MOST_WORK];
    match read_points(input, &mut points) {
        Ok(count) => list(&points[..2 * count], input.len(), out),
        Err(refusal) => Outcome {
            refusal: Some(refusal),
            point: origin(),
            read: input.len(),
            printed: print(&refusal_page(refusal), out),
        },
    }
}

// ---- The sentence

fn many_page(read: usize) -> Page<MOST_SAID>
    ensures { result ≡ many_says read }
{
    let mut page = Page::new();
    if read > MOST_BYTES {
        page.add(b"The input is longer than 65536 bytes.\n");
    } else {
        page.add(b"The input has more than 4096 lines.\n");
    }
    page
}

// Names a point, and says what is wrong with it.
fn point_page(place: u64, p: Point, fault: &[u8]) -> Page<MOST_SAID>
    requires { length fault.now ≤ 100 }
    ensures { result ≡ names_point place p ++ fault.now }
{
    let mut page = Page::new();
    page.add(b"Point ");
    page.add_number(place);
    page.add(b" (counted from 0) at (");
    page.add_signed(p.x);
    page.add(b", ");
    page.add_signed(p.y);
    page.add(b") ");
    page.add(fault);
    page
}

fn room_page(place: u64) -> Page<MOST_SAID>
    ensures { result ≡ room_says place }
{
    let mut page = Page::new();
    page.add(b"The list has ");
    page.add_number(place);
    page.add(b" rectangles, and there is room for 3200.\n");
    page
}

fn line_page(place: u64) -> Page<MOST_SAID>
    ensures { result ≡ text_says place }
{
    let mut page = Page::new();
    page.add(b"Line ");
    page.add_number(place);
    page.add(
        b" (counted from 0) is not two whole numbers of 32 bits with one space between them and a newline at the end.\n",
    );
    page
}

fn sentence_page(report: Report) -> Page<MOST_SAID>
    ensures { result ≡ sentence report }
{
    let Ok(reason) = Reason::try_from(report.answer) else {
        return Page::new();
    };
    let place = report.place;
    let point = report.point;
    match reason {
        Reason::Range => point_page(
            place,
            point,
            b"has a coordinate below -1000000000 or above 1000000000.\n",
        ),
        Reason::Row => point_page(place, point, b"is on a row with an odd number of points.\n"),
        Reason::Column => point_page(
            place,
            point,
            b"is in a column with an odd number of points.\n",
        ),
        Reason::Many => many_page(report.read),
        Reason::Room => room_page(place),
        Reason::Text => line_page(place),
        _ => Page::new(),
    }
}

/// The sentence of a report, put into `out` if it has room there: one for a refusal, none for a list. Gives how many bytes were put. A report may
/// have any number: of one that no refusal has nothing is said.
pub fn complaint(report: Report, out: &mut [u8]) -> usize
    ensures { Put out.old 0 (sentence report) result out.new }
{
    put_bytes(out, 0, sentence_page(report).bytes())
}
