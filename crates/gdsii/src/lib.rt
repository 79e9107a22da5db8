// GDSII in: the corners of one layer's boundaries in one structure of a stream. The public function is `read_gdsii`, at the end; what it promises is in
// specs/: the walk over the records in specs/Walk.antt, and the call in specs/Call.antt.
// The stream is walked once. The corners of each boundary that is read are put into the scratch array as they are met, and the cells that they mark
// are counted; these counts, added, are more than the cells that all the corners mark exactly when two boundaries overlap.
#![tactic(auto)]

ghost use Rattle.std.specs.Prelude.{◌==◌, ◌+◌, ◌*◌, ◌<◌, ◌≤◌, ◌^◌, ◌≡◌, false, cond, length, take, drop};
ghost use Rattle.std.specs.List.{list_all};
ghost use Rattle.plane.specs.Lists.{at_start};
ghost use Rattle.plane.specs.Words.{same, points_of, most_cells};
ghost use Rattle.entry.specs.Entry.{told};
ghost use Rattle.boundaries.specs.Boundary.{edge, vertical, is_open, slanted, boundary_corners};
ghost use Rattle.boundaries.specs.Inner.{last_vertical};
ghost use Rattle.records.specs.Records.{head_size, treatment_of};
ghost use Rattle.gdsii.specs.Walk.{same_name, moved, act, judge, start};
ghost use Rattle.gdsii.specs.Call.{scratch_size, ReadDone};
ghost use Rattle.gdsii.specs.Inner.{vertices_left, is_slanted, shape_of, told_step, walk_from, whole_walk, resume, Usable, put_point, put_points, area_with, told_gathered, gathered, Filled, HandedOn, ReadSays};

use area::count_marked;
use bigendian::BigEndian;
use entry::{Reason, Refusal};
use plane::{MOST_POINTS, Point};
use records::{HEAD, Record, Treatment, record_of, treatment_of};

// ---- The stream, and where the walk stands

// A stream, and what is asked of it: the boundaries of a layer in the structure of a name. The layer is any number, though one in the stream has 16 bits.
#[derive(Clone, Copy)]
struct Reader<'a> {
    bytes: &'a [u8],
    name: &'a [u8],
    layer: i32,
}

// A file place, a row of the order, whether the structure was found, whether it is the one that is being read, and whether the element's layer is the
// one asked for: as specs/Walk.antt has it.
#[derive(Clone, Copy)]
struct Cursor {
    at: usize,
    row: u8,
    found: bool,
    reading: bool,
    asked: bool,
}

// What a record makes of the walk: its end; or it goes on from a cursor, after the record is passed, or a boundary is read. The cursor comes first in
// both: where it does not, its small fields lie over a length and are packed into it at each record.
#[derive(Clone, Copy)]
enum Step<'a> {
    End,
    Pass(Cursor),
    Read(Cursor, Vertices<'a>),
}

// The bytes of a vertex.
const VERTEX: usize = 8;

// The row of the order where BOUNDARY's XY comes.
const BOUNDARY_XY: u8 = 32;

impl Cursor {
    // Before the first record.
    fn start() -> Cursor
        ensures { result ≡ start }
    {
        Cursor {
            at: 0,
            row: 1,
            found: false,
            reading: false,
            asked: false,
        }
    }

    // After a record of n bytes that leads to a row.
    fn moved(self, n: usize, row: u8) -> Cursor
        requires { self.at + n < 2 ^ 64 }
        ensures { result ≡ moved self n row self.found self.reading self.asked }
    {
        Cursor {
            at: self.at + n,
            row,
            ..self
        }
    }
}

// ---- Vertices

// The vertices of a boundary, one after another. Bytes that are too few for one more belong to none.
#[derive(Clone, Copy)]
struct Vertices<'a> {
    bytes: &'a [u8],
}

impl<'a> Iterator for Vertices<'a> {
    ghost use Rattle.std.specs.Iterator.{YieldsFirst, item_count};
    ghost use Rattle.gdsii.specs.Inner.{vertices_left};

    type Item = Point;

    ghost next_gives = { YieldsFirst vertices_left };

    ghost remaining = { item_count vertices_left };

    fn next(&mut self) -> Option<Point> {
        let rest = self.bytes.get(VERTEX..)?;
        let vertex = Point {
            x: i32::read(self.bytes, 0),
            y: i32::read(self.bytes, 4),
        };
        self.bytes = rest;
        Some(vertex)
    }
}

// Whether an edge is neither horizontal nor vertical.
fn is_slanted(p: Point, q: Point) -> bool
    ensures { result ≡ is_slanted p q }
{
    (p.y != q.y) & (p.x != q.x)
}

// Refuses vertices that are not closed, or of which an edge is neither horizontal nor vertical.
fn check_shape(vertices: Vertices<'_>) -> Result<(), Reason>
    ensures { result ≡ shape_of (vertices_left vertices.entry) }
{
    let mut rest = vertices;
    let Some(first) = rest.next() else {
        return Err(Reason::Open);
    };
    let mut last = first;
    let mut slanted = false;
    for q in rest {
        slanted |= is_slanted(last, q);
        last = q;
    }
    if last != first {
        return Err(Reason::Open);
    }
    if slanted {
        return Err(Reason::Slanted);
    }
    Ok(())
}

// ---- Names

// Whether bytes are all NUL.
fn is_padding(bytes: &[u8]) -> bool
    ensures { result ≡ list_all (λ c. c == 0) bytes.now }
{
    bytes.iter().all(|c| *c == 0)
}

// Whether two names are the same without padding.
fn same_name(a: &[u8], b: &[u8]) -> bool
    ensures { result ≡ same_name a.now b.now }
{
    let shared = a.len().min(b.len());
    a[..shared] == b[..shared] && is_padding(&a[shared..]) && is_padding(&b[shared..])
}

// ---- The walk

impl<'a> Reader<'a> {
    // What a good record, the first of `rest`, makes of it.
    fn act(&self, rest: &'a [u8], c: Cursor, good: Record) -> Result<Step<'a>, Reason>
        requires { (head_size ≤ good.size) × (good.size ≤ length rest.now) × (c.at + good.size < 2 ^ 64) }
        ensures { told_step c result ≡ act self.now.name.now self.now.layer (treatment_of good.kind) c good.size good.next rest.now }
    {
        let next = c.moved(good.size, good.next);
        match treatment_of(good.kind) {
            Treatment::End => Ok(Step::End),
            Treatment::Name => {
                let this = same_name(&rest[HEAD..good.size], self.name);
                Ok(Step::Pass(Cursor {
                    found: c.found | this,
                    reading: this & !c.found,
                    asked: false,
                    ..next
                }))
            }
            Treatment::Leave => Ok(Step::Pass(Cursor {
                reading: false,
                asked: false,
                ..next
            })),
            Treatment::Refer if c.reading => Err(Reason::Record),
            Treatment::Refer => Ok(Step::Pass(Cursor {
                asked: false,
                ..next
            })),
            Treatment::Layer => Ok(Step::Pass(Cursor {
                asked: i32::from(i16::read(rest, HEAD)) == self.layer,
                ..next
            })),
            Treatment::Vertices if c.row == BOUNDARY_XY && c.reading && c.asked => {
                let vertices = Vertices {
                    bytes: &rest[HEAD..good.size],
                };
                check_shape(vertices)?;
                Ok(Step::Read(next, vertices))
            }
            Treatment::Unknown => Err(Reason::Record),
            Treatment::Vertices | Treatment::Skip => Ok(Step::Pass(next)),
        }
    }

    // What the record at a cursor makes of it.
    fn step(&self, c: Cursor) -> Result<Step<'a>, Reason>
        requires { c.at < length self.now.bytes.now }
        ensures { told_step c result ≡ judge self.now.name.now self.now.layer c (drop c.at self.now.bytes.now) }
    {
        let rest = &self.bytes[c.at..];
        let good = record_of(rest, c.row)?;
        self.act(rest, c, good)
    }

    // From a cursor on, the next boundary that is read and the cursor after it; at the end, none and the last cursor.
    fn next_boundary(&self, from: Cursor) -> Result<(Option<Vertices<'a>>, Cursor), Refusal>
        requires { from.at ≤ length self.now.bytes.now }
        ensures result_value { resume self.now result ≡ walk_from self.now from }
        ensures usable { Usable self.now from result }
    {
        let mut c = from;
        while c.at < self.bytes.len() {
            match self.step(c) {
                Err(reason) => return Err(reason.at(c.at)),
                Ok(Step::End) => return Ok((None, c)),
                Ok(Step::Pass(next)) => c = next,
                Ok(Step::Read(next, vertices)) => return Ok((Some(vertices), next)),
            }
        }
        Err(Reason::Truncated.at(c.at))
    }
}

// ---- The corners of a boundary

// Whether the edge to q is vertical; where it has no length, what the edge before is.
fn turned(d: bool, p: Point, q: Point) -> bool
    ensures { result ≡ cond (same p q) d (vertical (edge p q)) }
{
    if p == q { d } else { p.x == q.x }
}

// Whether the last edge of positive length is vertical, where vertices come after a first one.
fn last_vertical(first: Point, rest: Vertices<'_>) -> bool
    ensures { result ≡ last_vertical false first (vertices_left rest.entry) }
{
    let mut d = false;
    let mut p = first;
    for q in rest {
        d = turned(d, p, q);
        p = q;
    }
    d
}

// Puts a point at place i of an array, if there is such a place.
fn put_point(a: &mut [i32], i: usize, p: Point)
    ensures { a.new ≡ put_point a.old i p }
{
    if i < a.len() / 2 {
        a[2 * i] = p.x;
        a[2 * i + 1] = p.y;
    }
}

// Puts the corners of a boundary into an array from place n on, as far as there are places. Gives how many they are. A vertex is one where the
// direction changes with the edge after it; before the first edge comes the last. Places are counted on past the array's end, so n is no sub-slice.
fn put_corners(vertices: Vertices<'_>, a: &mut [i32], n: usize) -> usize
    requires shut { is_open (vertices_left vertices) ≡ false }
    requires square { slanted (vertices_left vertices) ≡ false }
    requires fits { n + length (vertices_left vertices) < 2 ^ 64 }
    ensures value { let vs = vertices_left vertices.entry in (result ≡ length (boundary_corners vs)) × (result ≤ length vs) }
    ensures a_after { a.new ≡ put_points a.old n (boundary_corners (vertices_left vertices.entry)) }
{
    let mut rest = vertices;
    let Some(first) = rest.next() else {
        return 0;
    };
    let mut d = last_vertical(first, rest);
    let mut p = first;
    let mut k = 0;
    for q in rest {
        let e = turned(d, p, q);
        if d != e {
            put_point(a, n + k, p);
            k += 1;
        }
        d = e;
        p = q;
    }
    k
}

// ---- All boundaries

// What the walk gathers: whether the structure was found, as its outcome in specs/Walk.antt says, how many corners its boundaries have, and how many
// cells each of them marks, added up.
#[derive(Clone, Copy)]
struct Gathered {
    found: bool,
    count: usize,
    area: u64,
}

// The most cells that there are. A sum of areas that is more is left as it is, so that it fits.
const MOST_CELLS: u64 = 4_000_000_000_000_000_000;

// How many numbers the scratch array has: two for each of the most corners.
const SCRATCH: usize = 2 * MOST_POINTS;

// Adds how many cells the k corners from place n on mark, if all of them have places, which `put_corners` does not need.
fn add_area(a: &[i32], n: usize, k: usize, area: u64) -> u64
    requires { (length a.now ≡ scratch_size) × (n + k < 2 ^ 64) × (area ≤ 2 * most_cells) }
    ensures value { result ≡ area_with n k area (points_of (take (2 * k) (drop (2 * n) a.now))) }
    ensures upper_bound { result ≤ 2 * most_cells }
{
    if MOST_POINTS < n + k {
        return area;
    }
    if MOST_CELLS < area {
        return area;
    }
    let marked = count_marked(&a[2 * n..2 * (n + k)]).unwrap_or(0);
    area + marked as u64
}

impl Reader<'_> {
    // Walks the whole stream, and puts the corners of each boundary into the array.
    fn gather(&self, a: &mut [i32]) -> Result<Gathered, Refusal>
        requires { length a.old ≡ scratch_size }
        ensures value { told_gathered result ≡ gathered (whole_walk self.now) 0 0 }
        ensures filled { Filled (whole_walk self.now) 0 a.old a.new }
    {
        let mut c = Cursor::start();
        let mut count = 0;
        let mut area = 0;
        loop {
            let (outline, next) = self.next_boundary(c)?;
            let Some(vertices) = outline else {
                return Ok(Gathered {
                    found: next.found,
                    count,
                    area,
                });
            };
            let k = put_corners(vertices, a, count);
            area = add_area(a, count, k, area);
            count += k;
            c = next;
        }
    }

    // Reads, and leaves in the scratch array what it holds then.
    fn read_with(&self, scratch: &mut [i32], corners: &mut [i32]) -> Result<usize, Refusal>
        requires { length scratch.old ≡ scratch_size }
        ensures read_says { ReadSays (whole_walk self.now) corners.old (told result) corners.new }
        ensures scratch_len { length scratch.new ≡ scratch_size }
    {
        let gathered = self.gather(scratch)?;
        if !gathered.found {
            return Err(Reason::Absent.at(0));
        }
        if MOST_POINTS < gathered.count {
            return Err(Reason::Many.at(0));
        }
        hand_on(&scratch[..2 * gathered.count], gathered.area, corners)
    }
}

// ---- The call

// Copies numbers to the start of an array. The library's copy wants memmove, and the archive for C has memset alone.
fn copy(numbers: &[i32], out: &mut [i32])
    requires { length numbers.now ≤ length out.old }
    ensures { out.new ≡ at_start numbers.now out.old }
{
    for (i, z) in numbers.iter().enumerate() {
        out[i] = *z;
    }
}

// Hands corners on, of boundaries that mark so many cells, each counted by itself: the checks from RANGE on. Of corners of boundaries no row and no
// column is odd, so of the checks of points only RANGE can refuse.
fn hand_on(points: &[i32], area: u64, corners: &mut [i32]) -> Result<usize, Refusal>
    requires { length points.now ≡ 2 * length (points_of points.now) }
    ensures { HandedOn points.now area corners.old (told result) corners.new }
{
    let marked = count_marked(points)?;
    if (marked as u64) < area {
        return Err(Reason::Overlap.at(0));
    }
    let n = points.len() / 2;
    if corners.len() / 2 < n {
        return Err(Reason::Room.at(n));
    }
    copy(points, corners);
    Ok(n)
}

/// The corners of the layer's boundaries in the first structure of the name, written to `corners` in the order of the stream, with their count; or a
/// refusal, which leaves `corners` as it was. The bytes and the name are only read; `scratch` holds zeros afterwards.
pub fn read_gdsii(
    bytes: &[u8],
    name: &[u8],
    layer: i32,
    scratch: &mut [i32; SCRATCH],
    corners: &mut [i32],
) -> Result<usize, Refusal>
    ensures { ReadDone bytes.now name.now layer corners.old (told result) scratch.new corners.new }
{
    let reader = Reader { bytes, name, layer };
    let answer = reader.read_with(scratch, corners);
    scratch.fill(0);
    answer
}
