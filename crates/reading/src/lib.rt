// Reads lines of points. What a good line is, what is refused and what the reader leaves is in specs/.
#![tactic(auto)]

ghost use Rattle.std.specs.Prelude.{◌*◌, ◌<◌, ◌≤◌, ◌≡◌, length, None, MatchOption};
ghost use Rattle.plane.specs.Lists.{at_start};
ghost use Rattle.plane.specs.Words.{flat_points};
ghost use Rattle.entry.specs.Checks.{accepted, verdict};
ghost use Rattle.entry.specs.Entry.{counted, told};
ghost use Rattle.numerals.specs.Numerals.{number_of};
ghost use Rattle.reading.specs.Lines.{newline, space, before_first, after_first, point_from, line_point, lines_of};
ghost use Rattle.reading.specs.Reading.{points_read, ReadDone};
ghost use Rattle.reading.specs.Inner.{first_line, lines_checks, IsParted, BeginsWith};

use entry::{Reason, Refusal};
use numerals::number_of;
use plane::{MOST_POINTS, Point};

/// The most bytes of a text.
pub const MOST_BYTES: usize = 65536;

/// The most lines of a text.
pub const MOST_LINES: usize = MOST_POINTS;

// ---- A line

// The bytes before the first byte c, and those after it.
fn parts(bytes: &[u8], c: u8) -> Option<(&[u8], &[u8])>
    ensures { MatchOption result (before_first c bytes.now ≡ bytes.now) (λ p. IsParted c bytes.now p.0.now p.1.now) }
{
    let i = bytes.iter().position(|b| *b == c)?;
    Some((&bytes[..i], &bytes[i + 1..]))
}

// The point of a line: x, one space, y.
fn point_of(line: &[u8]) -> Option<Point>
    ensures { result ≡ point_from (number_of (before_first space line.now)) (number_of (after_first space line.now)) }
{
    let (x, y) = parts(line, b' ')?;
    Some(Point {
        x: number_of(x)?,
        y: number_of(y)?,
    })
}

// The point of the first line of a text, and the lines after it. Without a newline a line is bad.
fn next_point(text: &[u8]) -> Option<(Point, &[u8])>
    ensures { MatchOption result (line_point (first_line text.now) ≡ None) (λ p. BeginsWith text.now p.0 p.1.now) }
{
    let (line, rest) = parts(text, b'\n')?;
    Some((point_of(line)?, rest))
}

// ---- All lines

// How many lines a text has, all of them good; or TEXT, at the first bad one. It counts lines of unlike lengths, which no range gives.
fn check_lines(text: &[u8]) -> Result<usize, Refusal>
    ensures { told result ≡ counted (verdict (lines_checks text.now)) (length (lines_of text.now)) }
{
    let mut rest = text;
    let mut count = 0;
    while !rest.is_empty() {
        let Some((_, next)) = next_point(rest) else {
            return Err(Reason::Text.at(count));
        };
        rest = next;
        count += 1;
    }
    Ok(count)
}

// Writes the points of good lines, of which line i has point i.
fn write_points(text: &[u8], points: &mut [i32])
    requires text_value { verdict (lines_checks text.now) ≡ accepted }
    requires text_in_bounds { 2 * length (lines_of text.now) ≤ length points.old }
    ensures { points.new ≡ at_start (flat_points (points_read text.now)) points.old }
{
    let mut rest = text;
    let mut i = 0;
    while let Some((point, next)) = next_point(rest) {
        points[2 * i] = point.x;
        points[2 * i + 1] = point.y;
        rest = next;
        i += 1;
    }
}

// ---- The reader

/// The points of a text's lines, written to `points`, with their count; or a refusal, which leaves `points` as it was.
pub fn read_points(text: &[u8], points: &mut [i32]) -> Result<usize, Refusal>
    ensures { ReadDone text.now points.old (told result) points.new }
{
    if text.len() > MOST_BYTES {
        return Err(Reason::Many.at(0));
    }
    let lines = check_lines(text)?;
    if lines > MOST_LINES {
        return Err(Reason::Many.at(0));
    }
    if lines > points.len() / 2 {
        return Err(Reason::Room.at(lines));
    }
    write_points(text, points);
    Ok(lines)
}
