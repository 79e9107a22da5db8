// The C face of the library: the four entry points on plain numbers and arrays, and the face's version, declared for C in include/panbuckle.h.
// An array that is lent passes as a pointer and a length; one of a fixed size passes as a pointer.
#![tactic(auto)]

ghost use Rattle.std.specs.Prelude.{◌≡◌, [], ◌∷◌};
ghost use Rattle.entry.specs.Entry.{told};
ghost use Rattle.rule.specs.ForwardCall.{forward_told};
ghost use Rattle.panbuckle_c.specs.Face.{Told, forward_numbers, counted_numbers, ForwardCalled, BackwardCalled, StepCalled, ReadCalled, version};

use entry::{Counted, DONE, Refusal};
use plane::Rect;
use rule::Sums;

/// The face's version, which rises by one when a program that was built with an older header would go wrong.
pub const VERSION: u32 = 3;

// ---- The numbers of an answer, by a function for each size of array that the C interface has

// Those of one that counts. Gives the first.
fn tell_count(res: &mut [u64; 3], answer: Result<usize, Refusal>) -> u32
    ensures { Told (counted_numbers (told answer)) result res.new }
{
    let Counted {
        answer,
        place,
        count,
    } = Counted::from(answer);
    *res = [u64::from(answer), place, count as u64];
    answer
}

// Those of forward's. Gives the first.
fn tell_sums(res: &mut [u64; 5], answer: Result<Sums, Refusal>) -> u32
    ensures { Told (forward_numbers (forward_told answer)) result res.new }
{
    match answer {
        Ok(Sums { count, area, edge }) => {
            *res = [u64::from(DONE), 0, count as u64, area, edge];
            DONE
        }
        Err(Refusal { reason, place }) => {
            let number = u32::from(reason);
            *res = [u64::from(number), place, 0, 0, 0];
            number
        }
    }
}

fn put_rect(rect: &mut [i32; 4], r: Rect)
    ensures { rect.new ≡ r.x ∷ r.y ∷ r.w ∷ r.h ∷ [] }
{
    *rect = [r.x, r.y, r.w, r.h];
}

// ---- The functions for C

/// The rectangles of the points. Gives the answer's number; the result's numbers are answer, place, count, area, edge.
#[unsafe(no_mangle)]
pub extern "C" fn panbuckle_forward(
    points: &[i32],
    work: &mut [i32],
    rects: &mut [i32],
    res: &mut [u64; 5],
) -> u32
    ensures { ForwardCalled points.now work.old rects.old result work.new rects.new res.new }
{
    tell_sums(res, panbuckle::forward(points, work, rects))
}

/// One rectangle of the `count` points in `work`. Gives the answer's number; the result's numbers are answer, place and the count of
/// the points that are left, and the rectangle's are X, Y, W, H.
#[unsafe(no_mangle)]
pub extern "C" fn panbuckle_step(
    work: &mut [i32],
    count: usize,
    rect: &mut [i32; 4],
    res: &mut [u64; 3],
) -> u32
    ensures { StepCalled work.old count rect.old result work.new rect.new res.new }
{
    match panbuckle::step(work, count) {
        Ok(step) => {
            put_rect(rect, step.rect);
            tell_count(res, Ok(step.count))
        }
        Err(refusal) => tell_count(res, Err(refusal)),
    }
}

/// The points of the rectangles. Gives the answer's number; the result's numbers are answer, place, count.
#[unsafe(no_mangle)]
pub extern "C" fn panbuckle_backward(rects: &[i32], points: &mut [i32], res: &mut [u64; 3]) -> u32
    ensures { BackwardCalled rects.now points.old result points.new res.new }
{
    tell_count(res, panbuckle::backward(rects, points))
}

/// The corners of the layer's boundaries in the structure of the name. Gives the answer's number; the result's numbers are answer, place, count.
#[unsafe(no_mangle)]
pub extern "C" fn panbuckle_read_gdsii(
    bytes: &[u8],
    name: &[u8],
    layer: i32,
    scratch: &mut [i32; 8192],
    corners: &mut [i32],
    res: &mut [u64; 3],
) -> u32
    ensures { ReadCalled bytes.now name.now layer corners.old result scratch.new corners.new res.new }
{
    tell_count(res, gdsii::read_gdsii(bytes, name, layer, scratch, corners))
}

/// The version. The name has it too, so that a program that was built with another version's header does not link.
#[unsafe(no_mangle)]
pub extern "C" fn panbuckle_version_3() -> u32
    ensures { result ≡ version }
{
    VERSION
}
