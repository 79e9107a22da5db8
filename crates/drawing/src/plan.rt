// Where a picture shows what: the points' frame, how it is scaled, and the place of each thing. What it says is in specs/Plan.antt.
ghost use Rattle.std.specs.Prelude.{◌<◌, ◌≤◌, ◌≡◌};
ghost use Rattle.plane.specs.Keys.{raised};

use panbuckle::{Point, Rect};
use plane::{points_in, raise};

// A coordinate, counted from -2^31.
fn raised(z: i32) -> u32
    ensures { result ≡ raised z }
{
    raise(z) as u32
}

/// Four ends: the least and the greatest x and y of some points, each counted from -2^31.
#[derive(Clone, Copy, Debug, Default, PartialEq, Eq)]
pub(crate) struct Frame {
    left: u32,
    right: u32,
    bottom: u32,
    top: u32,
}

#[tactic(auto, unfolding(crate::specs::Plan::about, crate::specs::Plan::widened, crate::specs::Plan::span_of))]
impl Frame {
    ghost use Rattle.plane.specs.Words.{points_of};
    ghost use Rattle.drawing.specs.Plan.{about, widened, frame_of, span_of};

    /// The frame of one point.
    fn about(p: Point) -> Frame
        ensures { result ≡ about p }
    {
        let x = raised(p.x);
        let y = raised(p.y);
        Frame {
            left: x,
            right: x,
            bottom: y,
            top: y,
        }
    }

    /// The frame that holds one point more.
    fn widened(self, p: Point) -> Frame
        ensures { result ≡ widened self p }
    {
        let x = raised(p.x);
        let y = raised(p.y);
        Frame {
            left: self.left.min(x),
            right: self.right.max(x),
            bottom: self.bottom.min(y),
            top: self.top.max(y),
        }
    }

    /// The frame of an array's points.
    pub(crate) fn of(points: &[i32]) -> Frame
        ensures { result ≡ frame_of (points_of points.now) }
    {
        let mut points = points_in(points);
        let Some(first) = points.next() else {
            return Frame::default();
        };
        points.fold(Frame::about(first), |frame, p| frame.widened(p))
    }

    /// The longer side, and 1 for one point.
    fn span(self) -> u32
        ensures value { result ≡ span_of self }
        ensures some_span { 0 < result }
    {
        let width = self.right.saturating_sub(self.left);
        let height = self.top.saturating_sub(self.bottom);
        width.max(height).max(1)
    }
}

/// How the plane is shown: the corner and the longer side of the frame, and the picture's width and height.
#[derive(Clone, Copy, Debug, PartialEq, Eq)]
pub(crate) struct View {
    left: u32,
    bottom: u32,
    span: u32,
    pub width: u64,
    pub height: u64,
    ghost some_span: { 0 < span },
    ghost narrow: { width ≤ 100_000 },
    ghost low: { height ≤ 100_000 },
}

impl View {
    ghost use Rattle.std.specs.Prelude.{◌+◌};
    ghost use Rattle.drawing.specs.Plan.{scaled, view_of, across, down, free_beside, extent, box_of};

    /// How far v is from low in the picture: a span has 100,000 units, and what lies outside of it is put to its end.
    #[tactic(auto, unfolding(crate::specs::Plan::scaled))]
    fn scaled(span: u32, low: u32, v: u64) -> u64
        requires { 0 < span }
        ensures value { result ≡ scaled span low v }
        ensures upper_bound { result ≤ 100_000 }
    {
        let span = u64::from(span);
        v.saturating_sub(u64::from(low)).min(span) * 100_000 / span
    }

    /// The view of a frame: the longer side fills the picture.
    #[tactic(auto, unfolding(crate::specs::Plan::view_of))]
    pub(crate) fn of(frame: Frame) -> View
        ensures { result ≡ view_of frame }
    {
        let Frame {
            left,
            right,
            bottom,
            top,
        } = frame;
        let span = frame.span();
        View {
            left,
            bottom,
            span,
            width: View::scaled(span, left, u64::from(right)),
            height: View::scaled(span, bottom, u64::from(top)),
        }
    }

    /// A raised x, from the picture's left.
    #[tactic(auto, unfolding(crate::specs::Plan::across))]
    fn across(self, x: u64) -> u64
        ensures value { result ≡ across self x }
        ensures upper_bound { result ≤ 100_000 }
    {
        View::scaled(self.span, self.left, x)
    }

    /// A raised y, from the picture's top.
    #[tactic(auto, unfolding(crate::specs::Plan::down))]
    fn down(self, y: u64) -> u64
        ensures value { result ≡ down self y }
        ensures upper_bound { result ≤ self.height }
    {
        self.height
            .saturating_sub(View::scaled(self.span, self.bottom, y))
    }

    /// A point's column, from the picture's left.
    pub(crate) fn column(self, p: Point) -> u64
        ensures { result ≡ across self (raised p.x) }
    {
        self.across(raise(p.x))
    }

    /// A point's line, from the picture's top.
    pub(crate) fn line(self, p: Point) -> u64
        ensures { result ≡ down self (raised p.y) }
    {
        self.down(raise(p.y))
    }

    /// Half of what is free beside the picture.
    #[tactic(auto, unfolding(crate::specs::Plan::free_beside))]
    pub(crate) fn free_beside(self) -> u64
        ensures value { result ≡ free_beside self }
        ensures upper_bound { result ≤ 50_000 }
    {
        100_000u64.saturating_sub(self.width) / 2
    }

    /// A side's length, and 0 for one below 0.
    fn extent(z: i32) -> u64
        ensures value { result ≡ extent z }
        ensures upper_bound { result < 4_294_967_296 }
    {
        u64::try_from(z).unwrap_or(0)
    }

    /// A rectangle in the picture; each side is at least 1.
    #[tactic(auto, unfolding(crate::specs::Plan::box_of))]
    pub(crate) fn box_of(self, r: Rect) -> Box
        ensures value { result ≡ box_of self r }
        ensures small { (result.x ≤ 100_000) × (result.y ≤ 100_000) × (result.w ≤ 100_000) × (result.h ≤ 100_000) }
    {
        let x = raise(r.x);
        let y = raise(r.y);
        let right = x + View::extent(r.w);
        let top = y + View::extent(r.h);
        Box::between(
            self.across(x),
            self.down(top),
            self.across(right),
            self.down(y),
        )
    }
}

/// A rectangle in the picture, x to the right and y downwards.
#[derive(Clone, Copy, Debug, PartialEq, Eq)]
pub(crate) struct Box {
    pub x: u64,
    pub y: u64,
    pub w: u64,
    pub h: u64,
}

impl Box {
    ghost use Rattle.std.specs.Prelude.{◌-◌, max};

    /// From the upper left corner (x, y) to the lower right one; each side is at least 1.
    fn between(x: u64, y: u64, right: u64, bottom: u64) -> Box
        ensures { result ≡ record { x = x; y = y; w = max 1 (right - x); h = max 1 (bottom - y) } }
    {
        Box {
            x,
            y,
            w: right.saturating_sub(x).max(1),
            h: bottom.saturating_sub(y).max(1),
        }
    }
}
