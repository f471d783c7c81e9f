//! Answers of ranges by their rows: ends, and the power of the step.
use ranges::range::Range;
use ranges::spans::Span;

#[derive(Clone, Copy, PartialEq, Eq, Debug)]
pub enum Operation {
    Add,
    Sub,
    Mul,
    Sqr,
    Min,
    Shr(u32),
}

impl Operation {
    /// The answer for two ranges, of which some operations look at the first alone.
    pub(crate) fn answer<R: Range>(&self, a: &R, b: &R) -> Option<R> {
        // closed kinds, and a method for each
        match *self {
            Operation::Add => a.add(b),
            Operation::Sub => a.sub(b),
            Operation::Mul => a.mul(b),
            Operation::Sqr => a.sqr(),
            Operation::Min => a.min(b),
            Operation::Shr(by) => a.shr(by),
        }
    }
}

/// Two operands and the answer; none where it is too large.
pub struct Answer {
    pub operation: Operation,
    pub a: (i32, i32, u32),
    pub b: (i32, i32, u32),
    pub row: Option<(i32, i32, u32)>,
}

/// What a range keeps of a span.
pub struct Kept {
    pub a: (i32, i32, u32),
    pub span: Span,
    pub row: Option<(i32, i32, u32)>,
}

/// The bound, told here once more: a test does not take it from what it tries.
pub const BOUND: i32 = 1 << 30;

pub const PLAIN: [Answer; 15] = [
    Answer {
        operation: Operation::Sqr,
        a: (-3, 2, 0),
        b: (0, 0, 0),
        row: Some((0, 9, 0)),
    },
    Answer {
        operation: Operation::Mul,
        a: (-3, 2, 0),
        b: (-3, 2, 0),
        row: Some((-6, 9, 0)),
    },
    Answer {
        operation: Operation::Sqr,
        a: (-3, -1, 0),
        b: (0, 0, 0),
        row: Some((1, 9, 0)),
    },
    Answer {
        operation: Operation::Sqr,
        a: (32_768, 32_768, 0),
        b: (0, 0, 0),
        row: Some((BOUND, BOUND, 0)),
    },
    Answer {
        operation: Operation::Mul,
        a: (32_768, 32_768, 0),
        b: (32_769, 32_769, 0),
        row: None,
    },
    Answer {
        operation: Operation::Mul,
        a: (-2, 3, 0),
        b: (4, 5, 0),
        row: Some((-10, 15, 0)),
    },
    Answer {
        operation: Operation::Shr(1),
        a: (-1, -1, 0),
        b: (0, 0, 0),
        row: Some((-1, -1, 0)),
    },
    Answer {
        operation: Operation::Shr(1),
        a: (-5, 5, 0),
        b: (0, 0, 0),
        row: Some((-3, 2, 0)),
    },
    Answer {
        operation: Operation::Shr(31),
        a: (-BOUND, BOUND, 0),
        b: (0, 0, 0),
        row: Some((-1, 1, 0)),
    },
    Answer {
        operation: Operation::Add,
        a: (1, 2, 0),
        b: (-5, 7, 0),
        row: Some((-4, 9, 0)),
    },
    Answer {
        operation: Operation::Add,
        a: (BOUND, BOUND, 0),
        b: (0, 1, 0),
        row: None,
    },
    Answer {
        operation: Operation::Sub,
        a: (1, 2, 0),
        b: (-5, 7, 0),
        row: Some((-6, 7, 0)),
    },
    Answer {
        operation: Operation::Sub,
        a: (-BOUND, 0, 0),
        b: (0, 1, 0),
        row: None,
    },
    Answer {
        operation: Operation::Min,
        a: (0, 9, 0),
        b: (4, 4, 0),
        row: Some((0, 4, 0)),
    },
    Answer {
        operation: Operation::Min,
        a: (-1, 3, 0),
        b: (-7, 8, 0),
        row: Some((-7, 3, 0)),
    },
];

pub const RASTER: [Answer; 47] = [
    Answer {
        operation: Operation::Sqr,
        a: (-3, 2, 0),
        b: (0, 0, 31),
        row: Some((0, 9, 0)),
    },
    Answer {
        operation: Operation::Mul,
        a: (-3, 2, 0),
        b: (-3, 2, 0),
        row: Some((-6, 9, 0)),
    },
    Answer {
        operation: Operation::Shr(1),
        a: (-1, -1, 31),
        b: (0, 0, 31),
        row: Some((-1, -1, 30)),
    },
    Answer {
        operation: Operation::Mul,
        a: (0, 9, 0),
        b: (4, 4, 31),
        row: Some((0, 36, 2)),
    },
    Answer {
        operation: Operation::Sqr,
        a: (-6, 10, 2),
        b: (0, 0, 31),
        row: Some((4, 100, 3)),
    },
    Answer {
        operation: Operation::Sqr,
        a: (-12, 20, 3),
        b: (0, 0, 31),
        row: Some((16, 400, 5)),
    },
    Answer {
        operation: Operation::Mul,
        a: (0, 0, 31),
        b: (0, 9, 0),
        row: Some((0, 0, 31)),
    },
    Answer {
        operation: Operation::Min,
        a: (4, 9, 0),
        b: (4, 4, 31),
        row: Some((4, 4, 0)),
    },
    Answer {
        operation: Operation::Min,
        a: (8, 24, 3),
        b: (4, 36, 4),
        row: Some((4, 24, 2)),
    },
    Answer {
        operation: Operation::Shr(2),
        a: (-16, 16, 3),
        b: (0, 0, 31),
        row: Some((-4, 4, 1)),
    },
    Answer {
        operation: Operation::Shr(5),
        a: (-16, 16, 3),
        b: (0, 0, 31),
        row: Some((-1, 0, 0)),
    },
    Answer {
        operation: Operation::Shr(31),
        a: (-BOUND, BOUND, 31),
        b: (0, 0, 31),
        row: Some((-1, 1, 1)),
    },
    Answer {
        operation: Operation::Mul,
        a: (32_768, 32_768, 31),
        b: (32_769, 32_769, 31),
        row: None,
    },
    Answer {
        operation: Operation::Sqr,
        a: (32_768, 32_768, 31),
        b: (0, 0, 31),
        row: Some((BOUND, BOUND, 31)),
    },
    Answer {
        operation: Operation::Sqr,
        a: (-32_769, 0, 0),
        b: (0, 0, 31),
        row: None,
    },
    Answer {
        operation: Operation::Add,
        a: (BOUND, BOUND, 31),
        b: (0, 8, 3),
        row: None,
    },
    Answer {
        operation: Operation::Sub,
        a: (-BOUND, 0, 30),
        b: (0, 0, 31),
        row: Some((-BOUND, 0, 30)),
    },
    Answer {
        operation: Operation::Add,
        a: (-168, -168, 4),
        b: (28, 33, 0),
        row: Some((-140, -135, 0)),
    },
    Answer {
        operation: Operation::Add,
        a: (48, 48, 0),
        b: (120, 121, 0),
        row: Some((168, 169, 0)),
    },
    Answer {
        operation: Operation::Add,
        a: (-464, -440, 2),
        b: (32, 35, 0),
        row: Some((-432, -405, 0)),
    },
    Answer {
        operation: Operation::Add,
        a: (528, 534, 0),
        b: (-12, -4, 0),
        row: Some((516, 530, 0)),
    },
    Answer {
        operation: Operation::Add,
        a: (-24, -20, 1),
        b: (132, 140, 0),
        row: Some((108, 120, 0)),
    },
    Answer {
        operation: Operation::Sub,
        a: (-432, -414, 1),
        b: (7, 39, 2),
        row: Some((-471, -421, 1)),
    },
    Answer {
        operation: Operation::Sub,
        a: (32, 41, 0),
        b: (368, 392, 2),
        row: Some((-360, -327, 0)),
    },
    Answer {
        operation: Operation::Sub,
        a: (304, 416, 4),
        b: (-4, 28, 4),
        row: Some((276, 420, 4)),
    },
    Answer {
        operation: Operation::Sub,
        a: (-480, -464, 2),
        b: (24, 24, 31),
        row: Some((-504, -488, 2)),
    },
    Answer {
        operation: Operation::Sub,
        a: (37, 45, 3),
        b: (-76, 52, 6),
        row: Some((-15, 121, 3)),
    },
    Answer {
        operation: Operation::Mul,
        a: (13, 13, 31),
        b: (496, 501, 0),
        row: Some((6_448, 6_513, 0)),
    },
    Answer {
        operation: Operation::Mul,
        a: (64, 176, 4),
        b: (-32, -32, 31),
        row: Some((-5_632, -2_048, 9)),
    },
    Answer {
        operation: Operation::Mul,
        a: (20, 20, 3),
        b: (264, 296, 3),
        row: Some((5_280, 5_920, 5)),
    },
    Answer {
        operation: Operation::Mul,
        a: (4, 452, 6),
        b: (-304, -288, 4),
        row: Some((-137_408, -1_152, 6)),
    },
    Answer {
        operation: Operation::Mul,
        a: (-66, -66, 31),
        b: (-48, 0, 3),
        row: Some((0, 3_168, 4)),
    },
    Answer {
        operation: Operation::Sqr,
        a: (23, 151, 6),
        b: (0, 0, 31),
        row: Some((529, 22_801, 6)),
    },
    Answer {
        operation: Operation::Sqr,
        a: (176, 176, 31),
        b: (0, 0, 31),
        row: Some((30_976, 30_976, 31)),
    },
    Answer {
        operation: Operation::Sqr,
        a: (-184, -120, 3),
        b: (0, 0, 31),
        row: Some((14_400, 33_856, 6)),
    },
    Answer {
        operation: Operation::Sqr,
        a: (52, 100, 3),
        b: (0, 0, 31),
        row: Some((2_704, 10_000, 5)),
    },
    Answer {
        operation: Operation::Sqr,
        a: (-21, -13, 2),
        b: (0, 0, 31),
        row: Some((169, 441, 2)),
    },
    Answer {
        operation: Operation::Min,
        a: (-22, -22, 1),
        b: (70, 70, 31),
        row: Some((-22, -22, 1)),
    },
    Answer {
        operation: Operation::Min,
        a: (-4, 12, 3),
        b: (112, 688, 6),
        row: Some((-4, 12, 2)),
    },
    Answer {
        operation: Operation::Min,
        a: (-384, -240, 4),
        b: (288, 294, 0),
        row: Some((-384, -240, 0)),
    },
    Answer {
        operation: Operation::Min,
        a: (88, 152, 6),
        b: (11, 11, 31),
        row: Some((11, 11, 0)),
    },
    Answer {
        operation: Operation::Min,
        a: (-64, -36, 2),
        b: (-104, -86, 1),
        row: Some((-104, -86, 1)),
    },
    Answer {
        operation: Operation::Shr(1),
        a: (-27, -18, 0),
        b: (0, 0, 31),
        row: Some((-14, -9, 0)),
    },
    Answer {
        operation: Operation::Shr(0),
        a: (96, 96, 0),
        b: (0, 0, 31),
        row: Some((96, 96, 0)),
    },
    Answer {
        operation: Operation::Shr(2),
        a: (304, 312, 2),
        b: (0, 0, 31),
        row: Some((76, 78, 0)),
    },
    Answer {
        operation: Operation::Shr(0),
        a: (148, 260, 4),
        b: (0, 0, 31),
        row: Some((148, 260, 4)),
    },
    Answer {
        operation: Operation::Shr(3),
        a: (176, 183, 0),
        b: (0, 0, 31),
        row: Some((22, 22, 0)),
    },
];

pub const RASTER_KEPT: [Kept; 16] = [
    Kept {
        a: (-60, -52, 3),
        span: Span { low: -33, high: 7 },
        row: None,
    },
    Kept {
        a: (42, 106, 3),
        span: Span { low: 24, high: 47 },
        row: Some((42, 42, 3)),
    },
    Kept {
        a: (-352, -352, 4),
        span: Span {
            low: -339,
            high: -304,
        },
        row: None,
    },
    Kept {
        a: (-112, -107, 0),
        span: Span {
            low: -122,
            high: -80,
        },
        row: Some((-112, -107, 0)),
    },
    Kept {
        a: (448, 480, 2),
        span: Span {
            low: 470,
            high: 495,
        },
        row: Some((472, 480, 2)),
    },
    Kept {
        a: (-80, -68, 2),
        span: Span {
            low: -88,
            high: -28,
        },
        row: Some((-80, -68, 2)),
    },
    Kept {
        a: (-37, 27, 4),
        span: Span { low: 3, high: 33 },
        row: Some((11, 27, 4)),
    },
    Kept {
        a: (148, 176, 2),
        span: Span {
            low: 172,
            high: 215,
        },
        row: Some((172, 176, 2)),
    },
    Kept {
        a: (-12, -9, 0),
        span: Span { low: -2, high: 20 },
        row: None,
    },
    Kept {
        a: (-112, 32, 4),
        span: Span { low: 24, high: 21 },
        row: None,
    },
    Kept {
        a: (4, 4, 31),
        span: Span { low: -9, high: 37 },
        row: Some((4, 4, 31)),
    },
    Kept {
        a: (42, 66, 2),
        span: Span { low: 64, high: 72 },
        row: Some((66, 66, 2)),
    },
    Kept {
        a: (152, 216, 6),
        span: Span {
            low: 224,
            high: 241,
        },
        row: None,
    },
    Kept {
        a: (-24, -20, 1),
        span: Span { low: -7, high: 49 },
        row: None,
    },
    Kept {
        a: (608, 622, 1),
        span: Span {
            low: 630,
            high: 671,
        },
        row: None,
    },
    Kept {
        a: (480, 484, 1),
        span: Span {
            low: 461,
            high: 459,
        },
        row: None,
    },
];
