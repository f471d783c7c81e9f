ghost use Rattle.std.specs.Prelude.{◌≡◌, ◌<◌, length};
ghost use Rattle.ranges.specs.Spans.{span_ends};
ghost use Rattle.inverses.specs.Inverses.{known_ends};
ghost use Rattle.evaluation.specs.Judging.{taken};
ghost use Rattle.forward_backward.specs.Operands.{narrowed, narrowed_if};
ghost use Rattle.forward_backward.specs.Told.{Left};

use ranges::narrowing::Narrowing;
use ranges::range::Range;
use ranges::row::Row;
use ranges::spans::Span;

// Rows stay a slice and a register a number: a struct that held the lent rows would owe its rule
// again at each row that is written, and a number would still have to lie within them.

/// The row of a register's range.
pub(crate) fn row_at<R: Range>(rows: &[Row], register: usize) -> Row
    requires { register < length rows.now }
    ensures { result ≡ taken R.Range.kind rows.now register }
{
    R::from_row(rows[register]).to_row()
}

/// Keeps a register between ends; none where it holds no number there.
pub(crate) fn narrow<R: Narrowing>(rows: &mut [Row], register: usize, span: Span) -> Option<()>
    requires { register < length rows.old }
    ensures { Left (narrowed R.Range.kind R.Narrowing.keeper rows.old register (span_ends span)) result rows.new }
{
    let kept = R::from_row(rows[register]).keep(span)?;
    rows[register] = kept.to_row();
    Some(())
}

/// Keeps a register between ends, if any are known.
pub(crate) fn narrow_if<R: Narrowing>(
    rows: &mut [Row],
    register: usize,
    span: Option<Span>,
) -> Option<()>
    requires { register < length rows.old }
    ensures { Left (narrowed_if R.Range.kind R.Narrowing.keeper rows.old register (known_ends span)) result rows.new }
{
    match span {
        Some(span) => narrow::<R>(rows, register, span),
        None => Some(()),
    }
}
