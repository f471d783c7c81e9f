ghost use Rattle.std.specs.Prelude.{◌≡◌, ◌++◌, IfOk, string_bytes};
ghost use Rattle.boxes.specs.Views.{sides_of};
ghost use Rattle.jobs.specs.Reading.{content_of, verdict};
ghost use Rattle.report.specs.Lines.{accepted, job_text, left_line, said, sides_text};

use boxes::region::Region;
use cutters::cutter::Cutter;
use evaluation::judge::judge_start;
use forward_backward::forward_backward::ForwardBackward;
use jobs::job::Job;
use ranges::narrowing::Narrowing;
use ranges::plain::Plain;
use ranges::row::Row;
use raster::raster::Raster;
use std::alloc::{AllocError, Global};
use std::fmt::Write;

// These texts are lines of this program and no value's own text, so they are functions and no
// `Display`.

/// The line on a job.
fn accepted_line(heap: Global, job: &Job) -> Result<String, AllocError>
    ensures { IfOk result (λ t. string_bytes t ≡ accepted (content_of job.now)) }
{
    let plain = judge_start::<Plain>(job);
    let raster = judge_start::<Raster>(job);
    format!(in heap; "accepted {job} plain {plain} raster {raster}")
}

/// The sides of a box, each behind a space, behind a text.
fn sides_text(mut text: String, region: &Region) -> Result<String, AllocError>
    ensures { IfOk result (λ t. string_bytes t ≡ string_bytes text ++ sides_text (sides_of region.now)) }
{
    for side in region.sides() {
        write!(text, " {side}")?;
    }
    Ok(text)
}

/// What forward-backward leaves of a job's start box, by a kind of range with this name.
fn left_text<R: Narrowing>(heap: Global, name: &str, job: &Job) -> Result<String, AllocError>
    ensures { IfOk result (λ t. string_bytes t ≡ left_line name.now R.Range.kind R.Narrowing.keeper (content_of job.now)) }
{
    let mut region = job.fields.start;
    // fixed memory: a row for each instruction that a job may have
    let mut rows = [Row::default(); 64];
    if !<ForwardBackward as Cutter<R>>::cut(&ForwardBackward, job, &mut region, &mut rows) {
        return format!(in heap; "{name} leaves nothing");
    }
    let text = format!(in heap; "{name} leaves")?;
    sides_text(text, &region)
}

/// What is said of a job.
fn job_text(heap: Global, job: &Job) -> Result<String, AllocError>
    ensures { IfOk result (λ t. string_bytes t ≡ job_text (content_of job.now)) }
{
    let first = accepted_line(heap, job)?;
    let plain = left_text::<Plain>(heap, "plain", job)?;
    let raster = left_text::<Raster>(heap, "raster", job)?;
    format!(in heap; "{first}\n{plain}\n{raster}")
}

/// What is said of a record. `lockmap` says less of a job, so it has its own.
pub(crate) fn text(heap: Global, bytes: &[u8]) -> Result<String, AllocError>
    ensures { IfOk result (λ t. string_bytes t ≡ said (verdict bytes.now)) }
{
    match Job::read(bytes) {
        Ok(job) => job_text(heap, &job),
        Err(refusal) => format!(in heap; "{refusal}"),
    }
}
