// The overview of a long journal.

ghost use Rattle.std.specs.Prelude.{◌≡◌, ◌<◌, ◌≤◌, length, OnOk};
ghost use Rattle.std.specs.List.{flat_map};
ghost use Rattle.view_overview.specs.Overview as spec;
ghost use Rattle.view_page.specs.Parts.{Pushed};

use crate::buckets::{Bucket, Scale, bucket_at, buckets, scale_of};
use report_read::Event;
use std::alloc::{AllocError as OutOfMemory, Global};
use view_journal::Window;
use view_page::{Overview, Part, push_parts};

/// A count that the overview shows.
#[derive(Clone, Copy)]
pub enum Count {
    Readers,
    Writers,
}

fn value(count: Count, bucket: Bucket) -> u32
    ensures { result ≡ spec.value count bucket }
{
    match count {
        Count::Readers => bucket.readers,
        Count::Writers => bucket.writers,
    }
}

fn most(count: Count, buckets: &[Bucket]) -> u32
    ensures is { result ≡ spec.most_from count 1 buckets.now }
    ensures some { 0 < result }
{
    let mut most = 1u32;
    for bucket in buckets {
        most = most.max(value(count, *bucket));
    }
    most
}

fn height(most: u32, value: u32) -> u64
    requires { 0 < most }
    ensures { result ≡ spec.height most value }
{
    (12 * u64::from(value) + (u64::from(most) - 1)) / u64::from(most)
}

fn base(count: Count) -> u64
    ensures { result ≡ spec.base count }
{
    match count {
        Count::Readers => 16,
        Count::Writers => 32,
    }
}

fn push_step(
    out: &mut Vec<u8>,
    text: &[u8],
    count: Count,
    width: u64,
    most: u32,
    bucket: Bucket,
) -> Result<(), OutOfMemory>
    requires { 0 < most }
    ensures { OnOk result
        (Pushed text.now out.old.items out.new.items (spec.step count width most bucket)) }
{
    let y = base(count).saturating_sub(height(most, value(count, bucket)));
    let parts = [
        Part::Overview(Overview::Up),
        Part::Number(y),
        Part::Overview(Overview::Along),
        Part::Number(width),
    ];
    push_parts(out, text, &parts)
}

fn push_steps(
    out: &mut Vec<u8>,
    text: &[u8],
    count: Count,
    width: u64,
    most: u32,
    buckets: &[Bucket],
) -> Result<(), OutOfMemory>
    requires { 0 < most }
    ensures { OnOk result (Pushed text.now out.old.items out.new.items
        (flat_map (spec.step count width most) buckets.now)) }
{
    for bucket in buckets {
        push_step(out, text, count, width, most, *bucket)?;
    }
    Ok(())
}

fn opens(count: Count) -> Overview
    ensures { result ≡ spec.opens count }
{
    match count {
        Count::Readers => Overview::Readers,
        Count::Writers => Overview::Writers,
    }
}

fn closes(count: Count) -> Overview
    ensures { result ≡ spec.closes count }
{
    match count {
        Count::Readers => Overview::ReadersEnd,
        Count::Writers => Overview::WritersEnd,
    }
}

fn push_counts(
    out: &mut Vec<u8>,
    text: &[u8],
    count: Count,
    width: u64,
    buckets: &[Bucket],
) -> Result<(), OutOfMemory>
    ensures { OnOk result (Pushed text.now out.old.items out.new.items
        (spec.counts count width buckets.now)) }
{
    let most = most(count, buckets);
    push_parts(out, text, &[Part::Overview(opens(count))])?;
    push_steps(out, text, count, width, most, buckets)?;
    push_parts(out, text, &[Part::Overview(closes(count))])?;
    Ok(())
}

fn mark_of(rank: u32) -> Overview
    ensures { result ≡ spec.mark_of rank }
{
    if rank == 4 {
        Overview::Violated
    } else if rank == 3 {
        Overview::Denied
    } else if rank == 2 {
        Overview::Labelled
    } else {
        Overview::Added
    }
}

fn colour_of(rank: u32) -> Overview
    ensures { result ≡ spec.colour_of rank }
{
    if rank == 4 {
        Overview::Bad
    } else if rank == 3 {
        Overview::Bad
    } else if rank == 2 {
        Overview::Label
    } else {
        Overview::Entry
    }
}

// The left edge of a bucket.
fn left(width: u64, k: usize) -> u64
    requires width { width ≤ 900 }
    requires k { k ≤ 900 }
    ensures { result ≡ spec.left width k }
{
    96 + k as u64 * width
}

fn push_mark(
    out: &mut Vec<u8>,
    text: &[u8],
    rank: u32,
    width: u64,
    k: usize,
    bucket: Bucket,
) -> Result<(), OutOfMemory>
    requires width { width ≤ 900 }
    requires k { k ≤ 900 }
    ensures { OnOk result
        (Pushed text.now out.old.items out.new.items (spec.mark rank width k bucket)) }
{
    if bucket.rank == rank {
        let parts = [
            Part::Overview(Overview::At),
            Part::Number(left(width, k)),
            Part::Overview(mark_of(rank)),
        ];
        push_parts(out, text, &parts)
    } else {
        push_parts(out, text, &[])
    }
}

fn push_marks_of(
    out: &mut Vec<u8>,
    text: &[u8],
    rank: u32,
    width: u64,
    buckets: &[Bucket],
) -> Result<(), OutOfMemory>
    requires width { width ≤ 900 }
    requires few { length buckets.now ≤ 900 }
    ensures { OnOk result (Pushed text.now out.old.items out.new.items
        (spec.marks_from rank width 0 buckets.now)) }
{
    for (k, bucket) in buckets.iter().enumerate() {
        push_mark(out, text, rank, width, k, *bucket)?;
    }
    Ok(())
}

fn push_marks(
    out: &mut Vec<u8>,
    text: &[u8],
    rank: u32,
    width: u64,
    buckets: &[Bucket],
) -> Result<(), OutOfMemory>
    requires width { width ≤ 900 }
    requires few { length buckets.now ≤ 900 }
    ensures { OnOk result
        (Pushed text.now out.old.items out.new.items (spec.marks rank width buckets.now)) }
{
    push_parts(out, text, &[Part::Overview(colour_of(rank))])?;
    push_marks_of(out, text, rank, width, buckets)?;
    push_parts(out, text, &[Part::Overview(Overview::PathEnd)])?;
    Ok(())
}

fn length_of(scale: Scale, window: Window) -> u64
    requires { spec.IsScale scale }
    ensures is { result ≡ spec.length_of scale window }
{
    let from = bucket_at(scale, window.first) * scale.width;
    let to = bucket_at(scale, window.last) * scale.width + scale.width;
    to.saturating_sub(from)
}

fn push_window(
    out: &mut Vec<u8>,
    text: &[u8],
    scale: Scale,
    window: Window,
) -> Result<(), OutOfMemory>
    requires { spec.IsScale scale }
    ensures { OnOk result
        (Pushed text.now out.old.items out.new.items (spec.window scale window)) }
{
    let length = length_of(scale, window).max(2);
    let parts = [
        Part::Overview(Overview::At),
        Part::Number(96 + bucket_at(scale, window.first) * scale.width),
        Part::Overview(Overview::Window),
        Part::Number(length),
        Part::Overview(Overview::Back),
        Part::Number(length),
        Part::Overview(Overview::Close),
    ];
    push_parts(out, text, &parts)
}

fn push_each(
    out: &mut Vec<u8>,
    text: &[u8],
    scale: Scale,
    windows: &[Window],
) -> Result<(), OutOfMemory>
    requires { spec.IsScale scale }
    ensures { OnOk result (Pushed text.now out.old.items out.new.items
        (flat_map (spec.window scale) windows.now)) }
{
    for window in windows {
        push_window(out, text, scale, *window)?;
    }
    Ok(())
}

// Which places are drawn.
fn push_drawn(
    out: &mut Vec<u8>,
    text: &[u8],
    scale: Scale,
    windows: &[Window],
) -> Result<(), OutOfMemory>
    requires { spec.IsScale scale }
    ensures { OnOk result
        (Pushed text.now out.old.items out.new.items (spec.drawn scale windows.now)) }
{
    push_parts(out, text, &[Part::Overview(Overview::Windows)])?;
    push_each(out, text, scale, windows)?;
    push_parts(out, text, &[Part::Overview(Overview::PathEnd)])?;
    Ok(())
}

fn push_strips(
    out: &mut Vec<u8>,
    text: &[u8],
    width: u64,
    buckets: &[Bucket],
) -> Result<(), OutOfMemory>
    requires width { width ≤ 900 }
    requires few { length buckets.now ≤ 900 }
    ensures { OnOk result
        (Pushed text.now out.old.items out.new.items (spec.strips width buckets.now)) }
{
    push_counts(out, text, Count::Readers, width, buckets)?;
    push_counts(out, text, Count::Writers, width, buckets)?;
    push_marks(out, text, 4, width, buckets)?;
    push_marks(out, text, 3, width, buckets)?;
    push_marks(out, text, 2, width, buckets)?;
    push_marks(out, text, 1, width, buckets)?;
    Ok(())
}

fn push_overview_by(
    out: &mut Vec<u8>,
    text: &[u8],
    scale: Scale,
    buckets: &[Bucket],
    windows: &[Window],
) -> Result<(), OutOfMemory>
    requires scale { spec.IsScale scale }
    requires few { length buckets.now ≤ 900 }
    ensures { OnOk result (Pushed text.now out.old.items out.new.items
        (spec.overview_by scale buckets.now windows.now)) }
{
    let begin = [
        Part::Overview(Overview::Begin),
        Part::Overview(Overview::Names),
        Part::Overview(Overview::MoreNames),
        Part::Overview(Overview::NamesEnd),
    ];
    push_parts(out, text, &begin)?;
    push_strips(out, text, scale.width, buckets)?;
    push_drawn(out, text, scale, windows)?;
    push_parts(out, text, &[Part::Overview(Overview::End)])?;
    Ok(())
}

/// Appends the overview of a journal, of which these windows are drawn.
pub fn push_overview(
    alloc: Global,
    out: &mut Vec<u8>,
    text: &[u8],
    journal: &[Event],
    windows: &[Window],
) -> Result<(), OutOfMemory>
    requires { length journal.now < 4294967296 }
    ensures { OnOk result (Pushed text.now out.old.items out.new.items
        (spec.overview_of journal.now windows.now)) }
{
    let scale = scale_of(journal.len() as u64);
    let buckets = buckets(alloc, scale, journal)?;
    push_overview_by(out, text, scale, &buckets, windows)?;
    Ok(())
}
