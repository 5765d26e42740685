//! Cuts and layouts at their edges, and the calls of `Layout::locate` and `slice` whose times are taken.

use crate::{edges, timed};
use std::time::Instant;

/// Prints the table of cuts and of parts and places, and what the timed calls count.
pub fn print_all(rt: &HostRuntime) -> anyhow::Result<()> {
    let alloc = rt.alloc();
    edges::print_cuts(rt)?;
    edges::print_layouts(rt, alloc)?;
    let layout = timed::cube_layout(alloc)?;
    let sum = timed::sum_of_places(&layout, timed::INDEXES);
    let array = timed::cube(alloc)?;
    let count = timed::sliced_cells(alloc, &array, timed::SLICES)?;
    println!(rt; "located {} indexes, sum {sum}", timed::INDEXES)?;
    println!(rt; "copied {count} cells")?;
    Ok(())
}

/// Prints the time of an index and the rate of copied cells.
pub fn print_times(rt: &HostRuntime) -> anyhow::Result<()> {
    let alloc = rt.alloc();
    let layout = timed::cube_layout(alloc)?;
    let start = Instant::now(rt)?;
    let sum = timed::sum_of_places(&layout, timed::INDEXES);
    let nanoseconds = start.elapsed(rt)?.as_nanos() / timed::INDEXES as u128;
    println!(rt; "locate: {nanoseconds} ns an index, sum {sum}")?;
    let array = timed::cube(alloc)?;
    let start = Instant::now(rt)?;
    let count = timed::sliced_cells(alloc, &array, timed::SLICES)?;
    let microseconds = start.elapsed(rt)?.as_micros().max(1);
    let rate = count as u128 / microseconds;
    println!(rt; "slice: {rate} million cells a second, {count} cells")?;
    Ok(())
}
