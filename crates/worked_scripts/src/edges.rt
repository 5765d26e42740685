//! Cuts and layouts at their edges.

use jd_array::cut;
use jd_layout::{Layout, LayoutFault};
use std::alloc::Global;

/// Sizes and numbers of pieces.
const CUTS: [(u64, u32); 14] = [
    (0, 1),
    (0, 4),
    (1, 1),
    (1, 4),
    (3, 4),
    (4, 4),
    (5, 4),
    (7, 4),
    (8, 4),
    (9, 4),
    (262_143, 2),
    (262_144, 2),
    (262_144, 3),
    (262_144, 7),
];

struct Case {
    dims: &'static [u64],
    dist: &'static [u32],
    indexes: &'static [&'static [u64]],
}

const CASES: [Case; 8] = [
    Case {
        dims: &[262_144],
        dist: &[1],
        indexes: &[&[1], &[262_144], &[0], &[262_145]],
    },
    Case {
        dims: &[262_144],
        dist: &[3],
        indexes: &[&[1], &[87_382], &[87_383], &[262_144]],
    },
    Case {
        dims: &[512, 512],
        dist: &[2, 3],
        indexes: &[&[1, 1], &[256, 171], &[257, 172], &[512, 512], &[512]],
    },
    Case {
        dims: &[64, 64, 64],
        dist: &[1, 1, 1],
        indexes: &[&[1, 1, 1], &[64, 64, 64], &[64, 65, 64]],
    },
    Case {
        dims: &[64, 64, 64],
        dist: &[2, 1, 3],
        indexes: &[&[1, 1, 1], &[32, 64, 22], &[33, 1, 23], &[64, 64, 64]],
    },
    Case {
        dims: &[2, 0],
        dist: &[2, 2],
        indexes: &[&[1, 1]],
    },
    Case {
        dims: &[3],
        dist: &[5],
        indexes: &[&[1], &[2], &[3]],
    },
    Case {
        dims: &[262_144, 2],
        dist: &[1, 1],
        indexes: &[],
    },
];

const PROCS: [u32; 6] = [2, 3, 4, 5, 6, 7];

fn print_cut(rt: &impl Print, size: u64, pieces: u32) -> anyhow::Result<()> {
    print!(rt; "cut {size} by {pieces}:")?;
    for piece in 0..pieces {
        let held = cut(size, pieces, piece);
        print!(rt; " {}+{}", held.start, held.len)?;
    }
    println!(rt; "")?;
    Ok(())
}

/// The pieces of each cut, as start and length.
pub fn print_cuts(rt: &impl Print) -> anyhow::Result<()> {
    for (size, pieces) in CUTS {
        print_cut(rt, size, pieces)?;
    }
    Ok(())
}

fn print_places(rt: &impl Print, layout: &Layout, indexes: &[&[u64]]) -> anyhow::Result<()> {
    for index in indexes {
        match layout.locate(index) {
            Ok((part, place)) => print!(rt; " {part}/{place}")?,
            Err(_) => print!(rt; " outside")?,
        }
    }
    println!(rt; "")?;
    Ok(())
}

fn print_layout(rt: &impl Print, alloc: Global, case: &Case) -> anyhow::Result<()> {
    print!(rt; "{:?} over {:?}:", case.dims, case.dist)?;
    let mut count: usize = 1;
    for pieces in case.dist {
        count = count.saturating_mul(*pieces as usize);
    }
    let procs = &PROCS[..count.min(PROCS.len())];
    match Layout::new(alloc, case.dims, procs, case.dist, &PROCS) {
        Ok(layout) => print_places(rt, &layout, case.indexes),
        Err(LayoutFault::OutOfMemory) => anyhow::bail!("out of memory"),
        Err(fault) => {
            println!(rt; " {fault}")?;
            Ok(())
        }
    }
}

/// The part and place of indexes of layouts.
pub fn print_layouts(rt: &impl Print, alloc: Global) -> anyhow::Result<()> {
    for case in &CASES {
        print_layout(rt, alloc, case)?;
    }
    Ok(())
}
