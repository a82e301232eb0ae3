// Document 01's cases, run by the engine and compared with plain arithmetic: one line for each group.
#![tactic(auto)]

mod curve_cases;
mod draw;
mod line;
mod orders;
mod output;
mod plain;
mod refusals;
mod rejected;
mod sums;
mod sweeps;
mod trials;
mod unmarked;

use crate::curve_cases::{house_rows, is_wrong_end};
use crate::orders::{Kind, Mode};
use crate::output::group;
use crate::rejected::{at_place, bad_table, faulty_order, ill_sized, no_host, short, unequal};
use crate::sums::{Sums, print_rest};
use crate::sweeps::{Readings, sweep};
use crate::unmarked::{is_opened, is_slack_wrong, is_split_wrong};
use std::io;

// The trials of a kind, and their line.
fn kind_line(rt: &impl Print, kind: Kind, readings: Readings, name: &str) -> io::Result<Sums> {
    let t = sweep(kind, readings, 1, &house_rows(), 2000);
    println!(rt; "kind {}, {name}: {}", kind.number(), t.values())?;
    Ok(t)
}

// Any words at each kind, then readings in range at kind 7.
fn kinds(rt: &impl Print) -> io::Result<()> {
    let mut sum = Sums::default();
    for kind in Kind::BELOW_CURVE {
        sum = sum + kind_line(rt, kind, Readings::Words, "any words")?;
    }
    sum = sum + kind_line(rt, Kind::OneBit, Readings::Range, "readings in range")?;
    print_rest(rt, &"kinds 0 to 9", sum)
}

// What document 01 says of single values, and the limits of splitting.
fn single_values(rt: &impl Print) -> io::Result<()> {
    group(
        rt,
        "kind 6, x = 0, k = 1, L = 2^31 opens -2^31",
        0..4,
        is_slack_wrong,
    )?;
    group(
        rt,
        "splitting -2^30, -1, 0 and 2^30 - 1, opened again",
        0..4,
        is_split_wrong,
    )?;
    group(
        rt,
        "refused 11, splitting 2^30, -2^30 - 1, 2^31 - 1 and -2^31",
        4..8,
        is_split_wrong,
    )
}

fn curves(rt: &impl Print) -> io::Result<()> {
    for mode in [Mode::Exact, Mode::OneBit] {
        curve_cases::house(rt, mode)?;
    }
    for mode in [Mode::Exact, Mode::OneBit] {
        curve_cases::others(rt, mode)?;
    }
    group(
        rt,
        "curve, at the last row its value, above it to 2^31 - 1 always -1",
        0..528,
        is_wrong_end,
    )
}

// Jobs and tables that are turned down.
fn refused_jobs(rt: &impl Print) -> io::Result<()> {
    group(rt, "refused 1, hosts 0, 3 and 2^32 - 1", 0..12, no_host)?;
    group(
        rt,
        "refused 2, jobs of 0, 1, 3, 6, 255, 257 and 260 words",
        0..56,
        ill_sized,
    )?;
    group(
        rt,
        "refused 3, kinds above 10",
        0..48,
        |i| faulty_order(3, i),
    )?;
    group(
        rt,
        "refused 4, registers above 15",
        48..256,
        |i| faulty_order(4, i),
    )?;
    group(
        rt,
        "refused 5, fourth words",
        256..448,
        |i| faulty_order(5, i),
    )?;
    group(
        rt,
        "refused 5, tables that break their rules",
        0..160,
        bad_table,
    )
}

// Lists, places and shares that are turned down.
fn refused_places(rt: &impl Print) -> io::Result<()> {
    group(rt, "refused 6, lists one word short", 0..8, |i| short(6, i))?;
    group(
        rt,
        "refused 7, deals one word short",
        8..12,
        |i| short(7, i),
    )?;
    group(
        rt,
        "refused 8, places that are no product or refresh",
        0..16,
        |i| at_place(8, i),
    )?;
    group(
        rt,
        "refused 9, hearing at the end",
        16..20,
        |i| at_place(9, i),
    )?;
    group(
        rt,
        "refused 10, shares that disagree in L1, in L2 or in m",
        0..5,
        is_opened,
    )?;
    group(
        rt,
        "refused 18, stored places unequal to the walk's",
        0..24,
        unequal,
    )
}

fn main(rt: HostRuntime) -> io::Result<()> {
    single_values(&rt)?;
    kinds(&rt)?;
    curves(&rt)?;
    refused_jobs(&rt)?;
    refused_places(&rt)
}
