// Runs what the reference program runs, and prints the same: docs/DRAWN.md.
#![tactic(auto)]

use crate::readings::{SAMPLES, maps, reading, spoilt};
use crate::seasons::{Long, season};
use crate::text::{START, sum_of};

mod plan;
mod readings;
mod seasons;
mod text;

fn archive_lines(rt: &HostRuntime) -> anyhow::Result<()> {
    let heap = rt.alloc();
    let mut sum = START;
    for i in 0..3000 {
        let mut text = String::new(heap);
        reading(heap, &mut text, i)?;
        if i < 300 {
            print!(rt; "{text}")?;
        } else {
            sum = sum_of(sum, text.as_str());
        }
    }
    println!(rt; "z {sum:016x}")?;
    let mut text = String::new(heap);
    for line in &SAMPLES {
        spoilt(heap, &mut text, line)?;
    }
    maps(heap, &mut text, 40)?;
    maps(heap, &mut text, 10)?;
    print!(rt; "{text}")?;
    Ok(())
}

fn seasons_run(rt: &HostRuntime) -> anyhow::Result<()> {
    let heap = rt.alloc();
    for s in 0..2400 {
        let mut text = String::new(heap);
        season(&mut text, s)?;
        if s < 200 {
            print!(rt; "{text}")?;
        } else {
            let sum = sum_of(START, text.as_str());
            println!(rt; "k {s} {sum:016x}")?;
        }
    }
    Ok(())
}

fn long_season(rt: &HostRuntime) -> anyhow::Result<()> {
    let heap = rt.alloc();
    let mut long = Long::new()?;
    let mut sum = START;
    let mut last = String::new(heap);
    for i in 0..=100_000 {
        last.clear();
        long.put(&mut last, i)?;
        sum = sum_of(sum, last.as_str());
    }
    let mut report = String::new(heap);
    long.report(&mut report)?;
    sum = sum_of(sum, report.as_str());
    println!(rt; "k 2400 {sum:016x}")?;
    print!(rt; "{report}{last}")?;
    Ok(())
}

fn run(rt: &HostRuntime) -> anyhow::Result<()> {
    archive_lines(rt)?;
    seasons_run(rt)?;
    long_season(rt)
}

fn main(rt: HostRuntime) -> anyhow::Result<()> {
    run(&rt)
}
