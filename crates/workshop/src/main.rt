// The first program: what each kind of container tells of some pieces, and what that means.
#![tactic(auto)]

use crate::lines::archive_lines;
use crate::season::{finished_bars, show_season};
use kinds::Kind;
use kinds::bars::Bars;
use kinds::piece::Piece;
use kinds::strips::Strips;
use kinds::totes::Totes;
use refusals::{MakeRefusal, Refusal};
use std::fmt::Display;
use std::io;

mod lines;
mod season;

fn piece(number: u32, first: u32, second: u32, finish: u8) -> Piece {
    Piece {
        number,
        first,
        second,
        finish,
    }
}

// What prints takes the runtime beside what it shows, as `println!` does: a struct of the two would be
// no plainer, as it would be made for one call.

// The figures of a kind, and how far apart any plan and ours can lie.
fn show_kind<K: Kind>(rt: &impl Print, title: &str, kind: &K) -> io::Result<()> {
    let code = K::CODE;
    let classes = kind.classes();
    let unit = kind.unit();
    let ceiling = kind.ceiling();
    println!(rt; "{title}: kind code {code}, {classes} classes")?;
    println!(rt; "  A container that closes weighs at least {unit} for each unit of its cost,")?;
    println!(rt; "  and none in any plan weighs more than {ceiling}.")
}

fn show_refusal<R: Refusal + Display>(rt: &impl Print, refusal: &R) -> io::Result<()> {
    let number = refusal.number();
    println!(rt; "refused with {number}, {refusal}.")
}

// All that a kind tells of one piece.
fn show_piece<K: Kind>(rt: &impl Print, kind: &K, piece: &Piece) -> io::Result<()> {
    let number = piece.number;
    let first = piece.first;
    let second = piece.second;
    print!(rt; "  piece {number}, {first} by {second}: ")?;
    match kind.refusal(piece) {
        Some(refusal) => show_refusal(rt, &refusal),
        None => show_admitted(rt, kind, piece),
    }
}

fn show_admitted<K: Kind>(rt: &impl Print, kind: &K, piece: &Piece) -> io::Result<()> {
    let class = kind.class(piece);
    let weight = kind.weight(piece);
    let load = kind.load(piece);
    let cost = kind.cost(class);
    println!(rt; "class {class}, weight {weight}, load {load}.")?;
    if kind.full(class, 1, load) {
        println!(rt; "    It fills a container of cost {cost} by itself.")
    } else if kind.fits(class, 1, load, piece) {
        println!(rt; "    It opens a container of cost {cost}, which takes another like it.")
    } else {
        println!(rt; "    It opens a container of cost {cost}, which waits for smaller ones.")
    }
}

// A kind under a title, and what it tells of some pieces; or why it was not made.
fn show<K: Kind + Drop>(
    rt: &impl Print,
    title: &str,
    made: Result<K, MakeRefusal>,
    pieces: &[Piece],
) -> io::Result<()> {
    match made {
        Ok(kind) => {
            show_kind(rt, title, &kind)?;
            for piece in pieces {
                show_piece(rt, &kind, piece)?;
            }
            Ok(())
        }
        Err(refusal) => {
            print!(rt; "  Not made: ")?;
            show_refusal(rt, &refusal)
        }
    }
}

fn kinds_shown(rt: &impl Print) -> io::Result<()> {
    show(
        rt,
        "Rails out of bars of 6000, three classes",
        Bars::new(6000, 3),
        &[
            piece(1, 3500, 0, 0),
            piece(2, 2400, 0, 0),
            piece(3, 1500, 0, 0),
            piece(4, 6001, 0, 0),
            piece(5, 2400, 0, 1),
        ],
    )?;
    show(
        rt,
        "Kit parts in totes of 10, two classes, three pieces at most",
        Totes::new(10, 2, 3),
        &[piece(6, 6, 0, 0), piece(7, 1, 0, 0), piece(8, 1, 5, 0)],
    )?;
    show(
        rt,
        "Shutter cloth out of strips of 10",
        Strips::new(10),
        &[
            piece(9, 5, 3, 0),
            piece(10, 6, 3, 0),
            piece(11, 5, 5, 0),
            piece(12, 5, 4097, 0),
        ],
    )?;
    show(
        rt,
        "The same bars, with a saw cut of 4 and two finishes",
        finished_bars(),
        &[
            piece(13, 2996, 0, 1),
            piece(14, 2997, 0, 1),
            piece(15, 2996, 0, 2),
            piece(16, 5997, 0, 0),
        ],
    )?;
    // measures that are out of range
    println!(rt; "Totes of 10 with thirteen classes")?;
    show(rt, "  Made", Totes::new(10, 13, 3), &[])
}

fn run(rt: &HostRuntime) -> anyhow::Result<()> {
    kinds_shown(rt)?;
    archive_lines(rt)?;
    show_season(rt)
}

fn main(rt: HostRuntime) -> anyhow::Result<()> {
    run(&rt)
}
