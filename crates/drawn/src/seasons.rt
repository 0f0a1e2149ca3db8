// Drawn seasons: every call with what it answered. As in a plan, choices are an `if` on a drawn number.
use crate::plan::{KindName, Layer, Plan};
use crate::readings::written;
use crate::text::{Bytes, Fields};
use archive::line::{ClosingLine, HeadingLine, Line, PlaceLine};
use draws::Generator;
use kinds::Kind;
use kinds::bars::Bars;
use kinds::piece::Piece;
use kinds::strips::Strips;
use kinds::totes::Totes;
use layers::allowance::Allowance;
use layers::finishes::Finishes;
use ledger::{Placing, Report};
use packer::Packer;
use packer::lines::Lines;
use refusals::{MakeRefusal, PutRefusal, Refusal};
use std::alloc::AllocError;

// How much room a list has, and how many lines are in it already.
#[derive(Clone, Copy)]
pub struct Size {
    room: u32,
    old: u32,
}

impl Size {
    // A list with that room, behind lines of zeros.
    fn list<'a, T: Copy + Default>(self, memory: &'a mut [T; 4]) -> Lines<'a, T> {
        let length = self.room.saturating_add(self.old).min(4);
        let mut lines = Lines::new(&mut memory[..length as usize]);
        for _ in 0..self.old {
            // more than the memory holds are left out
            let _ = lines.add(T::default());
        }
        lines
    }
}

fn answer_text(text: &mut String, answer: &Result<Placing, PutRefusal>) -> Result<(), AllocError> {
    match answer {
        Err(refusal) => writeln!(text, "r {}", refusal.number()),
        Ok(placing) => {
            writeln!(text, "p {} {}", placing.container, placing.class)?;
            if let Some(before) = placing.before {
                writeln!(text, "b{}", Fields(&before.into()))?;
            }
            if let Some(after) = placing.after {
                writeln!(text, "f{}", Fields(&after.into()))?;
            }
            Ok(())
        }
    }
}

// The lines behind those that were in the list before, each with its bytes.
fn gained_text<T: Copy + Into<Line>>(
    text: &mut String,
    letter: &str,
    lines: &Lines<T>,
    old: u32,
) -> anyhow::Result<()> {
    for line in lines.view().iter().skip(old as usize) {
        let line = (*line).into();
        let mut memory = [0; 64];
        writeln!(text, "{letter}{}", Fields(&line))?;
        writeln!(text, "{}", Bytes(written(&line, &mut memory)?))?;
    }
    Ok(())
}

fn put_text<K: Kind>(
    text: &mut String,
    packer: &mut Packer<K>,
    piece: Piece,
    place_size: Size,
    closing_size: Size,
) -> anyhow::Result<()> {
    let mut place_memory = [PlaceLine::default(); 4];
    let mut closing_memory = [ClosingLine::default(); 4];
    let mut places = place_size.list(&mut place_memory);
    let mut closings = closing_size.list(&mut closing_memory);
    answer_text(text, &packer.put(piece, &mut places, &mut closings))?;
    gained_text(text, "l", &places, place_size.old)?;
    gained_text(text, "c", &closings, closing_size.old)
}

fn report_text(text: &mut String, report: &Report) -> Result<(), AllocError> {
    let Report {
        accepted,
        opened,
        used,
        unclosed,
        weight,
        floor,
    } = report;
    writeln!(
        text,
        "e {accepted} {opened} {used} {unclosed} {weight} {floor}"
    )
}

impl Plan {
    // The heading but for the standing cost, which a packer tells.
    fn heading<K: Kind>(&self, pile: &K) -> anyhow::Result<HeadingLine> {
        let (k, limit) = match self.kind {
            KindName::Bars => (self.k, 0),
            KindName::Totes => (self.k, self.limit),
            KindName::Strips => (0, 0),
        };
        Ok(HeadingLine {
            code: K::CODE,
            capacity: self.capacity,
            k: u8::try_from(k)?,
            limit: u8::try_from(limit)?,
            allowance: self.allowances,
            finishes: self.finishes,
            unit: pile.unit(),
            ceiling: pile.ceiling(),
            standing: 0,
        })
    }
}

// What comes next of a pile that was made or refused. A pile is a type of its own.
trait Step {
    fn go<K: Kind + Drop>(self, made: Result<K, MakeRefusal>) -> anyhow::Result<()>;
}

// One layer, where there is one, and what comes next of the higher pile.
#[derive(Drop)]
struct Over<S> {
    layer: Option<Layer>,
    next: S,
}

impl<S: Step + Drop> Step for Over<S> {
    fn go<K: Kind + Drop>(self, made: Result<K, MakeRefusal>) -> anyhow::Result<()> {
        let Over { layer, next } = self;
        match layer {
            None => next.go(made),
            Some(Layer::Allowance(amount)) => {
                next.go(made.and_then(|pile| Allowance::new(amount as u32, pile)))
            }
            Some(Layer::Finishes(count)) => {
                next.go(made.and_then(|pile| Finishes::new(count as u32, pile)))
            }
        }
    }
}

// The calls of a season over the pile.
#[derive(Drop)]
struct Calls<'a> {
    text: &'a mut String,
    plan: &'a Plan,
    draw: &'a mut Generator,
}

impl Calls<'_> {
    fn over<K: Kind + Drop>(self, pile: K) -> anyhow::Result<()> {
        let Calls { text, plan, draw } = self;
        let classes = pile.classes();
        let mut heading = plan.heading(&pile)?;
        let mut packer = Packer::new(pile);
        heading.standing = u32::try_from(packer.standing_cost())?;
        let HeadingLine {
            code,
            unit,
            ceiling,
            standing,
            ..
        } = heading;
        let mut memory = [0; 64];
        writeln!(text, "h {code} {classes} {unit} {ceiling} {standing}")?;
        writeln!(text, "{}", Bytes(written(&heading.into(), &mut memory)?))?;
        let calls = draw.below(50) + 10;
        for _ in 0..calls {
            if draw.below(20) == 0 {
                report_text(text, &packer.report())?;
            } else {
                let piece = plan.drawn_piece(draw);
                let room = if draw.below(25) == 0 {
                    0
                } else {
                    draw.below(3) + 1
                };
                let places = Size {
                    room,
                    old: draw.below(2),
                };
                let room = if draw.below(6) == 0 {
                    draw.below(2)
                } else {
                    draw.below(2) + 2
                };
                let closings = Size {
                    room,
                    old: draw.below(2),
                };
                put_text(text, &mut packer, piece, places, closings)?;
            }
        }
        report_text(text, &packer.report())?;
        Ok(())
    }
}

impl Step for Calls<'_> {
    fn go<K: Kind + Drop>(self, made: Result<K, MakeRefusal>) -> anyhow::Result<()> {
        match made {
            Ok(pile) => self.over(pile),
            Err(refusal) => {
                writeln!(self.text, "x {}", refusal.number())?;
                Ok(())
            }
        }
    }
}

// Season number s.
pub(crate) fn season(text: &mut String, s: u32) -> anyhow::Result<()> {
    let mut draw = Generator::seeded(s as u64);
    let plan = Plan::drawn(s, &mut draw);
    writeln!(text, "s {s}")?;
    let [first, second, third] = plan.layers;
    let calls = Calls {
        text,
        plan: &plan,
        draw: &mut draw,
    };
    let step = Over {
        layer: first,
        next: Over {
            layer: second,
            next: Over {
                layer: third,
                next: calls,
            },
        },
    };
    match plan.kind {
        KindName::Bars => step.go(Bars::new(plan.capacity, plan.k)),
        KindName::Totes => step.go(Totes::new(plan.capacity, plan.k, plan.limit)),
        KindName::Strips => step.go(Strips::new(plan.capacity)),
    }
}

// The season of 100,000 pieces, and one that is refused.
#[derive(Drop)]
pub struct Long {
    packer: Packer<Bars>,
    draw: Generator,
}

impl Long {
    pub(crate) fn new() -> Result<Long, MakeRefusal> {
        let bars = Bars::new(1_000, 12)?;
        Ok(Long {
            packer: Packer::new(bars),
            draw: Generator::seeded(2_400),
        })
    }

    // Put number i.
    pub(crate) fn put(&mut self, text: &mut String, i: u32) -> anyhow::Result<()> {
        let piece = Piece {
            number: i % 1_000 + 1,
            first: self.draw.below(1_000) + 1,
            second: 0,
            finish: 0,
        };
        put_text(
            text,
            &mut self.packer,
            piece,
            Size { room: 1, old: 0 },
            Size { room: 2, old: 0 },
        )
    }

    pub(crate) fn report(&self, text: &mut String) -> Result<(), AllocError> {
        report_text(text, &self.packer.report())
    }
}
