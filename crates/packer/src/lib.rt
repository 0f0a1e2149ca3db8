// The packer, over any kind of container.
#![tactic(auto)]

ghost use Rattle.std.specs.Prelude.{◌≡◌, ◌+◌, ◌^◌, ◌<◌, ◌≤◌, List, [], ◌∷◌, ◌++◌, length, Some, IfOk, IfErr, Err};
ghost use Rattle.ledger.specs.Bounded.{Within, Bounded};
ghost use Rattle.ledger.specs.Rules.{Call, a_put, a_report, Ran, new_ledger, floor_of, put_answer, put_ledger, open_in, taking, open_cost, place_line, closing_lines, places_by, closings_by};
ghost use Rattle.ledger.specs.Rules.{report as told_by};
ghost use Rattle.ledger.specs.Season.{Season, LeastFloor, CapIdle, standing_cost};
ghost use Rattle.packer.specs.Shown.{free, Gained};

pub mod lines;

use archive::line::{ClosingLine, PlaceLine};
use kinds::Kind;
use kinds::piece::Piece;
use ledger::{Bank, Ledger, Placing, Report, Slot};
use lines::Lines;
use refusals::{PieceRefusal, PutRefusal};

// A packer over a kind. Its numbers stay in range whatever is put: that is part of its type.
#[derive(Drop)]
pub struct Packer<K> {
    kind: K,
    ledger: Ledger,
    ghost bounded: { Bounded ledger },
}

// What a kind tells of a piece that it admits, in the ranges that its laws give.
#[derive(Clone, Copy)]
struct Admission {
    class: u8,
    load: u32,
    weight: u64,
    ghost some_class: { 1 ≤ class },
    ghost few_classes: { class ≤ 104 },
    ghost most_load: { load ≤ 1000000 },
    ghost most_weight: { weight ≤ 2 ^ 44 },
}

// All that a put of an admitted piece brings.
#[derive(Clone, Copy)]
struct Turn {
    placing: Placing,
    slot: Slot,
    opened: u32,
    used: u64,
    weight: u64,
}

fn new_ledger() -> Ledger
    ensures { result ≡ new_ledger }
{
    let bank = Bank::new();
    Ledger {
        bank,
        accepted: 0,
        opened: 0,
        used: 0,
        weight: 0,
    }
}

fn place_line(piece: &Piece, placing: &Placing) -> PlaceLine
    ensures { result ≡ place_line piece.now placing.now }
{
    PlaceLine {
        number: piece.number,
        first: piece.first,
        second: piece.second,
        finish: piece.finish,
        container: placing.container,
        class: placing.class,
    }
}

// Adds the closing lines of an answer.
fn add_closings(closings: &mut Lines<'_, ClosingLine>, placing: &Placing)
    requires { length (closing_lines placing.now) ≤ free closings.old }
    ensures { Gained closings.old closings.new (closing_lines placing.now) }
{
    closings.write_some(placing.before);
    closings.write_some(placing.after);
}

impl<K: Kind> Packer<K> {
    ghost use Rattle.packer.specs.Steps.{AdmitsAs, turn_of, entered, Accepts};

    // A packer with nothing open.
    pub fn new(kind: K) -> Packer<K>
        ensures made { result.ledger ≡ new_ledger }
        ensures kind { result.kind ≡ kind }
        ensures ran { Ran (K.meaning result.kind) [] result.ledger }
    {
        let ledger = new_ledger();
        Packer { kind, ledger }
    }

    // What the kind tells of the piece, or why it does not admit it.
    fn admission(&self, piece: &Piece) -> Result<Admission, PieceRefusal>
        ensures admitted { IfOk result (AdmitsAs (K.meaning self.now.kind) piece.now) }
        ensures refused { IfErr result (λ r. (K.meaning self.now.kind).refusal piece.now ≡ Some r) }
    {
        // the kind's word is why not, and no Result: `Kind::refusal` has the reason
        if let Some(refusal) = self.kind.refusal(piece) {
            return Err(refusal);
        }
        let class = self.kind.class(piece);
        let load = self.kind.load(piece);
        let weight = self.kind.weight(piece);
        Ok(Admission {
            class,
            load,
            weight,
        })
    }

    // What a container of any class costs, of none too.
    #[tactic(auto, using(crate::proofs::Sums::any_cost))]
    fn cost(&self, class: u8) -> u64
        ensures value { result ≡ (K.meaning self.now.kind).cost class }
        ensures high { result ≤ 2 ^ 44 }
    {
        self.kind.cost(class)
    }

    // The least number whose product with the ceiling is at least the weight. Not by `div_ceil`, whose
    // test of the remainder made a put of bars a tenth longer.
    fn floor(&self, weight: u64) -> u64
        requires { weight ≤ 2 ^ 62 }
        ensures { result ≡ floor_of (K.meaning self.now.kind).ceiling weight }
    {
        let ceiling = self.kind.ceiling();
        (weight + (ceiling - 1)) / ceiling
    }

    // What stands open in a class.
    fn open_in(&self, class: u8) -> Slot
        requires class { (1 ≤ class) × (class ≤ 104) }
        ensures value { result ≡ open_in self.now.ledger class }
        ensures within { Within self.now.ledger result }
    {
        self.ledger.bank.at(class)
    }

    // The container that takes the piece, before it does. A new one has its number already and count 0, as
    // in the rules, so an Option would be no plainer.
    fn taking(&self, piece: &Piece, told: &Admission) -> Slot
        requires few { self.now.ledger.accepted < 100000 }
        requires told { AdmitsAs (K.meaning self.now.kind) piece.now told.now }
        ensures value { result ≡ taking (K.meaning self.now.kind) self.now.ledger piece.now }
        ensures within { Within self.now.ledger result }
        ensures level { result.level + told.now.load ≤ 1000000 }
    {
        let found = self.open_in(told.class);
        if found.count != 0
            && found.level + told.load <= 1_000_000
            && self.kind.fits(told.class, found.count, found.level, piece)
        {
            found
        } else {
            Slot {
                container: self.ledger.opened + 1,
                ..Slot::default()
            }
        }
    }

    // All that a put of the piece brings, where the lists have room for it.
    fn turn(&self, piece: &Piece, told: &Admission) -> Turn
        requires few { self.now.ledger.accepted < 100000 }
        requires told { AdmitsAs (K.meaning self.now.kind) piece.now told.now }
        ensures { result ≡ turn_of (K.meaning self.now.kind) self.now.ledger piece.now }
    {
        let found = self.open_in(told.class);
        let taking = self.taking(piece, told);
        let taken = Slot {
            container: taking.container,
            count: taking.count + 1,
            level: taking.level + told.load,
            weight: taking.weight + told.weight,
        };
        let goes = taking.count != 0;
        let full = self.kind.full(told.class, taken.count, taken.level);
        let (opened, used) = if goes {
            (self.ledger.opened, self.ledger.used)
        } else {
            (
                self.ledger.opened + 1,
                self.ledger.used + self.cost(told.class),
            )
        };
        let weight = self.ledger.weight + told.weight;
        let closes = found.count != 0 && !goes;
        let floor = self.floor(weight);
        let closing = |slot: &Slot| ClosingLine {
            container: slot.container,
            class: told.class,
            pieces: slot.count,
            level: slot.level,
            weight: slot.weight,
            used,
            floor,
        };
        Turn {
            placing: Placing {
                container: taking.container,
                class: told.class,
                before: closes.then(|| closing(&found)),
                after: full.then(|| closing(&taken)),
            },
            slot: if full { Slot::default() } else { taken },
            opened,
            used,
            weight,
        }
    }

    // The turn that the piece brings, or why it is refused. `places` and `closings` are how many lines
    // are unwritten.
    fn plan(&self, piece: &Piece, places: usize, closings: usize) -> Result<Turn, PutRefusal>
        ensures accepted { IfOk result (Accepts (K.meaning self.now.kind) self.now.ledger piece.now places closings) }
        ensures refused { IfErr result (λ r. put_answer (K.meaning self.now.kind) self.now.ledger piece.now places closings ≡ Err r) }
    {
        if piece.number == 0 {
            return Err(PutRefusal::NoNumber);
        }
        // A full season asks no more of the kind than why not, since the rest would be for nothing.
        if self.ledger.accepted >= 100_000 {
            return Err(match self.kind.refusal(piece) {
                Some(refusal) => refusal.into(),
                None => PutRefusal::SeasonFull,
            });
        }
        let told = self.admission(piece)?;
        let turn = self.turn(piece, &told);
        let closes = usize::from(turn.placing.before.is_some())
            + usize::from(turn.placing.after.is_some());
        if places == 0 || closings < closes {
            return Err(PutRefusal::ListFull);
        }
        Ok(turn)
    }

    // Enters the turn.
    fn enter(&mut self, turn: &Turn)
        requires class { (1 ≤ turn.now.placing.class) × (turn.now.placing.class ≤ 104) }
        requires bounded { Bounded (entered self.old.ledger turn.now) }
        ensures ledger { self.new.ledger ≡ entered self.old.ledger turn.now }
        ensures kind { self.new.kind ≡ self.old.kind }
    {
        let ledger = &mut self.ledger;
        ledger.bank.replace(turn.placing.class, turn.slot);
        ledger.accepted += 1;
        ledger.opened = turn.opened;
        ledger.used = turn.used;
        ledger.weight = turn.weight;
    }

    // One put: its answer, what it leaves, and the lines that it adds.
    #[tactic(auto, using(ledger::proofs::Seasons::capped))]
    pub fn put(
        &mut self,
        piece: Piece,
        places: &mut Lines<'_, PlaceLine>,
        closings: &mut Lines<'_, ClosingLine>,
    ) -> Result<Placing, PutRefusal>
        ensures answer { result ≡ put_answer (K.meaning self.old.kind) self.old.ledger piece (free places.old) (free closings.old) }
        ensures ledger { self.new.ledger ≡ put_ledger (K.meaning self.old.kind) self.old.ledger piece (free places.old) (free closings.old) }
        ensures kind { self.new.kind ≡ self.old.kind }
        ensures places { Gained places.old places.new (places_by piece result) }
        ensures closings { Gained closings.old closings.new (closings_by result) }
        ensures ran { (h : List Call) → Ran (K.meaning self.old.kind) h self.old.ledger → Ran (K.meaning self.new.kind) (h ++ (a_put piece result ∷ [])) self.new.ledger }
        ensures cap { (h : List Call) → Ran (K.meaning self.old.kind) h self.old.ledger → CapIdle (K.meaning self.old.kind) self.old.ledger piece }
    {
        let turn = self.plan(&piece, places.room(), closings.room())?;
        self.enter(&turn);
        places.write(place_line(&piece, &turn.placing));
        add_closings(closings, &turn.placing);
        Ok(turn.placing)
    }

    // What one open container in every class would cost, at standing costs. Over `1..=n` the proof of the
    // sum did not close.
    pub fn standing_cost(&self) -> u64
        ensures { result ≡ standing_cost (K.meaning self.now.kind) }
    {
        let last = self.kind.classes();
        (1..last + 1).map(|class| self.kind.standing(class)).sum()
    }

    // What the containers now open cost. The kind's own classes are enough: none past them has a cost. A
    // loop, since chains over them took up to twice the instructions where these are many.
    fn open_cost(&self) -> u64
        ensures { result ≡ open_cost (K.meaning self.now.kind) self.now.ledger }
    {
        let mut sum: u64 = 0;
        for i in 0..self.kind.classes() {
            if self.ledger.bank.at(i + 1).count != 0 {
                sum += self.cost(i + 1);
            }
        }
        sum
    }

    // What the season came to so far. `season` is the promise: whatever calls led here, the accepted
    // pieces by answered container are an allowed packing that costs what is reported, no allowed
    // packing of them costs less than the floor, and the used cost is not far above it.
    pub fn report(&self) -> Report
        ensures floor { LeastFloor (K.meaning self.now.kind) result }
        ensures told { result ≡ told_by (K.meaning self.now.kind) self.now.ledger }
        ensures ran { (h : List Call) → Ran (K.meaning self.now.kind) h self.now.ledger → Ran (K.meaning self.now.kind) (h ++ (a_report result ∷ [])) self.now.ledger }
        ensures season { (h : List Call) → Ran (K.meaning self.now.kind) h self.now.ledger → Season (K.meaning self.now.kind) h result }
    {
        Report {
            accepted: self.ledger.accepted,
            opened: self.ledger.opened,
            used: self.ledger.used,
            unclosed: self.open_cost(),
            weight: self.ledger.weight,
            floor: self.floor(self.ledger.weight),
        }
    }
}
