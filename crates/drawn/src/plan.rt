// The measures and layers drawn for one season, before anything is made of them. What is drawn is a
// number, so its choices are a match or an `if` on it: closures in a table would be no plainer.
use draws::Generator;
use kinds::piece::Piece;

#[derive(Clone, Copy, PartialEq, Eq, Debug)]
pub enum KindName {
    Bars,
    Totes,
    Strips,
}

#[derive(Clone, Copy)]
pub enum Layer {
    Allowance(u16),
    Finishes(u8),
}

#[derive(Clone, Copy)]
pub struct Plan {
    pub kind: KindName,
    pub capacity: u32,
    pub k: u32,
    pub limit: u32,
    // from the bottom up; an array, since each height of a pile is a type and so there are three, and a
    // Vec would be no plainer
    pub layers: [Option<Layer>; 3],
    // the sum of the allowances
    pub allowances: u16,
    // the topmost finishes, and 1 where there are none, as the heading line has them
    pub finishes: u8,
}

// One of four values.
fn one_of<T: Copy>(draw: &mut Generator, values: &[T; 4]) -> T {
    values[draw.below(4) as usize]
}

fn drawn_capacity(draw: &mut Generator) -> u32 {
    match draw.below(6) {
        0 => draw.below(20) + 1,
        1 => 12,
        2 => 1_000_000,
        3 => draw.below(1_000_000) + 1,
        _ => draw.below(1_000) + 50,
    }
}

impl Layer {
    fn drawn(draw: &mut Generator) -> Layer {
        if draw.below(2) == 0 {
            if draw.below(8) == 0 {
                Layer::Allowance(draw.below(3) as u16 + 999)
            } else {
                Layer::Allowance(draw.below(6) as u16)
            }
        } else {
            let count = draw.below(6) as u8;
            Layer::Finishes(count + u8::from(draw.below(3) != 0))
        }
    }
}

impl Plan {
    pub(crate) fn drawn(s: u32, draw: &mut Generator) -> Plan {
        let capacity = drawn_capacity(draw);
        let k = s / 3 % 11 + 2;
        let limit = k + draw.below(51 - k as u64);
        let mut plan = Plan {
            kind: match s % 3 {
                0 => KindName::Bars,
                1 => KindName::Totes,
                _ => KindName::Strips,
            },
            capacity,
            k,
            limit,
            layers: [None; 3],
            allowances: 0,
            finishes: 1,
        };
        plan.spoil(draw.below(80));
        plan.draw_layers(draw);
        plan
    }

    // What is drawn is a number, and each names another field and value: a table would hold closures.
    fn spoil(&mut self, how: u32) {
        match how {
            0 => self.capacity = 0,
            1 => self.capacity = 1_000_001,
            2 => self.capacity = u32::MAX,
            3 => self.k = 1,
            4 => self.k = 13,
            5 => self.k = 300,
            6 => self.limit = self.k.saturating_sub(1),
            7 => self.limit = 51,
            8 => self.limit = 300,
            _ => {}
        }
    }

    fn draw_layers(&mut self, draw: &mut Generator) {
        let height = draw.below(4) as usize;
        for place in self.layers.iter_mut().take(height) {
            let layer = Layer::drawn(draw);
            match layer {
                Layer::Allowance(amount) => self.allowances = self
                    .allowances
                    .saturating_add(amount),
                Layer::Finishes(count) => self.finishes = count,
            }
            *place = Some(layer);
        }
    }

    pub(crate) fn drawn_piece(&self, draw: &mut Generator) -> Piece {
        let number = if draw.below(30) == 0 {
            0
        } else {
            draw.below(1_000) + 1
        };
        let first = self.drawn_first(draw);
        let second = self.drawn_second(draw);
        let finish = self.drawn_finish(draw);
        Piece {
            number,
            first,
            second,
            finish,
        }
    }

    fn drawn_first(&self, draw: &mut Generator) -> u32 {
        match draw.below(12) {
            0 => draw.below(self.capacity as u64 + 2),
            1 => self.capacity.saturating_add(1),
            2 => one_of(draw, &[0, 1_000_000, 1_000_001, u32::MAX]),
            _ => {
                let j = draw.below(self.k as u64 + 1) + 1;
                let near = (self.capacity / j).saturating_add(draw.below(4));
                let first = near.saturating_sub(2);
                let less = draw.below(2) == 1;
                let allowances = self.allowances as u32;
                if less && first > allowances {
                    first - allowances
                } else {
                    first
                }
            }
        }
    }

    fn drawn_second(&self, draw: &mut Generator) -> u32 {
        if self.kind != KindName::Strips {
            return u32::from(draw.below(30) == 0);
        }
        match draw.below(10) {
            0 => draw.below(5_000),
            1 => one_of(draw, &[0, 4_096, 4_097, u32::MAX]),
            _ => {
                let most = if draw.below(3) == 0 { 13 } else { 3 };
                let power = 1u32 << draw.below(most);
                power - 1 + draw.below(3)
            }
        }
    }

    fn drawn_finish(&self, draw: &mut Generator) -> u8 {
        if draw.below(20) == 0 {
            one_of(draw, &[255, 4, 1, 2])
        } else {
            draw.below(self.finishes.max(1) as u64) as u8
        }
    }
}
