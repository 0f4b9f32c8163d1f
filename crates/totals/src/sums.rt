// What the line of an item shows, and the totals of such lines (document 02, request (l)).

ghost use Rattle.std.specs.Prelude.{◌≡◌, ◌+◌, ◌^◌, ◌<◌};
ghost use Rattle.totals.specs.Totals.{both, totals_of_line};

use std::ops::AddAssign;
use training_file::item::Label;

// What the line of an item shows. Nothing compares or prints one but as that line.
#[derive(Clone, Copy)]
pub struct Shown {
    pub number: u16,
    pub label: Label,
    pub multiplier: u32,
}

// How many multipliers are above 0, and the sums of the multipliers over label +1 and over label -1; by default those of no lines.
#[derive(Clone, Copy, Default)]
pub struct Totals {
    pub count: u64,
    pub plus: u64,
    pub minus: u64,
}

// The totals of one line.
impl From<Shown> for Totals {
    ghost from_gives = { λ shown totals. totals ≡ totals_of_line shown };

    fn from(shown: Shown) -> Totals {
        let count = u64::from(0 < shown.multiplier);
        let multiplier = u64::from(shown.multiplier);
        match shown.label {
            Label::LookedUp => Totals {
                count,
                plus: multiplier,
                minus: 0,
            },
            Label::PassedOver => Totals {
                count,
                plus: 0,
                minus: multiplier,
            },
        }
    }
}

// The totals of the lines of both.
impl AddAssign for Totals {
    ghost can_add_assign = { λ some more.
        (some.count + more.count < 2 ^ 64) × (some.plus + more.plus < 2 ^ 64) × (some.minus + more.minus < 2 ^ 64) };

    ghost add_assign_gives = { λ some more sum. sum ≡ both some more };

    fn add_assign(&mut self, more: Totals) {
        self.count += more.count;
        self.plus += more.plus;
        self.minus += more.minus;
    }
}
