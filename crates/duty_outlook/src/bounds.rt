// An outlook of a driver, and what it says of a label.
ghost use Rattle.std.specs.Prelude.{◌≡◌, ℕ, ◌+◌, ◌*◌, ◌<◌, ◌≤◌, ◌-ℤ◌, ◌≤ℤ◌, pos, length, IfOk, IsTrue, if◌then◌else◌};
ghost use Rattle.week_book.specs.Weeks.{IsWeek};
ghost use Rattle.duty_plan.specs.declared.plans.Case.{Case};
ghost use Rattle.duty_plan.specs.declared.deciding.Pairs.{Pairs};
ghost use Rattle.duty_plan.specs.declared.pricing.Prices.{Prices};
ghost use Rattle.duty_plan.specs.PartialDuties.{PartialDuty};
ghost use Rattle.duty_plan.specs.Duties.{IsCase};
ghost use Rattle.duty_plan.specs.Labels.{IsLabelOf};
ghost use Rattle.duty_plan.specs.Values.{IsPairs, IsPrices};
ghost use Rattle.duty_outlook.specs.Covering.{AreDone, is_barred_for};
ghost use Rattle.duty_outlook.specs.Laws.{HasNoBelow, IsGain, IsNoSooner, IsOutlookOf};

use crate::layouts::make_layout;
use crate::levels::unit_for;
use crate::outlooks::{LIMIT, NOTHING, Outlook, scale_of};
use crate::services::with_order;
use crate::spots::{Entry, Spot};
use duty_plan::{Case, Label, Pair, Pairs, Prices};
use minute_line::{Memory, WEEK_MINUTES};
use std::alloc::Global;
use week_book::Week;

/// Whether an order is Barred for a driver.
fn is_barred(week: &Week, pairs: &Pairs, driver: u32, order: u32) -> bool
    requires week { IsWeek week.now }
    requires pairs { IsPairs week.now pairs.now }
    requires driver { driver < length week.now.drivers }
    requires order { order < length week.now.orders }
    ensures { IsTrue result → IsTrue (is_barred_for week.now pairs.now driver order) }
{
    matches!(
        pairs.cells.get((driver * pairs.orders + order) as usize),
        Some(Pair::Barred)
    )
}

/// The orders that are Barred for a driver; order n is the bit n.
fn barred_orders(week: &Week, pairs: &Pairs, driver: u32) -> u128
    requires week { IsWeek week.now }
    requires pairs { IsPairs week.now pairs.now }
    requires driver { driver < length week.now.drivers }
    ensures { AreDone result (is_barred_for week.now pairs.now driver) }
{
    let mut barred = 0;
    for order in 0..pairs.orders {
        if is_barred(week, pairs, driver, order) {
            barred = with_order(barred, order);
        }
    }
    barred
}

/// Room for an outlook of so many entries on the drivers of any week.
pub fn make_outlook(alloc: Global, entries: u32) -> Result<Outlook, Memory> {
    let blank = Entry {
        spot: Spot {
            place: 0,
            minute: WEEK_MINUTES + 1,
            orders: 0,
        },
        numbers: [0; 32],
    };
    Ok(Outlook {
        scale: scale_of(0, 1),
        barred: 0,
        layout: make_layout(alloc)?,
        entries: vec![in alloc; blank; entries as usize]?,
    })
}

/// The cents that a number stands for.
fn cents_of(number: u64) -> i64
    requires { number ≤ 4000000000000 }
    ensures { result ≡ pos number -ℤ pos 2000000000000 }
{
    number as i64 - NOTHING as i64
}

/// Whether a value less a gain is no less than a number.
fn is_at_least(value: i64, gain: i64, number: i64) -> bool
    ensures { IsTrue result → number ≤ℤ (value -ℤ gain) }
{
    let least = value.saturating_sub(gain);
    least > i64::MIN && least >= number
}

impl Outlook {
    /// Fills the outlook for a driver at these pairs and prices. It takes no memory.
    pub fn fill(&mut self, case: &Case, driver: u32, pairs: &Pairs, prices: &Prices)
        requires case { IsCase case.now }
        requires driver { driver < length case.now.week.drivers }
        requires pairs { IsPairs case.now.week pairs.now }
        requires prices { IsPrices case.now.week prices.now }
        ensures { IsOutlookOf case.now driver pairs.now prices.now self.new }
    {
        let lorry = &case.week.drivers.as_slice()[driver as usize];
        self.scale = scale_of(lorry.capacity, unit_for(&case.week, lorry.capacity));
        self.barred = barred_orders(&case.week, pairs, driver);
        let slots = self.entries.len();
        self.layout.plan(&case.week, prices, self.barred, slots);
        self.clear();
        self.fill_all(&case.week, prices);
    }

    /// The level of a lorry's load, where so many kg were served since the last load act.
    fn level(&self, load: u32) -> usize
        ensures low { result * self.now.scale.unit ≤ load }
        ensures few { result < 32 }
    {
        (load / self.scale.unit).min(31) as usize
    }

    /// The kg that count as served since the last load act: before any load act more than the lorry carries.
    fn load(&self, label: &Label) -> u32
        ensures { result ≡ (if label.now.loaded then label.now.used else self.now.scale.capacity + 1) }
    {
        if label.loaded {
            label.used
        } else {
            self.scale.capacity + 1
        }
    }

    /// What the steps that may follow a label save at most, in cents: no lawful duty inside the pairs that begins with the
    /// label's steps has a value below the label's less this; nor has one that begins with steps that end there no sooner,
    /// from their own value.
    pub fn gain(&self, label: &Label) -> i64
        ensures gain { (case : Case) (driver : ℕ) (pairs : Pairs) (prices : Prices) (partial : PartialDuty) →
            IsOutlookOf case driver pairs prices self.now → IsLabelOf case driver prices label.now partial →
            IsGain case driver pairs prices partial result }
        ensures later { (case : Case) (driver : ℕ) (pairs : Pairs) (prices : Prices) (partial later : PartialDuty) →
            IsOutlookOf case driver pairs prices self.now → IsLabelOf case driver prices label.now partial →
            IsNoSooner case driver prices partial later → IsGain case driver pairs prices later result }
    {
        let spot = Spot {
            place: label.place,
            minute: label.clock.at,
            orders: label.served | self.barred,
        };
        let level = self.level(self.load(label));
        cents_of(self.number_at(spot, level).min(LIMIT))
    }

    /// Whether no lawful duty inside the pairs that begins with the label's steps, or with steps that end there no sooner, has a
    /// value below one that is known.
    pub fn is_hopeless(&self, label: &Label, known: i64) -> bool
        ensures hopeless { IsTrue result →
            (case : Case) (driver : ℕ) (pairs : Pairs) (prices : Prices) (partial : PartialDuty) →
            IsOutlookOf case driver pairs prices self.now → IsLabelOf case driver prices label.now partial →
            HasNoBelow case driver pairs prices partial known }
        ensures later { IsTrue result →
            (case : Case) (driver : ℕ) (pairs : Pairs) (prices : Prices) (partial later : PartialDuty) →
            IsOutlookOf case driver pairs prices self.now → IsLabelOf case driver prices label.now partial →
            IsNoSooner case driver prices partial later → HasNoBelow case driver pairs prices later known }
    {
        is_at_least(label.value, self.gain(label), known)
    }
}
