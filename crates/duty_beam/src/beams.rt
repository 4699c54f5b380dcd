// The search for a good duty, with wider and wider beams.
ghost use Rattle.std.specs.Prelude.{◌≡◌, ◌<◌, [], IfSome, IfNone, length};
ghost use Rattle.duty_plan.specs.Duties.{IsCase};
ghost use Rattle.duty_plan.specs.Values.{IsPairs, IsPrices};
ghost use Rattle.duty_beam.specs.Asking.{IsAsked};

use crate::asking::Asked;
use crate::confirming::value_of;
use crate::nodes::make_nodes;
use crate::searches::Search;
use duty_label::{Walks, first};
use duty_outlook::Outlook;
use duty_plan::{Case, Pairs, Prices, Step};
use minute_line::{Memory, WEEK_MINUTES};
use std::alloc::Global;

/// The width of the first beam.
const NARROWEST: u32 = 4;

/// The parts of what can be hoped for that the first beam is content to miss, one after another.
const TARGETS: [i64; 3] = [8, 4, 2];

/// The widths of the beams, each of which begins with the value that was found before.
const WIDTHS: [u32; 3] = [NARROWEST, 16, 64];

/// A value that is larger than that of any duty, in cents.
const NOTHING_KNOWN: i64 = 1_000_000_000_000;

/// The most steps of a duty: each act takes a minute at least.
const MOST_STEPS: usize = WEEK_MINUTES as usize;

/// A search for good duties, and the steps of the last one.
#[derive(Drop)]
pub struct Beam {
    pub(crate) search: Search,
    pub(crate) steps: Vec<Step>,
}

/// Room for the search of any driver's duty.
pub fn make_beam(alloc: Global) -> Result<Beam, Memory> {
    Ok(Beam {
        search: Search {
            nodes: make_nodes(alloc)?,
            width: 0,
            forced: 0,
            known: 0,
            best: None,
        },
        steps: Vec::with_capacity(alloc, MOST_STEPS)?,
    })
}

impl Beam {
    ghost use Rattle.duty_beam.specs.Finding.{IsDutyOf, steps_of};

    /// The steps of the duty that was found last, from the first on; none where the last search found no duty.
    pub fn steps(&self) -> &[Step]
        ensures { result.now ≡ steps_of self.now }
    {
        self.steps.as_slice()
    }

    /// Adds a step, where there is room for one.
    fn push(&mut self, step: Step) {
        if self.steps.len() < self.steps.capacity() {
            self.steps.push_reserved(step);
        }
    }

    /// Writes the steps of a node and one more, from the first on.
    fn trace(&mut self, node: u32, last: Step) {
        self.steps.clear();
        self.push(last);
        let mut number = node;
        for _ in 0..MOST_STEPS {
            let Some(node) = self.search.nodes.get(number) else {
                break;
            };
            if number == 0 {
                break;
            }
            self.push(node.step);
            number = node.parent;
        }
        self.steps.reverse();
    }

    /// Seeks a duty whose value is below a target, with a beam of a width, and writes its steps. Whether one was found.
    fn run(&mut self, asked: &Asked, width: u32, target: i64) -> bool
        requires { IsAsked asked.now }
    {
        if self.search.run(asked, width, target)
            && let Some((node, step)) = self.search.best
        {
            self.trace(node, step);
            return true;
        }
        false
    }

    /// Seeks a first duty: one that is nearly as good as can be hoped for at first, since a far target leaves less to be tried.
    fn begin(&mut self, asked: &Asked, least: i64)
        requires { IsAsked asked.now }
    {
        for part in TARGETS {
            let span = least.saturating_neg().max(0);
            let target = least.saturating_add(span / part).min(self.search.known);
            if self.run(asked, NARROWEST, target) {
                return;
            }
        }
    }

    /// Seeks a good duty of a driver at these pairs and prices, with beams of 4, 16 and 64 as far as they are no wider than asked.
    ///
    /// The value of the duty, its cost less the prices of its orders in cents, where one was found, else no steps are left. It takes no
    /// memory. The walks are those of the week, and the outlook is the driver's at these pairs and prices, else fewer duties may be
    /// found.
    pub fn find(
        &mut self,
        case: &Case,
        driver: u32,
        pairs: &Pairs,
        prices: &Prices,
        walks: &Walks,
        outlook: &Outlook,
        widest: u32,
    ) -> Option<i64>
        requires case { IsCase case.now }
        requires driver { driver < length case.now.week.drivers }
        requires pairs { IsPairs case.now.week pairs.now }
        requires prices { IsPrices case.now.week prices.now }
        ensures some { IfSome result (IsDutyOf case.now driver pairs.now prices.now (steps_of self.new)) }
        ensures none { IfNone result (steps_of self.new ≡ []) }
    {
        let asked = Asked {
            case,
            driver,
            pairs,
            prices,
            walks,
            outlook,
        };
        self.steps.clear();
        self.search.forced = asked.forced();
        self.search.known = if self.search.forced == 0 {
            0
        } else {
            NOTHING_KNOWN
        };
        if widest >= NARROWEST {
            self.begin(&asked, outlook.gain(&first(case, driver)).saturating_neg());
        }
        for width in WIDTHS {
            if width <= widest {
                self.run(&asked, width, self.search.known);
            }
        }
        match value_of(case, driver, pairs, prices, self.steps.as_slice()) {
            Some(value) => Some(value),
            None => {
                self.steps.clear();
                None
            }
        }
    }
}
