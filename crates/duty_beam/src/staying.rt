// How a beam tries the stays before an act.
ghost use Rattle.std.specs.Prelude.{◌≡◌};
ghost use Rattle.duty_label.specs.Children.{IsLabelOfSome};
ghost use Rattle.duty_beam.specs.Asking.{IsAsked};
ghost use Rattle.duty_beam.specs.Nodes.{AreLabels};

use crate::asking::Asked;
use crate::nodes::Node;
use crate::prospects::Prospect;
use crate::searches::Search;
use duty_label::child;
use duty_plan::{Label, Step};
use hours_rules::{DAILY_REST, FIRST_PART, FULL_BREAK, SECOND_PART, SPLIT_REST, Stay};
use minute_line::{Kind, WEEK_MINUTES, WEEKLY_REST};

/// The Off minutes of a Plain stay.
const LENGTHS: [u32; 5] = [0, FIRST_PART, SECOND_PART, FULL_BREAK, SPLIT_REST];

/// The node that a step follows: its number, and its label.
#[derive(Clone, Copy)]
pub(crate) struct Origin {
    pub(crate) number: u32,
    pub(crate) label: Label,
}

impl Origin {
    /// The minute at which an act starts after a stay.
    fn start_after(&self, stay: Stay) -> u32 {
        let at = self.label.clock.at;
        at.saturating_add(stay.ready).saturating_add(stay.off)
    }
}

impl Search {
    /// Notes the value of a step after a node, if a duty that serves the Forced orders ends there and it is the best so far.
    fn learn(&mut self, number: u32, step: Step, label: &Label)
        ensures { self.new.nodes ≡ self.old.nodes }
    {
        if label.place == 0 && self.forced & !label.served == 0 && label.value < self.known {
            self.known = label.value;
            self.best = Some((number, step));
        }
    }

    /// Whether no duty that serves the Forced orders begins so, since one of them can't be reached any more.
    fn is_lost(&self, asked: &Asked, label: &Label) -> bool
        requires { IsAsked asked.now }
    {
        self.forced != 0
            && asked.walks.hopeless(
                asked.case,
                asked.driver,
                asked.pairs,
                asked.prices,
                label,
                None,
            )
    }

    /// Notes the label of a step after a node, of which so much may still be saved.
    fn note(&mut self, asked: &Asked, from: &Origin, step: Step, label: Label, gain: i64)
        requires asked { IsAsked asked.now }
        requires label { IsLabelOfSome asked.now.case.now asked.now.driver asked.now.prices.now label }
        requires nodes { AreLabels asked.now.case.now asked.now.driver asked.now.prices.now self.old.nodes }
        ensures { AreLabels asked.now.case.now asked.now.driver asked.now.prices.now self.new.nodes }
    {
        self.learn(from.number, step, &label);
        let node = Node {
            label,
            step,
            parent: from.number,
            bound: label.value.saturating_sub(gain),
            is_extended: false,
        };
        if node.bound >= self.known || self.is_lost(asked, &node.label) {
            return;
        }
        self.nodes.keep(node, self.width, self.forced);
    }

    /// Tries a stay before an act. Whether later starts of the act may be worth trying.
    fn try_stay(&mut self, asked: &Asked, from: &Origin, prospect: &Prospect, stay: Stay) -> bool
        requires asked { IsAsked asked.now }
        requires from { IsLabelOfSome asked.now.case.now asked.now.driver asked.now.prices.now from.now.label }
        requires nodes { AreLabels asked.now.case.now asked.now.driver asked.now.prices.now self.old.nodes }
        ensures { AreLabels asked.now.case.now asked.now.driver asked.now.prices.now self.new.nodes }
    {
        let start = from.start_after(stay);
        if start < prospect.opens {
            return true;
        }
        if start > prospect.closes {
            return false;
        }
        let Some(gain) = prospect.hope(asked, start, self.known) else {
            return false;
        };
        if !self
            .nodes
            .has_room(prospect.end(start), prospect.bound(gain))
        {
            return true;
        }
        let step = Step {
            stay,
            act: prospect.act,
        };
        if let Ok(label) = child(
            asked.case,
            asked.driver,
            asked.pairs,
            asked.prices,
            &from.label,
            step.stay,
            step.act,
        ) {
            self.note(asked, from, step, label, gain);
        }
        true
    }

    /// Tries the Plain stays before an act: each with the Ready minutes until its window opens.
    fn try_plain(&mut self, asked: &Asked, from: &Origin, prospect: &Prospect)
        requires asked { IsAsked asked.now }
        requires from { IsLabelOfSome asked.now.case.now asked.now.driver asked.now.prices.now from.now.label }
        requires nodes { AreLabels asked.now.case.now asked.now.driver asked.now.prices.now self.old.nodes }
        ensures { AreLabels asked.now.case.now asked.now.driver asked.now.prices.now self.new.nodes }
    {
        for off in LENGTHS {
            let end = from.label.clock.at.saturating_add(off);
            let stay = Stay {
                ready: prospect.opens.saturating_sub(end),
                off,
                kind: Kind::Plain,
            };
            self.try_stay(asked, from, prospect, stay);
        }
    }

    /// Tries the rests of a kind before an act, from the first that is long enough on.
    fn try_rests(
        &mut self,
        asked: &Asked,
        from: &Origin,
        prospect: &Prospect,
        kind: Kind,
        least: u32,
    )
        requires asked { IsAsked asked.now }
        requires from { IsLabelOfSome asked.now.case.now asked.now.driver asked.now.prices.now from.now.label }
        requires nodes { AreLabels asked.now.case.now asked.now.driver asked.now.prices.now self.old.nodes }
        ensures { AreLabels asked.now.case.now asked.now.driver asked.now.prices.now self.new.nodes }
    {
        let grid = asked.case.week.grid.max(1);
        let at = from.label.clock.at;
        let first = at.saturating_add(least.saturating_sub(from.label.clock.off));
        for turn in first.div_ceil(grid)..WEEK_MINUTES / grid {
            let stay = Stay {
                ready: 0,
                off: (turn * grid).saturating_sub(at),
                kind,
            };
            if !self.try_stay(asked, from, prospect, stay) {
                return;
            }
        }
    }

    /// Tries each listed stay before an act.
    pub(crate) fn try_act(&mut self, asked: &Asked, from: &Origin, prospect: &Prospect)
        requires asked { IsAsked asked.now }
        requires from { IsLabelOfSome asked.now.case.now asked.now.driver asked.now.prices.now from.now.label }
        requires nodes { AreLabels asked.now.case.now asked.now.driver asked.now.prices.now self.old.nodes }
        ensures { AreLabels asked.now.case.now asked.now.driver asked.now.prices.now self.new.nodes }
    {
        self.try_plain(asked, from, prospect);
        self.try_rests(asked, from, prospect, Kind::Daily, DAILY_REST);
        if from.label.place == 0 {
            self.try_rests(asked, from, prospect, Kind::Weekly, WEEKLY_REST);
        }
    }
}
