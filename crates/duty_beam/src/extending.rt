// How a beam goes on with a half-made duty.
ghost use Rattle.std.specs.Prelude.{◌<◌, length};
ghost use Rattle.duty_label.specs.Children.{IsLabelOfSome};
ghost use Rattle.duty_beam.specs.Asking.{IsAsked};
ghost use Rattle.duty_beam.specs.Nodes.{AreLabels};

use crate::asking::Asked;
use crate::prospects::Prospect;
use crate::searches::Search;
use crate::staying::Origin;
use duty_label::price_of_act;
use duty_plan::{Act, Pair};
use week_book::Leg;

impl Search {
    /// Tries a leg, if it leaves a node's place.
    fn try_leg(&mut self, asked: &Asked, from: &Origin, leg: &Leg)
        requires asked { IsAsked asked.now }
        requires from { IsLabelOfSome asked.now.case.now asked.now.driver asked.now.prices.now from.now.label }
        requires nodes { AreLabels asked.now.case.now asked.now.driver asked.now.prices.now self.old.nodes }
        ensures { AreLabels asked.now.case.now asked.now.driver asked.now.prices.now self.new.nodes }
    {
        if leg.from != from.label.place {
            return;
        }
        self.try_act(asked, from, &Prospect::of_leg(&from.label, leg));
    }

    /// Tries the legs from a node's place.
    fn try_legs(&mut self, asked: &Asked, from: &Origin)
        requires asked { IsAsked asked.now }
        requires from { IsLabelOfSome asked.now.case.now asked.now.driver asked.now.prices.now from.now.label }
        requires nodes { AreLabels asked.now.case.now asked.now.driver asked.now.prices.now self.old.nodes }
        ensures { AreLabels asked.now.case.now asked.now.driver asked.now.prices.now self.new.nodes }
    {
        for leg in asked.case.week.legs.as_slice() {
            self.try_leg(asked, from, leg);
        }
    }

    /// Tries the service of an order, if it is at a node's place and isn't Barred.
    fn try_service(&mut self, asked: &Asked, from: &Origin, number: u32)
        requires asked { IsAsked asked.now }
        requires from { IsLabelOfSome asked.now.case.now asked.now.driver asked.now.prices.now from.now.label }
        requires nodes { AreLabels asked.now.case.now asked.now.driver asked.now.prices.now self.old.nodes }
        requires number { number < length asked.now.case.now.week.orders }
        ensures { AreLabels asked.now.case.now asked.now.driver asked.now.prices.now self.new.nodes }
    {
        let week = &asked.case.week;
        let Some(order) = week.orders.get(number as usize) else {
            return;
        };
        if order.place != from.label.place {
            return;
        }
        if matches!(asked.pairs.pair(week, asked.driver, number), Pair::Barred) {
            return;
        }
        let price = price_of_act(week, asked.prices, Act::Serve(number));
        let prospect = Prospect::of_service(&from.label, number, order, price);
        self.try_act(asked, from, &prospect);
    }

    /// Tries the services at a node's place.
    fn try_services(&mut self, asked: &Asked, from: &Origin)
        requires asked { IsAsked asked.now }
        requires from { IsLabelOfSome asked.now.case.now asked.now.driver asked.now.prices.now from.now.label }
        requires nodes { AreLabels asked.now.case.now asked.now.driver asked.now.prices.now self.old.nodes }
        ensures { AreLabels asked.now.case.now asked.now.driver asked.now.prices.now self.new.nodes }
    {
        for number in 0..asked.case.week.orders.len() as u32 {
            self.try_service(asked, from, number);
        }
    }

    /// Goes on with a node by each listed step.
    pub(crate) fn extend(&mut self, asked: &Asked, from: &Origin)
        requires asked { IsAsked asked.now }
        requires from { IsLabelOfSome asked.now.case.now asked.now.driver asked.now.prices.now from.now.label }
        requires nodes { AreLabels asked.now.case.now asked.now.driver asked.now.prices.now self.old.nodes }
        ensures { AreLabels asked.now.case.now asked.now.driver asked.now.prices.now self.new.nodes }
    {
        self.try_legs(asked, from);
        self.try_services(asked, from);
        if from.label.place == 0 {
            let load = asked.case.week.load;
            self.try_act(asked, from, &Prospect::of_load(&from.label, load));
        }
    }
}
