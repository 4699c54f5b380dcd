// Which half-made duties a bucket keeps.
ghost use Rattle.std.specs.Prelude.{ℕ};
ghost use Rattle.duty_plan.specs.declared.plans.Case.{Case};
ghost use Rattle.duty_plan.specs.declared.pricing.Prices.{Prices};
ghost use Rattle.duty_label.specs.Children.{IsLabelOfSome};
ghost use Rattle.duty_beam.specs.Nodes.{AreLabels};

use crate::nodes::{Node, Nodes, bucket_of};
use dominance::better;
use duty_plan::Label;

impl Nodes {
    /// Notes the greatest bound of a bucket, if it is full.
    fn note_floor(&mut self, bucket: usize, width: u32)
        ensures { (case : Case) (driver : ℕ) (prices : Prices) → AreLabels case driver prices self.old →
            AreLabels case driver prices self.new }
    {
        if self.count(bucket) < width || bucket >= self.floors.len() {
            return;
        }
        let Some(number) = self.outermost(bucket, false) else {
            self.floors[bucket] = i64::MIN;
            return;
        };
        if let Some(node) = self.nodes.get(number as usize) {
            self.floors[bucket] = node.bound;
        }
    }

    /// Whether a node of the bucket betters a label. The place comes first: most nodes of a bucket are at another one.
    fn betters(&self, bucket: usize, label: &Label, forced: u128) -> bool {
        for number in self.numbers(bucket) {
            let node = self.nodes.get(*number as usize);
            if node.is_some_and(|node| {
                node.label.fee_paid
                    && node.label.place == label.place
                    && better(&node.label, label, forced)
            }) {
                return true;
            }
        }
        false
    }

    /// Whether a label betters a node that was not gone on with.
    fn is_worse(&self, number: u32, label: &Label, forced: u128) -> bool {
        match self.nodes.get(number as usize) {
            Some(node) => {
                !node.is_extended
                    && node.label.place == label.place
                    && better(label, &node.label, forced)
            }
            None => false,
        }
    }

    /// Gives up a node that a label betters, if it was not gone on with.
    fn give_up(&mut self, number: u32, label: &Label, forced: u128)
        ensures { (case : Case) (driver : ℕ) (prices : Prices) → AreLabels case driver prices self.old →
            AreLabels case driver prices self.new }
    {
        if !self.is_worse(number, label, forced) {
            return;
        }
        let Some(mut node) = self.get(number) else {
            return;
        };
        node.bound = i64::MAX;
        self.put(number, node);
    }

    /// Gives up all such nodes of a bucket, where the label is one after an act.
    fn give_up_all(&mut self, bucket: usize, label: &Label, forced: u128)
        ensures { (case : Case) (driver : ℕ) (prices : Prices) → AreLabels case driver prices self.old →
            AreLabels case driver prices self.new }
    {
        if !label.fee_paid {
            return;
        }
        for place in 0..self.count(bucket) {
            self.give_up(self.member(bucket, place), label, forced);
        }
    }

    /// The number of the first node of a bucket, or of the last, of those that were not gone on with.
    fn outermost(&self, bucket: usize, is_first: bool) -> Option<u32> {
        let mut found = None;
        let mut best = (0, 0);
        for number in self.numbers(bucket) {
            let Some(node) = self.nodes.get(*number as usize) else {
                continue;
            };
            let is_better = found.is_none() || (node.rank() < best) == is_first;
            if !node.is_extended && is_better {
                best = node.rank();
                found = Some(*number);
            }
        }
        found
    }

    /// The number of the next node of a bucket to be gone on with, which is then marked.
    pub(crate) fn take(&mut self, bucket: usize) -> Option<u32>
        ensures { (case : Case) (driver : ℕ) (prices : Prices) → AreLabels case driver prices self.old →
            AreLabels case driver prices self.new }
    {
        let number = self.outermost(bucket, true)?;
        let mut node = self.get(number)?;
        node.is_extended = true;
        self.put(number, node);
        Some(number)
    }

    /// Whether a node ranks before another or as high.
    fn ranks_before(&self, number: u32, other: &Node) -> bool {
        match self.nodes.get(number as usize) {
            Some(node) => node.rank() <= other.rank(),
            None => false,
        }
    }

    /// Puts a node into a bucket that has fewer nodes than the beam is wide, or in the place of one that it ranks before.
    fn insert(&mut self, bucket: usize, node: Node, width: u32)
        ensures { (case : Case) (driver : ℕ) (prices : Prices) → AreLabels case driver prices self.old →
            IsLabelOfSome case driver prices node.label → AreLabels case driver prices self.new }
    {
        if self.count(bucket) < width {
            self.add(bucket, node);
            return;
        }
        let Some(number) = self.outermost(bucket, false) else {
            return;
        };
        if self.ranks_before(number, &node) {
            return;
        }
        self.put(number, node);
    }

    /// Keeps a node, if none of its bucket betters it, and if the bucket has fewer nodes than the beam is wide or one that it
    /// ranks before.
    pub(crate) fn keep(&mut self, node: Node, width: u32, forced: u128)
        ensures { (case : Case) (driver : ℕ) (prices : Prices) → AreLabels case driver prices self.old →
            IsLabelOfSome case driver prices node.label → AreLabels case driver prices self.new }
    {
        let bucket = bucket_of(node.label.clock.at);
        if self.betters(bucket, &node.label, forced) {
            return;
        }
        self.give_up_all(bucket, &node.label, forced);
        self.insert(bucket, node, width);
        self.note_floor(bucket, width);
    }
}
