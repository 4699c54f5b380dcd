// A beam: the search for a duty below a target, bucket by bucket.
ghost use Rattle.duty_beam.specs.Asking.{IsAsked};
ghost use Rattle.duty_beam.specs.Nodes.{AreLabels};

use crate::asking::Asked;
use crate::nodes::{BUCKETS, Node, Nodes};
use crate::staying::Origin;
use duty_label::first;
use duty_plan::{Act, Step};
use hours_rules::Stay;
use minute_line::Kind;

/// The step that the first node is said to have.
const NO_STEP: Step = Step {
    stay: Stay {
        ready: 0,
        off: 0,
        kind: Kind::Plain,
    },
    act: Act::Load,
};

/// A beam's half-made duties, and the best duty that was found.
#[derive(Drop)]
pub(crate) struct Search {
    pub(crate) nodes: Nodes,
    pub(crate) width: u32,
    /// The orders that are Forced for the driver; order n is the bit n.
    pub(crate) forced: u128,
    /// A duty is sought whose value, in cents, is below this.
    pub(crate) known: i64,
    /// The node and the step that end the best duty of this beam.
    pub(crate) best: Option<(u32, Step)>,
}

impl Search {
    /// Goes on with the first node of a bucket that may still lead to a better duty. Whether there was one.
    fn go_on(&mut self, asked: &Asked, bucket: usize) -> bool
        requires asked { IsAsked asked.now }
        requires nodes { AreLabels asked.now.case.now asked.now.driver asked.now.prices.now self.old.nodes }
        ensures { AreLabels asked.now.case.now asked.now.driver asked.now.prices.now self.new.nodes }
    {
        let Some(number) = self.nodes.take(bucket) else {
            return false;
        };
        let Some(node) = self.nodes.get(number) else {
            return false;
        };
        if node.bound >= self.known {
            return false;
        }
        let from = Origin {
            number,
            label: node.label,
        };
        self.extend(asked, &from);
        true
    }

    /// Goes on with the nodes of a bucket, the best first.
    fn run_bucket(&mut self, asked: &Asked, bucket: usize)
        requires asked { IsAsked asked.now }
        requires nodes { AreLabels asked.now.case.now asked.now.driver asked.now.prices.now self.old.nodes }
        ensures { AreLabels asked.now.case.now asked.now.driver asked.now.prices.now self.new.nodes }
    {
        for _ in 0..self.width {
            if !self.go_on(asked, bucket) {
                return;
            }
        }
    }

    /// Seeks a duty whose value is below a target, with a beam of a width. Whether one was found.
    pub(crate) fn run(&mut self, asked: &Asked, width: u32, target: i64) -> bool
        requires { IsAsked asked.now }
    {
        let known = self.known;
        self.width = width;
        self.known = target;
        self.best = None;
        self.nodes.clear();
        let node = Node {
            label: first(asked.case, asked.driver),
            step: NO_STEP,
            parent: 0,
            bound: i64::MIN,
            is_extended: false,
        };
        self.nodes.keep(node, width, self.forced);
        for bucket in 0..BUCKETS {
            self.run_bucket(asked, bucket);
        }
        if self.best.is_none() {
            self.known = known;
        }
        self.best.is_some()
    }
}
