// Half-made duties, a few for each quarter of an hour at which they end.
ghost use Rattle.std.specs.Prelude.{ℕ, IfSome};
ghost use Rattle.duty_plan.specs.declared.plans.Case.{Case};
ghost use Rattle.duty_plan.specs.declared.pricing.Prices.{Prices};
ghost use Rattle.duty_label.specs.Children.{IsLabelOfSome};
ghost use Rattle.duty_beam.specs.Nodes.{AreLabels};

use duty_plan::{Label, Step};
use minute_line::Memory;
use std::alloc::Global;

/// The minutes of a bucket.
const QUARTER: u32 = 15;

/// The buckets of a week.
pub(crate) const BUCKETS: usize = 673;

/// The most half-made duties of a bucket.
pub(crate) const WIDEST: usize = 64;

/// A half-made duty.
#[derive(Clone, Copy)]
pub(crate) struct Node {
    pub(crate) label: Label,
    /// Its last step, and the number of the node that it follows. The first node has neither.
    pub(crate) step: Step,
    pub(crate) parent: u32,
    /// The least value, in cents, that may be hoped for of a duty that begins so.
    pub(crate) bound: i64,
    /// Whether it was gone on with.
    pub(crate) is_extended: bool,
}

impl Node {
    /// The lower of two comes first: by the value that may be hoped for, then by its own.
    pub(crate) fn rank(&self) -> (i64, i64) {
        (self.bound, self.label.value)
    }
}

/// Half-made duties by the quarter of an hour at which they end.
#[derive(Drop)]
pub(crate) struct Nodes {
    pub(crate) nodes: Vec<Node>,
    /// So many numbers of nodes for each bucket.
    pub(crate) members: Vec<u32>,
    /// How many of them are in use.
    pub(crate) counts: Vec<u32>,
    /// Of each bucket that is full, the greatest bound of a node that was not gone on with.
    pub(crate) floors: Vec<i64>,
}

/// Room for the nodes of the widest beam.
pub(crate) fn make_nodes(alloc: Global) -> Result<Nodes, Memory> {
    Ok(Nodes {
        nodes: Vec::with_capacity(alloc, BUCKETS * WIDEST)?,
        members: vec![in alloc; 0; BUCKETS * WIDEST]?,
        counts: vec![in alloc; 0; BUCKETS]?,
        floors: vec![in alloc; i64::MAX; BUCKETS]?,
    })
}

/// The bucket of a week minute.
pub(crate) fn bucket_of(minute: u32) -> usize {
    (minute / QUARTER) as usize
}

impl Nodes {
    /// Forgets all nodes.
    pub(crate) fn clear(&mut self)
        ensures { (case : Case) (driver : ℕ) (prices : Prices) → AreLabels case driver prices self.new }
    {
        self.empty_buckets();
        self.nodes.clear();
    }

    /// Takes all nodes out of their buckets.
    fn empty_buckets(&mut self) {
        for bucket in 0..BUCKETS {
            if bucket < self.counts.len() && bucket < self.floors.len() {
                self.counts[bucket] = 0;
                self.floors[bucket] = i64::MAX;
            }
        }
    }

    /// The node of a number.
    pub(crate) fn get(&self, number: u32) -> Option<Node>
        ensures { (case : Case) (driver : ℕ) (prices : Prices) → AreLabels case driver prices self.now →
            IfSome result (λ node. IsLabelOfSome case driver prices node.label) }
    {
        match self.nodes.get(number as usize) {
            Some(node) => Some(*node),
            None => None,
        }
    }

    /// Puts a node in the place of another, if that is there.
    pub(crate) fn put(&mut self, number: u32, node: Node)
        ensures { (case : Case) (driver : ℕ) (prices : Prices) → AreLabels case driver prices self.old →
            IsLabelOfSome case driver prices node.label → AreLabels case driver prices self.new }
    {
        if (number as usize) < self.nodes.len() {
            self.nodes[number as usize] = node;
        }
    }

    /// Adds a node to a bucket, if there is room.
    pub(crate) fn add(&mut self, bucket: usize, node: Node)
        ensures { (case : Case) (driver : ℕ) (prices : Prices) → AreLabels case driver prices self.old →
            IsLabelOfSome case driver prices node.label → AreLabels case driver prices self.new }
    {
        let number = self.nodes.len();
        let count = self.count(bucket);
        let member = bucket.saturating_mul(WIDEST).saturating_add(count as usize);
        if number < self.nodes.capacity()
            && number < u32::MAX as usize
            && member < self.members.len()
            && bucket < self.counts.len()
        {
            self.nodes.push_reserved(node);
            self.members[member] = number as u32;
            self.counts[bucket] = count.saturating_add(1);
        }
    }

    /// How many nodes a bucket has.
    pub(crate) fn count(&self, bucket: usize) -> u32 {
        match self.counts.get(bucket) {
            Some(count) => *count,
            None => 0,
        }
    }

    /// Whether a half-made duty that ends at a minute may be kept, where such a value may be hoped for.
    pub(crate) fn has_room(&self, minute: u32, bound: i64) -> bool {
        match self.floors.get(bucket_of(minute)) {
            Some(floor) => bound <= *floor,
            None => false,
        }
    }

    /// The numbers of a bucket's nodes.
    pub(crate) fn numbers(&self, bucket: usize) -> &[u32] {
        let begin = bucket.saturating_mul(WIDEST);
        let end = begin.saturating_add(self.count(bucket) as usize);
        match self.members.as_slice().get(begin..end) {
            Some(numbers) => numbers,
            None => &[],
        }
    }

    /// The number of a bucket's node.
    pub(crate) fn member(&self, bucket: usize, place: u32) -> u32 {
        let member = bucket.saturating_mul(WIDEST).saturating_add(place as usize);
        match self.members.get(member) {
            Some(number) => *number,
            None => u32::MAX,
        }
    }
}
