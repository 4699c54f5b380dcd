// The plain store of labels, against which faster ones are tested: a list for each place, asked from its beginning.
ghost use Rattle.std.specs.Prelude.{◌≡◌, ◌↔◌, ◌<◌, true, OnOk, OnErr};
ghost use Rattle.dominance.specs.Filing.{AreFiled};

use crate::comparing::better;
use duty_plan::Label;
use minute_line::{Many, Memory};

/// The labels that are stored for a driver, each at its place.
#[derive(Drop)]
pub struct Fronts {
    /// A list for each place: the labels at that place, in the order in which they were stored.
    pub(crate) by_place: Vec<Many<Label>>,
    /// The orders that are forced for the driver; order n is the bit n.
    pub(crate) forced: u128,
    ghost filed: { AreFiled by_place.items },
}

impl Fronts {
    ghost use Rattle.dominance.specs.Storing.{place_count, IsFor, HoldsSame, AddsLabel, IsDominated};

    /// Stores a label. Where memory wants, the labels stay as they were.
    pub fn store(&mut self, label: Label) -> Result<(), Memory>
        requires { label.place < place_count self.old }
        ensures ok { OnOk result (AddsLabel self.old self.new label) }
        ensures err { OnErr result (HoldsSame self.old self.new) }
        ensures same { IsFor (place_count self.old) self.old.forced self.new }
    {
        self.by_place[label.place as usize].push(label)
    }

    // Not inlined: only where the label is read from memory does LLVM compare several of its fields at a time.
    /// Whether a stored label after at least one act betters a label. A label at a place that has no list is bettered by
    /// none. The time grows with the labels at its place.
    #[inline(never)]
    pub fn bettered(&self, label: &Label) -> bool
        ensures { result ≡ true ↔ IsDominated self.now label.now }
    {
        let Some(list) = self.by_place.get(label.place as usize) else {
            return false;
        };
        for stored in list.as_slice() {
            if stored.fee_paid && better(stored, label, self.forced) {
                return true;
            }
        }
        false
    }
}
