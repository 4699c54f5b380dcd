// What an act leads to, whatever the stay before it.
use crate::asking::Asked;
use duty_plan::{Act, Label};
use minute_line::WEEK_MINUTES;
use week_book::{Leg, Order};

/// An act, and what it leads to.
#[derive(Clone, Copy)]
pub(crate) struct Prospect {
    pub(crate) act: Act,
    /// How long the act takes, in minutes.
    minutes: u32,
    /// The first and the last minute at which it may start.
    pub(crate) opens: u32,
    pub(crate) closes: u32,
    /// The label after the act, but for its clock, and without a fee or a night.
    after: Label,
}

impl Prospect {
    /// What a leg leads to.
    pub(crate) fn of_leg(label: &Label, leg: &Leg) -> Prospect {
        Prospect {
            act: Act::Leg(leg.to),
            minutes: leg.minutes,
            opens: 0,
            closes: WEEK_MINUTES,
            after: Label {
                place: leg.to,
                value: label.value.saturating_add_unsigned(leg.cents),
                ..*label
            },
        }
    }

    /// What the service of an order leads to.
    pub(crate) fn of_service(label: &Label, number: u32, order: &Order, price: u64) -> Prospect {
        Prospect {
            act: Act::Serve(number),
            minutes: order.service,
            opens: order.opens,
            closes: order.closes,
            after: Label {
                served: label.served | 1u128.wrapping_shl(number),
                used: label.used.saturating_add(order.kg),
                value: label.value.saturating_sub_unsigned(price),
                ..*label
            },
        }
    }

    /// What a load of so many minutes leads to.
    pub(crate) fn of_load(label: &Label, minutes: u32) -> Prospect {
        Prospect {
            act: Act::Load,
            minutes,
            opens: 0,
            closes: WEEK_MINUTES,
            after: Label {
                used: 0,
                loaded: true,
                ..*label
            },
        }
    }

    /// When the act ends that starts at a minute.
    pub(crate) fn end(&self, start: u32) -> u32 {
        start.saturating_add(self.minutes)
    }

    /// The value that may be hoped for after the act, where so much may still be saved.
    pub(crate) fn bound(&self, gain: i64) -> i64 {
        self.after.value.saturating_sub(gain)
    }

    /// What may still be saved after the act, at most, in cents, where it starts at a minute. None where it then ends after the
    /// week.
    fn gain(&self, asked: &Asked, start: u32) -> Option<i64> {
        let end = self.end(start);
        if end > WEEK_MINUTES {
            return None;
        }
        let mut label = self.after;
        label.clock.at = end;
        Some(asked.outlook.gain(&label))
    }

    /// What may still be saved so, where a value below a known one may be hoped for.
    pub(crate) fn hope(&self, asked: &Asked, start: u32, known: i64) -> Option<i64> {
        let gain = self.gain(asked, start)?;
        if self.bound(gain) >= known {
            return None;
        }
        Some(gain)
    }
}
