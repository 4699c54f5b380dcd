// The office rules at one step, and what its act comes to.
ghost use Rattle.std.specs.Prelude.{◌≡◌, ◌||◌, ◌==◌, ◌&&◌, ◌+◌, ◌^◌, ◌%◌, ◌<◌, ◌≤◌, bit_or, not, if◌then◌else◌, IfSome, is_some};
ghost use Rattle.minute_line.specs.Marks.{is_rest, is_daily};
ghost use Rattle.week_book.specs.Weeks.{IsWeek};
ghost use Rattle.duty_plan.specs.Acts.{minutes_of, cents_of_act, can_be_done, may_start, used_by, loaded_by, place_by};
ghost use Rattle.duty_plan.specs.PartialDuties.{PartialDuty, is_plain_length, has_lengths, may_carry, is_new};
ghost use Rattle.duty_plan.specs.Labels.{bit_of_act, served_after};
ghost use Rattle.duty_plan.specs.Positions.{HasBit};

use crate::duties::Act;
use hours_rules::{FIRST_PART, FULL_BREAK, SECOND_PART, SPLIT_REST, Stay};
use minute_line::Kind;
use week_book::{Week, leg};

/// What an act comes to that can be done.
#[derive(Clone, Copy)]
pub(crate) struct ActEffect {
    pub(crate) minutes: u32,
    pub(crate) cents: u64,
}

/// What the act comes to, or None where it can't be done at the place.
pub(crate) fn effect_of(week: &Week, place: u32, act: Act) -> Option<ActEffect>
    ensures road { is_some result ≡ can_be_done week.now place act }
    ensures minutes { IfSome result (λ effect. effect.minutes ≡ minutes_of week.now place act) }
    ensures cents { IfSome result (λ effect. effect.cents ≡ cents_of_act week.now place act) }
{
    match act {
        Act::Leg(to) => leg(week, place, to).map(|leg| ActEffect {
            minutes: leg.minutes,
            cents: leg.cents,
        }),
        Act::Serve(order) => match week.orders.get(order as usize) {
            Some(order) if order.place == place => Some(ActEffect {
                minutes: order.service,
                cents: 0,
            }),
            _ => None,
        },
        Act::Load if place == 0 => Some(ActEffect {
            minutes: week.load,
            cents: 0,
        }),
        Act::Load => None,
    }
}

/// How many minutes the act takes from the place, or 0 where it names no road and no order.
pub fn minutes_at(week: &Week, place: u32, act: Act) -> u32
    ensures { result ≡ minutes_of week.now place act }
{
    match act {
        Act::Leg(to) => match leg(week, place, to) {
            Some(leg) => leg.minutes,
            None => 0,
        },
        Act::Serve(order) => match week.orders.get(order as usize) {
            Some(order) => order.service,
            None => 0,
        },
        Act::Load => week.load,
    }
}

/// Where the driver is after the act.
pub fn place_after(act: Act, place: u32) -> u32
    ensures { result ≡ place_by act place }
{
    match act {
        Act::Leg(to) => to,
        Act::Serve(_) | Act::Load => place,
    }
}

/// Whether a break or an idle time may have so many minutes.
fn is_plain(off: u32) -> bool
    ensures { result ≡ is_plain_length off }
{
    matches!(off, 0 | FIRST_PART | SECOND_PART | FULL_BREAK | SPLIT_REST)
}

/// Whether the stay has the lengths of its kind, where it may stand after an open run of the history.
pub(crate) fn lengths(after_open: bool, stay: &Stay) -> bool
    ensures { result ≡ has_lengths after_open stay.now }
{
    if after_open {
        return stay.ready == 0 && (stay.kind.is_rest() || is_plain(stay.off));
    }
    match stay.kind {
        Kind::Plain => is_plain(stay.off),
        Kind::Daily | Kind::Weekly => stay.off >= 1,
    }
}

/// Whether an act's start keeps the grid.
pub(crate) fn grid(kind: Kind, start: u64, grid: u32) -> bool
    requires { 0 < grid }
    ensures { result ≡ (not (is_rest kind) || (start % grid == 0)) }
{
    !kind.is_rest() || start % u64::from(grid) == 0
}

/// Whether the act may start at the minute.
pub(crate) fn window(week: &Week, act: Act, start: u64) -> bool
    ensures { result ≡ may_start week.now act start }
{
    match act {
        Act::Serve(order) => match week.orders.get(order as usize) {
            Some(order) => u64::from(order.opens) <= start && start <= u64::from(order.closes),
            None => false,
        },
        Act::Leg(_) | Act::Load => true,
    }
}

/// The week minute at which an act starts after a stay that begins at a minute.
pub(crate) fn act_start(at: u32, stay: &Stay) -> u64
    ensures start { result ≡ at + stay.now.ready + stay.now.off }
    ensures bound { result < 2 ^ 40 }
{
    u64::from(at) + u64::from(stay.ready) + u64::from(stay.off)
}

/// What a night costs, where the stay is one away from the depot.
pub(crate) fn night(week: &Week, place: u32, stay: &Stay) -> u64
    ensures { result ≡ (if is_daily stay.now.kind && not (place == 0) then week.now.night else 0) }
{
    if stay.kind.is_daily() && place != 0 {
        week.night
    } else {
        0
    }
}

/// The kg served since the last load act, after one more act.
pub(crate) fn used_after(week: &Week, act: Act, used: u32) -> u32
    requires week { IsWeek week.now }
    requires used { used ≤ 100000 }
    ensures { result ≡ used_by week.now act used }
{
    match act {
        Act::Leg(_) => used,
        Act::Serve(order) => match week.orders.get(order as usize) {
            Some(order) => order.kg + used,
            None => used,
        },
        Act::Load => 0,
    }
}

/// Whether a load act was done, after one more act.
pub(crate) fn loaded_after(act: Act, loaded: bool) -> bool
    ensures { result ≡ loaded_by act loaded }
{
    match act {
        Act::Leg(_) | Act::Serve(_) => loaded,
        Act::Load => true,
    }
}

/// The orders served, after one more act; order n is the bit n.
pub fn with_bit(act: Act, served: u128) -> u128
    requires { HasBit act }
    ensures { result ≡ bit_or served (bit_of_act act) }
{
    match act {
        Act::Serve(order) => served | (1 << order),
        Act::Leg(_) | Act::Load => served,
    }
}

/// Whether the act serves nothing that wasn't loaded, and no more than the lorry carries.
pub(crate) fn carries(week: &Week, capacity: u32, loaded: bool, used: u32, act: Act) -> bool
    requires week { IsWeek week.now }
    requires used { used ≤ 100000 }
    ensures { result ≡ may_carry week.now capacity loaded used act }
{
    match act {
        Act::Serve(_) => loaded && used_after(week, act, used) <= capacity,
        Act::Leg(_) | Act::Load => true,
    }
}

/// Whether the act serves no order that was served before; order n is the bit n of those.
pub fn serves_anew(served: u128, act: Act) -> bool
    requires { HasBit act }
    ensures { (before : PartialDuty) → served ≡ served_after before → result ≡ is_new act before }
{
    match act {
        Act::Serve(order) => (served >> order) & 1 == 0,
        Act::Leg(_) | Act::Load => true,
    }
}
