// The lines of a duty, and where its steps begin.
ghost use Rattle.std.specs.Prelude.{◌≡◌, ◌++◌, ◌∷◌, [], ◌+◌, ◌<◌, ◌≤◌, OnOk};
ghost use Rattle.std.specs.Fmt.{decimal};
ghost use Rattle.minute_line.specs.DateWriting.{stamp_text};
ghost use Rattle.minute_line.specs.Writing.{with_words, with_line};
ghost use Rattle.week_book.specs.Weeks.{IsWeek};
ghost use Rattle.duty_plan.specs.Acts.{minutes_of, place_by};
ghost use Rattle.duty_plan.specs.Duties.{partial_of};
ghost use Rattle.desk_report.specs.Lines.{with_lines};
ghost use Rattle.desk_report.specs.Steps.{StaysInWeek, kind_word, place_name, order_name, ready_lines, off_lines, act_words, step_lines, duty_lines};

use duty_plan::{Act, Duty, Step, minutes_at, place_after};
use minute_line::{Bytes, Kind, Memory, push_number, push_word, stamp_in};
use week_book::Week;

/// The days of a week as text, Monday first.
pub(crate) type Days = [[u8; 10]; 7];

/// Where steps leave a driver.
#[derive(Clone, Copy)]
pub(crate) struct Whereabouts {
    /// The week minute at which they end.
    pub(crate) at: u32,
    /// The place where they end.
    pub(crate) place: u32,
}

impl Whereabouts {
    /// Monday 00:00 at the depot.
    pub(crate) fn on_monday() -> Whereabouts
        ensures at { result.at ≡ 0 }
        ensures place { result.place ≡ 0 }
    {
        Whereabouts { at: 0, place: 0 }
    }

    /// The week minute at which the step's act starts.
    pub(crate) fn start(self, step: &Step) -> u32
        requires { self.at + step.now.stay.ready + step.now.stay.off < 10080 }
        ensures { result ≡ self.at + step.now.stay.ready + step.now.stay.off }
    {
        self.at + step.stay.ready + step.stay.off
    }

    /// Where one more step leaves the driver.
    pub(crate) fn after(self, week: &Week, step: &Step) -> Whereabouts
        requires { self.at + step.now.stay.ready + step.now.stay.off + minutes_of week.now self.place step.now.act ≤ 10080 }
        ensures at { result.at ≡ self.at + step.now.stay.ready + step.now.stay.off + minutes_of week.now self.place step.now.act }
        ensures place { result.place ≡ place_by step.now.act self.place }
    {
        let minutes = minutes_at(week, self.place, step.act);
        Whereabouts {
            at: self.at + step.stay.ready + step.stay.off + minutes,
            place: place_after(step.act, self.place),
        }
    }
}

/// The word of a kind.
pub(crate) fn kind_word(kind: Kind) -> &'static [u8]
    ensures { result.now ≡ kind_word kind }
{
    match kind {
        Kind::Plain => b"plain",
        Kind::Daily => b"daily",
        Kind::Weekly => b"weekly",
    }
}

/// The name of the place of that number.
pub(crate) fn place_name(week: &Week, place: u32) -> &[u8]
    ensures { result.now ≡ place_name week.now place }
{
    match week.places.get(place as usize) {
        Some(name) => name.as_slice(),
        None => &[],
    }
}

/// The name of the order of that number.
pub(crate) fn order_name(week: &Week, order: u32) -> &[u8]
    ensures { result.now ≡ order_name week.now order }
{
    match week.orders.get(order as usize) {
        Some(order) => order.name.as_slice(),
        None => &[],
    }
}

/// Adds the line of Ready minutes, where there are some.
fn push_ready(text: &mut Bytes, days: &Days, at: u32, ready: u32) -> Result<(), Memory>
    requires { at < 10080 }
    ensures { OnOk result (text.new ≡ with_lines text.old (ready_lines days.now at ready)) }
{
    if ready == 0 {
        return Ok(());
    }
    text.extend_from_slice(&stamp_in(days, at))?;
    push_word(text, b"ready")?;
    push_number(text, ready as u64)?;
    text.push(b'\n')
}

/// Adds the line of Off minutes, where there are some or they are a rest.
fn push_off(text: &mut Bytes, days: &Days, at: u32, off: u32, kind: Kind) -> Result<(), Memory>
    requires { at < 10080 }
    ensures { OnOk result (text.new ≡ with_lines text.old (off_lines days.now at off kind)) }
{
    if off == 0 && !kind.is_rest() {
        return Ok(());
    }
    text.extend_from_slice(&stamp_in(days, at))?;
    push_word(text, b"off")?;
    push_number(text, off as u64)?;
    push_word(text, kind_word(kind))?;
    text.push(b'\n')
}

/// Adds a word, a name and minutes.
fn push_named(text: &mut Bytes, word: &[u8], name: &[u8], minutes: u32) -> Result<(), Memory>
    ensures { OnOk result (text.new ≡ with_words text.old (word.now ∷ name.now ∷ decimal minutes ∷ [])) }
{
    push_word(text, word)?;
    push_word(text, name)?;
    push_number(text, minutes as u64)
}

/// Adds what an act is.
fn push_act(text: &mut Bytes, week: &Week, minutes: u32, act: Act) -> Result<(), Memory>
    ensures { OnOk result (text.new ≡ with_words text.old (act_words week.now minutes act)) }
{
    match act {
        Act::Leg(to) => push_named(text, b"drive", place_name(week, to), minutes),
        Act::Serve(order) => push_named(text, b"serve", order_name(week, order), minutes),
        Act::Load => {
            push_word(text, b"load")?;
            push_number(text, minutes as u64)
        }
    }
}

/// Adds the line of an act that starts at a minute.
fn push_act_line(
    text: &mut Bytes,
    days: &Days,
    week: &Week,
    start: u32,
    minutes: u32,
    act: Act,
) -> Result<(), Memory>
    requires { start < 10080 }
    ensures { OnOk result (text.new ≡ with_line text.old (stamp_text days.now start) (act_words week.now minutes act)) }
{
    text.extend_from_slice(&stamp_in(days, start))?;
    push_act(text, week, minutes, act)?;
    text.push(b'\n')
}

/// Adds the lines of a step.
fn push_step(
    text: &mut Bytes,
    days: &Days,
    week: &Week,
    here: Whereabouts,
    step: &Step,
) -> Result<(), Memory>
    requires { here.at + step.now.stay.ready + step.now.stay.off < 10080 }
    ensures { OnOk result (text.new ≡ with_lines text.old (step_lines days.now week.now here.at here.place step.now)) }
{
    let minutes = minutes_at(week, here.place, step.act);
    push_ready(text, days, here.at, step.stay.ready)?;
    push_off(
        text,
        days,
        here.at + step.stay.ready,
        step.stay.off,
        step.stay.kind,
    )?;
    push_act_line(text, days, week, here.start(step), minutes, step.act)
}

/// Adds the lines of a duty.
pub(crate) fn push_duty(
    text: &mut Bytes,
    days: &Days,
    week: &Week,
    duty: &Duty,
) -> Result<(), Memory>
    requires { StaysInWeek week.now (partial_of duty.now) }
    ensures { OnOk result (text.new ≡ with_lines text.old (duty_lines days.now week.now (partial_of duty.now))) }
{
    let mut here = Whereabouts::on_monday();
    for step in duty.steps.as_slice() {
        push_step(text, days, week, here, step)?;
        here = here.after(week, step);
    }
    Ok(())
}
