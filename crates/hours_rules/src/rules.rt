// The rules by name, and what a judge says of a line.
ghost use Rattle.std.specs.Prelude.{◌≡◌};
ghost use Rattle.hours_rules.specs.Rules.{rule_number};

/// The rules, in the order in which the faults of one minute are named.
#[derive(Clone, Copy, PartialEq, Eq, Debug)]
pub enum Rule {
    /// At each Drive minute: its driving period has at most 270 Drive minutes up to and with it (Regulation 561/2006, Art. 7).
    H1,
    /// At each Drive minute: its work day has at most 540 Drive minutes up to and with it, or at most 600 where fewer than two
    /// long days of this week have ended (Art. 6(1)).
    H2,
    /// At each minute on duty: it is among the first 900 minutes of its work day (Art. 8(2)).
    H3,
    /// At each minute on duty: at most three reduced daily rests have ended since the last weekly rest (Art. 8(4)).
    H4,
    /// At the first minute on duty after a rest: a daily rest has at least 540 minutes; a weekly rest has at least 1,440, and at
    /// least 2,700 where the weekly rest before it had less, or while a debt is owed (Art. 4, 8(6)).
    H5,
    /// At each minute on duty: it is among the first 8,640 minutes (six days) after the last weekly rest (Art. 8(6)).
    H6,
    /// At each Drive minute: the week has at most 3,360 Drive minutes up to and with it (Art. 6(2)).
    H7,
    /// At each Drive minute: the Drive minutes of the week up to and with it, and last week's, are at most 5,400 (Art. 6(3)).
    H8,
    /// At each working minute: the week has at most 3,600 working minutes up to and with it, and with the sixteen weeks before at
    /// most 48,960, which is 48 hours a week on average (Directive 2002/15/EC, Art. 4).
    H9,
    /// At each working minute: at most 360 working minutes, up to and with it, since the last off run of 15 minutes or more
    /// (Directive, Art. 5).
    H10,
    /// At each working minute: the off runs of 15 minutes or more before it in its work day have at least 30 minutes together
    /// where it is the day's 361st working minute or a later one, and at least 45 where it is the 541st or a later one (Directive,
    /// Art. 5).
    H11,
    /// At each minute on duty: nothing is owed for a reduced weekly rest, or there is still room for a daily rest of 660 minutes
    /// and the debt before it is due (Art. 8(6), 8(7)).
    H12,
}

/// A rule that fails, and the week minute at which it does.
#[derive(Clone, Copy, PartialEq, Eq, Debug)]
pub struct Broken {
    /// The least rule that fails there.
    pub rule: Rule,
    /// The minute, 0 to 10,079 from Monday 00:00 UTC.
    pub minute: u32,
}

/// What a judge finds: that each rule holds at each minute, or the first fault.
#[derive(Clone, Copy, PartialEq, Eq, Debug)]
pub enum Verdict {
    /// Each rule holds at each minute of the week.
    Lawful,
    /// The first minute at which a rule fails, with the least rule there.
    Broken(Broken),
}

/// The number in the rule's name, 1 to 12.
pub fn number(rule: Rule) -> u32
    ensures { result ≡ rule_number rule }
{
    match rule {
        Rule::H1 => 1,
        Rule::H2 => 2,
        Rule::H3 => 3,
        Rule::H4 => 4,
        Rule::H5 => 5,
        Rule::H6 => 6,
        Rule::H7 => 7,
        Rule::H8 => 8,
        Rule::H9 => 9,
        Rule::H10 => 10,
        Rule::H11 => 11,
        Rule::H12 => 12,
    }
}
