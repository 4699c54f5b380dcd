// Marks, kinds of off runs, and blocks of minutes.
ghost use Rattle.std.specs.Prelude.{◌≡◌};

/// What a driver does in a minute.
#[derive(Clone, Copy, PartialEq, Eq, Debug)]
pub enum Mark {
    /// Driving (Regulation 561/2006, Art. 4).
    Drive,
    /// Other work (Directive 2002/15/EC, Art. 3).
    Work,
    /// A period of availability: on duty, and neither working time nor a break (Directive, Art. 3).
    Ready,
    /// A break or a rest.
    Off,
}

/// What an off run is declared to be once an on-duty minute has ended it.
#[derive(Clone, Copy, PartialEq, Eq, Debug)]
pub enum Kind {
    /// No rest: a break, or idle time.
    Plain,
    /// A daily rest (Art. 8(2)).
    Daily,
    /// A weekly rest (Art. 8(6)).
    Weekly,
}

/// A block of minutes of one mark. The kind is that of an Off block's run; an on-duty block is Plain.
#[derive(Clone, Copy, PartialEq, Eq, Debug)]
pub struct Stint {
    pub mark: Mark,
    pub minutes: u32,
    pub kind: Kind,
}

impl Mark {
    ghost use Rattle.minute_line.specs.Marks.{is_off, is_drive, is_working};

    /// Whether it is Off. The other marks are on duty.
    pub fn is_off(self) -> bool
        ensures { result ≡ is_off self }
    {
        matches!(self, Mark::Off)
    }

    /// Whether it is driving time.
    pub fn is_drive(self) -> bool
        ensures { result ≡ is_drive self }
    {
        matches!(self, Mark::Drive)
    }

    /// Whether it is working time: Drive or Work.
    pub fn is_working(self) -> bool
        ensures { result ≡ is_working self }
    {
        matches!(self, Mark::Drive | Mark::Work)
    }
}

impl Kind {
    ghost use Rattle.minute_line.specs.Marks.{is_daily, is_weekly, is_rest};

    /// Whether it is a daily rest.
    pub fn is_daily(self) -> bool
        ensures { result ≡ is_daily self }
    {
        matches!(self, Kind::Daily)
    }

    /// Whether it is a weekly rest.
    pub fn is_weekly(self) -> bool
        ensures { result ≡ is_weekly self }
    {
        matches!(self, Kind::Weekly)
    }

    /// Whether it is a daily or a weekly rest.
    pub fn is_rest(self) -> bool
        ensures { result ≡ is_rest self }
    {
        !matches!(self, Kind::Plain)
    }
}
