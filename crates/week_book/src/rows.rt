// The rows of a text, as they are written.
ghost use Rattle.std.specs.Prelude.{◌≡◌};
ghost use Rattle.week_book.specs.Faults.{row_number};
ghost use Rattle.week_book.specs.Pasts.{is_off_word};

use minute_line::{Monday, Name};

/// The mark word of a `past` or `did` row.
#[derive(Clone, Copy, PartialEq, Eq, Debug)]
pub enum Word {
    Drive,
    Work,
    Ready,
    Off,
    Daily,
    Weekly,
}

/// A row of a week text or a check text: its number from 1, and the fields after its word. Numbers may be out of their
/// ranges, and bytes may make no name. Stamps are minutes from the Monday of the first week row.
#[derive(Drop)]
pub enum Row {
    Week {
        row: u32,
        monday: Monday,
        load: u64,
        night: u64,
        grid: u64,
    },
    Place {
        row: u32,
        name: Name,
    },
    Leg {
        row: u32,
        from: Name,
        to: Name,
        minutes: u64,
        cents: u64,
    },
    Driver {
        row: u32,
        name: Name,
        capacity: u64,
        fee: u64,
    },
    Rest {
        row: u32,
        driver: Name,
        end: i64,
        minutes: u64,
    },
    Worked {
        row: u32,
        driver: Name,
        last: u64,
        weeks: [u64; 16],
    },
    Past {
        row: u32,
        driver: Name,
        word: Word,
        minutes: u64,
    },
    Did {
        row: u32,
        driver: Name,
        word: Word,
        minutes: u64,
    },
    Order {
        row: u32,
        name: Name,
        place: Name,
        opens: i64,
        closes: i64,
        service: u64,
        kg: u64,
        price: u64,
    },
}

impl Word {
    /// Whether it is OFF, DAILY or WEEKLY.
    pub fn is_off(self) -> bool
        ensures { result ≡ is_off_word self }
    {
        match self {
            Word::Off | Word::Daily | Word::Weekly => true,
            Word::Drive | Word::Work | Word::Ready => false,
        }
    }
}

impl Row {
    /// Its number in its text, from 1.
    pub fn number(&self) -> u32
        ensures { result ≡ row_number self.now }
    {
        match self {
            Row::Week { row, .. }
            | Row::Place { row, .. }
            | Row::Leg { row, .. }
            | Row::Driver { row, .. }
            | Row::Rest { row, .. }
            | Row::Worked { row, .. }
            | Row::Past { row, .. }
            | Row::Did { row, .. }
            | Row::Order { row, .. } => *row,
        }
    }
}
