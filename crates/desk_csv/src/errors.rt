// The two texts that hold rows, and why a text holds none.
ghost use Rattle.std.specs.Prelude.{◌≡◌};
ghost use Rattle.desk_csv.specs.declared.errors.CsvError.TheVariants.{Memory as WantOfMemory};

use minute_line::Memory;

/// Which words the rows of a text may begin with.
#[derive(Clone, Copy, PartialEq, Eq, Debug)]
pub enum Form {
    /// A week text: `week`, `place`, `leg`, `driver`, `rest`, `worked`, `past` and `order`.
    Plan,
    /// A check text: `week`, `rest`, `worked`, `past` and `did`.
    Check,
}

/// Why a text has no rows. Rows and fields count from 1, and a row's word is its field 1; bytes count from 0.
#[derive(Clone, Copy, PartialEq, Eq, Debug)]
pub enum CsvError {
    /// The text is no UTF-8, and this byte is the first that begins no character. A byte order mark counts.
    Utf8(u32),
    /// This row's word is none of the form, its mark word is none of the six, or the first row is no week row.
    Word(u32),
    /// This row has so many fields, and its word asks for another number.
    Fields(u32, u32),
    /// This field of this row is no number of 1 to 10 digits.
    Number(u32, u32),
    /// This field of this row is no Monday, or no stamp.
    Stamp(u32, u32),
    /// Want of memory.
    Memory,
}

impl From<Memory> for CsvError {
    ghost from_gives = { λ _ e. e ≡ WantOfMemory };

    fn from(_error: Memory) -> CsvError {
        CsvError::Memory
    }
}
