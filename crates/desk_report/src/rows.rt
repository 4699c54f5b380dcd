// Rows of fields, and their text as `csv` writes it.
ghost use Rattle.std.specs.Prelude.{◌≡◌, ℕ, List, ◌∷◌, [], ◌++◌, IfOk};
ghost use Rattle.std.specs.Fmt.{decimal};
ghost use Rattle.csv.specs.Records.{fields_of, partial_of};
ghost use Rattle.desk_report.specs.Rows.{rows_text};

use csv::{ByteRecord, WriterBuilder};
use minute_line::{Bytes, Many, Memory, push_decimal};
use std::alloc::Global;
use std::marker::Model;

/// A row of a text, which contracts see as its fields.
#[derive(Drop)]
pub(crate) struct Row {
    record: ByteRecord,
}

impl Model for Row {
    ghost Value = { List (List ℕ) };

    ghost view = { λ row. fields_of row.record };

    ghost invariant = { λ row. partial_of row.record ≡ [] };
}

impl Row {
    /// A row of that word.
    pub(crate) fn of(alloc: Global, word: &[u8]) -> Result<Row, Memory>
        ensures { IfOk result (λ row. row ≡ word.now ∷ []) }
    {
        let mut record = ByteRecord::new(alloc);
        record.push_field(word)?;
        Ok(Row { record })
    }

    /// The row with one more field.
    pub(crate) fn field(self, field: &[u8]) -> Result<Row, Memory>
        ensures { IfOk result (λ row. row ≡ self ++ field.now ∷ []) }
    {
        let Row { mut record } = self;
        record.push_field(field)?;
        Ok(Row { record })
    }

    /// The row with one more field, a number in plain decimal.
    pub(crate) fn number(self, alloc: Global, number: u64) -> Result<Row, Memory>
        ensures { IfOk result (λ row. row ≡ self ++ decimal number ∷ []) }
    {
        let mut digits = Many::new(alloc);
        push_decimal(&mut digits, number)?;
        self.field(digits.as_slice())
    }
}

/// The text of rows of any lengths, each ended by a line feed.
pub(crate) fn write_rows(alloc: Global, rows: &[Row]) -> Result<Bytes, Memory>
    ensures { IfOk result (λ text. text ≡ rows_text rows.now) }
{
    let mut writer = WriterBuilder::new()
        .flexible(true)
        .from_writer(Vec::new(alloc));
    for row in rows {
        if writer.write_byte_record(&row.record).is_err() {
            return Err(Memory);
        }
    }
    match writer.into_inner() {
        Ok(text) => Ok(Many::from_vec(text)),
        Err(_) => Err(Memory),
    }
}
