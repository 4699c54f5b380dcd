// The drivers, each of whom comes out of a weekly rest that ended on Saturday.
ghost use Rattle.std.specs.Prelude.{◌≡◌, ◌∷◌, [], OnOk};
ghost use Rattle.week_maker.specs.Rows.{driver_name, with_row, with_rows, rows_for_each};
ghost use Rattle.week_maker.specs.MadeWeeks.{driver_rows};

use crate::rows::{push_field, push_name};
use minute_line::{Bytes, Memory};

/// Adds a row of a word, the driver's name, and fields as they stand between their commas.
fn push_driver_row(text: &mut Bytes, word: &[u8], driver: u32, fields: &[u8]) -> Result<(), Memory>
    ensures { OnOk result (text.new ≡ with_row text.old (word.now ∷ driver_name driver ∷ fields.now ∷ [])) }
{
    text.extend_from_slice(word)?;
    push_name(text, b'D', driver)?;
    push_field(text, fields)?;
    text.push(b'\n')
}

/// Adds the rows of a driver.
fn push_driver(text: &mut Bytes, driver: u32) -> Result<(), Memory>
    ensures { OnOk result (text.new ≡ with_rows text.old (driver_rows driver)) }
{
    push_driver_row(text, b"driver", driver, b"24000,20000")?;
    push_driver_row(text, b"rest", driver, b"2026-02-28T00:00,2700")?;
    push_driver_row(
        text,
        b"worked",
        driver,
        b"0,0,0,0,0,0,0,0,0,0,0,0,0,0,0,0,0",
    )?;
    push_driver_row(text, b"past", driver, b"OFF,2880")?;
    Ok(())
}

/// Adds the rows of the twelve drivers.
pub(crate) fn push_drivers(text: &mut Bytes) -> Result<(), Memory>
    ensures { OnOk result (text.new ≡ with_rows text.old (rows_for_each 12 driver_rows)) }
{
    for before in 0..12 {
        push_driver(text, before + 1)?;
    }
    Ok(())
}
