// Fields and rows of a text, as the crate's rows are made of them.
ghost use Rattle.std.specs.Prelude.{◌≡◌, ◌++◌, ◌∷◌, OnOk};
ghost use Rattle.std.specs.Fmt.{decimal};
ghost use Rattle.week_maker.specs.Rows.{place_name};

use minute_line::{Bytes, Memory, push_decimal};

/// Adds a comma and a field.
pub(crate) fn push_field(text: &mut Bytes, field: &[u8]) -> Result<(), Memory>
    ensures { OnOk result (text.new ≡ text.old ++ 44 ∷ field.now) }
{
    text.push(b',')?;
    text.extend_from_slice(field)
}

/// Adds a comma and a number.
pub(crate) fn push_number_field(text: &mut Bytes, number: u32) -> Result<(), Memory>
    ensures { OnOk result (text.new ≡ text.old ++ 44 ∷ decimal number) }
{
    text.push(b',')?;
    push_decimal(text, u64::from(number))
}

/// Adds a comma and a name: a letter and a number.
pub(crate) fn push_name(text: &mut Bytes, letter: u8, number: u32) -> Result<(), Memory>
    ensures { OnOk result (text.new ≡ text.old ++ 44 ∷ letter ∷ decimal number) }
{
    text.push(b',')?;
    text.push(letter)?;
    push_decimal(text, u64::from(number))
}

/// Adds a comma and the name of a place: 0 is the depot.
pub(crate) fn push_place(text: &mut Bytes, place: u32) -> Result<(), Memory>
    ensures { OnOk result (text.new ≡ text.old ++ 44 ∷ place_name place) }
{
    if place == 0 {
        push_field(text, b"HUB")
    } else {
        push_name(text, b'P', place)
    }
}
