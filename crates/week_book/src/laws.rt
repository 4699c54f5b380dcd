// What the definitions say, in words of the subject.
ghost use Rattle.std.specs.Prelude.{◌≡◌, ℕ, List, [], Some, slice_get};
ghost use Rattle.week_book.specs.declared.rows.Row.{Row};
ghost use Rattle.week_book.specs.declared.errors.WeekError.{WeekError};
ghost use Rattle.week_book.specs.Names.{number_of};
ghost use Rattle.week_book.specs.Faults.{IsFirst};
ghost use Rattle.week_book.specs.Ranges.{range_of, range_fault};
ghost use Rattle.week_book.specs.Keys.{double_of, double_fault};

/// A name's number is its place among the names. A range fault and a double are those of a row before which no row
/// has one.
pub fn first_faults()
    ensures number { (names : List (List ℕ)) (name : List ℕ) (k : ℕ) → number_of names name ≡ Some k → slice_get names k ≡ Some name }
    ensures range { (rows : List Row) (e : WeekError) → range_fault rows ≡ Some e → IsFirst range_of [] rows e }
    ensures double { (rows : List Row) (e : WeekError) → double_fault rows ≡ Some e → IsFirst double_of [] rows e }
{}
