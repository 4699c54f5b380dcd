// Why words ask for nothing.

/// Why words ask for nothing.
#[derive(Clone, Copy, PartialEq, Eq, Debug)]
pub enum WordsError {
    /// The words are no command.
    Usage,
    /// Memory was wanted.
    Memory,
}
