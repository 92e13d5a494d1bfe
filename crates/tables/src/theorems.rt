//! What is proved of tables: each function says one theorem, and has nothing to do.
ghost use Rattle.tables.specs.Theorems.{ExamplesAreRead, WrittenRowIsRead, WrittenIsReadBack, CallsReadBack, ReadIsASequence, ReadAgain, RefusedForTheFirstBadRow};

/// The examples of RFC 4180 are read as it says, and texts that its grammar does not have are refused.
pub fn examples_are_read()
    ensures { ExamplesAreRead }
{}

/// A written row is read as its eight fields, whatever stands after it.
pub fn written_row_is_read()
    ensures { WrittenRowIsRead }
{}

/// Reading what was written gives the same records.
pub fn written_is_read_back()
    ensures { WrittenIsReadBack }
{}

/// The same at the calls, written into one place and read into another.
pub fn calls_read_back()
    ensures { CallsReadBack }
{}

/// What a call of `read` puts into its place is a sequence.
pub fn read_is_a_sequence()
    ensures { ReadIsASequence }
{}

/// A text that is read, written and read again gives the same records.
pub fn read_again()
    ensures { ReadAgain }
{}

/// The row that a refused text names is its first bad one, and what is said of it is what is wrong with that row.
pub fn refused_for_the_first_bad_row()
    ensures { RefusedForTheFirstBadRow }
{}
