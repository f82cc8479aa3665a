//! What the books can be relied on for; what names of rows can be; and what a file may count on: which rows go, which
//! numbers there are, and what stands under keys.
//!
//! These functions do nothing when they are run, and are called for their contracts alone.
ghost use Rattle.desk_core.specs.Assembled.{AreKeys};
ghost use Rattle.desk_core.specs.Books.{RefusalsChangeNothing, RunsStaySound, SoundBooksAreInOrder, StepsStaySound};
ghost use Rattle.desk_core.specs.NamesStay.{LeftItemsAreNamed, NamesStay, NamesStayInRuns};
ghost use Rattle.desk_core.specs.Small.{RowsAreSmall};
ghost use Rattle.desk_core.specs.Staying.{RowsStay};

use crate::kept::Kept;

/// The law that in a sound state the books are in order: the three equations hold for each part, no item is allocated
/// beyond its quantity, no serial stands twice in a family, no part contains itself, and no number is drawn beyond the
/// limit.
pub fn sound_books_are_in_order()
    ensures { SoundBooksAreInOrder }
{}

/// The law that a sound state steps to a sound state, whatever is asked for, and that a list of requests leads to one.
/// Keys are words of 1 to 80 visible characters: no request that was read has another.
pub fn steps_stay_sound()
    ensures step { StepsStaySound }
    ensures run { RunsStaySound }
{}

/// The law that a refused request changes nothing, in whatever state.
pub fn refusals_change_nothing()
    ensures { RefusalsChangeNothing }
{}

/// The law that no step takes a row away but of lines, substitutes and allocations: so a file drops rows of these
/// tables alone.
pub fn rows_stay()
    ensures { RowsStay }
{}

/// The law that what is one row's name stays that row's, and so does the key of a request that made one row, in a step
/// from a sound state and over a list of requests: so what a line calls by a name or a key is the same row when the line
/// is sent again. The serial of an item that is gone may be another's later: a line that names an item may then be
/// another command, and under its key it changes nothing (`kept_keys_change_nothing`).
pub fn names_stay()
    ensures step { NamesStay }
    ensures run { NamesStayInRuns }
{}

/// The law that in a sound state an item that isn't gone is the one that its part and its serial name, whatever had the
/// serial before.
pub fn left_items_are_named()
    ensures { LeftItemsAreNamed }
{}

/// The law that in a sound state each number of a row is below 2 to the 63, as the signed numbers of a file are.
pub fn rows_are_small()
    ensures { RowsAreSmall }
{}

/// That these rows stand under keys. It goes over them, since a key tells what it is where it is looked at.
pub(crate) fn are_keys(rows: &[Kept])
    ensures { AreKeys rows.now }
{
    for row in rows {
        let _ = row.word.as_str();
    }
}
