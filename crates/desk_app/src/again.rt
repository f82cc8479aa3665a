//! What comes of sending lines or a file again.
ghost use Rattle.desk_app.specs.LinesAgain.{LinesSentAgainEndAlike};
ghost use Rattle.desk_app.specs.SentAgain.{FilesSentAgainChangeNothing};
ghost use Rattle.desk_app.specs.SheetsAgain.{SheetsSentAgainChangeNothing, TextsAreLines, TextsRunAlike};

use desk_core::later_repeats_change_nothing;
use desk_wire::{lines_ask_under_keys, sheets_are_lines};

/// The law that lines can be sent again after a stop: where it left the first of them, and each of these but blank ones
/// has a key and was accepted, the whole text ends as it would have ended without the stop, with its answers. Nothing
/// else was run in between. A line that names rows has to name the same ones when it is sent again. Nothing is said of
/// a line that was refused: sent again, it may be accepted.
pub fn lines_sent_again_end_alike()
    ensures { LinesSentAgainEndAlike }
{
    later_repeats_change_nothing();
}

/// The law that a file whose rows were all answered can be sent again: under the same document it is told
/// the same report, with nothing refused, and changes nothing, on whatever day, and whatever was run in
/// between. Nothing is said of a row that was refused: sent again, it may be answered.
pub fn files_sent_again_change_nothing()
    ensures { FilesSentAgainChangeNothing }
{
    later_repeats_change_nothing();
}

/// The law that a file of a command whose records were all accepted can be sent again: it changes nothing, and is
/// answered as it was. Nothing else was run in between, and what it calls rows is still what they are called. Nothing
/// is said of a record that was refused: sent again, it may be accepted.
pub fn sheets_sent_again_change_nothing()
    ensures { SheetsSentAgainChangeNothing }
{
    lines_sent_again_end_alike();
    lines_ask_under_keys();
}

/// The law that line n of the text that a file of a command is, as a run takes its lines, is record n.
pub fn texts_are_lines()
    ensures { TextsAreLines }
{
    sheets_are_lines();
}

/// The law that the text of a file is run by itself, with names and looked at first, as the file is imported: the lines
/// are run where they are then, and the faults that are told are the same. Of a text of more than 16,777,216 bytes such
/// a run tells that it is too long.
pub fn texts_run_alike()
    ensures { TextsRunAlike }
{}
