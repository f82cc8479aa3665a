//! What comes of sending a request with a key again.
//!
//! A clerk who lost an answer sends the request once more. These laws say what that does, over the machine's own steps
//! and runs. Nothing is said of a request that was refused: sent again, it may be accepted.
ghost use Rattle.desk_core.specs.Repeats.{KeptKeysChangeNothing, LaterRepeatsChangeNothing, RepeatsCanBeLeftOut};
ghost use Rattle.desk_core.specs.Repeats.{RepeatsChangeNothing, SendingAgainEndsAlike};

/// The law that a later repeat of an accepted request gets its answer and changes nothing, wherever it stands in a
/// list.
#[tactic(auto, using(crate::proofs::Again::later_repeat))]
pub fn later_repeats_change_nothing()
    ensures { LaterRepeatsChangeNothing }
{}

/// The law that such a repeat, taken out of the list, leaves the last state and the other outcomes as they were.
pub fn repeats_can_be_left_out()
    ensures { RepeatsCanBeLeftOut }
{}

/// The law that a list of accepted requests, each with a key, ends in the same state with the same outcomes when it is
/// run again.
#[tactic(auto, using(crate::proofs::Again::repeats))]
pub fn repeats_change_nothing()
    ensures { RepeatsChangeNothing }
{}

/// The law that a list whose first requests have keys and were accepted before a stop can be sent again whole: it ends
/// as the list would have ended without the stop, with its outcomes. Nothing else was accepted in between.
#[tactic(auto, using(crate::proofs::Again::sending_again))]
pub fn sending_again_ends_alike()
    ensures { SendingAgainEndsAlike }
{}

/// The law that a request under a key for which an answer is kept changes nothing, whatever its command: it is told that
/// answer where the command is the same, else KeyTaken.
#[tactic(auto, using(crate::proofs::Again::kept_key))]
pub fn kept_keys_change_nothing()
    ensures { KeptKeysChangeNothing }
{}
