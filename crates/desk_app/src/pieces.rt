//! Pieces of a line.
ghost use Rattle.std.specs.Prelude.{◌≡◌, ◌≤◌, ◌<◌, ◌+◌, ◌++◌, [], length, take, drop, OnOk, false, true, MatchOption};
ghost use Rattle.desk_app.specs.Cuts.{held, has_end, first_of, rest_of};

use std::alloc::AllocError;

/// Where the first LF stands.
pub fn end_of(piece: &[u8]) -> Option<usize>
    ensures { MatchOption result
        ((has_end piece.now ≡ false) × (first_of piece.now ≡ piece.now) × (rest_of piece.now ≡ []))
        (λ n. (n < length piece.now) × (has_end piece.now ≡ true)
        × (first_of piece.now ≡ take n piece.now) × (rest_of piece.now ≡ drop (n + 1) piece.now)) }
{
    for (i, b) in piece.iter().enumerate() {
        if *b == 10 {
            return Some(i);
        }
    }
    None
}

/// Adds a piece to bytes of which no more than so many are held.
#[tactic(auto, using(crate::proofs::Cutting::all_taken, crate::proofs::Cutting::front_taken))]
pub fn hold_up_to(most: usize, bytes: &mut Vec<u8>, piece: &[u8]) -> Result<(), AllocError>
    requires { length bytes.old.items ≤ most }
    ensures { OnOk result (bytes.new.items ≡ take most (bytes.old.items ++ piece.now)) }
{
    let room = most - bytes.len();
    if piece.len() <= room {
        bytes.extend_from_slice(piece)
    } else {
        bytes.extend_from_slice(&piece[..room])
    }
}

/// Adds a piece to a line, as far as it is held.
#[tactic(auto, unfolding(crate::specs::Cuts::held))]
pub fn hold(line: &mut Vec<u8>, piece: &[u8]) -> Result<(), AllocError>
    requires { length line.old.items ≤ 65537 }
    ensures { OnOk result (line.new.items ≡ held (line.old.items ++ piece.now)) }
{
    hold_up_to(65_537, line, piece)
}
