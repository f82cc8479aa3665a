//! Where a text is no JSON any more.
ghost use Rattle.std.specs.Prelude.{◌≡◌, None, IfSome};
ghost use Rattle.desk_wire.specs.Values.{parsed};

use serde_json::Value;
use std::alloc::Global;

/// The byte, counted from 1, at which the reader of JSON stopped in a text that isn't JSON, or the one behind the last where
/// the text ends too early: which it is the reader's own error says, of which no clause speaks. None where the text is JSON,
/// and where there is no memory.
#[tactic(auto, using(crate::proofs::Parsed::parsed_none))]
pub fn json_stop(alloc: Global, bytes: &[u8]) -> Option<usize>
    ensures { IfSome result (λ at. parsed bytes.now ≡ None) }
{
    match Value::from_slice(alloc, bytes) {
        Ok(_) => None,
        Err(e) => {
            if e.is_memory() {
                None
            } else if e.is_eof() {
                // Where the text ends too early, its reader tells the last byte that it has read.
                Some(e.column().saturating_add(1))
            } else {
                Some(e.column())
            }
        }
    }
}
