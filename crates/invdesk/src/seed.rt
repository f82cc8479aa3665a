//! What the hashes of a run begin with.
use part_core::Seed;
use std::hash::RandomState;
use std::random::RandomSource;

/// What the hashes of this run begin with, drawn anew. Where the system has nothing random to give, hashes are those that
/// anyone can work out.
pub fn seed_of<R: RandomSource>(rt: &R) -> Seed {
    match RandomState::new(rt) {
        Ok(state) => Seed::from(state),
        Err(_) => Seed::new(0),
    }
}
