//! What the hashes of a run begin with.
//!
//! Whoever sends requests chooses the names, the serials and the keys that are filed by their hashes. Whoever knew how
//! these begin could choose many of one hash, and each look-up would go over all of them. So a run draws what its hashes
//! begin with, and nothing but the time that it takes depends on that: no clause of a sheet or of an index names a seed.
ghost use Rattle.std.specs.Prelude.{◌≡◌};
ghost use Rattle.sheet_core.specs.Indexed.{hash_of, index_key_of};

use std::hash::{BuildHasher, DefaultHasher, Hash, Hasher, RandomState};

/// What hashes begin with. Those that begin with one that was drawn at random can't be foretold.
#[derive(Clone, Copy)]
pub struct Seed {
    begun: DefaultHasher,
}

impl Seed {
    /// The seed of that number, which anyone can make too: for tests, and for tables whose keys nobody chooses.
    pub fn new(number: u64) -> Self {
        let mut begun = DefaultHasher::new();
        begun.write_u64(number);
        Seed { begun }
    }

    /// What a row is filed under that is looked up so: its hash. What differs has another one, but for rare accidents.
    pub fn hash_of<L: Hash + Drop>(&self, lookup: L) -> u64
        ensures { result ≡ hash_of self.now (index_key_of (L.hash_input lookup)) }
    {
        self.hash_one(lookup)
    }
}

/// A seed that was drawn at random.
impl From<RandomState> for Seed {
    fn from(state: RandomState) -> Self {
        Seed {
            begun: state.build_hasher(),
        }
    }
}

impl BuildHasher for Seed {
    type Hasher = DefaultHasher;

    ghost build_hasher = { λ s. s.begun };

    fn build_hasher(&self) -> DefaultHasher {
        self.begun
    }
}
