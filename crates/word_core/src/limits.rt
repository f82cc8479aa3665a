//! The limits of a shop.
ghost use Rattle.std.specs.Prelude.{◌≡◌, ◌≤◌, ◌↔◌, IsSome, IfSome};

/// The largest limit that a shop may have.
pub const MOST: u64 = 10_000_000_000;

/// How many row numbers and how many history entries a shop may use, each 1 to 10,000,000,000.
#[derive(Clone, Copy, Debug)]
pub struct Limits {
    pub numbers: u64,
    pub entries: u64,
    pub ghost numbers_in: { 1 ≤ numbers },
    pub ghost numbers_within: { numbers ≤ 10000000000 },
    pub ghost entries_in: { 1 ≤ entries },
    pub ghost entries_within: { entries ≤ 10000000000 },
}

impl Limits {
    ghost use Rattle.word_core.specs.Counter.{IsLimit};

    /// The largest limits.
    pub const LARGEST: Limits = Limits {
        numbers: MOST,
        entries: MOST,
    };

    /// Limits from outside: none where one is out of its range.
    pub fn new(numbers: u64, entries: u64) -> Option<Limits>
        ensures fits { IsSome result ↔ (IsLimit numbers × IsLimit entries) }
        ensures value { IfSome result (λ l. (l.numbers ≡ numbers) × (l.entries ≡ entries)) }
    {
        if numbers < 1 || numbers > MOST || entries < 1 || entries > MOST {
            return None;
        }
        Some(Limits { numbers, entries })
    }
}
