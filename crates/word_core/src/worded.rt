//! Values that have words. A word stands in the code once, where a value gives it: it is read by going over
//! all values.
ghost use Rattle.std.specs.Prelude.{◌≡◌, Some, List, ℕ};
ghost use Rattle.word_core.specs.Named.{named};

/// Values each of which has a word of its own.
pub trait Worded: Copy + 'static {
    ghost word_of: { Self → List ℕ };

    ghost all_of: { List Self };

    /// All values.
    fn all() -> &'static [Self]
        ensures { result.now ≡ all_of };

    /// The value's word, as a clerk writes it.
    fn word(self) -> &'static str
        ensures { result.now ≡ word_of self };

    /// A value's word is read as the value.
    ghost told: { (x : Self) → named word_of all_of (word_of x) ≡ Some x };
}

/// The value of that word.
pub fn named<W: Worded>(word: &str) -> Option<W>
    ensures { result ≡ named W.word_of W.all_of word.now }
{
    for value in W::all() {
        let value = *value;
        if word == value.word() {
            return Some(value);
        }
    }
    None
}
