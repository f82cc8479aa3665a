//! The file that a desk's database is.

/// The file of a database that is open. It can be taken away meanwhile, and another be put in its place: what is kept
/// then, nobody finds at the path. What lies there is known to no clause.
pub trait HeldFile {
    /// Its name, as it is told.
    fn name(&self) -> &str;

    /// Whether the file that was opened still lies at its path.
    fn is_in_place(&self) -> bool;
}
