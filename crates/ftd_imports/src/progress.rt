//! How far an import is.

/// Told how far an import is. What it does with that changes nothing of the import.
pub trait Progress {
    /// So many records of so many are done. Told after each list of records that was posted.
    fn tell(&mut self, done: usize, all: usize);

    /// The records are at their end, or the import stopped among them: no more is told.
    fn end(&mut self);
}

/// Shows nobody how far an import is.
#[derive(Clone, Copy, Debug)]
pub struct Quiet;

impl Progress for Quiet {
    fn tell(&mut self, _done: usize, _all: usize) {}

    fn end(&mut self) {}
}
