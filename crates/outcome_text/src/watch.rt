//! Who is told how far the permutations have come.

/// Is told, while permutations run, how many have run.
pub trait Watch {
    /// So many permutations have run.
    fn have_run(&mut self, permutations: u64);
}
