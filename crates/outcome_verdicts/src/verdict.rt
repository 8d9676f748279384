//! Whether a serial order of the transactions has an outcome.

/// Which serial order of the transactions has an outcome, if one has. An order names the session of each transaction.
#[derive(Drop)]
pub enum Verdict {
    /// This serial order has it.
    Serial(Vec<u32>),
    /// None has it. Transactions of these sessions failed, and this order of the others has the outcome but for them.
    RestSerial { failed: Vec<u32>, rest: Vec<u32> },
    /// None has it, with or without the transactions that failed.
    NotSerial,
    /// None has it, and one that failed can't be left out: this step of it is part of another transaction too.
    Untold { session: u32, step: u32 },
}
