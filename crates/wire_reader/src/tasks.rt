//! Two pieces of work that are done side by side.

use std::thread::{Threads, join};

/// Work that one thread does. A closure in its place would tell `join` nothing: what it holds names a lifetime.
pub(crate) trait Task {
    /// What comes of it.
    type Output;

    /// What it needs.
    ghost needs: { Self → Type 0 };

    /// What it says of what comes of it.
    ghost gives: { Self → Self.Output → Type 0 };

    /// Does it.
    fn run(self) -> Self::Output
        requires { needs self }
        ensures { gives self result };
}

/// Does both: the first in a new thread, or last where none can be made.
pub(crate) fn run_both<
    R: Threads,
    S: Task<Output = A> + Send + Drop,
    T: Task<Output = B> + Drop,
    A: Send,
    B,
>(rt: &R, first: S, second: T) -> (A, B)
    requires first { S.needs first }
    requires second { T.needs second }
    ensures first { S.gives first result.0 }
    ensures second { T.gives second result.1 }
{
    join(
        rt,
        move || -> A
            requires { S.needs first }
            ensures { S.gives first result }
        { first.run() },
        move || -> B
            requires { T.needs second }
            ensures { T.gives second result }
        { second.run() },
    )
}
