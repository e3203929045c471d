//! The wires between the nodes of a family, and what a node waits for.

use dl_graph::Link;

/// From each node of one kind to nodes of another kind, where the link leads.
#[derive(Clone, Copy)]
pub struct Wire {
    pub from: usize,
    pub link: Link,
    pub to: usize,
}

/// A table of wires, each by the kind from which it leads, the link, and the kind to which it leads.
#[macro_export]
macro_rules! wires {
    ($(($from:expr, $link:expr, $to:expr)),* $(,)?) => {
        [$($crate::Wire { from: $from, link: $link, to: $to }),*]
    };
}

/// When a node fires.
#[derive(Clone, Copy)]
pub enum Gate {
    /// When each of its inputs has.
    Every,
    /// When some input has.
    Either,
    /// At once.
    Now,
    /// Never.
    Never,
}
