//! How one number of a net leads to others.

/// A way from literals or rules to literals or rules.
#[derive(Clone, Copy, Debug, PartialEq, Eq)]
pub enum Link {
    /// To itself.
    Same,
    /// From a literal to the rules whose bodies use it, each once.
    Uses,
    /// From a strict or defeasible rule to its head.
    Backs,
    /// From a strict rule to its head.
    Proves,
    /// From a rule to the literals that its head attacks.
    Opposes,
    /// From a strict or defeasible rule to the rules for what attacks its head to which it is superior.
    Defends,
    /// From a rule to the rules for what attacks its head to which it is superior.
    Counters,
}
