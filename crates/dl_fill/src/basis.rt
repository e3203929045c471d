//! What gates read of the definite family.

/// What the gate of a literal's node reads of the definite family.
#[derive(Clone, Copy)]
pub enum Basis {
    /// That the literal is concluded; where it is not, that each literal that attacks it is refuted.
    Prevailing,
    /// That the literal is refuted, and that a literal that attacks it is concluded, where one is.
    Failing,
    /// That the literal is concluded, where it is.
    Sure,
    /// That the literal is refuted.
    Unsure,
    /// Nothing.
    Nothing,
}
