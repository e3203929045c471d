//! Answers with their certificates, from a theory by numbers and its marks.
//!
//! The marks tell the verdict. What matters for the literal is gathered first: the literals behind it, along attackers and the
//! bodies of rules. The part of the theory that bears on these is cut out: their facts, the rules for them, and the pairs between
//! rules whose heads attack each other. Of these literals just the same follows in the part as in the whole. So the part
//! becomes a net of its own, with the marks that its literals have in the whole, and the certificate is made there, at the cost
//! of the part and not of the whole net. Where a good part of the net matters, the net itself serves. Where neither tag follows,
//! the certificate is the gap, in order. Else the counters of the families run over what matters: the order in which their nodes
//! fire is a derivation.
#![tactic(auto)]

mod adding;
mod answer;
mod back;
mod below;
mod copied;
mod found;
mod gap;
mod leading;
mod part;
mod run;
mod steps;
mod sure;
mod unnumbered;
mod wanted;
mod way;
mod whole;

pub use answer::certify;
