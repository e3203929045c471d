//! The literals whose conclusions an edit can change, by number.
//!
//! An edit changes what follows of its own literals, of what they attack, and of each literal that is reached from these along the
//! rules: from a literal to the heads of the rules that use it, and to what attacks these heads. That is the edit's cone
//! (`Cone` of `dl_theory`). `walk` puts it into a region of a net that has not made the edit yet, at a step for each use of a literal
//! of the cone, however large the rest of the net is. Outside it, what follows is the same before the edit and after it
//! (`what_follows_outside_stays`).
#![tactic(auto)]

mod cone;
mod laws;
mod seeds;

pub use cone::walk;
pub use laws::what_follows_outside_stays;
