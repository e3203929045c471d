//! What a family brings to the fills.

ghost use Rattle.std.specs.Prelude.{◌≡◌};
ghost use Rattle.dl_fill.specs.Families.{FamilyTable, IsSound};

use crate::basis::Basis;
use crate::whole_run::Gates;
use crate::wire::Wire;
use dl_lit::{Family, Tag};

/// The gates of the families that are filled together, with the table of their kinds and wires.
// The methods give constants, and are inlined always: so a fill of a family is built for these, and no node costs a look at its table.
pub trait FamilyGates: Gates {
    /// The table.
    ghost table: { FamilyTable };

    /// How many kinds of nodes there are. What fires by the table is exactly what follows: so says each family, in the proof of this.
    fn width(&self) -> usize
        ensures width { result ≡ table.width }
        ensures sound { IsSound table (Self.tells self.now) };

    /// How many of them are those of literals.
    fn literals(&self) -> usize
        ensures { result ≡ table.literals };

    /// The wires between the nodes.
    fn wires(&self) -> &'static [Wire]
        ensures { result.now ≡ table.wires };

    /// The tags that the kinds of a literal stand for.
    fn tags(&self) -> &'static [Option<Tag>]
        ensures { result.now ≡ table.tags };

    /// What their gates read of the definite family.
    fn bases(&self) -> &'static [Basis]
        ensures { result.now ≡ table.bases };

    /// Whether the family is filled.
    fn fills(&self, family: Family) -> bool
        ensures { result ≡ table.fills family };

    /// The kind of a literal's node for a family that is filled, and a sign.
    fn node_kind(&self, family: Family, plus: bool) -> usize
        ensures { result ≡ table.kind family plus };
}
