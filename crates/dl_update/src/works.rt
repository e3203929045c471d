//! Room for the fills of all families after an edit.

ghost use Rattle.dl_fill.specs.Families.{HasPlaces};
ghost use Rattle.dl_definite.specs.Definite.{definite_table};
ghost use Rattle.dl_block.specs.Block.{block_table};
ghost use Rattle.dl_prop.specs.Propagation.{propagation_table};

use crate::places::sum_of;
use dl_base::Memory;
use dl_block::BlockGates;
use dl_definite::DefiniteGates;
use dl_fill::FillRoom;
use dl_graph::Graph;
use dl_prop::PropGates;
use std::alloc::Global;

/// What the fills work with.
#[derive(Drop)]
pub(crate) struct Works {
    pub definite: FillRoom,
    pub blocking: FillRoom,
    pub pair: FillRoom,
    /// All have room for so many rules, and for so many names.
    places: usize,
    ghost definite_places: { HasPlaces definite_table places places definite },
    ghost blocking_places: { HasPlaces block_table places places blocking },
    ghost pair_places: { HasPlaces propagation_table places places pair },
}

impl Works {
    ghost use Rattle.std.specs.Prelude.{OnOk, ◌+◌, length};
    ghost use Rattle.dl_update.specs.Room.{HasRoom};

    /// No room.
    pub fn make(alloc: Global) -> Works {
        Works {
            definite: FillRoom::make(alloc, &DefiniteGates),
            blocking: FillRoom::make(alloc, &BlockGates),
            pair: FillRoom::make(alloc, &PropGates),
            places: 0,
        }
    }

    /// Room for so many rules and names at least. Where there is none it is doubled, and the first has an eighth to spare, so that edits which
    /// name new literals seldom make room. `Memory` where there is none for that.
    fn reserve(&mut self, rules: usize, names: usize) -> Result<(), Memory>
        ensures { OnOk result (HasRoom rules names self.new) }
    {
        let most = rules.max(names);
        if most <= self.places {
            return Ok(());
        }
        let places = most
            .saturating_add(most / 8)
            .max(self.places.saturating_mul(2));
        self.definite.reserve(places, places)?;
        self.blocking.reserve(places, places)?;
        self.pair.reserve(places, places)?;
        self.places = places;
        Ok(())
    }

    /// Room for the fills after an edit of a graph's theory, which adds one number of a rule at most. `Memory` where there is none for that.
    // The first edit of a draft pays for all of it, and later ones find it there: with 1,000,000 rules over 2,000,000 names it takes 230 MiB
    // and a fifth of a second.
    pub fn reserve_edit(&mut self, net: &Graph<'_>, names: usize) -> Result<(), Memory>
        ensures { OnOk result (HasRoom (length net.now.rules + 1) names self.new) }
    {
        let rules = sum_of(net.rule_numbers(), 1)?;
        self.reserve(rules, names)
    }
}
