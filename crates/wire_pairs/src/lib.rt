// The pairs of an environment and the store that keeps them: definitions, and what holds of them. `wire_storing` reads and writes stores.
#![tactic(auto)]

ghost use Rattle.wire_pairs.specs.Holds.{StoreHolds};
ghost use Rattle.wire_pairs.specs.StoreCases.{StoreCases};

// No work: its contract is what holds of the store, so that the crate is proved only with it.
pub fn store_holds()
    ensures { StoreHolds }
{}

// No work: its contract is that stores whose bytes are written out are what the paper says.
pub fn store_cases()
    ensures { StoreCases }
{}
