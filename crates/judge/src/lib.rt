// Is a state whole? Here what the paper says of chains and of unfinished entries, and all its sentences together. Any state may be handed in.
#![tactic(auto)]

mod chains;
mod pending;

ghost use Rattle.std.specs.Prelude.{◌≡◌};
ghost use Rattle.group.specs.State.{state_of};
ghost use Rattle.whole.specs.Whole.{whole as whole_of};

use group::{Group, Tables};

// Of any state whatever.
#[tactic(auto, unfolding(whole::specs::Whole::whole, whole::specs::Whole::transaction_sound))]
pub fn whole(g: &Group, tables: &Tables) -> bool
    ensures { result ≡ whole_of (state_of g.now tables.now) }
{
    whole::counts_sound(g.nodes, g.cells)
        && whole::masks_sound(g)
        && whole::flight_sound(g.nodes, tables)
        && whole::notes_sound(&tables.writes)
        && whole::notes_sound(&tables.reads)
        && whole::transactions_sound(g, tables)
        && chains::chains_sound(g, &tables.chains)
        && pending::nodes_sound(g, tables)
}
