// Is a state whole? The paper's paragraph, a module for each of its sentences: here what it says of counts, masks, transactions and their
// flight entries. Every function takes any state; the counts are tested beside
// the rest, in `judge::whole`.
#![tactic(auto)]

mod entries;
mod ranges;
mod slots;

ghost use Rattle.std.specs.Prelude.{◌≡◌};
ghost use Rattle.tables.specs.Table.{at};
ghost use Rattle.group.specs.State.{no_slot};
ghost use Rattle.whole.specs.Whole.{slot_whole, slots_whole};

pub use crate::ranges::{counts_sound, flight_sound, masks_sound, notes_sound};
use group::{Group, NO_SLOT, Tables};

// All that is said of one transaction.
fn transaction_sound(g: &Group, tables: &Tables, t: u8) -> bool
    ensures { result ≡ slot_whole g.now.nodes g.now.cells g.now.masks (at g.now.slots t no_slot) tables.now.flight tables.now.writes tables.now.reads t }
{
    let slot = tables::at(&g.slots, usize::from(t), NO_SLOT);
    slots::slot_sound(g, tables, slot, t)
        && entries::spread_sound(g, tables, slot.stage, t)
        && entries::voting_sound(g, tables, slot, t)
        && entries::committed_sound(g, tables, slot, t)
}

pub fn transactions_sound(g: &Group, tables: &Tables) -> bool
    ensures { result ≡ slots_whole g.now.nodes g.now.cells g.now.masks g.now.slots tables.now.flight tables.now.writes tables.now.reads }
{
    (0..32).all(|t| transaction_sound(g, tables, t))
}
