// "Origins and asked nodes are in the run, and an asked node holds its cell. Only update transactions have writes. Served reads have an s,
// read cells a fixed snapshot." That a served read has an s is its type.
ghost use Rattle.std.specs.Prelude.{◌≡◌};
ghost use Rattle.group.specs.State.{is_fixed};
ghost use Rattle.whole.specs.Whole.{asked_sound, places_sound, set_sound, sets_sound, slot_sound};

use group::{Group, Slot, Stage, Tables};

fn asked_sound(g: &Group, n: u8, c: u8) -> bool
    ensures { result ≡ asked_sound g.now.nodes g.now.cells g.now.masks n c }
{
    n < g.nodes && c < g.cells && g.holds(n, c)
}

#[tactic(auto, unfolding(crate::specs::Whole::places_sound))]
fn places_sound(g: &Group, slot: Slot) -> bool
    ensures { result ≡ places_sound g.now.nodes g.now.cells g.now.masks slot }
{
    slot.origin < g.nodes
        && match slot.stage {
            Stage::Asking(a) => asked_sound(g, a.node, a.cell),
            Stage::Served(v) => asked_sound(g, v.node, v.cell),
            _ => true,
        }
}

// One cell: written only by an update transaction, read only at a fixed snapshot, and neither outside the run.
fn set_sound(g: &Group, tables: &Tables, slot: Slot, t: u8, c: u8) -> bool
    ensures { result ≡ set_sound g.now.cells slot.update (is_fixed slot.snapshot) tables.now.writes tables.now.reads t c }
{
    let inside = c < g.cells;
    (!tables.wrote(t, c) || (slot.update && inside))
        && (!tables.has_read(t, c) || (slot.snapshot.is_some() && inside))
}

fn sets_sound(g: &Group, tables: &Tables, slot: Slot, t: u8) -> bool
    ensures { result ≡ sets_sound g.now.cells slot tables.now.writes tables.now.reads t }
{
    (0..32).all(|c| set_sound(g, tables, slot, t, c))
}

// An unused slot has no origin and no sets to judge.
#[tactic(auto, unfolding(crate::specs::Whole::slot_sound))]
pub(crate) fn slot_sound(g: &Group, tables: &Tables, slot: Slot, t: u8) -> bool
    ensures { result ≡ slot_sound g.now.nodes g.now.cells g.now.masks slot tables.now.writes tables.now.reads t }
{
    match slot.stage {
        Stage::Unused => true,
        _ => places_sound(g, slot) && sets_sound(g, tables, slot, t),
    }
}
