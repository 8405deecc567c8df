// "All counts, masks, stages and numbers lie in the ranges above." Of the stages nothing is left to test: they are an enum.
ghost use Rattle.std.specs.Prelude.{◌≡◌};
ghost use Rattle.whole.specs.Whole.{counts_sound, mask_sound, masks_sound, entry_sound, row_sound, flight_sound, notes_sound};

use group::{Group, Tables};

pub fn counts_sound(nodes: u8, cells: u8) -> bool
    ensures { result ≡ counts_sound nodes cells }
{
    1 <= nodes && nodes <= 8 && 1 <= cells && cells <= 32
}

// Some node, and none outside the run. A mask has a bit for each of eight nodes.
#[tactic(auto, using(crate::proofs::Laws::shifted_out, crate::proofs::Laws::below_power))]
fn mask_sound(g: &Group, c: u8) -> bool
    ensures { result ≡ mask_sound g.now.nodes g.now.masks c }
{
    let mask = tables::at(&g.masks, usize::from(c), 0);
    0 < mask && (8 <= g.nodes || mask >> g.nodes == 0)
}

pub fn masks_sound(g: &Group) -> bool
    ensures { result ≡ masks_sound g.now.nodes g.now.cells g.now.masks }
{
    (0..g.cells).all(|c| mask_sound(g, c))
}

// A tag that there is; a number only where the entry is unfinished; nothing at a node outside the run.
#[tactic(auto, unfolding(crate::specs::Whole::entry_sound))]
fn entry_sound(nodes: u8, tables: &Tables, t: u8, n: u8) -> bool
    ensures { result ≡ entry_sound nodes tables.now.flight t n }
{
    let k = tables.tag(t, n);
    k <= group::FINISHED
        && (tables.unfinished(t, n) || tables.number(t, n) == 0)
        && (n < nodes || k == group::IDLE)
}

fn row_sound(nodes: u8, tables: &Tables, t: u8) -> bool
    ensures { result ≡ row_sound nodes tables.now.flight t }
{
    (0..8).all(|n| entry_sound(nodes, tables, t, n))
}

pub fn flight_sound(nodes: u8, tables: &Tables) -> bool
    ensures { result ≡ flight_sound nodes tables.now.flight }
{
    (0..32).all(|t| row_sound(nodes, tables, t))
}

// Nothing, or one more than a value.
pub fn notes_sound(table: &[u64; 1024]) -> bool
    ensures { result ≡ notes_sound table.now }
{
    table.iter().all(|x| *x <= 4294967296)
}
