// "At one node no two unfinished entries share a number, and each is above the newest version of every cell it will write there, whose
// chain has room."
ghost use Rattle.std.specs.Prelude.{◌≡◌};
ghost use Rattle.tables.specs.Loop.{every};
ghost use Rattle.whole.specs.Whole.{differ_at, fits_at, pending_sound, node_sound};

use group::{Group, Tables};

fn differ_at(tables: &Tables, n: u8, t: u8, u: u8) -> bool
    ensures { result ≡ differ_at tables.now.flight n t u }
{
    !tables.unfinished(u, n) || tables.number(u, n) != tables.number(t, n)
}

// No transaction before t has t's number here.
fn differ(tables: &Tables, n: u8, t: u8) -> bool
    ensures { result ≡ every t (differ_at tables.now.flight n t) }
{
    (0..t).all(|u| differ_at(tables, n, t, u))
}

// One cell that t writes with the number x and that is held here.
fn fits_at(g: &Group, tables: &Tables, n: u8, t: u8, x: u32, c: u8) -> bool
    ensures { result ≡ fits_at g.now.masks tables.now.chains tables.now.writes n t x c }
{
    let written = g.holds(n, c) && tables.wrote(t, c);
    !written || (tables.chains.latest(c, n) < x && tables.chains.room(c, n))
}

fn fits(g: &Group, tables: &Tables, n: u8, t: u8, x: u32) -> bool
    ensures { result ≡ every g.now.cells (fits_at g.now.masks tables.now.chains tables.now.writes n t x) }
{
    (0..g.cells).all(|c| fits_at(g, tables, n, t, x, c))
}

#[tactic(auto, unfolding(whole::specs::Whole::pending_sound))]
fn pending_sound(g: &Group, tables: &Tables, n: u8, t: u8) -> bool
    ensures { result ≡ pending_sound g.now.cells g.now.masks tables.now.flight tables.now.chains tables.now.writes n t }
{
    !tables.unfinished(t, n) || (differ(tables, n, t) && fits(g, tables, n, t, tables.number(t, n)))
}

fn node_sound(g: &Group, tables: &Tables, n: u8) -> bool
    ensures { result ≡ node_sound g.now.cells g.now.masks tables.now.flight tables.now.chains tables.now.writes n }
{
    (0..32).all(|t| pending_sound(g, tables, n, t))
}

// At every node.
pub(crate) fn nodes_sound(g: &Group, tables: &Tables) -> bool
    ensures { result ≡ every g.now.nodes (node_sound g.now.cells g.now.masks tables.now.flight tables.now.chains tables.now.writes) }
{
    (0..g.nodes).all(|n| node_sound(g, tables, n))
}
