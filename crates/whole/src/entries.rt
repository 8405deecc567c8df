// "A voting or committed writer has flight entries other than nothing at exactly the holders of its read and written cells; an aborted
// transaction has these or none; all others have none. A voting transaction has a write and nothing learned. A committed writer has no
// prepare sent, no no-vote and no unfinished number above its final one; only it has entries to apply, with that number."
ghost use Rattle.std.specs.Prelude.{◌≡◌};
ghost use Rattle.tables.specs.Loop.{every};
ghost use Rattle.group.specs.State.{stage_number, writer};
ghost use Rattle.whole.specs.Whole.{spread_at, spread as is_spread, empty as is_empty, spread_sound, unlearned_at, voting_sound, final_at, unapplying_at, committed_sound};

use group::{Group, Slot, Stage, Tables};

// An entry other than nothing where the node is involved, and nowhere else.
#[tactic(auto, using(crate::proofs::Laws::beq_same))]
fn spread_at(g: &Group, tables: &Tables, t: u8, n: u8) -> bool
    ensures { result ≡ spread_at g.now.cells g.now.masks tables.now.flight tables.now.writes tables.now.reads t n }
{
    (group::SENT <= tables.tag(t, n)) == tables.involved(g, t, n)
}

fn spread(g: &Group, tables: &Tables, t: u8) -> bool
    ensures { result ≡ is_spread g.now.nodes g.now.cells g.now.masks tables.now.flight tables.now.writes tables.now.reads t }
{
    (0..g.nodes).all(|n| spread_at(g, tables, t, n))
}

fn empty(nodes: u8, tables: &Tables, t: u8) -> bool
    ensures { result ≡ is_empty nodes tables.now.flight t }
{
    (0..nodes).all(|n| tables.tag(t, n) == group::IDLE)
}

// Which of the two a transaction has to have, by its stage.
pub(crate) fn spread_sound(g: &Group, tables: &Tables, stage: Stage, t: u8) -> bool
    ensures { result ≡ spread_sound (stage_number stage) (writer g.now.cells tables.now.writes t) (is_spread g.now.nodes g.now.cells g.now.masks tables.now.flight tables.now.writes tables.now.reads t) (is_empty g.now.nodes tables.now.flight t) }
{
    match stage {
        Stage::Voting => spread(g, tables, t),
        Stage::Committed(_) if tables.writer(g, t) => spread(g, tables, t),
        Stage::Aborted => spread(g, tables, t) || empty(g.nodes, tables, t),
        _ => empty(g.nodes, tables, t),
    }
}

fn unlearned(nodes: u8, tables: &Tables, t: u8) -> bool
    ensures { result ≡ every nodes (unlearned_at tables.now.flight t) }
{
    (0..nodes).all(|n| tables.tag(t, n) < group::TO_APPLY)
}

#[tactic(auto, unfolding(crate::specs::Whole::voting_sound))]
pub(crate) fn voting_sound(g: &Group, tables: &Tables, slot: Slot, t: u8) -> bool
    ensures { result ≡ voting_sound g.now.nodes g.now.cells slot tables.now.flight tables.now.writes t }
{
    match slot.stage {
        Stage::Voting => tables.writer(g, t) && unlearned(g.nodes, tables, t),
        _ => true,
    }
}

// Neither sent nor voted no; no unfinished number above the final one; to apply only with that.
fn final_at(last: u32, tables: &Tables, t: u8, n: u8) -> bool
    ensures { result ≡ final_at last tables.now.flight t n }
{
    let k = tables.tag(t, n);
    let x = tables.number(t, n);
    (k < group::SENT || group::VOTED_YES <= k)
        && (!tables.unfinished(t, n) || x <= last)
        && (k != group::TO_APPLY || x == last)
}

fn finals(nodes: u8, last: u32, tables: &Tables, t: u8) -> bool
    ensures { result ≡ every nodes (final_at last tables.now.flight t) }
{
    (0..nodes).all(|n| final_at(last, tables, t, n))
}

fn unapplying(nodes: u8, tables: &Tables, t: u8) -> bool
    ensures { result ≡ every nodes (unapplying_at tables.now.flight t) }
{
    (0..nodes).all(|n| tables.tag(t, n) != group::TO_APPLY)
}

#[tactic(auto, unfolding(crate::specs::Whole::committed_sound))]
pub(crate) fn committed_sound(g: &Group, tables: &Tables, slot: Slot, t: u8) -> bool
    ensures { result ≡ committed_sound g.now.nodes g.now.cells slot tables.now.flight tables.now.writes t }
{
    match slot.stage {
        Stage::Committed(k) if tables.writer(g, t) => finals(g.nodes, k, tables, t),
        _ => unapplying(g.nodes, tables, t),
    }
}
