// Settling: rule E, apply; step 12, advance. Each moves one node's counters and one slot, which go by value, and tables that the
// caller lends and that are changed where they lie. The refusals come first, in their order; then the cut step, which changes no table; then
// the whole step.
#![tactic(auto)]

ghost use Rattle.std.specs.Prelude.{◌≡◌, ℕ, ◌≤◌, ◌<◌};
ghost use Rattle.tables.specs.Tests.{refusal};
ghost use Rattle.tables.specs.Loop.{any};
ghost use Rattle.group.specs.State.{unfinished, noted, with_flight, with_chains};
ghost use Rattle.group.specs.Answer.{stepped, changed};
ghost use Rattle.settle.specs.Settle.{least as least_of, apply_tests, stored, apply_turn, apply_chains, apply_flight, advance_tests, advance_turn};

use counters::Counters;
use group::{Group, Refusal, Slot, Tables, Turn};

// ---- rule E, apply

// The transaction of the unfinished entry with the least number.
fn least(tables: &Tables, node: u8) -> Option<u8>
    ensures { result ≡ least_of tables.now.flight node }
{
    (0..32)
        .filter(|t| tables.unfinished(*t, node))
        .min_by_key(|t| tables.number(*t, node))
}

// A version with that number for each written cell held here.
#[tactic(auto, unfolding(crate::specs::Settle::stored), using(tables::proofs::Loop::turns_none, tables::proofs::Loop::turns_next))]
fn store(g: &Group, tables: &mut Tables, t: u8, node: u8, number: u32)
    requires { (c : ℕ) → c < g.now.cells → noted tables.old.writes t c ≤ 4294967296 }
    ensures { tables.new ≡ with_chains tables.old (stored g.now.cells g.now.masks tables.old.chains tables.old.writes t node number) }
{
    for c in 0..g.cells {
        let x = group::noted(&tables.writes, t, c);
        if g.holds(node, c) && 0 < x {
            tables.chains.add(c, node, number, (x - 1) as u32);
        }
    }
}

// Rule E. The unfinished entry with the least number, if its decision is learned, is applied: its versions are added, the commit number
// becomes its number, the entry goes.
#[tactic(auto, unfolding(tables::specs::Tests::refusal))]
pub fn apply(
    cut: bool,
    slot: Slot,
    c: Counters,
    g: &Group,
    tables: &mut Tables,
    node: u8,
) -> Result<Turn, Refusal>
    requires { (t c : ℕ) → t < 32 → c < g.now.cells → noted tables.old.writes t c ≤ 4294967296 }
    ensures { (result ≡ stepped (refusal (apply_tests tables.old.flight node)) cut slot c 0 (apply_turn slot c tables.old.flight node)) × (tables.new ≡ changed (refusal (apply_tests tables.old.flight node)) cut tables.old (with_flight (with_chains tables.old (apply_chains g.now.cells g.now.masks tables.old.flight tables.old.chains tables.old.writes node (least_of tables.old.flight node))) (apply_flight tables.old.flight node (least_of tables.old.flight node)))) }
{
    let Some(t) = least(tables, node) else {
        return Err(Refusal::Unsettled);
    };
    if tables.tag(t, node) != group::TO_APPLY {
        return Err(Refusal::Unsettled);
    }
    if cut {
        return Ok(group::cut_still(slot, c));
    }
    let k = tables.number(t, node);
    store(g, tables, t, node, k);
    tables.enter(t, node, group::FINISHED, 0);
    Ok(group::done(k, slot, c.committed(k)))
}

// ---- step 12, advance

// Does the node have an unfinished entry.
fn busy(tables: &Tables, node: u8) -> bool
    ensures { result ≡ any 32 (λ t. unfinished tables.now.flight t node) }
{
    (0..32).any(|t| tables.unfinished(t, node))
}

// Step 12. With nothing unfinished here, the commit number becomes the seen number.
#[tactic(auto, unfolding(crate::specs::Settle::advance_tests, tables::specs::Tests::refusal))]
pub fn advance(
    cut: bool,
    slot: Slot,
    c: Counters,
    tables: &Tables,
    node: u8,
) -> Result<Turn, Refusal>
    ensures { result ≡ stepped (refusal (advance_tests c tables.now.flight node)) cut slot c 0 (advance_turn slot c) }
{
    if busy(tables, node) || c.seen <= c.commit {
        return Err(Refusal::Unsettled);
    }
    if cut {
        return Ok(group::cut_still(slot, c));
    }
    Ok(group::done(0, slot, c.committed(c.seen)))
}
