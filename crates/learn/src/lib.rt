// Rule D: a node learns what was decided. It moves one node's counters and one slot, which go by value, and the flight table, which the
// caller lends and which is changed where it lies. The refusals come first; then the cut step, which changes no table; then the whole step.
#![tactic(auto)]

ghost use Rattle.std.specs.Prelude.{◌≡◌, ◌&&◌, leb};
ghost use Rattle.tables.specs.Tests.{refusal};
ghost use Rattle.group.specs.State.{sent, voted_yes, tag_at, final_of, with_flight};
ghost use Rattle.group.specs.Answer.{stepped, changed};
ghost use Rattle.learn.specs.Learn.{learn_tests, learn_turn, learn_flight};

use counters::Counters;
use group::{Refusal, Slot, Stage, Tables, Turn};

// A prepare was sent, and the node has learned no decision since.
fn not_learned(tables: &Tables, t: u8, node: u8) -> bool
    ensures { result ≡ (leb sent (tag_at tables.now.flight t node) && leb (tag_at tables.now.flight t node) voted_yes) }
{
    let k = tables.tag(t, node);
    group::SENT <= k && k <= group::VOTED_YES
}

// Rule D. Committed: the entry takes the final number, and the counter rises to it at least. Aborted: the entry is dropped, and a prepare
// that never arrived is void.
#[tactic(auto, unfolding(crate::specs::Learn::learn_tests, crate::specs::Learn::learn_turn, crate::specs::Learn::learn_flight, tables::specs::Tests::refusal))]
pub fn learn(
    cut: bool,
    slot: Slot,
    c: Counters,
    tables: &mut Tables,
    t: u8,
    node: u8,
) -> Result<Turn, Refusal>
    ensures { (result ≡ stepped (refusal (learn_tests slot tables.old.flight t node)) cut slot c (final_of slot.stage) (learn_turn slot c)) × (tables.new ≡ changed (refusal (learn_tests slot tables.old.flight t node)) cut tables.old (with_flight tables.old (learn_flight slot tables.old.flight t node))) }
{
    let committed = match slot.stage {
        Stage::Committed(k) => Some(k),
        Stage::Aborted => None,
        _ => return Err(Refusal::WrongStage),
    };
    if !not_learned(tables, t, node) {
        return Err(Refusal::WrongStage);
    }
    if cut {
        return Ok(group::cut_at(committed.unwrap_or(0), slot, c));
    }
    let Some(k) = committed else {
        tables.enter(t, node, group::FINISHED, 0);
        return Ok(group::done(0, slot, c));
    };
    tables.enter(t, node, group::TO_APPLY, k);
    Ok(group::done(k, slot, c.counted(k)))
}
