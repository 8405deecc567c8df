// What the origin does before the votes and after them: step 6, commit, and step 8, decide. Each moves one slot, which goes by value, and no
// counter; of the tables, which the caller lends, commit changes the flight table, where it lies. The refusals come first, in their order;
// then the cut step, which changes nothing; then the whole step.
#![tactic(auto)]

ghost use Rattle.std.specs.Prelude.{◌≡◌, eqb};
ghost use Rattle.tables.specs.Loop.{any};
ghost use Rattle.tables.specs.Tests.{refusal};
ghost use Rattle.group.specs.State.{tag_at, writer, at_stage, with_flight};
ghost use Rattle.group.specs.Answer.{turn, stepped, changed};
ghost use Rattle.decide.specs.Decide.{commit_tests, commit_turn, sent_to, commit_flight, decide_tests, proposed as proposed_by, final, decide_turn};

use counters::Counters;
use group::{Answer, Group, Refusal, Slot, Stage, Tables, Turn};

// The slot moves to another stage, and no counter moves.
fn moved(answer: Answer, slot: Slot, stage: Stage, counters: Counters) -> Turn
    ensures { result ≡ turn answer (at_stage slot stage) counters }
{
    Turn {
        answer,
        slot: group::at_stage(slot, stage),
        counters,
    }
}

// ---- step 6, commit

// A prepare is sent to every holder of a read or written cell.
#[tactic(auto, unfolding(crate::specs::Decide::sent_to), using(tables::proofs::Loop::each_none, tables::proofs::Loop::each_next, tables::proofs::Table::put_at))]
fn send(g: &Group, tables: &mut Tables, t: u8)
    ensures { tables.new ≡ with_flight tables.old (sent_to g.now.nodes g.now.cells g.now.masks tables.old.flight tables.old.writes tables.old.reads t) }
{
    for n in 0..g.nodes {
        if tables.involved(g, t, n) {
            tables.enter(t, n, group::SENT, 0);
        }
    }
}

// Step 6. No writes: committed, number 0. Else a prepare is sent to every holder of a read or written cell.
#[tactic(auto, unfolding(crate::specs::Decide::commit_turn, crate::specs::Decide::commit_flight, tables::specs::Tests::refusal))]
pub fn commit(
    cut: bool,
    slot: Slot,
    c: Counters,
    g: &Group,
    tables: &mut Tables,
    t: u8,
) -> Result<Turn, Refusal>
    ensures { (result ≡ stepped (refusal (commit_tests slot)) cut slot c 0 (commit_turn slot c (writer g.now.cells tables.old.writes t))) × (tables.new ≡ changed (refusal (commit_tests slot)) cut tables.old (with_flight tables.old (commit_flight g.now.nodes g.now.cells g.now.masks tables.old.flight tables.old.writes tables.old.reads t))) }
{
    let Stage::Open = slot.stage else {
        return Err(Refusal::WrongStage);
    };
    if cut {
        return Ok(group::cut_still(slot, c));
    }
    if tables.writer(g, t) {
        send(g, tables, t);
        return Ok(moved(Answer::Done(0), slot, Stage::Voting, c));
    }
    Ok(moved(Answer::Committed(0), slot, Stage::Committed(0), c))
}

// ---- step 8, decide

// Has some node an entry with that tag.
fn tagged(nodes: u8, tables: &Tables, t: u8, tag: u32) -> bool
    ensures { result ≡ any nodes (λ n. eqb (tag_at tables.now.flight t n) tag) }
{
    (0..nodes).any(|n| tables.tag(t, n) == tag)
}

// What a node proposed; 0, which is below every proposal, where it has no yes vote.
fn proposed(tables: &Tables, t: u8, node: u8) -> u32
    ensures { result ≡ proposed_by tables.now.flight t node }
{
    if tables.tag(t, node) == group::VOTED_YES {
        tables.number(t, node)
    } else {
        0
    }
}

fn final_number(nodes: u8, tables: &Tables, t: u8) -> u32
    ensures { result ≡ final nodes tables.now.flight t }
{
    (0..nodes)
        .map(|n| proposed(tables, t, n))
        .max()
        .unwrap_or(0)
}

// Step 8. A no vote: aborted. All voted yes: committed with the largest proposal.
#[tactic(auto, unfolding(crate::specs::Decide::decide_tests, crate::specs::Decide::decide_turn, crate::specs::Decide::refused_by, crate::specs::Decide::lacking, tables::specs::Tests::refusal))]
pub fn decide(
    cut: bool,
    slot: Slot,
    c: Counters,
    g: &Group,
    tables: &Tables,
    t: u8,
) -> Result<Turn, Refusal>
    ensures { result ≡ stepped (refusal (decide_tests slot g.now.nodes tables.now.flight t)) cut slot c 0 (decide_turn slot c g.now.nodes tables.now.flight t) }
{
    let Stage::Voting = slot.stage else {
        return Err(Refusal::WrongStage);
    };
    let no = tagged(g.nodes, tables, t, group::VOTED_NO);
    let lacks = tagged(g.nodes, tables, t, group::SENT);
    // one no is enough; else every vote is needed
    if lacks && !no {
        return Err(Refusal::VoteLacks);
    }
    if cut {
        return Ok(group::cut_still(slot, c));
    }
    if no {
        return Ok(moved(Answer::Aborted, slot, Stage::Aborted, c));
    }
    let k = final_number(g.nodes, tables, t);
    Ok(moved(Answer::Committed(k), slot, Stage::Committed(k), c))
}
