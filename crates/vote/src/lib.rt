// Voting: rule C, prepare. It moves one slot and one node's counters, which go by value; of the tables, which the caller lends, the flight
// table alone is changed, where it lies. The refusals come first, in their order; then the cut step, which changes no table; then the
// whole step.
#![tactic(auto)]

ghost use Rattle.std.specs.Prelude.{◌≡◌};
ghost use Rattle.tables.specs.Loop.{any};
ghost use Rattle.tables.specs.Tests.{refusal};
ghost use Rattle.group.specs.State.{with_flight};
ghost use Rattle.group.specs.Answer.{stepped, changed};
ghost use Rattle.vote.specs.Vote.{prepare_tests, bars as is_bar, rival as is_rival, conflict as is_conflict, behind as is_behind, outdated as is_outdated, crammed as is_crammed, full as is_full, reason_number, vote as vote_of, vote_rise, prepare_turn, prepare_flight};

use counters::Counters;
use group::{Answer, Group, Refusal, Slot, Stage, Tables, Turn};

// Why a vote is no: the paper's reasons 1 to 4, in their order.
#[derive(Clone, Copy)]
pub enum Reason {
    Conflict,
    Outdated,
    Full,
    NoNumber,
}

impl Reason {
    fn number(self) -> u32
        ensures { result ≡ reason_number self }
    {
        match self {
            Reason::Conflict => 1,
            Reason::Outdated => 2,
            Reason::Full => 3,
            Reason::NoNumber => 4,
        }
    }
}

// ---- test 1: among cells held here, no other unfinished entry reads or writes one that t writes, nor writes one that t read

#[tactic(auto, unfolding(crate::specs::Vote::bars))]
fn bars(g: &Group, tables: &Tables, t: u8, node: u8, u: u8, cell: u8) -> bool
    ensures { result ≡ is_bar g.now.masks tables.now.writes tables.now.reads t node u cell }
{
    g.holds(node, cell)
        && (tables.wrote(t, cell) && (tables.has_read(u, cell) || tables.wrote(u, cell))
            || tables.has_read(t, cell) && tables.wrote(u, cell))
}

fn meets(g: &Group, tables: &Tables, t: u8, node: u8, u: u8) -> bool
    ensures { result ≡ any g.now.cells (is_bar g.now.masks tables.now.writes tables.now.reads t node u) }
{
    (0..g.cells).any(|cell| bars(g, tables, t, node, u, cell))
}

// A transaction is no bar to itself: what it reads it may write.
fn rival(g: &Group, tables: &Tables, t: u8, node: u8, u: u8) -> bool
    ensures { result ≡ is_rival g.now.cells g.now.masks tables.now.flight tables.now.writes tables.now.reads t node u }
{
    u != t && tables.unfinished(u, node) && meets(g, tables, t, node, u)
}

fn conflict(g: &Group, tables: &Tables, t: u8, node: u8) -> bool
    ensures { result ≡ is_conflict g.now.cells g.now.masks tables.now.flight tables.now.writes tables.now.reads t node }
{
    (0..32).any(|u| rival(g, tables, t, node, u))
}

// ---- test 2: no read cell held here has a newest version above the snapshot s

fn behind(g: &Group, tables: &Tables, t: u8, node: u8, s: u32, cell: u8) -> bool
    ensures { result ≡ is_behind g.now.masks tables.now.chains tables.now.reads t node s cell }
{
    g.holds(node, cell) && tables.has_read(t, cell) && tables.chains.stale(cell, node, s)
}

fn outdated(g: &Group, tables: &Tables, t: u8, node: u8, s: u32) -> bool
    ensures { result ≡ is_outdated g.now.cells g.now.masks tables.now.chains tables.now.reads t node s }
{
    (0..g.cells).any(|cell| behind(g, tables, t, node, s, cell))
}

// ---- test 3: no written cell held here has 8 versions

fn crammed(g: &Group, tables: &Tables, t: u8, node: u8, cell: u8) -> bool
    ensures { result ≡ is_crammed g.now.masks tables.now.chains.lens tables.now.writes t node cell }
{
    g.holds(node, cell) && tables.wrote(t, cell) && !tables.chains.room(cell, node)
}

fn full(g: &Group, tables: &Tables, t: u8, node: u8) -> bool
    ensures { result ≡ is_full g.now.cells g.now.masks tables.now.chains tables.now.writes t node }
{
    (0..g.cells).any(|cell| crammed(g, tables, t, node, cell))
}

// ---- the vote

// The four tests in their order, the last that a proposal exists: the first that fails is the reason of a no.
#[tactic(auto, unfolding(crate::specs::Vote::vote, crate::specs::Vote::reason, tables::specs::Tests::refusal))]
fn vote(slot: Slot, c: Counters, g: &Group, tables: &Tables, t: u8, node: u8) -> Result<u32, Reason>
    ensures { result ≡ vote_of slot c g.now.cells g.now.masks tables.now.flight tables.now.chains tables.now.writes tables.now.reads t node }
{
    if conflict(g, tables, t, node) {
        return Err(Reason::Conflict);
    }
    if outdated(g, tables, t, node, slot.snapshot.unwrap_or(0)) {
        return Err(Reason::Outdated);
    }
    if full(g, tables, t, node) {
        return Err(Reason::Full);
    }
    number::propose(node, c.counter).ok_or(Reason::NoNumber)
}

// A vote is entered and answered, and on yes the counter becomes the proposal.
fn cast(
    slot: Slot,
    c: Counters,
    tables: &mut Tables,
    t: u8,
    node: u8,
    v: Result<u32, Reason>,
) -> Turn
    ensures { (result ≡ prepare_turn slot c v) × (tables.new ≡ with_flight tables.old (prepare_flight tables.old.flight t node v)) }
{
    match v {
        Ok(k) => {
            tables.enter(t, node, group::VOTED_YES, k);
            Turn {
                answer: Answer::Yes(k),
                slot,
                counters: c.counted(k),
            }
        }
        Err(why) => {
            tables.enter(t, node, group::VOTED_NO, 0);
            Turn {
                answer: Answer::No(why.number()),
                slot,
                counters: c,
            }
        }
    }
}

// Rule C, at the node whose counters these are. A prepare is taken only where one was sent and no decision was learned since. Of a cut one
// the counter alone is written.
#[tactic(auto, unfolding(crate::specs::Vote::prepare_tests, tables::specs::Tests::refusal))]
pub fn prepare(
    cut: bool,
    slot: Slot,
    c: Counters,
    g: &Group,
    tables: &mut Tables,
    t: u8,
    node: u8,
) -> Result<Turn, Refusal>
    ensures { (result ≡ stepped (refusal (prepare_tests slot tables.old.flight t node)) cut slot c (vote_rise (vote_of slot c g.now.cells g.now.masks tables.old.flight tables.old.chains tables.old.writes tables.old.reads t node)) (prepare_turn slot c (vote_of slot c g.now.cells g.now.masks tables.old.flight tables.old.chains tables.old.writes tables.old.reads t node))) × (tables.new ≡ changed (refusal (prepare_tests slot tables.old.flight t node)) cut tables.old (with_flight tables.old (prepare_flight tables.old.flight t node (vote_of slot c g.now.cells g.now.masks tables.old.flight tables.old.chains tables.old.writes tables.old.reads t node)))) }
{
    if !matches!(slot.stage, Stage::Voting) {
        return Err(Refusal::WrongStage);
    }
    if tables.tag(t, node) != group::SENT {
        return Err(Refusal::WrongStage);
    }
    let v = vote(slot, c, g, tables, t, node);
    if cut {
        return Ok(group::cut_at(v.unwrap_or(0), slot, c));
    }
    Ok(cast(slot, c, tables, t, node, v))
}
