// Reading: rule A, serve, and rule B, return. Each takes the transaction's slot and the counters of the one node that it may move, and
// gives both anew with its answer, or refuses; the tables are looked at, and the reads changed, where they lie. A step is refused first; then it is cut,
// or whole.
#![tactic(auto)]

ghost use Rattle.std.specs.Prelude.{◌≡◌};
ghost use Rattle.tables.specs.Tests.{refusal};
ghost use Rattle.group.specs.State.{ask_of, note_of, with_reads};
ghost use Rattle.group.specs.Answer.{stepped, changed};
ghost use Rattle.read.specs.Read.{serve_tests, read_at, blocks as is_bar, blocked as is_blocked, note_for, wait_for, serve_turn, return_tests, return_turn, return_reads};

use chain::Chains;
use counters::Counters;
use group::{Answer, Ask, Note, Refusal, Slot, Stage, Tables, Turn};

// ---- step 4, serve

// Rule A: the read's s is what is carried where that is settled; else, at the first serve of a first read, the larger of it and the
// holder's commit number.
#[tactic(auto, unfolding(crate::specs::Read::read_at))]
fn read_at(a: Ask, holder: Counters) -> u32
    ensures { result ≡ read_at a holder }
{
    if a.exact {
        a.carried
    } else {
        a.carried.max(holder.commit)
    }
}

// Rule A: transaction u has an unfinished entry here that writes the cell, with a number at or below s.
#[tactic(auto, unfolding(crate::specs::Read::blocks))]
fn blocks(tables: &Tables, a: Ask, s: u32, u: u8) -> bool
    ensures { result ≡ is_bar tables.now.flight tables.now.writes a.node a.cell s u }
{
    tables.unfinished(u, a.node) && tables.number(u, a.node) <= s && tables.wrote(u, a.cell)
}

// Is there one to wait for.
fn blocked(tables: &Tables, a: Ask, s: u32) -> bool
    ensures { result ≡ is_blocked tables.now.flight tables.now.writes a.node a.cell s }
{
    (0..32).any(|u| blocks(tables, a, s, u))
}

// Rule A: s stays so through waits, whatever is committed here meanwhile.
fn wait_for(a: Ask, s: u32) -> Ask
    ensures { result ≡ wait_for a s }
{
    Ask {
        carried: s,
        exact: true, // from now on
        ..a
    }
}

// Rule A: the newest version numbered at or below s, stale if the chain has one above s.
#[tactic(auto, unfolding(crate::specs::Read::note_for))]
fn note_for(chains: &Chains, a: Ask, s: u32) -> Note
    ensures { result ≡ note_for chains.now a s }
{
    Note {
        node: a.node,
        cell: a.cell,
        s,
        value: chains.newest(a.cell, a.node, s).map_or(0, |v| v.value),
        stale: chains.stale(a.cell, a.node, s),
    }
}

// Rule A: the asked node serves the read, or has it wait. Either way counter and seen number rise to s, so that no later writer here
// is numbered at or below it.
#[tactic(auto, unfolding(crate::specs::Read::serve_turn, tables::specs::Tests::refusal))]
pub fn serve(cut: bool, slot: Slot, holder: Counters, tables: &Tables) -> Result<Turn, Refusal>
    ensures { result ≡ stepped (refusal (serve_tests slot)) cut slot holder (read_at (ask_of slot.stage) holder) (serve_turn slot holder tables.now.flight tables.now.writes tables.now.chains) }
{
    let Stage::Asking(a) = slot.stage else {
        return Err(Refusal::WrongStage);
    };
    let s = read_at(a, holder);
    if cut {
        return Ok(group::cut_at(s, slot, holder));
    }
    let counters = holder.risen(s);
    if blocked(tables, a, s) {
        return Ok(Turn {
            answer: Answer::Wait(s),
            slot: group::at_stage(slot, Stage::Asking(wait_for(a, s))),
            counters,
        });
    }
    let note = note_for(&tables.chains, a, s);
    let served = group::at_stage(slot, Stage::Served(note));
    Ok(group::done(s, served, counters))
}

// ---- step 5, return

// Rule B: the value comes back to the origin, whose counter and seen number rise to s. It is handed and the cell joins the read set, or
// an update transaction with a stale read is aborted and gets no value.
#[tactic(auto, unfolding(crate::specs::Read::return_turn, crate::specs::Read::return_reads, tables::specs::Tests::refusal))]
pub fn hand(
    cut: bool,
    slot: Slot,
    origin: Counters,
    tables: &mut Tables,
    t: u8,
) -> Result<Turn, Refusal>
    ensures { (result ≡ stepped (refusal (return_tests slot)) cut slot origin (note_of slot.stage).s (return_turn slot origin)) × (tables.new ≡ changed (refusal (return_tests slot)) cut tables.old (with_reads tables.old (return_reads slot tables.old.reads t))) }
{
    let Stage::Served(v) = slot.stage else {
        return Err(Refusal::WrongStage);
    };
    if cut {
        return Ok(group::cut_at(v.s, slot, origin));
    }
    let counters = origin.risen(v.s);
    if slot.update && v.stale {
        return Ok(Turn {
            answer: Answer::Aborted,
            slot: group::at_stage(slot, Stage::Aborted),
            counters,
        });
    }
    group::set_note(&mut tables.reads, t, v.cell, u64::from(v.value) + 1);
    Ok(Turn {
        answer: Answer::Value {
            s: v.s,
            value: v.value,
        },
        slot: Slot {
            stage: Stage::Open,
            snapshot: Some(v.s),
            ..slot
        },
        counters,
    })
}
