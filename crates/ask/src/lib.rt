// Step 3, ask. It takes the transaction's slot and the origin's counters, and gives both anew with its answer, or refuses; the tables are looked at where
// they lie. The step is refused first, in the order of the codes; then it is cut, or whole.
#![tactic(auto)]

ghost use Rattle.std.specs.Prelude.{◌≡◌, not, ◌&&◌, ◌||◌, ◌≤◌, eqb};
ghost use Rattle.tables.specs.Tests.{refusal};
ghost use Rattle.group.specs.State.{holds, noted, has};
ghost use Rattle.group.specs.Answer.{stepped};
ghost use Rattle.ask.specs.Ask.{ask_tests, ask_for, ask_turn};

use counters::Counters;
use group::{Answer, Ask, Group, Refusal, Slot, Stage, Tables, Turn};
use kinds::Step;

// An own write is handed whoever is asked; else a holder of the cell is asked, and nobody but the origin if that is one.
fn may_ask(g: &Group, tables: &Tables, origin: u8, x: Step) -> bool
    ensures { result ≡ (has tables.now.writes x.slot x.cell || (holds g.now.masks x.node x.cell && (not (holds g.now.masks origin x.cell) || eqb x.node origin))) }
{
    tables.wrote(x.slot, x.cell)
        || (g.holds(x.node, x.cell) && (!g.holds(origin, x.cell) || x.node == origin))
}

// An ask carries the snapshot or, before the first one is fixed, the origin's commit number.
fn ask_for(snapshot: Option<u32>, commit: u32, node: u8, cell: u8) -> Ask
    ensures { result ≡ ask_for snapshot commit node cell }
{
    Ask {
        node,
        cell,
        carried: snapshot.unwrap_or(commit),
        exact: snapshot.is_some(),
    }
}

// The whole step: an own write is handed at once, fixes no snapshot and joins nothing; else the read is asked.
#[tactic(auto, unfolding(crate::specs::Ask::ask_turn))]
fn asked(slot: Slot, origin: Counters, tables: &Tables, x: Step) -> Turn
    requires { noted tables.now.writes x.slot x.cell ≤ 4294967296 }
    ensures { result ≡ ask_turn slot origin tables.now.writes x.slot x.node x.cell }
{
    let own = group::noted(&tables.writes, x.slot, x.cell);
    if 0 < own {
        return Turn {
            answer: Answer::Value {
                s: 0,
                value: (own - 1) as u32,
            },
            slot,
            counters: origin,
        };
    }
    let a = ask_for(slot.snapshot, origin.commit, x.node, x.cell);
    group::done(0, group::at_stage(slot, Stage::Asking(a)), origin)
}

// Step 3: the step's transaction asks its node for its cell. No counter moves, so the cut step changes nothing.
#[tactic(auto, unfolding(crate::specs::Ask::ask_tests, tables::specs::Tests::refusal))]
pub fn ask(
    cut: bool,
    slot: Slot,
    origin: Counters,
    g: &Group,
    tables: &Tables,
    x: Step,
) -> Result<Turn, Refusal>
    requires { noted tables.now.writes x.slot x.cell ≤ 4294967296 }
    ensures { result ≡ stepped (refusal (ask_tests slot g.now.masks tables.now.writes x.slot x.node x.cell)) cut slot origin 0 (ask_turn slot origin tables.now.writes x.slot x.node x.cell) }
{
    if !matches!(slot.stage, Stage::Open) {
        return Err(Refusal::WrongStage);
    }
    if !may_ask(g, tables, slot.origin, x) {
        return Err(Refusal::NotAskable);
    }
    if cut {
        return Ok(group::cut_still(slot, origin));
    }
    Ok(asked(slot, origin, tables, x))
}
