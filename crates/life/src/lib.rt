// What a transaction does by itself, and by no rule: begin, write, give up and abandon. None of them moves a counter, so the cut step of each
// changes nothing. A step is refused first, in the order of the codes; then it is cut, or whole.
#![tactic(auto)]

ghost use Rattle.std.specs.Prelude.{◌≡◌};
ghost use Rattle.tables.specs.Tests.{refusal};
ghost use Rattle.group.specs.State.{with_writes};
ghost use Rattle.group.specs.Answer.{stepped, changed};
ghost use Rattle.life.specs.Life.{begin_tests, opens, begin_turn, cleared, begun, write_tests, write_turn, written, give_up_tests, abandon_tests, end_turn};

use counters::Counters;
use group::{Answer, Refusal, Slot, Stage, Tables, Turn};
use kinds::Step;

fn aborted(slot: Slot, counters: Counters) -> Turn
    ensures { result ≡ end_turn slot counters }
{
    Turn {
        answer: Answer::Aborted,
        slot: group::at_stage(slot, Stage::Aborted),
        counters,
    }
}

// ---- step 1, begin

fn opened(x: Step) -> Slot
    ensures { result ≡ opens x }
{
    Slot {
        stage: Stage::Open,
        origin: x.node,
        update: x.value == 1,
        snapshot: None,
    }
}

// The row of one transaction, of its writes or of its reads.
#[tactic(auto, unfolding(crate::specs::Life::cleared), using(tables::proofs::Loop::each_none, tables::proofs::Loop::each_next))]
fn clear(table: &mut [u64; 1024], t: u8)
    ensures { table.new ≡ cleared table.old t }
{
    for cell in 0..32 {
        group::set_note(table, t, cell, 0);
    }
}

// Step 1. What lies in the rows of an unused slot is not judged, so they are cleared here.
#[tactic(auto, unfolding(crate::specs::Life::begin_tests, tables::specs::Tests::refusal))]
pub fn begin(
    cut: bool,
    slot: Slot,
    c: Counters,
    x: Step,
    tables: &mut Tables,
) -> Result<Turn, Refusal>
    ensures { (result ≡ stepped (refusal (begin_tests slot x)) cut slot c 0 (begin_turn c x)) × (tables.new ≡ changed (refusal (begin_tests slot x)) cut tables.old (begun tables.old x.slot)) }
{
    if !matches!(slot.stage, Stage::Unused) {
        return Err(Refusal::WrongStage); // the stage comes first
    }
    if 1 < x.value {
        return Err(Refusal::WrongValue);
    }
    if cut {
        return Ok(group::cut_still(slot, c));
    }
    clear(&mut tables.writes, x.slot);
    clear(&mut tables.reads, x.slot);
    Ok(group::done(0, opened(x), c))
}

// ---- step 2, write

// The last write of a cell counts.
#[tactic(auto, unfolding(crate::specs::Life::write_tests, tables::specs::Tests::refusal))]
pub fn write(
    cut: bool,
    slot: Slot,
    c: Counters,
    x: Step,
    tables: &mut Tables,
) -> Result<Turn, Refusal>
    ensures { (result ≡ stepped (refusal (write_tests slot)) cut slot c 0 (write_turn slot c)) × (tables.new ≡ changed (refusal (write_tests slot)) cut tables.old (with_writes tables.old (written tables.old.writes x))) }
{
    if !matches!(slot.stage, Stage::Open) {
        return Err(Refusal::WrongStage);
    }
    if !slot.update {
        return Err(Refusal::ReadOnly);
    }
    if cut {
        return Ok(group::cut_still(slot, c));
    }
    group::set_note(&mut tables.writes, x.slot, x.cell, u64::from(x.value) + 1);
    Ok(group::done(0, slot, c))
}

// ---- step 9, give up

#[tactic(auto, unfolding(crate::specs::Life::give_up_tests, tables::specs::Tests::refusal))]
pub fn give_up(cut: bool, slot: Slot, c: Counters) -> Result<Turn, Refusal>
    ensures { result ≡ stepped (refusal (give_up_tests slot)) cut slot c 0 (end_turn slot c) }
{
    if !matches!(slot.stage, Stage::Voting) {
        return Err(Refusal::WrongStage);
    }
    if cut {
        return Ok(group::cut_still(slot, c));
    }
    Ok(aborted(slot, c))
}

// ---- step 13, abandon

// Open, asking or served: a transaction that is not yet to vote.
#[tactic(auto, unfolding(crate::specs::Life::abandon_tests, tables::specs::Tests::refusal))]
pub fn abandon(cut: bool, slot: Slot, c: Counters) -> Result<Turn, Refusal>
    ensures { result ≡ stepped (refusal (abandon_tests slot)) cut slot c 0 (end_turn slot c) }
{
    if !matches!(
        slot.stage,
        Stage::Open | Stage::Asking(_) | Stage::Served(_)
    ) {
        return Err(Refusal::WrongStage);
    }
    if cut {
        return Ok(group::cut_still(slot, c));
    }
    Ok(aborted(slot, c))
}
