// The step: what a state comes to by one step. A state that is not whole is refused with 15. A step moves one slot and one node's counters at
// most: these two are taken out of the group, handed on by value to the step of the desk, and put back. The rest is changed where it lies.
#![tactic(auto)]

ghost use Rattle.std.specs.Prelude.{◌≡◌, true};
ghost use Rattle.kinds.specs.Kinds.{named};
ghost use Rattle.group.specs.State.{state_of};
ghost use Rattle.whole.specs.Whole.{whole};
ghost use Rattle.score.specs.Place.{node_of};
ghost use Rattle.score.specs.Steps.{step_whole, step_of};
ghost use Rattle.score.specs.Parts.{reached};

use counters::Counters;
use group::{Answer, Group, Refusal, Slot, Tables};
use kinds::{Kind, Step};

// The node whose counters a step of the kind may move: a match, as the definition has it.
fn node_of(kind: Kind, slot: Slot, node: u8) -> u8
    ensures { result ≡ node_of kind slot node }
{
    match kind {
        Kind::Ask | Kind::Return => slot.origin,
        Kind::Serve => group::ask_of(slot.stage).node,
        _ => node,
    }
}

// The same of any step: one of no kind moves none, and is taken for one of its node field.
#[tactic(auto, unfolding(kinds::specs::Kinds::kind_of, kinds::specs::Kinds::named, tables::specs::Table::at))]
pub fn place(x: Step, slot: Slot) -> u8
    ensures { result ≡ node_of (named x.kind) slot x.node }
{
    match Kind::try_from(x.kind) {
        Ok(kind) => node_of(kind, slot, x.node),
        Err(_) => x.node,
    }
}

// The step of a whole state. Only a step that is refused, or that uses no slot, names none of the group's.
pub fn step_whole(g: &mut Group, tables: &mut Tables, x: Step) -> Answer
    requires { whole (state_of g.old tables.old) ≡ true }
    ensures { reached result g.new tables.new ≡ step_whole (state_of g.old tables.old) x }
{
    let slot = tables::at(&g.slots, usize::from(x.slot), group::NO_SLOT);
    let n = place(x, slot);
    let c = tables::at(&g.counters, usize::from(n), Counters::zeroed(0));
    let turn = desk::act(x, slot, c, g, tables);
    tables::put(&mut g.slots, usize::from(x.slot), turn.slot);
    tables::put(&mut g.counters, usize::from(n), turn.counters);
    turn.answer
}

// The step of any state: refused with 15 where it is not whole.
#[tactic(auto, unfolding(crate::specs::Steps::step_of))]
pub fn step(g: &mut Group, tables: &mut Tables, x: Step) -> Answer
    ensures { reached result g.new tables.new ≡ step_of (state_of g.old tables.old) x }
{
    if !judge::whole(g, tables) {
        return Answer::Refused(Refusal::NotWhole.code());
    }
    step_whole(g, tables, x)
}
