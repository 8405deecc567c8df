// The step of a desk: of one slot and one node's counters, which go by value, over the tables, which are changed where they lie. Refusals 16 to 18
// come first, by the table of kinds; the rest, and what is done, by the kind's own function.
#![tactic(auto)]

ghost use Rattle.std.specs.Prelude.{◌≡◌, not, ◌||◌, ltb};
ghost use Rattle.kinds.specs.Kinds.{named};
ghost use Rattle.group.specs.Answer.{told};
ghost use Rattle.desk.specs.Desk.{desk_on};
ghost use Rattle.desk.specs.Acts.{act as is_act};
ghost use Rattle.desk.specs.Ready.{Ready};
ghost use Rattle.desk.specs.Parts.{unless, field_refusal, outcome};

use counters::Counters;
use group::{Group, Refusal, Slot, Tables, Turn};
use kinds::{Kind, Step};

// Does a field that is used name one of the first `count`; one that is not used does not matter.
fn inside(used: bool, i: u8, count: u8) -> bool
    ensures { result ≡ (not used || ltb i count) }
{
    !used || i < count
}

// The kind of a step, unless refusals 16 to 18 are due.
#[tactic(auto, unfolding(crate::specs::Parts::field_refusal, tables::specs::Tests::refusal, kinds::specs::Kinds::kind_of))]
fn kind_of(nodes: u8, cells: u8, x: Step) -> Result<Kind, Refusal>
    ensures { result ≡ unless (field_refusal nodes cells x) (named x.kind) }
{
    let Ok(kind) = Kind::try_from(x.kind) else {
        return Err(Refusal::NoKind);
    };
    let u = kinds::uses(x.kind);
    let node = inside(u.node, x.node, nodes);
    let slot = inside(u.slot, x.slot, 32);
    let cell = inside(u.cell, x.cell, cells);
    if !node {
        return Err(Refusal::NoNode);
    }
    if !(slot & cell) {
        return Err(Refusal::NoPlace);
    }
    Ok(kind)
}

// What a step comes to that is not refused for its fields: each kind's function gets what it needs. A match, since each needs something else,
// which a table of functions would have to give to all.
fn by_kind(
    kind: Kind,
    x: Step,
    slot: Slot,
    c: Counters,
    g: &Group,
    tables: &mut Tables,
) -> Result<Turn, Refusal>
    requires { Ready g.now.cells tables.old.writes × (field_refusal g.now.nodes g.now.cells x ≡ None) × (named x.kind ≡ kind) }
    ensures { outcome (told result slot c) g.now tables.new ≡ is_act (desk_on g.now tables.old slot c) x }
{
    let cut = kinds::is_cut(x.kind);
    let t = x.slot;
    match kind {
        Kind::Begin => life::begin(cut, slot, c, x, tables),
        Kind::Write => life::write(cut, slot, c, x, tables),
        Kind::Ask => ask::ask(cut, slot, c, g, tables, x),
        Kind::Serve => read::serve(cut, slot, c, tables),
        Kind::Return => read::hand(cut, slot, c, tables, t),
        Kind::Commit => decide::commit(cut, slot, c, g, tables, t),
        Kind::Prepare => vote::prepare(cut, slot, c, g, tables, t, x.node),
        Kind::Decide => decide::decide(cut, slot, c, g, tables, t),
        Kind::GiveUp => life::give_up(cut, slot, c),
        Kind::Learn => learn::learn(cut, slot, c, tables, t, x.node),
        Kind::Apply => settle::apply(cut, slot, c, g, tables, x.node),
        Kind::Advance => settle::advance(cut, slot, c, tables, x.node),
        Kind::Abandon => life::abandon(cut, slot, c),
    }
}

// Refused for its fields, else by its kind.
fn judged(x: Step, slot: Slot, c: Counters, g: &Group, tables: &mut Tables) -> Result<Turn, Refusal>
    requires { Ready g.now.cells tables.old.writes }
    ensures { outcome (told result slot c) g.now tables.new ≡ is_act (desk_on g.now tables.old slot c) x }
{
    let kind = kind_of(g.nodes, g.cells, x)?;
    by_kind(kind, x, slot, c, g, tables)
}

// The step of a transaction's slot and a node's counters, over the tables: a refused one moves nothing.
pub fn act(x: Step, slot: Slot, c: Counters, g: &Group, tables: &mut Tables) -> Turn
    requires { Ready g.now.cells tables.old.writes }
    ensures { outcome result g.now tables.new ≡ is_act (desk_on g.now tables.old slot c) x }
{
    match judged(x, slot, c, g, tables) {
        Ok(turn) => turn,
        Err(why) => group::refused(why.code(), slot, c),
    }
}
