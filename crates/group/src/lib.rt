// The state of a group: its small typed part, and its tables, which are changed where they lie; what a step answers. Every function takes any
// numbers, as the definitions do: a node of 8 and above or a cell of 32 and above is the place of a later row, or none past the table's end.
#![tactic(auto)]

ghost use Rattle.std.specs.Prelude.{◌≡◌, ◌/◌, ◌%◌, ◌^◌, eqb};
ghost use Rattle.tables.specs.Table.{at, put};
ghost use Rattle.tables.specs.Pair.{pair};
ghost use Rattle.group.specs.State.{holds as is_holder, tag_at, number_at, entered, unfinished as is_unfinished, noted as noted_at, has as has_note, writer as is_writer, involved as is_involved, touched, stage_number, no_ask, ask_of, no_note, note_of, final_of, at_stage, with_flight};
ghost use Rattle.group.specs.Answer.{code, turn, refused_turn, cut_turn};
ghost use Rattle.group.specs.declared.Answer.TheVariants.{Done as IsDone};

use chain::Chains;
use counters::Counters;

// The tags of flight entries, numbers since a table handed in may hold any: `whole` tests that it is one of these.
pub const IDLE: u32 = 0;

pub const SENT: u32 = 1;

pub const VOTED_NO: u32 = 2;

pub const VOTED_YES: u32 = 3;

pub const TO_APPLY: u32 = 4;

pub const FINISHED: u32 = 5;

// A read that is asked of a node: its s is at least what is carried, or exactly that.
#[derive(Clone, Copy)]
pub struct Ask {
    pub node: u8,
    pub cell: u8,
    pub carried: u32,
    pub exact: bool,
}

// The version noted for a read, at its s; stale if the chain has a newer one.
#[derive(Clone, Copy)]
pub struct Note {
    pub node: u8,
    pub cell: u8,
    pub s: u32,
    pub value: u32,
    pub stale: bool,
}

// A stage carries what only that stage has.
#[derive(Clone, Copy)]
pub enum Stage {
    Unused,
    Open,
    Asking(Ask),
    Served(Note),
    Voting,
    Committed(u32),
    Aborted,
}

// A transaction's snapshot is fixed by its first read.
#[derive(Clone, Copy)]
pub struct Slot {
    pub stage: Stage,
    pub origin: u8,
    pub update: bool,
    pub snapshot: Option<u32>,
}

// A slot that was never used.
pub const NO_SLOT: Slot = Slot {
    stage: Stage::Unused,
    origin: 0,
    update: false,
    snapshot: None,
};

#[derive(Clone, Copy)]
pub struct Group {
    pub nodes: u8,
    pub cells: u8,
    pub counters: [Counters; 8],
    pub masks: [u8; 32],
    pub slots: [Slot; 32],
}

// What stands between each transaction and node, the chains, and what each transaction wrote and read.
#[derive(Clone, Copy)]
pub struct Tables {
    pub flight: [u64; 256],
    pub chains: Chains,
    pub writes: [u64; 1024],
    pub reads: [u64; 1024],
}

// Why a step is refused: the paper's codes 15 to 24, in their order.
#[derive(Clone, Copy, PartialEq, Eq)]
pub enum Refusal {
    NotWhole,
    NoKind,
    NoNode,
    NoPlace,
    WrongStage,
    WrongValue,
    ReadOnly,
    NotAskable,
    Unsettled,
    VoteLacks,
}

impl Refusal {
    // The paper's code.
    pub fn code(self) -> u32
        ensures { result ≡ code self }
    {
        match self {
            Refusal::NotWhole => 15,
            Refusal::NoKind => 16,
            Refusal::NoNode => 17,
            Refusal::NoPlace => 18,
            Refusal::WrongStage => 19,
            Refusal::WrongValue => 20,
            Refusal::ReadOnly => 21,
            Refusal::NotAskable => 22,
            Refusal::Unsettled => 23,
            Refusal::VoteLacks => 24,
        }
    }
}

// What a step answers, in the paper's numbers: a no has its reason, a refusal its code.
#[derive(Clone, Copy)]
pub enum Answer {
    Done(u32),
    Value { s: u32, value: u32 },
    Wait(u32),
    Yes(u32),
    No(u32),
    Committed(u32),
    Aborted,
    Cut,
    Refused(u32),
}

// What a step makes of the one slot and the one node's counters that it moves.
#[derive(Clone, Copy)]
pub struct Turn {
    pub answer: Answer,
    pub slot: Slot,
    pub counters: Counters,
}

pub fn refused(code: u32, slot: Slot, counters: Counters) -> Turn
    ensures { result ≡ refused_turn code slot counters }
{
    Turn {
        answer: Answer::Refused(code),
        slot,
        counters,
    }
}

pub fn done(k: u32, slot: Slot, counters: Counters) -> Turn
    ensures { result ≡ turn (IsDone k) slot counters }
{
    Turn {
        answer: Answer::Done(k),
        slot,
        counters,
    }
}

// The step cut by power loss: the counter rises to k at least, and nothing else changes.
pub fn cut_at(k: u32, slot: Slot, c: Counters) -> Turn
    ensures { result ≡ cut_turn slot c k }
{
    let counters = c.counted(k);
    Turn {
        answer: Answer::Cut,
        slot,
        counters,
    }
}

// The same of a step that moves no counter: one that is to rise to 0 at least stands as it is, and is not looked at.
pub fn cut_still(slot: Slot, c: Counters) -> Turn
    ensures { result ≡ cut_turn slot c 0 }
{
    Turn {
        answer: Answer::Cut,
        slot,
        counters: c,
    }
}

// ---- slots

// The stages by number, as the rules compare them.
pub fn stage_number(st: Stage) -> u8
    ensures { result ≡ stage_number st }
{
    match st {
        Stage::Unused => 0,
        Stage::Open => 1,
        Stage::Asking(_) => 2,
        Stage::Served(_) => 3,
        Stage::Voting => 4,
        Stage::Committed(_) => 5,
        Stage::Aborted => 6,
    }
}

const NO_ASK: Ask = Ask {
    node: 0,
    cell: 0,
    carried: 0,
    exact: false,
};

pub fn ask_of(st: Stage) -> Ask
    ensures { result ≡ ask_of st }
{
    match st {
        Stage::Asking(a) => a,
        _ => NO_ASK,
    }
}

const NO_NOTE: Note = Note {
    node: 0,
    cell: 0,
    s: 0,
    value: 0,
    stale: false,
};

pub fn note_of(st: Stage) -> Note
    ensures { result ≡ note_of st }
{
    match st {
        Stage::Served(v) => v,
        _ => NO_NOTE,
    }
}

pub fn final_of(st: Stage) -> u32
    ensures { result ≡ final_of st }
{
    match st {
        Stage::Committed(k) => k,
        _ => 0,
    }
}

pub fn at_stage(slot: Slot, stage: Stage) -> Slot
    ensures { result ≡ at_stage slot stage }
{
    Slot { stage, ..slot }
}

// ---- holders

// A mask has a bit for each of eight nodes.
fn in_mask(mask: u8, node: u8) -> bool
    ensures { result ≡ eqb (mask / 2 ^ node % 2) 1 }
{
    node < 8 && (mask >> node) % 2 == 1
}

impl Group {
    pub fn holds(&self, node: u8, cell: u8) -> bool
        ensures { result ≡ is_holder self.now.masks node cell }
    {
        in_mask(tables::at(&self.masks, usize::from(cell), 0), node)
    }
}

// ---- what a transaction wrote or read of a cell

fn note_place(slot: u8, cell: u8) -> usize
    ensures { result ≡ pair 32 slot cell }
{
    usize::from(slot) * 32 + usize::from(cell)
}

pub fn noted(table: &[u64; 1024], slot: u8, cell: u8) -> u64
    ensures { result ≡ noted_at table.now slot cell }
{
    tables::at(table, note_place(slot, cell), 0)
}

pub fn has(table: &[u64; 1024], slot: u8, cell: u8) -> bool
    ensures { result ≡ has_note table.now slot cell }
{
    0 < noted(table, slot, cell)
}

pub fn set_note(table: &mut [u64; 1024], slot: u8, cell: u8, x: u64)
    ensures { table.new ≡ put table.old (pair 32 slot cell) x }
{
    tables::put(table, note_place(slot, cell), x);
}

// ---- the flight table

fn entry_place(slot: u8, node: u8) -> usize
    ensures { result ≡ pair 8 slot node }
{
    usize::from(slot) * 8 + usize::from(node)
}

impl Tables {
    fn entry(&self, slot: u8, node: u8) -> u64
        ensures { result ≡ at self.now.flight (pair 8 slot node) 0 }
    {
        tables::at(&self.flight, entry_place(slot, node), 0)
    }

    pub fn tag(&self, slot: u8, node: u8) -> u32
        ensures { result ≡ tag_at self.now.flight slot node }
    {
        tables::high(self.entry(slot, node))
    }

    pub fn number(&self, slot: u8, node: u8) -> u32
        ensures { result ≡ number_at self.now.flight slot node }
    {
        tables::low(self.entry(slot, node))
    }

    pub fn enter(&mut self, slot: u8, node: u8, tag: u32, number: u32)
        ensures { self.new ≡ with_flight self.old (entered self.old.flight slot node tag number) }
    {
        let word = tables::packed(tag, number);
        tables::put(&mut self.flight, entry_place(slot, node), word);
    }

    #[tactic(auto, unfolding(crate::specs::State::unfinished))]
    pub fn unfinished(&self, slot: u8, node: u8) -> bool
        ensures { result ≡ is_unfinished self.now.flight slot node }
    {
        let k = self.tag(slot, node);
        VOTED_YES <= k && k <= TO_APPLY
    }

    // ---- what a transaction wrote and read

    pub fn wrote(&self, slot: u8, cell: u8) -> bool
        ensures { result ≡ has_note self.now.writes slot cell }
    {
        has(&self.writes, slot, cell)
    }

    pub fn has_read(&self, slot: u8, cell: u8) -> bool
        ensures { result ≡ has_note self.now.reads slot cell }
    {
        has(&self.reads, slot, cell)
    }

    pub fn writer(&self, g: &Group, slot: u8) -> bool
        ensures { result ≡ is_writer g.now.cells self.now.writes slot }
    {
        (0..g.cells).any(|c| self.wrote(slot, c))
    }

    fn touches(&self, g: &Group, slot: u8, node: u8, cell: u8) -> bool
        ensures { result ≡ touched g.now.masks self.now.writes self.now.reads slot node cell }
    {
        g.holds(node, cell) && (self.has_read(slot, cell) || self.wrote(slot, cell))
    }

    pub fn involved(&self, g: &Group, slot: u8, node: u8) -> bool
        ensures { result ≡ is_involved g.now.cells g.now.masks self.now.writes self.now.reads slot node }
    {
        (0..g.cells).any(|c| self.touches(g, slot, node, c))
    }
}
