// A step, and the kinds of step: which of the four fields slot, node, cell and value each one uses. The step function, the reader and the
// writer all go by this one table.
#![tactic(auto)]

ghost use Rattle.std.specs.Prelude.{◌≡◌, leb};
ghost use Rattle.kinds.specs.Kinds.{whole_of, kind_of, uses_by, uses_of};

#[derive(Clone, Copy, PartialEq, Eq)]
pub struct Step {
    pub kind: u8,
    pub slot: u8,
    pub node: u8,
    pub cell: u8,
    pub value: u32,
}

// The thirteen kinds, in the order of their numbers 1 to 13.
#[derive(Clone, Copy, PartialEq, Eq)]
pub enum Kind {
    Begin,
    Write,
    Ask,
    Serve,
    Return,
    Commit,
    Prepare,
    Decide,
    GiveUp,
    Learn,
    Apply,
    Advance,
    Abandon,
}

// A kind byte that names no kind.
#[derive(Clone, Copy, PartialEq, Eq)]
pub struct UnknownKind(pub u8);

#[derive(Clone, Copy, PartialEq, Eq, Default)]
pub struct Fields {
    pub slot: bool,
    pub node: bool,
    pub cell: bool,
    pub value: bool,
}

// A row of the table has a bit for each field that is used. The table is laid out anew wherever it is read: with rows of four Booleans
// reading a file took twice the time.
const SLOT: u8 = 1;

const NODE: u8 = 2;

const CELL: u8 = 4;

const VALUE: u8 = 8;

const USES: [u8; 13] = [
    SLOT | NODE | VALUE, // 1 begin
    SLOT | CELL | VALUE, // 2 write
    SLOT | NODE | CELL, // 3 ask
    SLOT, // 4 serve
    SLOT, // 5 return
    SLOT, // 6 commit
    SLOT | NODE, // 7 prepare
    SLOT, // 8 decide
    SLOT, // 9 give up
    SLOT | NODE, // 10 learn
    NODE, // 11 apply
    NODE, // 12 advance
    SLOT, // 13 abandon
];

// A kind of 128 and above is the step cut by power loss.
pub fn is_cut(kind: u8) -> bool
    ensures { result ≡ leb 128 kind }
{
    128 <= kind
}

// The kind of the whole step.
pub fn whole(kind: u8) -> u8
    ensures { result ≡ whole_of kind }
{
    kind % 128
}

// Takes any byte: a cut kind is what the whole one is.
impl TryFrom<u8> for Kind {
    type Error = UnknownKind;

    ghost try_from_gives = { λ byte outcome. outcome ≡ kind_of byte };

    #[tactic(auto, unfolding(crate::specs::Kinds::kind_of, crate::specs::Kinds::named, tables::specs::Table::at))]
    fn try_from(byte: u8) -> Result<Kind, UnknownKind> {
        match whole(byte) {
            1 => Ok(Kind::Begin),
            2 => Ok(Kind::Write),
            3 => Ok(Kind::Ask),
            4 => Ok(Kind::Serve),
            5 => Ok(Kind::Return),
            6 => Ok(Kind::Commit),
            7 => Ok(Kind::Prepare),
            8 => Ok(Kind::Decide),
            9 => Ok(Kind::GiveUp),
            10 => Ok(Kind::Learn),
            11 => Ok(Kind::Apply),
            12 => Ok(Kind::Advance),
            13 => Ok(Kind::Abandon),
            _ => Err(UnknownKind(byte)),
        }
    }
}

// The fields whose bits the kind's row has.
fn of_kind(kind: Kind) -> Fields
    ensures { result ≡ uses_by kind }
{
    let row = USES[kind as usize];
    Fields {
        slot: row & SLOT != 0,
        node: row & NODE != 0,
        cell: row & CELL != 0,
        value: row & VALUE != 0,
    }
}

// Takes any byte: a cut kind uses what the whole one does, an unknown one nothing.
#[tactic(auto, unfolding(crate::specs::Kinds::kind_of, crate::specs::Kinds::uses_of))]
pub fn uses(kind: u8) -> Fields
    ensures { result ≡ uses_of kind }
{
    match Kind::try_from(kind) {
        Ok(k) => of_kind(k),
        Err(_) => Fields::default(),
    }
}
