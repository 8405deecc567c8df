// The chains of versions: each holder of a cell keeps up to 8, oldest first. All chains lie in two tables, their lengths and their
// versions, and are looked up and added to where they lie. Every method takes any cell, node and tables: a cell or a node that there is
// none of, and a length that no chain has, are a chain with no version and no room.
#![tactic(auto)]

ghost use Rattle.std.specs.Prelude.{◌≡◌, ltb};
ghost use Rattle.tables.specs.Pair.{pair};
ghost use Rattle.chain.specs.Chain.{len_at, size as size_of, version_at, newest as newest_of, latest as latest_of, has_room, added};

#[derive(Clone, Copy)]
pub struct Version {
    pub number: u32,
    pub value: u32,
}

// How many versions each chain has, and the versions, each a number above a value.
#[derive(Clone, Copy)]
pub struct Chains {
    pub lens: [u8; 256],
    pub versions: [u64; 2048],
}

// The place of a chain.
fn row(cell: u8, node: u8) -> usize
    ensures { result ≡ pair 8 cell node }
{
    usize::from(cell) * 8 + usize::from(node)
}

impl Chains {
    // What the table says of a chain's length; 9, which no chain has, where there is no such cell or node.
    #[tactic(auto, unfolding(crate::specs::Chain::len_at))]
    pub fn len(&self, cell: u8, node: u8) -> u8
        ensures { result ≡ len_at self.now.lens cell node }
    {
        if 32 <= cell || 8 <= node {
            return 9;
        }
        tables::at(&self.lens, row(cell, node), 0)
    }

    fn size(&self, cell: u8, node: u8) -> u8
        ensures { result ≡ size_of self.now.lens cell node }
    {
        let n = self.len(cell, node);
        if n <= 8 { n } else { 0 }
    }

    // Version i of a chain, from the oldest on; with an i of 8 and above, one of a later chain.
    #[tactic(auto, unfolding(crate::specs::Chain::version_at))]
    pub fn version(&self, cell: u8, node: u8, i: u8) -> Version
        ensures { result ≡ version_at self.now.versions cell node i }
    {
        let word = tables::at(&self.versions, row(cell, node) * 8 + usize::from(i), 0);
        Version {
            number: tables::high(word),
            value: tables::low(word),
        }
    }

    // The newest version numbered at or below s, looked for from the newest on.
    pub fn newest(&self, cell: u8, node: u8, s: u32) -> Option<Version>
        ensures { result ≡ newest_of self.now.lens self.now.versions cell node s }
    {
        for i in (0..self.size(cell, node)).rev() {
            let v = self.version(cell, node, i);
            if v.number <= s {
                return Some(v);
            }
        }
        None
    }

    // The number of the newest version; 0 where there is none.
    pub fn latest(&self, cell: u8, node: u8) -> u32
        ensures { result ≡ latest_of self.now.lens self.now.versions cell node }
    {
        let n = self.size(cell, node);
        if n == 0 {
            return 0;
        }
        self.version(cell, node, n - 1).number
    }

    // Is there a version above s: a reader at s then has not the newest.
    pub fn stale(&self, cell: u8, node: u8, s: u32) -> bool
        ensures { result ≡ ltb s (latest_of self.now.lens self.now.versions cell node) }
    {
        s < self.latest(cell, node)
    }

    // Is there a place for one more version.
    #[tactic(auto, unfolding(crate::specs::Chain::has_room))]
    pub fn room(&self, cell: u8, node: u8) -> bool
        ensures { result ≡ has_room self.now.lens cell node }
    {
        self.len(cell, node) < 8
    }

    // Adds a version as the newest, and says whether there was room for it.
    pub fn add(&mut self, cell: u8, node: u8, number: u32, value: u32) -> bool
        ensures { (result ≡ has_room self.old.lens cell node) × (self.new ≡ added self.old cell node number value) }
    {
        let i = self.len(cell, node);
        if 8 <= i {
            return false;
        }
        let row = row(cell, node);
        tables::put(
            &mut self.versions,
            row * 8 + usize::from(i),
            tables::packed(number, value),
        );
        tables::put(&mut self.lens, row, i + 1);
        true
    }
}
