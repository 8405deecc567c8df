// The counters of one node of the group. Every rule that moves one of them goes through this crate, so that no counter and no seen
// number ever falls, whatever number a step brings.
#![tactic(auto)]

ghost use Rattle.std.specs.Prelude.{◌≡◌};
ghost use Rattle.counters.specs.Counters.{zeroed, raised_to, risen_to, counted_to, committed_at};

#[derive(Clone, Copy, PartialEq, Eq)]
pub struct Counters {
    pub counter: u32,
    pub commit: u32,
    pub seen: u32,
}

impl Counters {
    // Those of a fresh group, where the counter is m.
    pub fn zeroed(m: u32) -> Counters
        ensures { result ≡ zeroed m }
    {
        Counters {
            counter: m,
            commit: 0,
            seen: 0,
        }
    }

    // The one place where a node's counters are advanced where they stand: what stands is kept where a step brings a smaller number.
    // The commit number is no matter of rising: see `committed`.
    pub fn raise(&mut self, counter: u32, seen: u32)
        ensures { self.new ≡ raised_to self.old counter seen }
    {
        self.counter = self.counter.max(counter);
        self.seen = self.seen.max(seen);
    }

    // The same by value, as the rules take it.
    pub fn raised(mut self, counter: u32, seen: u32) -> Counters
        ensures { result ≡ raised_to self counter seen }
    {
        self.raise(counter, seen);
        self
    }

    // Rules A and B: counter and seen number rise to s at least.
    pub fn risen(self, s: u32) -> Counters
        ensures { result ≡ risen_to self s }
    {
        self.raised(s, s)
    }

    // Rules C and D, and every cut step: the counter alone rises, to k at least.
    #[tactic(auto, using(crate::proofs::Laws::raised_counted))]
    pub fn counted(self, k: u32) -> Counters
        ensures { result ≡ counted_to self k }
    {
        // a seen number is at least 0 as it stands
        self.raised(k, 0)
    }

    // Rule E and step 12: the commit number becomes k.
    pub fn committed(self, k: u32) -> Counters
        ensures { result ≡ committed_at self k }
    {
        Counters { commit: k, ..self }
    }
}
