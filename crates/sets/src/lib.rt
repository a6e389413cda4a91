// Sets of entries, known by their members. It uses no other crate.
#![tactic(auto)]

ghost use Rattle.std.specs.Prelude.{◌≡◌, ℕ, not, ◌&&◌, ◌||◌, Decides, ◌==◌, nat_lt};
ghost use Rattle.sets.specs.Sets.{width, member, Empty, Same};

mod words;

// A set of entries, one bit for each: bit e stands for entry e.
#[derive(Clone, Copy, Debug, PartialEq, Eq)]
pub struct EntrySet(u64);

impl EntrySet {
    // How many entries a set can tell apart: those below the width.
    pub const WIDTH: usize = 64;

    pub fn empty() -> EntrySet
        ensures { Empty result }
    {
        EntrySet(words::without_bits())
    }

    // The set of one entry; the empty set where the entry is not below the width.
    pub fn single(e: usize) -> EntrySet
        ensures { (k : ℕ) → member result k ≡ (k == e && nat_lt e width) }
    {
        EntrySet(words::one_bit(e))
    }

    // One entry more; an entry that is not below the width changes nothing.
    pub fn insert(&mut self, e: usize)
        ensures { (k : ℕ) → member self.new k ≡ (member self.old k || (k == e && nat_lt e width)) }
    {
        self.unite(EntrySet::single(e));
    }

    // The first entries, `n` of them; all below the width where there are not so many.
    pub fn first(n: usize) -> EntrySet
        ensures { (k : ℕ) → member result k ≡ (nat_lt k n && nat_lt k width) }
    {
        inserted_below(n)
    }

    // The members of another too.
    pub fn unite(&mut self, other: EntrySet)
        ensures { (k : ℕ) → member self.new k ≡ (member self.old k || member other k) }
    {
        self.0 = words::either_bits(self.0, other.0);
    }

    // Only those that are members of another too.
    pub fn intersect(&mut self, other: EntrySet)
        ensures { (k : ℕ) → member self.new k ≡ (member self.old k && member other k) }
    {
        self.0 = words::both_bits(self.0, other.0);
    }

    // The members of another no more.
    pub fn subtract(&mut self, other: EntrySet)
        ensures { (k : ℕ) → member self.new k ≡ (member self.old k && not (member other k)) }
    {
        self.0 = words::bits_without(self.0, other.0);
    }

    pub fn contains(&self, e: usize) -> bool
        ensures { result ≡ member self.now e }
    {
        words::has_bit(self.0, e)
    }

    pub fn is_empty(&self) -> bool
        ensures { Decides result (Empty self.now) }
    {
        words::has_no_bit(self.0)
    }

    // Whether the same entries are members of both; `==` says so of the words.
    pub fn equals(&self, other: &EntrySet) -> bool
        ensures { Decides result (Same self.now other.now) }
    {
        words::same_bits(self.0, other.0)
    }
}

// The set as a number, bit e for entry e.
impl From<EntrySet> for u64 {
    ghost from_gives = { λ set r. r ≡ set.0 };

    fn from(set: EntrySet) -> u64 {
        set.0
    }
}

// Apart from `first`, so that a wrong number there is refused for the promise.
fn inserted_below(n: usize) -> EntrySet
    ensures { (k : ℕ) → member result k ≡ (nat_lt k n && nat_lt k width) }
{
    let mut set = EntrySet::empty();
    for e in 0..n.min(EntrySet::WIDTH) {
        set.insert(e);
    }
    set
}
