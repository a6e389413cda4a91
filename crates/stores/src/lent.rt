ghost use Rattle.std.specs.Prelude.{◌≡◌, ℕ, ◌*◌, ◌<◌, ◌≤◌, true, false, length, drop, cond, ◌&&◌, nat_lt, IfOk, MatchResult};
ghost use Rattle.stores.specs.Cells.{row_of, pairs_in, pairs_within, IsRow, Rewritten};
ghost use Rattle.stores.specs.Created.{LaidOut, making_refusal, refusal_of};
ghost use Rattle.stores.specs.Pairs.{changed, degree, no_pairs};

use crate::layout::Layout;
use crate::store::DependencyStore;
use tables::index::ModuleIdx;
use tables::refusal::Refusal;

// A store in the caller's memory: the row of each of its modules, one after another, and what lies past them.
#[derive(Drop)]
pub struct LentStore<'a, L: Layout> {
    size: usize,
    memory: &'a mut [L::Cell],
    ghost small: { size ≤ 512 },
    ghost room: { L.MEMORY_PER_MODULE * size ≤ length memory.now },
    ghost ordered: { (m : ℕ) → m < size → L.ordered (row_of L.MEMORY_PER_MODULE memory.now m) ≡ true },
    ghost modules: { (m d : ℕ) → m < size → d < 512 → L.listed (row_of L.MEMORY_PER_MODULE memory.now m) d ≡ true → d < size },
}

// The memory given back, with the reason.
#[derive(Drop)]
pub struct Returned<'a, T> {
    pub why: Refusal,
    pub memory: &'a mut [T],
}

impl<'a, L: Layout> LentStore<'a, L> {
    // An empty store of `size` modules in the first cells; refused, the memory comes back as it was.
    pub fn create(
        size: usize,
        memory: &'a mut [L::Cell],
    ) -> Result<LentStore<'a, L>, Returned<'a, L::Cell>>
        ensures answer { refusal_of (λ e. e.why) result ≡ making_refusal L.MEMORY_PER_MODULE size (length memory.old) }
        ensures after { MatchResult result (λ s. (s.size ≡ size) × LaidOut L.BLANK (L.MEMORY_PER_MODULE * size) memory.old s.memory.now) (λ e. e.memory.now ≡ memory.old) }
        ensures empty { IfOk result (λ s. pairs_in L.listed L.MEMORY_PER_MODULE s.size s.memory.now ≡ no_pairs) }
        ensures lender { MatchResult result (λ s. s.memory.ghost_name ≡ memory.entry.ghost_name) (λ e. e.memory.ghost_name ≡ memory.entry.ghost_name) }
    {
        if size < 1 || size > 512 {
            return Err(Returned {
                why: Refusal::Limit,
                memory,
            });
        }
        if memory.len() < L::MEMORY_PER_MODULE * size {
            return Err(Returned {
                why: Refusal::BufferRoom,
                memory,
            });
        }
        Ok(Self::lay_out(size, memory))
    }

    // The store whose rows are all blank.
    fn lay_out(size: usize, memory: &'a mut [L::Cell]) -> LentStore<'a, L>
        requires small { size ≤ 512 }
        requires room { L.MEMORY_PER_MODULE * size ≤ length memory.old }
        ensures size { result.size ≡ size }
        ensures after { LaidOut L.BLANK (L.MEMORY_PER_MODULE * size) memory.old result.memory.now }
        ensures empty { pairs_in L.listed L.MEMORY_PER_MODULE result.size result.memory.now ≡ no_pairs }
        ensures lender { result.memory.ghost_name ≡ memory.entry.ghost_name }
    {
        memory[..L::MEMORY_PER_MODULE * size].fill(L::BLANK);
        LentStore { size, memory }
    }

    // Where the row of `m` begins. It and the next ask for a module's number, which the calls have tested.
    fn start(&self, m: ModuleIdx) -> usize
        requires { m.0 < self.now.size }
        ensures { result ≡ L.MEMORY_PER_MODULE * m.0 }
    {
        L::MEMORY_PER_MODULE * usize::from(m)
    }

    fn row(&self, m: ModuleIdx) -> &[L::Cell]
        requires { m.0 < self.now.size }
        ensures cells { result.now ≡ row_of L.MEMORY_PER_MODULE self.now.memory.now m.0 }
        ensures row { IsRow L.MEMORY_PER_MODULE L.ordered result.now }
    {
        let start = self.start(m);
        &self.memory[start..start + L::MEMORY_PER_MODULE]
    }

    // Refuses a number that is no module's.
    fn both_modules(&self, m: ModuleIdx, d: ModuleIdx) -> Result<(), Refusal>
        ensures { result ≡ cond (nat_lt m.0 self.now.size && nat_lt d.0 self.now.size) (Ok tt) (Err Refusal.ModuleOutOfRange) }
    {
        if usize::from(m) < self.size && usize::from(d) < self.size {
            Ok(())
        } else {
            Err(Refusal::ModuleOutOfRange)
        }
    }

    // How many modules `m` loads.
    fn count(&self, m: ModuleIdx) -> usize
        requires { m.0 < self.now.size }
        ensures { result ≡ degree (pairs_in L.listed L.MEMORY_PER_MODULE self.now.size self.now.memory.now m.0) self.now.size }
    {
        L::count(self.row(m), self.size)
    }

    // Adds the pair, where `m` loads fewer than 64. Beside `take_out` a function of its own, as the layouts' two are, since they leave other things.
    fn put(&mut self, m: ModuleIdx, d: ModuleIdx)
        requires { (m.0 < self.old.size) × (d.0 < self.old.size) }
        ensures size { self.new.size ≡ self.old.size }
        ensures rows { degree (pairs_in L.listed L.MEMORY_PER_MODULE self.old.size self.old.memory.now m.0) self.old.size < 64 → Rewritten L.listed L.MEMORY_PER_MODULE self.old.size (λ old. changed true true old m.0 d.0) self.old.memory.now self.new.memory.now }
        ensures lender { self.new.memory.ghost_name ≡ self.old.memory.ghost_name }
    {
        let start = self.start(m);
        L::put(&mut self.memory[start..start + L::MEMORY_PER_MODULE], d);
    }

    fn take_out(&mut self, m: ModuleIdx, d: ModuleIdx)
        requires { (m.0 < self.old.size) × (d.0 < self.old.size) }
        ensures size { self.new.size ≡ self.old.size }
        ensures rows { Rewritten L.listed L.MEMORY_PER_MODULE self.old.size (λ old. changed true false old m.0 d.0) self.old.memory.now self.new.memory.now }
        ensures lender { self.new.memory.ghost_name ≡ self.old.memory.ghost_name }
    {
        let start = self.start(m);
        L::take_out(&mut self.memory[start..start + L::MEMORY_PER_MODULE], d);
    }
}

impl<'a, L: Layout> DependencyStore for LentStore<'a, L> {
    const MEMORY_PER_MODULE: usize = L::MEMORY_PER_MODULE;

    ghost modules = { λ s. s.size };

    ghost loads = { λ s. pairs_in L.listed L.MEMORY_PER_MODULE s.size s.memory.now };

    ghost outside = { λ s. L.numbers (drop (L.MEMORY_PER_MODULE * s.size) s.memory.now) };

    ghost within = { λ s. pairs_within L.listed L.MEMORY_PER_MODULE s.size s.memory.now };

    fn size(&self) -> usize {
        self.size
    }

    fn has(&self, m: ModuleIdx, d: ModuleIdx) -> bool {
        usize::from(m) < self.size && usize::from(d) < self.size && L::has(self.row(m), d)
    }

    fn next(&self, m: ModuleIdx, from: ModuleIdx) -> Option<ModuleIdx> {
        if usize::from(m) < self.size {
            L::next(self.row(m), self.size, from)
        } else {
            None
        }
    }

    fn link(&mut self, m: ModuleIdx, d: ModuleIdx) -> Result<(), Refusal> {
        self.both_modules(m, d)?;
        if self.has(m, d) {
            return Err(Refusal::PairPresent);
        }
        if self.count(m) >= 64 {
            return Err(Refusal::DependencyLimit);
        }
        self.put(m, d);
        Ok(())
    }

    fn unlink(&mut self, m: ModuleIdx, d: ModuleIdx) -> Result<(), Refusal> {
        self.both_modules(m, d)?;
        if !self.has(m, d) {
            return Err(Refusal::PairAbsent);
        }
        self.take_out(m, d);
        Ok(())
    }
}
