ghost use Rattle.std.specs.Prelude.{◌≡◌, ℕ, false, not, ◌&&◌, ◌||◌, Decides, ◌==◌, nat_lt};
ghost use Rattle.sets.specs.Bits.{bit};

// Words of 64 bits, by their bits. A bit that is not below 64 is never set.

#[tactic(auto, using(crate::proofs::Bits::bit_zero))]
pub(crate) fn without_bits() -> u64
    ensures { (k : ℕ) → bit result k ≡ false }
{
    0
}

pub(crate) fn one_bit(e: usize) -> u64
    ensures { (k : ℕ) → bit result k ≡ (k == e && nat_lt e 64) }
{
    if e < 64 { 1 << e } else { 0 }
}

pub(crate) fn has_bit(word: u64, e: usize) -> bool
    ensures { result ≡ bit word e }
{
    if e < 64 { (word >> e) & 1 == 1 } else { false }
}

pub(crate) fn has_no_bit(word: u64) -> bool
    ensures { Decides result ((e : ℕ) → bit word e ≡ false) }
{
    word == 0
}

pub(crate) fn same_bits(a: u64, b: u64) -> bool
    ensures { Decides result ((e : ℕ) → bit a e ≡ bit b e) }
{
    a == b
}

#[tactic(auto, using(crate::proofs::Bits::bit_of_or))]
pub(crate) fn either_bits(a: u64, b: u64) -> u64
    ensures { (k : ℕ) → bit result k ≡ (bit a k || bit b k) }
{
    a | b
}

#[tactic(auto, using(crate::proofs::Bits::bit_without))]
pub(crate) fn bits_without(a: u64, b: u64) -> u64
    ensures { (k : ℕ) → bit result k ≡ (bit a k && not (bit b k)) }
{
    a & !b
}

#[tactic(auto, using(crate::proofs::Bits::bit_of_and))]
pub(crate) fn both_bits(a: u64, b: u64) -> u64
    ensures { (k : ℕ) → bit result k ≡ (bit a k && bit b k) }
{
    a & b
}
