//! Laws of the definitions that the contracts of this crate cite. They do nothing when they are called.
ghost use Rattle.std.specs.Prelude.{◌≡◌, ℕ, ◌+◌, ◌-◌, ◌*◌, ◌%◌, ◌^◌, ◌<◌, ◌≤◌, min, max};
ghost use Rattle.std.specs.Prelude.{ℤ, pos, neg_ℤ, ◌+ℤ◌, ◌-ℤ◌, ◌*ℤ◌, ◌≤ℤ◌, ◌<ℤ◌, int_div};
ghost use Rattle.std.specs.Prelude.{IsTrue, IsFalse, Ok};
ghost use Rattle.std.specs.Int.{bit_at};
ghost use Rattle.hilti_int.specs.Integers.{signed, value_of, wrapped};
ghost use Rattle.hilti_int.specs.Integers.{outcome_of, overflows, wrapping};

use crate::operations::IntOp;

/// In two's complement of some bits a number means one from -2 ^ (bits - 1) to 2 ^ (bits - 1) - 1.
pub fn range()
    ensures above { (bits a : ℕ) → 1 ≤ bits → a < 2 ^ bits
        → neg_ℤ (pos (2 ^ (bits - 1))) ≤ℤ signed bits a }
    ensures below { (bits a : ℕ) → 1 ≤ bits → a < 2 ^ bits
        → signed bits a <ℤ pos (2 ^ (bits - 1)) }
{}

/// What a whole number wraps to is below 2 ^ bits, and a multiple of it away.
pub fn modulo()
    ensures below { (bits : ℕ) (z : ℤ) → wrapped bits z < 2 ^ bits }
    ensures congruent { (bits : ℕ) (z : ℤ)
        → (k : ℤ) × (z ≡ pos (wrapped bits z) +ℤ (k *ℤ pos (2 ^ bits))) }
{}

/// Each number of some bits has one meaning in two's complement, and each meaning in range one number.
pub fn one_meaning()
    ensures back { (bits a : ℕ) → a < 2 ^ bits → wrapped bits (signed bits a) ≡ a }
    ensures forth { (bits : ℕ) (z : ℤ) → 1 ≤ bits
        → neg_ℤ (pos (2 ^ (bits - 1))) ≤ℤ z → z <ℤ pos (2 ^ (bits - 1))
        → signed bits (wrapped bits z) ≡ z }
{}

/// Sums, differences and products have the same bits, whether the numbers are read as unsigned or in two's complement.
pub fn same_bits()
    ensures sum { (bits a b : ℕ)
        → wrapped bits (signed bits a +ℤ signed bits b) ≡ (a + b) % 2 ^ bits }
    ensures difference { (bits a b : ℕ) → b < 2 ^ bits
        → wrapped bits (signed bits a -ℤ signed bits b) ≡ wrapped bits (pos a -ℤ pos b) }
    ensures product { (bits a b : ℕ) → a < 2 ^ bits → b < 2 ^ bits
        → wrapped bits (signed bits a *ℤ signed bits b) ≡ (a * b) % 2 ^ bits }
{}

/// A shift by the bits or more leaves no bit, and to the right in two's complement the sign alone.
pub fn shifts()
    ensures left { (bits a by : ℕ) → bits ≤ by → value_of IntOp.Shl bits a by ≡ 0 }
    ensures right { (bits a by : ℕ) → a < 2 ^ bits → bits ≤ by
        → value_of IntOp.Shr bits a by ≡ 0 }
    ensures sign { (bits a by : ℕ) → a < 2 ^ bits → bits ≤ by → 2 ^ bits ≤ 2 * a
        → value_of IntOp.Sshr bits a by ≡ 2 ^ bits - 1 }
    ensures no_sign { (bits a by : ℕ) → a < 2 ^ bits → bits ≤ by → 2 * a < 2 ^ bits
        → value_of IntOp.Sshr bits a by ≡ 0 }
{}

/// The least number by -1 is the least number, with remainder 0.
pub fn least()
    ensures quotient { (bits : ℕ) → 1 ≤ bits
        → value_of IntOp.Sdiv bits (2 ^ (bits - 1)) (2 ^ bits - 1) ≡ 2 ^ (bits - 1) }
    ensures remainder { (bits : ℕ) → 1 ≤ bits
        → value_of IntOp.Smod bits (2 ^ (bits - 1)) (2 ^ bits - 1) ≡ 0 }
{}

/// Where an exact operation gives a number, the operation that wraps gives the same.
pub fn exact_as_wrapping()
    ensures { (op : IntOp) (bits a b n : ℕ) → a < 2 ^ bits → b < 2 ^ bits
        → outcome_of op bits a b ≡ Ok n → outcome_of (wrapping op) bits a b ≡ Ok n }
{}

/// A difference that doesn't raise is that of the whole numbers, and one that raises is negative. A quotient in two's
/// complement that doesn't raise is that of the whole numbers, and one that raises is 1 above the greatest number.
pub fn exact_over_whole_numbers()
    ensures difference { (bits a b : ℕ) → IsFalse (overflows IntOp.SubExact bits a b)
        → pos (value_of IntOp.SubExact bits a b) ≡ pos a -ℤ pos b }
    ensures negative { (bits a b : ℕ) → IsTrue (overflows IntOp.SubExact bits a b)
        → (pos a -ℤ pos b) <ℤ pos 0 }
    ensures quotient { (bits a b : ℕ) → 1 ≤ bits → a < 2 ^ bits
        → IsFalse (overflows IntOp.SdivExact bits a b)
        → signed bits (value_of IntOp.SdivExact bits a b)
        ≡ int_div (signed bits a) (signed bits b) }
    ensures too_great { (bits a b : ℕ) → 1 ≤ bits → IsTrue (overflows IntOp.SdivExact bits a b)
        → int_div (signed bits a) (signed bits b) ≡ pos (2 ^ (bits - 1)) }
{}

/// The bitwise operations, bit by bit.
pub fn bitwise()
    ensures both { (bits a b i : ℕ)
        → bit_at (value_of IntOp.And bits a b) i ≡ min (bit_at a i) (bit_at b i) }
    ensures either { (bits a b i : ℕ)
        → bit_at (value_of IntOp.Or bits a b) i ≡ max (bit_at a i) (bit_at b i) }
    ensures one { (bits a b i : ℕ)
        → bit_at (value_of IntOp.Xor bits a b) i ≡ (bit_at a i + bit_at b i) % 2 }
{}
