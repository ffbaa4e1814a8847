//! Laws of the definitions that the contracts of this crate cite. They do nothing when they are called.
ghost use Rattle.std.specs.Prelude.{◌≡◌, ℕ, ◌+◌, ◌-◌, ◌^◌, ◌<◌, List, length, reverse, Option, Some, None};
ghost use Rattle.std.specs.List.{All};
ghost use Rattle.hilti_overlay.specs.declared.field.Form.{Form};
ghost use Rattle.hilti_overlay.specs.Fields.{bits_in, value_of, width_of};

/// A number with the lowest byte first is the number with the highest byte first of the reversed bytes.
pub fn reversed()
    ensures two { (bits : Option (ℕ × ℕ)) (at : ℕ) (bytes : List ℕ) → length bytes ≡ 2
        → value_of Form.U16Little bits at bytes ≡ value_of Form.U16Big bits at (reverse bytes) }
    ensures four { (bits : Option (ℕ × ℕ)) (at : ℕ) (bytes : List ℕ) → length bytes ≡ 4
        → value_of Form.U32Little bits at bytes ≡ value_of Form.U32Big bits at (reverse bytes) }
    ensures eight { (bits : Option (ℕ × ℕ)) (at : ℕ) (bytes : List ℕ) → length bytes ≡ 8
        → value_of Form.U64Little bits at bytes ≡ value_of Form.U64Big bits at (reverse bytes) }
{}

/// The bits of a range are fewer bits than the whole number's: their value is below 2 to how many they are.
pub fn range_is_small()
    ensures { (low high n : ℕ) → bits_in (Some (low, high)) n < 2 ^ (high - low + 1) }
{}

/// The range of all bits gives what no range gives.
pub fn whole_range()
    ensures { (form : Form) (at : ℕ) (bytes : List ℕ) → All (λ byte. byte < 256) bytes
        → value_of form (Some (0, width_of form - 1)) at bytes ≡ value_of form None at bytes }
{}
