//! Laws of the definitions that the contracts of this crate cite. They do nothing when they are called.
ghost use Rattle.std.specs.Prelude.{◌≡◌, ℕ, List};
ghost use Rattle.std.specs.List.{AllByRecursion};
ghost use Rattle.hilti_base.specs.declared.names.Place.{Place};
ghost use Rattle.hilti_module.specs.declared.module.Module.{Module};
ghost use Rattle.hilti_parts.specs.declared.parts.Parts.{Parts};
ghost use Rattle.hilti_top.specs.ModuleTexts.{AreModules, IsAccepted, IsRefused, IsShort};
ghost use Rattle.hilti_top.specs.ModuleTexts.{IsTooLong, IsUnread};

/// Texts that aren't too long aren't refused for their length, and texts that are modules aren't refused by the lexer or
/// the grammar.
pub fn read_or_refused()
    ensures lengths { (texts : List (List ℕ)) (place : Place) (code : ℕ) →
        AllByRecursion IsShort texts → ¬ (IsTooLong texts place code) }
    ensures reading { (texts : List (List ℕ)) (modules : List Module) (place : Place) (code : ℕ) →
        AreModules texts modules → ¬ (IsUnread texts place code) }
{
    hilti_reading::laws::never_both();
}

/// Texts have one answer: no texts both are accepted and refused, texts that are accepted are one program, and texts
/// that are refused are refused at one place, with one code.
pub fn accepted_or_refused()
    ensures never_both { (texts : List (List ℕ)) (parts : Parts) (place : Place) (code : ℕ) →
        IsAccepted texts parts → ¬ (IsRefused texts place code) }
    ensures one_program { (texts : List (List ℕ)) (parts others : Parts) →
        IsAccepted texts parts → IsAccepted texts others → parts ≡ others }
    ensures one_refusal { (texts : List (List ℕ)) (place elsewhere : Place) (code other : ℕ) →
        IsRefused texts place code → IsRefused texts elsewhere other →
        (place ≡ elsewhere) × (code ≡ other) }
{
    hilti_reading::laws::never_both();
    hilti_reading::laws::one_refusal();
    hilti_reading::laws::one_module();
}
