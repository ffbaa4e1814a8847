ghost use Rattle.std.specs.Prelude.{◌≡◌, ◌≢◌, ℕ, List, IfSome, IsNone, SomeIff};
ghost use Rattle.std.specs.Str.Parse.{digits_value};
ghost use Rattle.hilti_words.specs.declared.setting.Setting.{Setting};
ghost use Rattle.hilti_words.specs.Options.{IsValue, greatest, joined, option_of};

use hilti_base::read_digits;

/// How many digits a value may have.
const DIGITS: usize = 20;

/// What an option sets.
#[derive(Clone, Copy, Debug, PartialEq, Eq)]
pub enum Setting {
    /// How many instructions each call may run: 1 to 1,000,000,000.
    Fuel,
    /// How many calls may start: 1 to 100,000,000.
    Calls,
}

impl Setting {
    /// The setting whose option a word is, without a value.
    pub fn of_option(word: &[u8]) -> Option<Setting>
        ensures some { IfSome result (λ setting. word.now ≡ option_of setting) }
        ensures none { IsNone result → (setting : Setting) → word.now ≢ option_of setting }
    {
        if word == b"--fuel".as_slice() {
            Some(Setting::Fuel)
        } else if word == b"--calls".as_slice() {
            Some(Setting::Calls)
        } else {
            None
        }
    }

    /// The setting whose option a word begins with, and the value behind its `=`.
    pub fn of_joined(word: &[u8]) -> Option<(Setting, &[u8])>
        ensures some { IfSome result (λ found. word.now ≡ joined found.0 found.1.now) }
        ensures none { IsNone result →
            (setting : Setting) (value : List ℕ) → word.now ≢ joined setting value }
    {
        if let Some(value) = word.strip_prefix(b"--fuel=") {
            return Some((Setting::Fuel, value));
        }
        let value = word.strip_prefix(b"--calls=")?;
        Some((Setting::Calls, value))
    }

    fn greatest(self) -> u64
        ensures { result ≡ greatest self }
    {
        match self {
            Setting::Fuel => 1_000_000_000,
            Setting::Calls => 100_000_000,
        }
    }

    /// The number of a value: 1 to 20 digits of a number in the range of this setting. `None` exactly for other texts.
    pub fn read(self, text: &[u8]) -> Option<u64>
        ensures { SomeIff result (IsValue self text.now) (digits_value 10 text.now) }
    {
        if text.len() > DIGITS {
            return None;
        }
        let number = read_digits(text, 10)?;
        if number < 1 || number > self.greatest() {
            return None;
        }
        Some(number)
    }
}
