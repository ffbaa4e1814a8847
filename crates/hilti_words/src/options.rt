ghost use Rattle.std.specs.Prelude.{◌≡◌, None, IfSome, IsNone, OnOk, OnErr, unwrap_or};
ghost use Rattle.std.specs.Str.Parse.{digits_value};
ghost use Rattle.hilti_base.specs.Ranges.{AreInRange};
ghost use Rattle.hilti_words.specs.Reading.{CanSet, number_of, with_number};

use crate::command::WordsFault;
use crate::setting::Setting;
use hilti_base::Limits;

/// The fuel of a call, where no option says it.
const FUEL: u64 = 1_000_000;

/// The limit of calls, where no option says it.
const CALLS: u64 = 1_000_000;

/// The numbers that options gave.
#[derive(Clone, Copy, Debug)]
pub struct Options {
    pub fuel: Option<u64>,
    pub calls: Option<u64>,
}

impl Options {
    pub fn new() -> Options
        ensures fuel { result.fuel ≡ None }
        ensures calls { result.calls ≡ None }
    {
        Options {
            fuel: None,
            calls: None,
        }
    }

    /// The number that a setting has.
    fn number(self, setting: Setting) -> Option<u64>
        ensures { result ≡ number_of setting self }
    {
        match setting {
            Setting::Fuel => self.fuel,
            Setting::Calls => self.calls,
        }
    }

    /// These with another number for a setting.
    fn with(self, setting: Setting, number: u64) -> Options
        ensures { result ≡ with_number setting number self }
    {
        let given = Some(number);
        match setting {
            Setting::Fuel => Options {
                fuel: given,
                calls: self.calls,
            },
            Setting::Calls => Options {
                fuel: self.fuel,
                calls: given,
            },
        }
    }

    /// Gives a setting a value. It fails exactly where the text is no value of the setting, or the setting has one.
    pub fn set(&mut self, setting: Setting, text: &[u8]) -> Result<(), WordsFault>
        ensures could { OnOk result (CanSet setting text.now self.old) }
        ensures set { OnOk result
            (self.new ≡ with_number setting (digits_value 10 text.now) self.old) }
        ensures refused { OnErr result (¬ (CanSet setting text.now self.old)) }
    {
        let Some(number) = setting.read(text) else {
            return Err(WordsFault::Usage);
        };
        if self.number(setting).is_some() {
            return Err(WordsFault::Usage);
        }
        *self = self.with(setting, number);
        Ok(())
    }

    /// The limits of a run by one worker. `None` exactly where a number is outside its range.
    pub fn limits(self) -> Option<Limits>
        ensures outside { IsNone result →
            ¬ (AreInRange (unwrap_or self.fuel 1000000) (unwrap_or self.calls 1000000) 1) }
        ensures fuel { IfSome result (λ limits. limits.fuel ≡ unwrap_or self.fuel 1000000) }
        ensures calls { IfSome result (λ limits. limits.calls ≡ unwrap_or self.calls 1000000) }
        ensures workers { IfSome result (λ limits. limits.workers ≡ 1) }
    {
        Limits::new(self.fuel.unwrap_or(FUEL), self.calls.unwrap_or(CALLS), 1)
    }
}
