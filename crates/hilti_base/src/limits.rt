ghost use Rattle.std.specs.Prelude.{◌≡◌, IsNone, IfSome};
ghost use Rattle.hilti_base.specs.Ranges.{AreInRange};

/// What a run may use: instructions of one call, calls of the whole run, and workers.
#[derive(Clone, Copy, Debug, PartialEq, Eq)]
pub struct Limits {
    pub fuel: u64,
    pub calls: u64,
    pub workers: u32,
    ghost in_range: { AreInRange fuel calls workers },
}

impl Limits {
    /// The limits, where the fuel is 1 to 1,000,000,000, the calls are 1 to 100,000,000 and the workers are 1 to 64.
    pub fn new(fuel: u64, calls: u64, workers: u32) -> Option<Limits>
        ensures outside { IsNone result → ¬ (AreInRange fuel calls workers) }
        ensures fuel { IfSome result (λ limits. limits.fuel ≡ fuel) }
        ensures calls { IfSome result (λ limits. limits.calls ≡ calls) }
        ensures workers { IfSome result (λ limits. limits.workers ≡ workers) }
    {
        let fuel_fits = 1 <= fuel && fuel <= 1_000_000_000;
        let calls_fit = 1 <= calls && calls <= 100_000_000;
        if fuel_fits && calls_fit && 1 <= workers && workers <= 64 {
            Some(Limits {
                fuel,
                calls,
                workers,
            })
        } else {
            None
        }
    }
}
