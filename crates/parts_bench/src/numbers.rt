//! Numbers that come in no order, the same in every run and in `bench/late.rs`.
ghost use Rattle.std.specs.Prelude.{◌<◌};

/// Numbers by a linear congruence, from the same seed in every run.
#[derive(Drop)]
pub(crate) struct Numbers {
    seed: u64,
}

impl Numbers {
    /// The numbers from their first on.
    pub(crate) fn new() -> Numbers {
        Numbers { seed: 1 }
    }

    /// The next number, from 0 and smaller than the bound.
    pub(crate) fn next(&mut self, bound: u32) -> u32
        requires { 0 < bound }
        ensures { result < bound }
    {
        self.seed = self
            .seed
            .wrapping_mul(6_364_136_223_846_793_005)
            .wrapping_add(1_442_695_040_888_963_407);
        ((self.seed >> 33) % u64::from(bound)) as u32
    }
}
