/// Bytes that were granted at a stamp. A charge that is dropped stays in the used number for good.
pub trait Charge: Drop {
    ghost use Rattle.std.specs.Prelude.{◌≡◌, ℕ};
    ghost use Rattle.prio_budget.specs.Share.{Share};

    ghost amount: { Self → ℕ };

    ghost stamp: { Self → ℕ };

    ghost share: { Self → Share };

    /// The number of granted bytes.
    fn amount(&self) -> u32
        ensures { result ≡ amount self.now };

    /// The stamp that the grant found.
    fn stamp(&self) -> u32
        ensures { result ≡ stamp self.now };
}
