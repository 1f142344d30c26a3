use std::marker::Brand;
use std::sync::ledger::Ledger;

/// Which serving it is: the gate as it stood at entry, how many links it may hand out at most, and how many own entries the
/// sessions had. Its ledger counts the links that are out. It has no calls.
pub(crate) trait Watch: Ledger {
    ghost use Rattle.std.specs.Prelude.{ℕ};
    ghost use Rattle.outer_gates.specs.Gates.{GateTold};

    ghost entry: { GateTold };

    ghost limit: { ℕ };

    ghost held: { ℕ };
}

/// Each call that serves picks another one.
impl Watch for Brand {
    ghost use Rattle.std.specs.Prelude.{None};

    ghost entry = { record { left = None; finished = None; faults = 0 } };

    ghost limit = { 0 };

    ghost held = { 0 };
}
