//! The flags of a supervisor, out of its table.
ghost use Rattle.std.specs.Prelude.{◌≡◌, ◌≤◌, IfOk, None};
ghost use Rattle.otp_spec.specs.Flags.{flags_fault};
ghost use Rattle.otp_file.specs.Faults.{answer_of};
ghost use Rattle.otp_file.specs.Tree.{flag_faults, flags_in};
ghost use Rattle.toml.specs.View.{table_view};

use crate::fault::{FaultPlace, FlagKey, TreeFault};
use crate::table::{has_only_flag_keys, value_at};
use crate::value::{auto_shutdown_at, intensity_at, period_at, strategy_at};
use otp_spec::{MAX_INTENSITY, MAX_PERIOD, SupFlags};
use toml::Table;

/// The flags that the table says. What stands at `child` is not looked at.
pub(crate) fn flags_in(table: &Table) -> Result<SupFlags, TreeFault>
    ensures answer { result ≡ answer_of (flag_faults (table_view table.now)) (flags_in (table_view table.now)) }
    ensures lawful { IfOk result (λ flags. flags_fault flags ≡ None) }
    ensures limits { IfOk result (λ flags. (flags.intensity ≤ MAX_INTENSITY) × (1 ≤ flags.period) × (flags.period ≤ MAX_PERIOD)) }
{
    if !has_only_flag_keys(table) {
        return Err(TreeFault::UnknownKey(FaultPlace::Table));
    }
    let strategy = strategy_at(value_at(table, FlagKey::Strategy.name())).map_err(
        |unfit| FlagKey::Strategy.fault(unfit),
    )?;
    let intensity = intensity_at(value_at(table, FlagKey::Intensity.name())).map_err(
        |unfit| FlagKey::Intensity.fault(unfit),
    )?;
    let period = period_at(value_at(table, FlagKey::Period.name())).map_err(
        |unfit| FlagKey::Period.fault(unfit),
    )?;
    let auto_shutdown = auto_shutdown_at(value_at(table, FlagKey::AutoShutdown.name())).map_err(
        |unfit| FlagKey::AutoShutdown.fault(unfit),
    )?;
    Ok(SupFlags {
        strategy,
        intensity,
        period,
        auto_shutdown,
    })
}
