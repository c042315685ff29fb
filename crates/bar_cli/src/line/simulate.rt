//! The arguments of `simulate`.
ghost use Rattle.std.specs.Prelude.{◌≡◌};
ghost use Rattle.std.specs.Option.{option_map};
ghost use Rattle.bar_arguments.specs.Options.{texts};
ghost use Rattle.bar_cli.specs.Line.{simulate_values};
ghost use Rattle.bar_cli.specs.Code.Views.{seed_view};

use bar_arguments::number_in;

pub(super) const SIMULATE_OPTIONS: [&str; 1] = ["seed"];

/// The seed of a simulation, from the value of its option.
pub(super) fn seed_of(values: &[&str]) -> Option<u64>
    ensures { option_map seed_view result ≡ simulate_values (texts values.now) }
{
    let [seed] = *values else {
        return None;
    };
    number_in(seed, 0, u64::MAX)
}
