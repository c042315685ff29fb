//! The options of a command.
ghost use Rattle.std.specs.Prelude.{◌≡◌, map, string_bytes, Some, None, IfOk, Err, length};
ghost use Rattle.clap.specs.Words.{app_of};
ghost use Rattle.bar_arguments.specs.Options.{found_values, options_of, texts, values_of};

use clap::error::ErrorKind;
use clap::{Arg, ArgAction, ArgMatches, Command};
use std::alloc::{AllocError, Global};

/// Why arguments give no values.
#[derive(Clone, Copy, Debug, PartialEq, Eq)]
pub enum WordsFault {
    /// They aren't exactly these options, each once with its value.
    Usage,
    NoMemory,
}

impl From<AllocError> for WordsFault {
    ghost use Rattle.std.specs.Prelude.{◌≡◌};
    ghost use Rattle.bar_arguments.specs.declared.options.WordsFault.TheVariants.{NoMemory};

    ghost from_gives = { λ _ fault. fault ≡ NoMemory };

    fn from(_: AllocError) -> Self {
        WordsFault::NoMemory
    }
}

/// The command with these options.
fn command_with<'a>(alloc: Global, names: &[&'a str]) -> Result<Command<'a>, AllocError>
    ensures { IfOk result (λ command. app_of command ≡ options_of (texts names.now)) }
{
    let mut command = Command::new(alloc, "bar")
        .no_binary_name(true)
        .disable_help_flag(true);
    for name in names {
        let option = Arg::new(alloc, name)
            .long(name)
            .action(ArgAction::Set)
            .required(true);
        command = command.arg(option)?;
    }
    Ok(command)
}

/// The matches for these options, if the arguments are valid for them.
fn taken<'a>(
    alloc: Global,
    names: &[&'a str],
    words: &'a [String],
) -> Result<ArgMatches<'a>, WordsFault>
    ensures ok { IfOk result (λ found. values_of (texts names.now) (map string_bytes words.now) ≡ found_values found (texts names.now)) }
    ensures usage { result ≡ Err WordsFault.Usage → values_of (texts names.now) (map string_bytes words.now) ≡ None }
{
    match command_with(alloc, names)?.try_get_matches_from(words) {
        Ok(found) => Ok(found),
        Err(error) => match error.kind() {
            ErrorKind::OutOfMemory => Err(WordsFault::NoMemory),
            _ => Err(WordsFault::Usage),
        },
    }
}

/// The values of these options, if each has one.
fn values_in<'a>(
    alloc: Global,
    found: &ArgMatches<'a>,
    names: &[&'a str],
) -> Result<Vec<&'a str>, WordsFault>
    ensures ok { IfOk result (λ values. found_values found.now (texts names.now) ≡ Some (texts values.items)) }
    ensures each { IfOk result (λ values. length values.items ≡ length names.now) }
    ensures none { result ≡ Err WordsFault.Usage → found_values found.now (texts names.now) ≡ None }
{
    let mut values = Vec::new(alloc);
    for name in names {
        let Some(value) = found.get_str(name) else {
            return Err(WordsFault::Usage);
        };
        values.push(value).map_err(AllocError::from)?;
    }
    Ok(values)
}

/// The values of these options in the order of the names, if the arguments are exactly these options. Each occurs once, in any order, as
/// `--name value` or `--name=value`. Other arguments are refused as `Usage`.
pub fn option_values<'a>(
    alloc: Global,
    names: &[&'a str],
    words: &'a [String],
) -> Result<Vec<&'a str>, WordsFault>
    ensures ok { IfOk result (λ values. values_of (texts names.now) (map string_bytes words.now) ≡ Some (texts values.items)) }
    ensures each { IfOk result (λ values. length values.items ≡ length names.now) }
    ensures usage { result ≡ Err WordsFault.Usage → values_of (texts names.now) (map string_bytes words.now) ≡ None }
{
    let found = taken(alloc, names, words)?;
    values_in(alloc, &found, names)
}
