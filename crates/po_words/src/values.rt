//! The request that a mode's values make.

ghost use Rattle.std.specs.Prelude.{◌≡◌, option_map};
ghost use Rattle.clap.specs.Words.{found_of, first_of, rows_of};
ghost use Rattle.po_words.specs.Finds.{Finds};
ghost use Rattle.po_words.specs.Values.{HasNumber, HasNumberOr, is_from_words, is_given};
ghost use Rattle.po_words.specs.Requests.{GivesIn};

use crate::mode::Mode;
use crate::number::number_within;
use crate::request::Request;
use clap::ArgMatches;
use clap::parser::ValueSource;

/// The value of an option.
fn value_of<'a>(matches: &ArgMatches<'a>, name: &str) -> Option<&'a str>
    ensures { option_map (λ s. s.now) result ≡ first_of name.now (rows_of (found_of matches.now)) }
{
    matches.get_str(name)
}

/// The number from `low` to `high` that is the value of an option.
fn number_of(matches: &ArgMatches, name: &str, low: u32, high: u32) -> Option<u32>
    ensures { Finds (HasNumber low high (first_of name.now (rows_of (found_of matches.now)))) result }
{
    match value_of(matches, name) {
        Some(value) => number_within(value, low, high),
        None => None,
    }
}

/// The same, where an option that is absent stands for a number.
fn number_or(matches: &ArgMatches, name: &str, low: u32, high: u32, absent: u32) -> Option<u32>
    ensures { Finds (HasNumberOr absent low high (first_of name.now (rows_of (found_of matches.now)))) result }
{
    match value_of(matches, name) {
        Some(value) => number_within(value, low, high),
        None => Some(absent),
    }
}

/// Whether an option comes from the words, and not from its default.
fn is_from_words(source: Option<ValueSource>) -> bool
    ensures { result ≡ is_from_words source }
{
    matches!(source, Some(ValueSource::CommandLine))
}

/// Whether the words give an option.
fn is_given(matches: &ArgMatches, name: &str) -> bool
    ensures { result ≡ is_given name.now (rows_of (found_of matches.now)) }
{
    is_from_words(matches.value_source(name))
}

fn opt_values(matches: &ArgMatches) -> Option<Request>
    ensures { Finds (GivesIn Mode.Opt (rows_of (found_of matches.now))) result }
{
    let workers = number_or(matches, "workers", 1, 16, 4)?;
    let learners = number_or(matches, "learners", 0, 8, 2)?;
    let stats = is_given(matches, "stats");
    Some(Request::Opt {
        workers,
        learners,
        stats,
    })
}

fn gen_values(matches: &ArgMatches) -> Option<Request>
    ensures { Finds (GivesIn Mode.Gen (rows_of (found_of matches.now))) result }
{
    let seed = number_of(matches, "seed", 0, u32::MAX)?;
    let units = number_of(matches, "units", 0, 10_000)?;
    Some(Request::Gen { seed, units })
}

/// The request of the mode that these matches give, where their values are in their bounds.
// ORDER: modes
pub fn request_in(mode: Mode, matches: &ArgMatches) -> Option<Request>
    ensures { Finds (GivesIn mode (rows_of (found_of matches.now))) result }
{
    match mode {
        Mode::Naive => Some(Request::Naive),
        Mode::Slow => Some(Request::Slow),
        Mode::Opt => opt_values(matches),
        Mode::Gen => gen_values(matches),
    }
}
