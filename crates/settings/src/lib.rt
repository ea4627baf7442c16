//! What the command line asks for.
#![tactic(auto)]

ghost use Rattle.std.specs.Prelude.{◌≡◌, ◌≢◌, ◌≤◌, true, false, List, map, IfOk, IfSome, IsErrOf, string_bytes};
ghost use Rattle.clap.specs.Words.{Text, app_of, found_of, kind_of, matches_of, rows_of, rule_of, takes};
ghost use Rattle.clap.specs.declared.error.kind.ErrorKind.TheVariants.{OutOfMemory};
ghost use Rattle.settings.specs.Settings.{AreRefused, HasNumber, HasNumberIfGiven, HasNumbers, Reads, number_in, number_rule, optional_rule, or_name, semi_app};
ghost use Rattle.settings.specs.declared.SettingsFault.TheVariants.{NoMemory, Refused};

use clap::error::ErrorKind;
use clap::{Arg, ArgAction, ArgMatches, Command};
use std::alloc::{AllocError, Global};
use thiserror::Error;

/// What may be used up on a problem, and how much is written out.
#[derive(Clone, Copy, Debug, PartialEq, Eq)]
pub struct Settings {
    /// How many rows a coset enumeration by the strategy of Haselgrove, Leech and Trotter may make.
    pub rows: usize,
    /// How many definitions a coset enumeration by Felsch's strategy may make.
    pub defs: usize,
    /// How many letters a word of a completion may have at most.
    pub length: usize,
    /// How many elements are listed at most.
    pub elements: usize,
    /// The greatest index that is written out.
    pub classes: usize,
    /// How many workers a race has.
    pub workers: usize,
    /// Half the order of the dihedral group whose script is made, where none is read.
    pub make: Option<usize>,
}

/// Why there are no settings.
#[derive(Clone, Copy, Debug, PartialEq, Eq, Error)]
pub enum SettingsFault {
    /// The words are not those of the command.
    #[error("usage: semi [--rows M] [--defs D] [--length L] [--elements N] [--classes C] [--workers W] [--make K]")]
    Refused,
    /// Memory ran out.
    #[error("out of memory")]
    NoMemory,
}

impl From<AllocError> for SettingsFault {
    ghost from_gives = { λ _ fault. fault ≡ NoMemory };

    fn from(_error: AllocError) -> SettingsFault {
        SettingsFault::NoMemory
    }
}

impl From<clap::Error> for SettingsFault {
    ghost from_gives = { λ error fault. fault ≡ Refused → kind_of error ≢ OutOfMemory };

    fn from(error: clap::Error) -> SettingsFault {
        match error.kind() {
            ErrorKind::OutOfMemory => SettingsFault::NoMemory,
            _ => SettingsFault::Refused,
        }
    }
}

// The option `--name`, of one number from `least` to `most`, with no default.
fn optional_number<'a>(alloc: Global, name: &'a str, least: u32, most: u32) -> Arg<'a>
    ensures rule { rule_of result ≡ optional_rule name.entry.now least most }
    ensures local { result.global ≡ false }
{
    Arg::new(alloc, name)
        .long(name)
        .action(ArgAction::Set)
        .value_parser(clap::value_parser!(usize).range(i64::from(least)..=i64::from(most)))
}

// The option `--name`, of one number from `least` to `most`, with a default.
fn number_option<'a>(
    alloc: Global,
    name: &'a str,
    least: u32,
    most: u32,
    preset: &'a str,
) -> Arg<'a>
    ensures rule { rule_of result ≡ number_rule name.entry.now least most preset.entry.now }
    ensures local { result.global ≡ false }
{
    optional_number(alloc, name, least, most).default_value(preset)
}

fn semi_command<'a>(alloc: Global) -> Result<Command<'a>, AllocError>
    ensures { IfOk result (λ command. app_of command ≡ semi_app) }
{
    Command::new(alloc, "semi")
        .arg(number_option(alloc, "rows", 0, 1_000_000, "1000"))?
        .arg(number_option(alloc, "defs", 0, 1_000_000, "10000"))?
        .arg(number_option(alloc, "length", 0, 64, "12"))?
        .arg(number_option(alloc, "elements", 0, 10_000_000, "100000"))?
        .arg(number_option(alloc, "classes", 0, 1_000_000, "10000"))?
        .arg(number_option(alloc, "workers", 1, 64, "3"))?
        .arg(optional_number(alloc, "make", 1, 200))
}

fn matches_in<'a>(alloc: Global, words: &'a [String]) -> Result<ArgMatches<'a>, SettingsFault>
    ensures taken { IfOk result (λ _. takes semi_app (map string_bytes words.entry.now) ≡ true) }
    ensures rows { IfOk result (λ matches. rows_of (found_of matches)
        ≡ matches_of semi_app (map string_bytes words.entry.now)) }
    ensures numbers { IfOk result (λ matches. HasNumbers (rows_of (found_of matches))) }
    ensures refused { IsErrOf result SettingsFault.Refused
        → takes semi_app (map string_bytes words.entry.now) ≡ false }
{
    let mut command = semi_command(alloc)?;
    Ok(command.try_get_matches_from_mut(words)?)
}

// The number of an option, if it is given.
fn given_number_of(matches: &ArgMatches, id: &str) -> Option<usize>
    requires { HasNumberIfGiven 0 usize.MAX id.now (rows_of (found_of matches.now)) }
    ensures { number_in id.now (rows_of (found_of matches.now)) ≡ result }
{
    matches.get_one::<usize>(id)
}

// The number of an option that has one.
fn number_of(matches: &ArgMatches, id: &str) -> usize
    requires { HasNumber 0 usize.MAX id.now (rows_of (found_of matches.now)) }
    ensures { number_in id.now (rows_of (found_of matches.now)) ≡ Some result }
{
    matches.get_one::<usize>(id).unwrap()
}

/// The settings that the words of a command line ask for. The first word is the program's name, and
/// where there is no word the name is taken to be there. Refused with `Refused` only where clap's
/// rules do not take the words for this command, and with `NoMemory` where memory is wanting.
pub fn settings_of(alloc: Global, words: &Vec<String>) -> Result<Settings, SettingsFault>
    ensures ok { IfOk result (Reads (or_name (map string_bytes words.now.items))) }
    ensures refused { IsErrOf result SettingsFault.Refused
        → AreRefused (map string_bytes words.now.items) }
    ensures bounded { IfOk result (λ settings. (settings.rows ≤ 1000000) × (settings.defs ≤ 1000000)
        × (settings.length ≤ 64) × (settings.elements ≤ 10000000) × (settings.classes ≤ 1000000)
        × (1 ≤ settings.workers) × (settings.workers ≤ 64)) }
    ensures made { IfOk result (λ settings. IfSome settings.make (λ k. (1 ≤ k) × (k ≤ 200))) }
{
    let matches = matches_in(alloc, words.as_slice())?;
    Ok(Settings {
        rows: number_of(&matches, "rows"),
        defs: number_of(&matches, "defs"),
        length: number_of(&matches, "length"),
        elements: number_of(&matches, "elements"),
        classes: number_of(&matches, "classes"),
        workers: number_of(&matches, "workers"),
        make: given_number_of(&matches, "make"),
    })
}

/// Words set at most one settings: what clap's specification reads from them is a function of them.
pub fn settings_are_one()
    ensures { (words : List Text) (settings other : Settings)
        → Reads words settings → Reads words other → settings ≡ other }
{}
