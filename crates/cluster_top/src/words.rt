//! The words after the program's name.
ghost use Rattle.std.specs.Prelude.{◌≡◌, ◌≢◌, ◌↔◌, ℕ, map, codes, string_bytes, Err, IfOk, IfErr, IfSome, IsErrOf, IsNone, IsTrue};
ghost use Rattle.std.specs.List.{list_all, list_any};
ghost use Rattle.clap.specs.Words.{app_of, first_value, found_of, kind_of};
ghost use Rattle.script_lang.specs.Values.{is_digit};
ghost use Rattle.cluster_top.specs.Words.{Asks, AskAudit, AskNoReplay, AreNumber, IsNoNumber, SpellsNumber, replay_options, is_audit, is_dashes};

use clap::error::ErrorKind;
use clap::{Arg, ArgAction, ArgMatches, Command, Error};
use std::alloc::{AllocError, Global};

/// What is to be replayed, and what is to be written of it.
#[derive(Clone, Copy, Debug, PartialEq, Eq)]
pub struct Words {
    /// Whether the summary follows the transcript.
    pub summary: bool,
    /// The number of the generated script that is replayed in place of the source's.
    pub generate: Option<u64>,
}

/// Why words aren't read.
#[derive(Clone, Copy, Debug, PartialEq, Eq)]
pub enum WordsFault {
    /// They aren't words that the program takes.
    Bad,
    NoMemory,
}

impl From<AllocError> for WordsFault {
    ghost use Rattle.cluster_top.specs.declared.words.WordsFault.TheVariants.{NoMemory};

    ghost from_gives = { λ _ fault. fault ≡ NoMemory };

    fn from(_refused: AllocError) -> WordsFault {
        WordsFault::NoMemory
    }
}

impl From<Error> for WordsFault {
    ghost use Rattle.clap.specs.declared.error.kind.ErrorKind.TheVariants.{OutOfMemory};
    ghost use Rattle.cluster_top.specs.declared.words.WordsFault.TheVariants.{NoMemory};

    ghost from_gives = { λ error fault. kind_of error ≡ OutOfMemory → fault ≡ NoMemory };

    fn from(error: Error) -> WordsFault {
        match error.kind() {
            ErrorKind::OutOfMemory => WordsFault::NoMemory,
            _ => WordsFault::Bad,
        }
    }
}

/// Whether the words ask for an audit: `--audit`, and no word beside it. So it is no option of the
/// command line, which takes those that stand beside one another.
pub fn ask_for_audit(words: &[String]) -> bool
    ensures { IsTrue result ↔ AskAudit (map string_bytes words.now) }
{
    words.len() == 1 && is_audit_word(&words[0])
}

fn is_audit_word(word: &String) -> bool
    ensures { result ≡ is_audit (string_bytes word.now) }
{
    word.as_str() == "--audit"
}

/// Reads the words that ask for a replay: `--summary`, and `--generate` with a number as the next
/// word or behind `=`, each at most once and in any order. The number is 1 to 20 digits below 2^64.
/// `Bad` for all others.
pub fn read_words(alloc: Global, words: &[String]) -> Result<Words, WordsFault>
    ensures asked { IfOk result (λ asked. Asks (map string_bytes words.now) asked) }
    ensures bad { IsErrOf result WordsFault.Bad → AskNoReplay (map string_bytes words.now) }
{
    if has_dashes(words) {
        return Err(WordsFault::Bad);
    }
    let matches = command(alloc)?.try_get_matches_from(words)?;
    Ok(Words {
        summary: matches.get_flag("summary"),
        generate: number_given(&matches)?,
    })
}

/// Whether one of the words is that which ends options.
fn has_dashes(words: &[String]) -> bool
    ensures { result ≡ list_any (λ word. is_dashes (string_bytes word)) words.now }
{
    words.iter().any(|word| are_dashes(word))
}

fn are_dashes(word: &String) -> bool
    ensures { result ≡ is_dashes (string_bytes word.now) }
{
    word.as_str() == "--"
}

fn command<'a>(alloc: Global) -> Result<Command<'a>, AllocError>
    ensures { IfOk result (λ command. app_of command ≡ replay_options) }
{
    let summary = Arg::new(alloc, "summary")
        .long("summary")
        .action(ArgAction::SetTrue);
    let generate = Arg::new(alloc, "generate")
        .long("generate")
        .action(ArgAction::Set);
    Command::new(alloc, "cluster_main")
        .no_binary_name(true)
        .disable_help_flag(true)
        .arg(summary)?
        .arg(generate)
}

/// The number after `--generate`, where it is given.
fn number_given(matches: &ArgMatches<'_>) -> Result<Option<u64>, WordsFault>
    ensures ok { IfOk result (AreNumber (first_value (found_of matches.now) (codes "generate"))) }
    ensures err { IfErr result
        (λ _. IsNoNumber (first_value (found_of matches.now) (codes "generate"))) }
    ensures only { result ≢ Err WordsFault.NoMemory }
{
    match matches.get_str("generate") {
        None => Ok(None),
        Some(text) => match number_of(text) {
            None => Err(WordsFault::Bad),
            Some(number) => Ok(Some(number)),
        },
    }
}

/// The number of 1 to 20 decimal digits, where it is below 2^64.
fn number_of(text: &str) -> Option<u64>
    ensures number { IfSome result (SpellsNumber text.now) }
    ensures none { IsNone result → (n : ℕ) → ¬ SpellsNumber text.now n }
{
    if text.len() > 20 || !are_digits(text) {
        return None;
    }
    match text.parse::<u64>() {
        Ok(number) => Some(number),
        Err(_) => None,
    }
}

fn are_digits(text: &str) -> bool
    ensures { result ≡ list_all is_digit text.now }
{
    text.as_bytes().iter().all(|b| *b >= b'0' && *b <= b'9')
}
