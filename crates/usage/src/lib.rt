// What programs do with their command lines: on `--help` they print their usage, and they refuse a word that they do
// not know.
#![tactic(auto)]

ghost use Rattle.std.specs.Prelude.{◌≡◌, ◌≢◌, ◌⊎◌, codes, IfOk, IfSome};
ghost use Rattle.std.specs.Process.{exit_status};

use std::env::{self, Env};
use std::io;
use std::process::ExitCode;

// What a program ends with that was started wrongly.
const REFUSED: u8 = 2;

/// Answers the command line of a program that takes no words, and tells what to end with. With no word there is work to
/// do instead.
pub fn answer<R: Env + Alloc + Print + Eprint>(rt: &R, usage: &str) -> io::Result<Option<ExitCode>>
    ensures { IfOk result
        (λ answered. IfSome answered (λ code. (exit_status code ≡ 0) ⊎ (exit_status code ≡ 2))) }
{
    match env::args(rt)?.nth(1) {
        Some(word) => Ok(Some(answer_word(rt, word.as_str(), usage)?)),
        None => Ok(None),
    }
}

// Answers its first word: none is known but `--help`.
fn answer_word(rt: &(impl Print + Eprint), word: &str, usage: &str) -> io::Result<ExitCode>
    ensures help { word.now ≡ codes "--help" → IfOk result (λ code. exit_status code ≡ 0) }
    ensures unknown { word.now ≢ codes "--help" → IfOk result (λ code. exit_status code ≡ 2) }
    ensures either { IfOk result (λ code. (exit_status code ≡ 0) ⊎ (exit_status code ≡ 2)) }
{
    if word == "--help" {
        return help(rt, usage);
    }
    refuse(rt, "unknown word", word, usage)
}

/// Prints the usage.
pub fn help(rt: &impl Print, usage: &str) -> io::Result<ExitCode>
    ensures { IfOk result (λ code. exit_status code ≡ 0) }
{
    println!(rt; "{usage}")?;
    Ok(ExitCode::SUCCESS)
}

/// Says what is wrong with a word, and the usage.
pub fn refuse(rt: &impl Eprint, problem: &str, word: &str, usage: &str) -> io::Result<ExitCode>
    ensures { IfOk result (λ code. exit_status code ≡ 2) }
{
    eprintln!(rt; "{problem}: {word}")?;
    eprintln!(rt; "{usage}")?;
    Ok(ExitCode::from(REFUSED))
}
