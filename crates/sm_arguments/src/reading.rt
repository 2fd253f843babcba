//! What the words of a command line ask for, and why they are refused.
ghost use Rattle.std.specs.Prelude.{◌≡◌, ◌∷◌, Some, map, string_bytes};
ghost use Rattle.std.specs.List.{list_any};
ghost use Rattle.clap.specs.Words.{found_of, rows_of};
ghost use Rattle.sm_arguments.specs.App.{asked_by_rows};
ghost use Rattle.sm_arguments.specs.Request.{Answers, asked_by, asked_with, is_empty, solve_of, check_of};

use crate::command::{first, is_given, matched};
use crate::refusal::RequestRefusal;
use crate::requests::Request;
use clap::ArgMatches;
use std::alloc::Global;

/// Whether one of the words is empty.
fn has_empty(words: &[&str]) -> bool
    ensures { result ≡ list_any is_empty (map (λ w. w.now) words.now) }
{
    words.iter().any(|word| word.is_empty())
}

/// Asks for a search of the model.
fn solve<'a>(
    alloc: Global,
    model: &'a str,
    files: &[&'a str],
    brief: bool,
) -> Result<Request<'a>, RequestRefusal>
    ensures { Answers result (solve_of model.now (map (λ f. f.now) files.now) brief) }
{
    let data_files = Vec::from_slice(alloc, files)?;
    Ok(Request::Solve {
        model,
        data_files,
        brief,
    })
}

/// Asks for a check of the log, which is the last of the files.
fn check<'a>(
    alloc: Global,
    model: &'a str,
    files: &[&'a str],
) -> Result<Request<'a>, RequestRefusal>
    ensures { Answers result (check_of model.now (map (λ f. f.now) files.now)) }
{
    let [data_files @ .., log] = files else {
        return Err(RequestRefusal::Usage);
    };
    let data_files = Vec::from_slice(alloc, data_files)?;
    Ok(Request::Check {
        model,
        data_files,
        log,
    })
}

/// What a command asks for with these files.
fn asked<'a>(
    alloc: Global,
    command: &str,
    model: &'a str,
    files: &[&'a str],
    brief: bool,
) -> Result<Request<'a>, RequestRefusal>
    ensures { Answers result (asked_with (command.now ∷ model.now ∷ map (λ f. f.now) files.now) (Some brief)) }
{
    if model.is_empty() || has_empty(files) {
        return Err(RequestRefusal::Usage);
    }
    if command == "solve" {
        return solve(alloc, model, files, brief);
    }
    if command == "check" && !brief {
        return check(alloc, model, files);
    }
    Err(RequestRefusal::Usage)
}

/// What the matches ask for.
fn requested<'a>(alloc: Global, matches: &ArgMatches<'a>) -> Result<Request<'a>, RequestRefusal>
    ensures { Answers result (asked_by_rows (rows_of (found_of matches.now))) }
{
    let Some(command) = first(matches, "command") else {
        return Err(RequestRefusal::Usage);
    };
    let Some(model) = first(matches, "model") else {
        return Err(RequestRefusal::Usage);
    };
    let files = matches.get_strs("files").unwrap_or(&[]);
    let brief = is_given(matches, "brief");
    asked(alloc, command, model, files, brief)
}

/// What the words after the program's name ask for.
///
/// Words before the first `--` that begin with `-` and have more bytes are option words, which may stand anywhere among
/// the others. That `--` is left out. The other words are, in their order, the command, the model and the other files;
/// the last file of `check` is the log. No word is empty. The one option is `--brief`, once at most and at `solve` alone.
///
/// # Errors
///
/// [`RequestRefusal::Usage`] where the words are no such line, and [`RequestRefusal::OutOfMemory`] where memory runs
/// out, whatever the words are.
pub fn request<'a>(alloc: Global, words: &'a [String]) -> Result<Request<'a>, RequestRefusal>
    ensures { Answers result (asked_by (map string_bytes words.now)) }
{
    match matched(alloc, words) {
        Ok(matches) => requested(alloc, &matches),
        Err(refusal) => Err(refusal),
    }
}
