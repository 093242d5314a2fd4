//! `ask` with its values.

ghost use Rattle.std.specs.Prelude.{◌≡◌, IfSome, IsSome, codes};
ghost use Rattle.clap.specs.Words.{found_of, rows_of};
ghost use Rattle.macs_cli.specs.Words.{HasQuestion, NamesTool, is_report, plain_question};
ghost use Rattle.macs_cli.specs.declared.words.action.Question.{Question};

use crate::words::action::{Question, ToolAction};
use crate::words::read_values::{is_flagged, text_in};
use clap::ArgMatches;

/// The question that consists of this word, except `apply`.
fn plain_question<'a>(word: &str) -> Option<Question<'a>>
    ensures { result ≡ plain_question word.now }
{
    match word {
        "show" => Some(Question::Show),
        "counters" => Some(Question::Counters),
        "keys" => Some(Question::Keys),
        "traffic" => Some(Question::Traffic),
        "about" => Some(Question::About),
        "stop" => Some(Question::Stop),
        _ => None,
    }
}

/// The question of `ask`: `None` if its words are not a question.
fn question_in<'a>(values: &ArgMatches<'a>) -> Option<Question<'a>>
    ensures read { IfSome result (HasQuestion (rows_of (found_of values.now))) }
    ensures found { (question : Question) → HasQuestion (rows_of (found_of values.now)) question
        → IsSome result }
{
    let word = text_in(values, "WORD")?;
    match text_in(values, "FILE") {
        None => plain_question(word),
        Some(file) if word == "apply" => Some(Question::Apply(file)),
        Some(_) => None,
    }
}

/// Whether the answer to a question is a report.
fn is_report(question: Question) -> bool
    ensures { result ≡ is_report question.entry }
{
    match question {
        Question::Show
        | Question::Counters
        | Question::Keys
        | Question::Traffic
        | Question::About => true,
        Question::Stop | Question::Apply(_) => false,
    }
}

/// `ask` with its values: `None` also if JSON is requested for an answer that is not a report.
pub fn ask_in<'a>(values: &ArgMatches<'a>) -> Option<ToolAction<'a>>
    ensures read { IfSome result
        (NamesTool (codes "ask", rows_of (found_of values.now))) }
    ensures found { (action : ToolAction)
        → NamesTool (codes "ask", rows_of (found_of values.now)) action
        → IsSome result }
{
    let path = text_in(values, "PATH")?;
    let question = question_in(values)?;
    let is_json = is_flagged(values, "json");
    if is_json && !is_report(question) {
        return None;
    }
    Some(ToolAction::Ask {
        path,
        question,
        is_json,
    })
}
