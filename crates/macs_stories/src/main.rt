//! Plays stories of an endpoint, of its store and of its journal, on a disk in memory: files of
//! acts, each with the expected answer. docs/STORIES.md says how one is written.
//!
//! Words: files of stories, and in front of them `--tell`, which prints each act with its answer,
//! or `--file PATH`, which has each disk in a file of this path as well. Status 0: all answers are
//! as expected. 3: an answer is not; each of these is printed. 2: no words, a file that
//! is not read, no memory.
#![tactic(auto)]

mod counting;
mod desks;
mod disk;
mod endpoint;
mod files;
mod frames;
mod life;
mod passing;
mod running;
mod serving;
mod shelf;
mod stage;
mod stories;
mod talks;
mod text;
mod tools;
mod wires;

use crate::stories::{Source, play};
use crate::text::{Report, Telling};
use std::process::ExitCode;
use std::{env, fs};

/// What the words in front of the files say.
#[derive(Clone, Copy)]
struct Manner<'a> {
    telling: Telling,
    path: Option<&'a str>,
}

/// Plays a file. Whether all was as wanted; `None` where it could not be played.
fn play_file(rt: &HostRuntime, file: &str, manner: Manner<'_>) -> Option<bool> {
    let text = fs::read_to_string(rt, file).ok()?;
    let source = Source {
        text: text.as_str(),
        path: manner.path,
    };
    let report = Report::new(file, manner.telling);
    let report = play(rt, rt.alloc(), source, report)?;
    Some(report.close(rt))
}

/// Plays files. Whether all was as wanted.
fn play_files(rt: &HostRuntime, files: &[String], manner: Manner<'_>) -> Option<bool> {
    let mut is_right = true;
    for file in files {
        let is_file_right = play_file(rt, file.as_str(), manner)?;
        is_right = is_right && is_file_right;
    }
    Some(is_right)
}

/// Does what the words say.
fn play_words(rt: &HostRuntime, words: &[String]) -> Option<bool> {
    let (first, files) = words.split_first()?;
    if first.as_str() == "--tell" {
        let manner = Manner {
            telling: Telling::Each,
            path: None,
        };
        return play_files(rt, files, manner);
    }
    if first.as_str() == "--file" {
        let (path, files) = files.split_first()?;
        let manner = Manner {
            telling: Telling::Wrong,
            path: Some(path.as_str()),
        };
        return play_files(rt, files, manner);
    }
    let manner = Manner {
        telling: Telling::Wrong,
        path: None,
    };
    play_files(rt, words, manner)
}

fn run(rt: &HostRuntime) -> Option<bool> {
    let words: Vec<String> = env::args(rt).ok()?.skip(1).collect(rt.alloc()).ok()?;
    play_words(rt, words.as_slice())
}

fn main(rt: HostRuntime) -> ExitCode {
    match run(&rt) {
        Some(true) => ExitCode::from(0),
        Some(false) => ExitCode::from(3),
        None => {
            let _told = eprintln!(rt;
                "macs_stories: no words, a file that cannot be read or made, or no memory"
            );
            ExitCode::from(2)
        }
    }
}
