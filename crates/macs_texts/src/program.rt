//! A run of the program.
#![tactic(auto, using(crate::proofs::Adding::joined, crate::proofs::Adding::empty))]

ghost use Rattle.macs_commands.specs.Papers.{Writes};
ghost use Rattle.macs_texts.specs.Programs.{about_text};

use crate::build::Build;
use crate::lines::{known_line, worded_line};
use macs_commands::Paper;
use std::alloc::Global;

/// A run of the program.
#[derive(Drop)]
pub struct Program {
    pub build: Build,
    /// When it began, in seconds since the beginning of 1970 (UTC), if the clock could be read.
    pub started: Option<u64>,
    /// When a frame was last seen to have verified, in seconds since the beginning of 1970 (UTC),
    /// if one has, and the clock could be read then.
    pub last_good: Option<u64>,
}

impl Program {
    /// A run of no program: its texts are empty.
    pub fn none(alloc: Global) -> Program {
        let build = Build {
            version: String::new(alloc),
            commit: String::new(alloc),
            proved: String::new(alloc),
        };
        Program {
            build,
            started: None,
            last_good: None,
        }
    }
}

/// Writes which program runs, and since when, one line each.
pub fn about_lines(paper: &mut Paper, program: &Program)
    ensures { Writes paper.old paper.new (about_text program.now.build program.now.started) }
{
    let build = &program.build;
    worded_line(paper, "macsecd", build.version.as_str());
    worded_line(paper, "commit", build.commit.as_str());
    worded_line(paper, "proved", build.proved.as_str());
    known_line(paper, "started", program.started);
}
