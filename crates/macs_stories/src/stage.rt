//! What the acts of a story share.

use crate::disk::{Controls, Fuse};
use crate::text::{Answer, Line, Report, Script, Words};
use crate::tools::Tools;
use std::alloc::Global;
use std::rc::Rc;

/// What the acts of a story share.
#[derive(Drop)]
pub struct Stage<'a> {
    script: Script<'a>,
    report: Report<'a>,
    controls: Rc<Controls>,
    pub answer: Answer,
    pub tools: Tools,
}

impl<'a> Stage<'a> {
    /// A story of which nothing is played yet.
    pub fn new(
        alloc: Global,
        script: Script<'a>,
        report: Report<'a>,
        controls: Rc<Controls>,
    ) -> Stage<'a> {
        Stage {
            script,
            report,
            controls,
            answer: Answer::new(alloc),
            tools: Tools::new(alloc),
        }
    }

    /// The next act with the disk, or with what has it; others are done. `None` where the story
    /// ends.
    pub fn take(&mut self, rt: &impl Print) -> Option<Line<'a>> {
        for _ in 0..u64::MAX {
            let line = self.script.take()?;
            self.answer.clear();
            if !self.control(line) && self.tools.act(line, &mut self.answer).is_none() {
                self.answer.clear();
                return Some(line);
            }
            self.judge(rt, line);
        }
        None
    }

    /// Compares the answer with what is expected.
    pub fn judge(&mut self, rt: &impl Print, line: Line<'_>) {
        self.report.judge(rt, line, &self.answer);
    }

    /// Does what is said to the disk's controls. Whether the act is one.
    fn control(&mut self, line: Line<'_>) -> bool {
        let mut words = line.words();
        match words.take() {
            "fail" => fail(&self.controls, &mut words, &mut self.answer),
            "calls" => {
                self.answer.number(self.controls.calls());
                true
            }
            _ => false,
        }
    }

    /// What is printed of the file, also where the file of its disk gave other octets than the disk
    /// in memory.
    pub fn into_report(self, rt: &impl Print) -> Report<'a> {
        let Stage {
            report,
            controls,
            ..
        } = self;
        let mut report = report;
        if controls.differs() {
            report.differ(rt);
        }
        report
    }
}

/// `fail FUSE`: says which device calls fail. Whether there is such a fuse.
fn fail(controls: &Controls, words: &mut Words<'_>, answer: &mut Answer) -> bool {
    let Some(fuse) = fuse_of(words) else {
        return false;
    };
    controls.set(fuse);
    answer.word("ok");
    true
}

/// `never`; `N` for the call after so many more; `N filled`; `N on`.
fn fuse_of(words: &mut Words<'_>) -> Option<Fuse> {
    if words.rest() == "never" {
        return Some(Fuse::Whole);
    }
    let left = words.number()?;
    match words.take_rest() {
        "" => Some(Fuse::Once(left)),
        "filled" => Some(Fuse::Filled(left)),
        "on" => Some(Fuse::Each(left)),
        _ => None,
    }
}
