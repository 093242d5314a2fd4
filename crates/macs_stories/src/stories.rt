//! The stories of a file, each played on a new disk.

use crate::disk::{Controls, JournalLife, StoryDisk};
use crate::life::live;
use crate::shelf;
use crate::stage::Stage;
use crate::text::{Block, BlockKind, Line, Place, Play, Report, Script};
use macs_disk::FileDisk;
use macs_endpoint::Endpoint;
use macs_journal::{JournalFault, recover};
use macs_store::Store;
use std::alloc::Global;
use std::fs::File;
use std::rc::Rc;
use std::rt::Files;

/// How many sectors the disk of a story has at first: as many as a journal needs.
const SECTORS: u64 = 1_028;

/// A file of stories, and the path of the file that a disk is kept in as well.
#[derive(Clone, Copy)]
pub struct Source<'a> {
    pub text: &'a str,
    pub path: Option<&'a str>,
}

/// What opens the disk.
#[derive(Clone, Copy)]
enum Opening {
    Endpoint,
    Store,
    Journal,
}

fn opening_of(line: Line<'_>) -> Option<Opening> {
    match line.words().rest() {
        "open" => Some(Opening::Endpoint),
        "open-store" => Some(Opening::Store),
        "open-journal" => Some(Opening::Journal),
        _ => None,
    }
}

/// The file of a disk; `None` where it cannot be made.
fn file_of(
    rt: &impl Files<File = File>,
    alloc: Global,
    path: Option<&str>,
) -> Option<Option<FileDisk>> {
    match path {
        Some(path) => Some(Some(FileDisk::create(rt, alloc, path, SECTORS).ok()?)),
        None => Some(None),
    }
}

/// The disk that a story begins with: of zeros.
fn blank(
    rt: &impl Files<File = File>,
    alloc: Global,
    controls: Rc<Controls>,
    path: Option<&str>,
) -> Option<StoryDisk> {
    let file = file_of(rt, alloc, path)?;
    let mut disk = StoryDisk::new(alloc, controls, file, SECTORS)?;
    disk.restore();
    Some(disk)
}

/// The acts up to an opening; `None` where the story ends.
fn play_to_opening<'a>(
    rt: &impl Print,
    disk: &mut StoryDisk,
    stage: &mut Stage<'a>,
) -> Option<Line<'a>> {
    for _ in 0..u64::MAX {
        let line = stage.take(rt)?;
        if opening_of(line).is_some() {
            return Some(line);
        }
        shelf::play(disk, line, stage.tools.alloc, &mut stage.answer);
        stage.judge(rt, line);
    }
    None
}

/// A disk that is not opened.
fn refuse(
    rt: &impl Print,
    disk: StoryDisk,
    fault: JournalFault,
    stage: &mut Stage<'_>,
    line: Line<'_>,
) -> StoryDisk {
    stage.answer.name(&fault);
    stage.judge(rt, line);
    disk
}

/// Answers that the disk was opened.
fn accept(rt: &impl Print, stage: &mut Stage<'_>, line: Line<'_>) {
    stage.answer.word("ok");
    stage.judge(rt, line);
}

fn open_endpoint(
    rt: &impl Print,
    disk: StoryDisk,
    stage: &mut Stage<'_>,
    line: Line<'_>,
) -> StoryDisk {
    match Endpoint::open(disk) {
        Ok(endpoint) => {
            accept(rt, stage, line);
            live(rt, endpoint, stage)
        }
        Err(refused) => refuse(rt, refused.disk, refused.fault, stage, line),
    }
}

fn open_store(
    rt: &impl Print,
    disk: StoryDisk,
    stage: &mut Stage<'_>,
    line: Line<'_>,
) -> StoryDisk {
    match Store::open(disk) {
        Ok(store) => {
            accept(rt, stage, line);
            live(rt, store, stage)
        }
        Err(refused) => refuse(rt, refused.disk, refused.fault, stage, line),
    }
}

fn open_journal(
    rt: &impl Print,
    disk: StoryDisk,
    stage: &mut Stage<'_>,
    line: Line<'_>,
) -> StoryDisk {
    match recover(disk) {
        Ok(found) => {
            accept(rt, stage, line);
            live(rt, JournalLife::new(found), stage)
        }
        Err(refused) => refuse(rt, refused.disk, refused.fault, stage, line),
    }
}

/// Opens the disk, and plays the life that begins.
fn open(rt: &impl Print, disk: StoryDisk, stage: &mut Stage<'_>, line: Line<'_>) -> StoryDisk {
    match opening_of(line) {
        Some(Opening::Store) => open_store(rt, disk, stage, line),
        Some(Opening::Journal) => open_journal(rt, disk, stage, line),
        _ => open_endpoint(rt, disk, stage, line),
    }
}

fn play_story(rt: &impl Print, disk: StoryDisk, stage: &mut Stage<'_>) {
    let mut disk = disk;
    for _ in 0..u64::MAX {
        let Some(line) = play_to_opening(rt, &mut disk, stage) else {
            return;
        };
        disk = open(rt, disk, stage, line);
    }
}

/// Plays a story on its disk.
fn play_on<'a>(rt: &impl Print, disk: StoryDisk, stage: Stage<'a>) -> Report<'a> {
    let mut stage = stage;
    play_story(rt, disk, &mut stage);
    stage.into_report(rt)
}

/// Plays a story once. The report, unless there was no memory or no file.
fn play_once<'a>(
    rt: &(impl Print + Files<File = File>),
    alloc: Global,
    source: Source<'a>,
    block: Block<'a>,
    play: Play<'a>,
    report: Report<'a>,
) -> Option<Report<'a>> {
    let controls = Rc::new(alloc, Controls::new()).ok()?;
    let disk = blank(rt, alloc, controls.clone().ok()?, source.path)?;
    let script = Script::new(source.text, block.body, play);
    let mut report = report;
    report.begin_story(rt, block.name);
    let stage = Stage::new(alloc, script, report, controls);
    Some(play_on(rt, disk, stage))
}

/// Plays a story with each of its rows.
fn play_rows<'a>(
    rt: &(impl Print + Files<File = File>),
    alloc: Global,
    source: Source<'a>,
    block: Block<'a>,
    report: Report<'a>,
) -> Option<Report<'a>> {
    let mut report = report;
    let mut play = Play::first(block.body);
    for _ in 0..u64::MAX {
        report = play_once(rt, alloc, source, block, play, report)?;
        let Some(next) = play.next() else {
            return Some(report);
        };
        play = next;
    }
    None
}

/// Plays the stories of a file. What is to be reported of it, unless there was no memory or no
/// file.
pub fn play<'a>(
    rt: &(impl Print + Files<File = File>),
    alloc: Global,
    source: Source<'a>,
    report: Report<'a>,
) -> Option<Report<'a>> {
    let mut report = report;
    let mut place = Place::new(source.text);
    if let Some((line, number)) = place.stray() {
        report.stray(rt, line, number);
    }
    for _ in 0..u64::MAX {
        let Some(block) = place.block() else {
            return Some(report);
        };
        if block.kind == BlockKind::Story {
            report = play_rows(rt, alloc, source, block, report)?;
        }
        place = block.body;
    }
    None
}
