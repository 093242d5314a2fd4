//! `examine`: a report on the journal of the disk in a file, which is only read.

ghost use Rattle.std.specs.Prelude.{◌≡◌, ◌≢◌, ◌⊎◌, ◌≤◌, true, Ok, IfErr, IfOk};
ghost use Rattle.std.specs.Prelude.{List, string_bytes};
ghost use Rattle.std.specs.Io.KnownBytes.{Appends};
ghost use Rattle.std.specs.declared.alloc.Global.{Global};
ghost use Rattle.macs_config.specs.Config.{this_edition};
ghost use Rattle.macs_disk.specs.Disk.{now};
ghost use Rattle.macs_disk.specs.MemDisks.{disk_of};
ghost use Rattle.macs_disk.specs.declared.memory.MemDisk.{MemDisk};
ghost use Rattle.macs_journal.specs.Areas.{least_sectors};
ghost use Rattle.macs_journal.specs.Found.{Content, HasJournal, IsBadJournal};
ghost use Rattle.macs_journal.specs.Opening.{IsNoJournal};
ghost use Rattle.macs_journal.specs.declared.fault.JournalFault.{JournalFault};
ghost use Rattle.macs_record.specs.declared.record.Record.{Record};
ghost use Rattle.macs_store.specs.Found.{StandingIs};
ghost use Rattle.macs_store.specs.Opening.{IsStoreOpening};
ghost use Rattle.macs_store.specs.Standing.{Standing};
ghost use Rattle.macs_offline.specs.Examining.{ExaminationFails, ExamineFails, ExaminesIn};
ghost use Rattle.macs_offline.specs.Examining.{IsNotExamined, IsNotOpened};
ghost use Rattle.macs_offline.specs.RecordLines.{records_text};
ghost use Rattle.macs_offline.specs.Examining.{PrintsExamined, Says, SaysFault, examined_text};
ghost use Rattle.macs_offline.specs.Examining.{fault_line, figures_of, said_text};
ghost use Rattle.macs_offline.specs.Trying.{failure_in_memory};
ghost use Rattle.macs_cli.specs.declared.failure.DiskFault.TheVariants.{Journal};

use crate::disk_copy::copy_of;
use crate::examined_text::{Figures, examined_text, fault_line};
use crate::files::open_shared;
use crate::record_lines::records_text;
use crate::trial::failure_in_memory;
use macs_cli::{
    CaptureFile, DiskFault, Failure, Status, Stream, failure_at_disk, print_last, print_report,
};
use macs_disk::{Layout, MemDisk};
use macs_journal::{JournalFault, RecoverRefused, Room, first_fault, new_room, recover_into};
use macs_store::{OpenRefused, Store};
use std::alloc::{AllocError, Global};
use std::rt::Files;

/// The figures of a journal, the lines of its records unless memory ran out, and the disk that it
/// was found on.
#[derive(Drop)]
struct Examined {
    figures: Figures,
    lines: Result<String, AllocError>,
    disk: MemDisk,
}

/// The report on a disk, and the status of the run.
#[derive(Drop)]
struct Said {
    text: String,
    status: Status,
}

/// Finds the journal of a disk in memory, with a buffer from the caller for its records.
fn find_with(
    alloc: Global,
    copy: MemDisk,
    room: &mut Room,
) -> Result<Examined, RecoverRefused<MemDisk>>
    ensures found { IfOk result
        (λ found. (content : Content) × HasJournal (now (disk_of copy)).seen content
        × (found.figures ≡ figures_of content)
        × IfOk found.lines (λ text. string_bytes text ≡ records_text content.records)) }
    ensures seen { IfOk result
        (λ found. (now (disk_of found.disk)).seen ≡ (now (disk_of copy)).seen) }
    ensures sectors { IfOk result (λ found. (disk_of found.disk).sectors ≡ (disk_of copy).sectors) }
    ensures refused { IfErr result (λ refused. refused.fault ≢ JournalFault.Disk
        → IsNoJournal disk_of copy refused.fault) }
    ensures left { IfErr result (λ refused. refused.fault ≡ JournalFault.BadJournal
        → (least_sectors ≤ (disk_of refused.disk).sectors)
        × ((now (disk_of refused.disk)).seen ≡ (now (disk_of copy)).seen)) }
{
    let found = recover_into(copy, room)?;
    let lines = records_text(alloc, &room[..found.used]);
    let figures = Figures {
        format: found.format,
        area: found.journal.area(),
        generation: found.journal.generation(),
        used: found.journal.used(),
    };
    Ok(Examined {
        figures,
        lines,
        disk: found.journal.into_disk(),
    })
}

/// Finds the journal of a disk in memory.
#[inline(never)]
fn find(alloc: Global, copy: MemDisk) -> Result<Examined, RecoverRefused<MemDisk>>
    ensures found { IfOk result
        (λ found. (content : Content) × HasJournal (now (disk_of copy)).seen content
        × (found.figures ≡ figures_of content)
        × IfOk found.lines (λ text. string_bytes text ≡ records_text content.records)) }
    ensures seen { IfOk result
        (λ found. (now (disk_of found.disk)).seen ≡ (now (disk_of copy)).seen) }
    ensures sectors { IfOk result (λ found. (disk_of found.disk).sectors ≡ (disk_of copy).sectors) }
    ensures refused { IfErr result (λ refused. refused.fault ≢ JournalFault.Disk
        → IsNoJournal disk_of copy refused.fault) }
    ensures left { IfErr result (λ refused. refused.fault ≡ JournalFault.BadJournal
        → (least_sectors ≤ (disk_of refused.disk).sectors)
        × ((now (disk_of refused.disk)).seen ≡ (now (disk_of copy)).seen)) }
{
    find_with(alloc, copy, &mut new_room())
}

/// The report on a journal with these figures and record lines, whose disk was opened as a store or
/// refused.
#[inline(never)]
fn report_journal(
    alloc: Global,
    layout: Layout,
    figures: Figures,
    lines: Result<String, AllocError>,
    opened: Result<Store<MemDisk>, OpenRefused<MemDisk>>,
) -> Result<Said, Failure>
    ensures reported { (disk : MemDisk Global) → IsStoreOpening disk_of disk opened
        → (records : List Record) → IfOk lines (λ text. string_bytes text ≡ records_text records)
        → IfOk result (λ said. (standing : Standing)
        × StandingIs this_edition (disk_of disk).sectors (now (disk_of disk)).seen (Ok standing)
        × (string_bytes said.text ≡ examined_text layout figures records standing)
        × (said.status ≡ Status.Done)) }
    ensures ended { (disk : MemDisk Global) → IsStoreOpening disk_of disk opened
        → IfErr result (IsNotOpened (disk_of disk)) }
{
    match &opened {
        Ok(store) => {
            let text = examined_text(alloc, layout, figures, lines, store)?;
            Ok(Said {
                text,
                status: Status::Done,
            })
        }
        Err(refused) => Err(failure_in_memory(DiskFault::Journal(refused.fault))),
    }
}

/// The report on a disk whose journal is bad: its first fault.
fn report_fault(alloc: Global, disk: &mut MemDisk) -> Result<Said, Failure>
    requires room { least_sectors ≤ (disk_of disk.old).sectors }
    requires bad { IsBadJournal (now (disk_of disk.old)).seen }
    ensures reported { IfOk result
        (λ said. SaysFault (now (disk_of disk.old)).seen (string_bytes said.text) said.status) }
    ensures ended { IfErr result (λ failure. failure ≡ Failure.Memory) }
{
    let Ok(fault) = first_fault(disk) else {
        return Err(Failure::Memory);
    };
    match fault {
        Some(at) => {
            let text = fault_line(alloc, at)?;
            Ok(Said {
                text,
                status: Status::Refused,
            })
        }
        None => Err(Failure::from(JournalFault::BadJournal)), // Never: a bad journal has a fault.
    }
}

/// The report on a disk on which no journal was found, for this fault: the first fault of a bad
/// one.
#[inline(never)]
fn report_refused(alloc: Global, fault: JournalFault, disk: &mut MemDisk) -> Result<Said, Failure>
    requires room { fault ≡ JournalFault.BadJournal → least_sectors ≤ (disk_of disk.old).sectors }
    requires bad { fault ≡ JournalFault.BadJournal → IsBadJournal (now (disk_of disk.old)).seen }
    ensures reported { IfOk result (λ said. (fault ≡ JournalFault.BadJournal)
        × SaysFault (now (disk_of disk.old)).seen (string_bytes said.text) said.status) }
    ensures ended { IfErr result (λ failure. (failure ≡ Failure.Memory)
        ⊎ ((fault ≢ JournalFault.BadJournal)
        × (failure ≡ failure_in_memory (Journal fault)))) }
{
    match fault {
        JournalFault::BadJournal => report_fault(alloc, disk),
        _ => Err(failure_in_memory(DiskFault::Journal(fault))),
    }
}

/// The report on an in-memory copy of a disk with this layout: what is found, or the first fault of
/// a bad journal. Fails with `Memory`, and with `Disk` for any other fault that keeps an endpoint
/// from being opened on it.
fn examine_copy(alloc: Global, layout: Layout, copy: MemDisk) -> Result<Said, Failure>
    ensures reported { IfOk result
        (λ said. Says (now (disk_of copy)).seen layout (string_bytes said.text) said.status) }
    ensures ended { IfErr result (IsNotExamined (disk_of copy)) }
{
    match find(alloc, copy) {
        Ok(found) => report_journal(
            alloc,
            layout,
            found.figures,
            found.lines,
            Store::open(found.disk),
        ),
        Err(mut refused) => report_refused(alloc, refused.fault, &mut refused.disk),
    }
}

/// The report on the disk in a file, which is opened only for reading. Fails with `DiskFile` and
/// the reason if there is no regular file that can be opened, or a writer has claimed it; then as
/// `copy_of` and `examine_copy` do.
fn examine_in<T: Files>(rt: &T, alloc: Global, path: &str) -> Result<Said, Failure>
where
    T::File: CaptureFile,
    ensures reported { IfOk result
        (λ said. ExaminesIn T.File.file (string_bytes said.text) said.status) }
    ensures ended { IfErr result (ExaminationFails T.File.file path.now) }
{
    match open_shared(rt, path) {
        Ok(mut file) => {
            let copy = copy_of(alloc, &mut file)?;
            examine_copy(alloc, copy.layout, copy.disk)
        }
        Err(error) => Err(failure_at_disk(alloc, path, error)),
    }
}

/// Prints the report on a disk, as JSON if requested. A refusal is not a report, and is printed as
/// plain text.
fn print_said<W: Stream>(
    alloc: Global,
    said: &Said,
    is_json: bool,
    out: &mut W,
) -> Result<Status, Failure>
    ensures printed { IfOk result (λ status. Appends (W.contents out.old) (W.contents out.new)
        (said_text is_json said.now.status (string_bytes said.now.text))
        × (status ≡ said.now.status)) }
    ensures ended { IfErr result
        (λ failure. (failure ≡ Failure.Memory) ⊎ (failure ≡ Failure.Output)) }
    ensures silent { IfErr result (λ failure. failure ≢ Failure.Output → out.new ≡ out.old) }
    ensures broken { IfErr result (λ failure. failure ≡ Failure.Output → W.failed out.new ≡ true) }
{
    match said.status {
        Status::Done => {
            print_report(alloc, said.text.as_str(), is_json, out)?;
            Ok(Status::Done)
        }
        status => print_last(out, said.text.as_str(), status),
    }
}

/// `examine`: prints a report on the journal of the disk in a file, as JSON if requested, or its
/// first fault, which is a refusal. The file is not changed.
pub fn examine<T: Files, W: Stream>(
    rt: &T,
    alloc: Global,
    path: &str,
    is_json: bool,
    out: &mut W,
) -> Result<Status, Failure>
where
    T::File: CaptureFile,
    ensures printed { IfOk result
        (PrintsExamined T.File.file is_json (W.contents out.old) (W.contents out.new)) }
    ensures ended { IfErr result (ExamineFails T.File.file path.now) }
    ensures silent { IfErr result (λ failure. failure ≢ Failure.Output → out.new ≡ out.old) }
    ensures broken { IfErr result (λ failure. failure ≡ Failure.Output → W.failed out.new ≡ true) }
{
    let said = examine_in(rt, alloc, path)?;
    print_said(alloc, &said, is_json, out)
}
