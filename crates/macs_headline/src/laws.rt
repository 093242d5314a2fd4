//! The laws, and that they apply to what a program does.

ghost use Rattle.std.specs.Prelude.{◌≡◌, ◌≤◌, ◌<◌, ◌+◌, ◌/◌, ◌%◌, ℕ, max, true, false};
ghost use Rattle.macs_disk.specs.Disk.{Disk, IsHonest, LeftSince, MayLeave, disk_after_loss, now};
ghost use Rattle.macs_disk.specs.FileDisks.{IsBlank, IsFoundAgain, IsFoundAs, IsLeftAsShown};
ghost use Rattle.macs_disk.specs.FileDisks.{IsOpened, disk_in_file};
ghost use Rattle.macs_disk.specs.FileDisks.{file_left, layout_of, state_in_file};
ghost use Rattle.macs_disk.specs.Files.{Behaves, FileState, HasNothingNew, IsSoundFile};
ghost use Rattle.macs_disk.specs.Files.{values_from};
ghost use Rattle.macs_disk.specs.Layouts.{place, suits};
ghost use Rattle.macs_disk.specs.Memory.{blank_memory};
ghost use Rattle.macs_disk.specs.States.{Image, IsImage, zero_sector};
ghost use Rattle.macs_disk.specs.declared.file.FileDisk.{FileDisk};
ghost use Rattle.macs_disk.specs.declared.layout.Layout.{Layout};
ghost use Rattle.macs_disk.specs.declared.layout.Layout.TheVariants.{Packed, Spaced};
ghost use Rattle.macs_journal.specs.Areas.{least_sectors};
ghost use Rattle.macs_headline.specs.Answered.{AnswersAreHeld, MomentsAreHistories};
ghost use Rattle.macs_headline.specs.Binding.{CallsAreDeeds, ChainsAnswer};
ghost use Rattle.macs_headline.specs.Binding.{DeedsAreHistories, EndsAreCuts, FittingHaveHistories};
ghost use Rattle.macs_headline.specs.Binding.{IsNewDisk};
ghost use Rattle.macs_headline.specs.Binding.{LargerFind, LargerGoOn};
ghost use Rattle.macs_headline.specs.Binding.{LivesAreMoments, LivesFit};
ghost use Rattle.macs_headline.specs.Binding.{HistoriesFit};
ghost use Rattle.macs_headline.specs.Binding.{NewDeedsAreHistories, OpeningsMigrate};
ghost use Rattle.macs_headline.specs.Binding.{NewDisksHaveHistories, OpeningsFind};
ghost use Rattle.macs_headline.specs.Binding.{PassedOnHaveHistories, RefusalsAreFailures};
ghost use Rattle.macs_headline.specs.Binding.{SettledHaveHistories};
ghost use Rattle.macs_headline.specs.Commands.{CommandsKept, FindsOne, UnderWayWasGiven};
ghost use Rattle.macs_headline.specs.Configurations.{ConfigurationIs, IsFirstConfiguration};
ghost use Rattle.macs_headline.specs.Deliveries.{DeliveredBelow, DeliveriesAreVerified, GivenOnce};
ghost use Rattle.macs_headline.specs.Deliveries.{NeverOkAgain, OthersAreBare};
ghost use Rattle.macs_headline.specs.Endings.{DroppedPassOn, ImagesAreWhole};
ghost use Rattle.macs_headline.specs.Endings.{KillingsPassOn, LosesPower, LossesSettle};
ghost use Rattle.macs_headline.specs.Endings.{PowerLossesPassOn};
ghost use Rattle.macs_headline.specs.Endings.{ReadsPassOn, SyncsPassOn};
ghost use Rattle.macs_headline.specs.Endings.{WrittenBackPassOn};
ghost use Rattle.macs_headline.specs.ExampleLives.{IsWorkedHistory};
ghost use Rattle.macs_headline.specs.ExampleMigration.{IsWorkedMigration};
ghost use Rattle.macs_headline.specs.Openings.{FormatsOnce, RefusedByHistory};
ghost use Rattle.macs_headline.specs.Frames.{FramesAreStandard, WrittenBelow, WrittenOnce};
ghost use Rattle.macs_headline.specs.Numbers.{BeginAsAsked, GivenApart, GivenBelow};
ghost use Rattle.macs_headline.specs.Numbers.{NothingForgotten, OkApart, SkipsFew};
ghost use Rattle.macs_headline.specs.Numbers.{SkipsFewReceived, UsedBelow, UsedOnce, UsedOnceAtEnd};
ghost use Rattle.macs_headline.specs.Moments.{EditionsRise, OfItsEdition};
ghost use Rattle.macs_headline.specs.Openings.{IdentityWasGiven, NothingChanges};
ghost use Rattle.macs_headline.specs.Openings.{RefusedForDiskOrBlank, RefusedForDiskOrSpent};
ghost use Rattle.macs_headline.specs.Openings.{SpentAreLast};

use crate::example::peer_frame_in_range;
use macs_disk::laws::a_file_is_left_as_its_disk;
use macs_disk::{DiskFile, SectorDisk};
use macs_store::laws::snapshot_stands_for_itself;

/// Over every history: opening finds the configuration after a prefix of the accepted commands that
/// contains every acknowledged one; each frame that is written is the standard's, no two have the
/// same key and packet number, and with replay window zero no packet number is delivered twice as
/// verified on one association.
pub fn headline()
    // No life forgets what was used and delivered before it.
    ensures nothing_forgotten { (sectors : ℕ) → NothingForgotten sectors }
    // The lives up to a moment are a history.
    ensures moments_are_histories { (sectors : ℕ) → MomentsAreHistories sectors }
    // An endpoint is of the edition of the program that opened or formatted its disk, and later
    // ones are of no smaller edition.
    ensures of_its_edition { (sectors : ℕ) → OfItsEdition sectors }
    ensures editions_rise { (sectors : ℕ) → EditionsRise sectors }
    // What any life answered was answered at a moment of the history, and what it used and
    // delivered is held.
    ensures answers_are_held { (sectors : ℕ) → AnswersAreHeld sectors }
    // No two frames have the same key and packet number: at each moment of each life, and at the
    // end.
    ensures used_once { (sectors : ℕ) → UsedOnce sectors }
    ensures used_once_at_end { (sectors : ℕ) → UsedOnceAtEnd sectors }
    // A frame that is written has another key or number than each that was written, in this life or
    // before it.
    ensures written_once { (sectors : ℕ) → WrittenOnce sectors }
    // With replay protection on and window 0 no packet number is delivered twice as verified on one
    // association.
    ensures given_once { (sectors : ℕ) → GivenOnce sectors }
    ensures given_apart { (sectors : ℕ) → GivenApart sectors }
    // A packet number that was delivered before a restart is never delivered as Ok after it, on an
    // association with the same SCI and key.
    ensures never_ok_again { (sectors : ℕ) → NeverOkAgain sectors }
    ensures ok_apart { (sectors : ℕ) → OkApart sectors }
    // In every image each number that was used is below the next one found for its key, which is
    // spent.
    ensures used_below { (sectors : ℕ) → UsedBelow sectors }
    // The same for each frame that any life wrote.
    ensures written_below { (sectors : ℕ) → WrittenBelow sectors }
    // The same for each number that was delivered, for its SCI and key.
    ensures given_below { (sectors : ℕ) → GivenBelow sectors }
    // And for each frame that any life delivered as verified.
    ensures delivered_below { (sectors : ℕ) → DeliveredBelow sectors }
    // No next number falls over a restart, or vanishes, and at most a block and a half is skipped.
    ensures skips_few { (sectors : ℕ) → SkipsFew sectors }
    // For a receive association at most a block beyond what was seen is skipped, and nothing if
    // nothing was seen.
    ensures skips_few_received { (sectors : ℕ) → SkipsFewReceived sectors }
    // What the command under way installs, and an opening finds, begins as the command requests.
    ensures begin_as_asked { (sectors : ℕ) → BeginAsAsked sectors }
    // An opening finds a prefix of the accepted commands that contains every acknowledged one.
    ensures commands_kept { (sectors : ℕ) → CommandsKept sectors }
    // If nothing was under way, that is one configuration; if a command was, that one or the one
    // after the command.
    ensures finds_one { FindsOne }
    // What is under way when a life ends was given to a call of that life.
    ensures under_way_was_given { (sectors : ℕ) → UnderWayWasGiven sectors }
    // Over all lives: it finds what the kept commands of each make of the first configuration, and
    // the identity given to the `format` that returned Ok.
    ensures configuration_is { (sectors : ℕ) → ConfigurationIs sectors }
    // That configuration is strict, with replay protection on and window 0, and has no association.
    ensures first_configuration { IsFirstConfiguration }
    // Each frame is the protected frame of that moment, and its number is added to those that were
    // used.
    ensures frames_are_standard { (sectors : ℕ) → FramesAreStandard sectors }
    // Each frame delivered as Ok or Delayed verifies, and its own number is added to those that
    // were delivered.
    ensures deliveries_are_verified { (sectors : ℕ) → DeliveriesAreVerified sectors }
    // Each other answer gives nothing that was hidden, and leaves what was used and delivered
    // unchanged.
    ensures others_are_bare { (sectors : ℕ) → OthersAreBare sectors }
    // After `format` has returned Ok an opening fails only because of the disk, or because of a
    // last generation in an older format.
    ensures refused_for_disk_or_spent { (sectors : ℕ) → RefusedForDiskOrSpent sectors }
    // That fault is GenerationsSpent, for generation 2^64 - 1 of a journal of format one.
    ensures spent_are_last { SpentAreLast }
    // Before that it may also find no journal.
    ensures refused_for_disk_or_blank { (sectors : ℕ) → RefusedForDiskOrBlank sectors }
    // The same over the lives of a history: an opening fails with NotFormatted only if none of them
    // certainly formatted the disk.
    ensures refused_by_history { (sectors : ℕ) → RefusedByHistory sectors }
    // And `format` returns Ok at most once, and after no opening that succeeded.
    ensures formats_once { (sectors : ℕ) → FormatsOnce sectors }
    // A failed opening, and a `format` of a formatted disk, change nothing.
    ensures nothing_changes { (sectors : ℕ) → NothingChanges sectors }
    // An opening finds an identity that some `format` was given.
    ensures identity_was_given { (sectors : ℕ) → IdentityWasGiven sectors }
{
    snapshot_stands_for_itself();
}

/// Where a history begins, and which disks have it.
pub fn beginnings()
    ensures new { NewDisksHaveHistories }
    // An honest disk has each history after which a program may find each image that it may leave.
    ensures fitting { FittingHaveHistories }
    // One with nothing pending has each history after which a program may find what is on it.
    ensures settled { SettledHaveHistories }
    // A program of a larger edition continues from the history that those of a smaller one made.
    ensures larger { LargerGoOn }
    // And it finds, in each image, what is found after that history.
    ensures found { LargerFind }
    // A disk has no other history.
    ensures fits { HistoriesFit }
    // The next disk over the same medium has the history of the one before.
    ensures passed_on { PassedOnHaveHistories }
{}

/// Each way in which a program may end passes the medium of its disk on, in a call or between two.
pub fn endings<D: SectorDisk>()
    ensures power_lost { PowerLossesPassOn }
    // The program is killed, and no power is lost.
    ensures killed { KillingsPassOn }
    // It drops its disk while sectors are pending.
    ensures dropped { DroppedPassOn }
    // Some of the pending sectors reach the medium meanwhile.
    ensures written_back { WrittenBackPassOn D.disk }
    // The owner reads, or syncs.
    ensures read { ReadsPassOn D.disk }
    ensures synced { SyncsPassOn D.disk }
    // After a power loss nothing is pending; a sector that was pending has 512 octets, of any
    // value.
    ensures settled { LossesSettle }
    ensures whole { ImagesAreWhole }
{}

/// What is done with a disk that has a history, by the contracts of `format`, of `Endpoint::open`
/// and of an endpoint's calls, wherever a program ends, continues that history.
pub fn histories<D: SectorDisk>()
    // The contract of a call makes it a deed.
    ensures deeds { CallsAreDeeds D.disk }
    // Deeds, one after another, continue the history of the disk.
    ensures whole { DeedsAreHistories D.disk }
    // What their endpoints answered is among what the lives answered.
    ensures answers { ChainsAnswer D.disk }
    // Starting with a new disk they are a history.
    ensures from_new { NewDeedsAreHistories D.disk }
    // An opening finds what may be found after the history.
    ensures found { OpeningsFind D.disk }
    // An endpoint is at a moment of it during its life.
    ensures under_way { LivesAreMoments D.disk }
    // If the medium is passed on during its life, that is in its opening, or inside one of its
    // calls.
    ensures cut { EndsAreCuts D.disk }
    // An opening fails only because a device call failed, because the disk was not certainly
    // formatted, or because of a last generation in an older format.
    ensures refusals { RefusalsAreFailures D.disk }
    // An opening of a journal of format two writes nothing, nor does one that is refused because of
    // what is on the disk. A journal of format one is rewritten, once, and the standing that it
    // represents stays the same, wherever that is interrupted.
    ensures migrated { OpeningsMigrate D.disk }
    // What is left after it is opened as a restart of the state in which it ended, with the command
    // that the interrupted call may have begun.
    ensures fit { LivesFit D.disk }
{}

/// There are histories, over real images and frames: with a `format` that did not return Ok, power
/// losses between two steps of a command and in a compaction, a program that is killed, a device
/// fault, failed openings and refused commands, and frames in both directions, also within a replay
/// window and without replay protection.
pub fn worked_history()
    ensures { IsWorkedHistory }
{
    peer_frame_in_range();
}

/// A disk that the first edition of the program formatted, and from which it sent a frame, has that
/// history to this edition too, whose opening rewrites its journal: the standing that it represents
/// does not change, and lives continue from it with keys of both lengths.
pub fn worked_migration()
    ensures { IsWorkedMigration }
{
    peer_frame_in_range();
}

/// An in-memory disk of zeros is new.
pub fn new_disks()
    ensures { (sectors : ℕ) → least_sectors ≤ sectors → IsNewDisk (blank_memory sectors).disk }
{}

/// A power loss, as staged by an in-memory disk, is a power loss of a history.
pub fn power_losses()
    ensures { (disk : Disk) (since : ℕ) (image : Image) → LeftSince disk since image
        → LosesPower disk since (disk_after_loss disk image) }
{}

/// The laws of histories apply to a disk in a file that behaves, if the layout suits the blocks of
/// its device.
pub fn files<F: DiskFile>()
    // A new one is a new disk.
    ensures new { (old new : FileState) (layout : Layout) (disk : Disk)
        → IsBlank old new layout disk
        → suits layout old.block ≡ true → IsNewDisk disk }
    // To a disk, opening its file again is the same as a power loss: the file as it was left, or as
    // a power loss or openings that failed left it. The new disk has its layout and its sectors,
    // and one of the images that the file might have been left with.
    ensures opened_again { (left file : FileState) (layout again : Layout) (old new : Disk)
        → IsFoundAs layout old.sectors left → suits layout left.block ≡ true → IsHonest old
        → ((image : Image) → IsImage (state_in_file layout left) image → MayLeave old image)
        → HasNothingNew left file → IsSoundFile file → IsOpened file 0 again new
        → (again ≡ layout) × LosesPower old old.clock new }
    // The same holds of the file as a disk in it left it, even after a failed call.
    ensures reopened { (it : FileDisk F) (file : FileState) (again : Layout) (new : Disk)
        → IsLeftAsShown F.file it → IsFoundAgain F.file it → Behaves (F.file (file_left it))
        → IsHonest (disk_in_file F.file it) → HasNothingNew (F.file (file_left it)) file
        → IsSoundFile file → IsOpened file 0 again new
        → (again ≡ layout_of it)
        × LosesPower (disk_in_file F.file it) (disk_in_file F.file it).clock new }
    // A power loss leaves nothing new of a file that was released, no matter what it shows then and
    // who claims it; for a file after a power loss, and for both in sequence, see
    // `nothing_new_of_a_file` of `macs_disk`.
    ensures let_go { (left file : FileState) → file.block ≡ left.block → file.size ≡ left.size
        → file.is_size_durable ≡ left.is_size_durable → ((p : ℕ) → file.durable p ≡ left.durable p)
        → ((n : ℕ) → file.pending n ≡ left.pending n) → HasNothingNew left file }
    // All sectors of an opened file are durable, and it has at least as many as requested.
    ensures opened { (file : FileState) (least : ℕ) (layout : Layout) (disk : Disk) (i : ℕ)
        → IsOpened file least layout disk → (least ≤ disk.sectors)
        × ((now disk).durable i ≡ (now disk).seen i) × ((now disk).pending i ≡ false) }
    // It has no more: those of its file, or the number requested, if that is greater.
    ensures counted { (file : FileState) (least : ℕ) (layout : Layout) (disk : Disk)
        → IsOpened file least layout disk
        → (layout ≡ Packed → disk.sectors ≡ max (file.size / 512) least)
        × (layout ≡ Spaced → disk.sectors ≡ max 1028 least) }
    // A file that is extended for them keeps its sectors, as it showed them, and has zeros in the
    // others.
    ensures lengthened { (file : FileState) (least : ℕ) (layout : Layout) (disk : Disk) (i : ℕ)
        → IsOpened file least layout disk
        → (place layout i + 512 ≤ file.size
        → (now disk).seen i ≡ values_from file.seen (place layout i) 512)
        × (file.size ≤ place layout i → place layout i + 512 ≤ place layout least
        → (now disk).seen i ≡ zero_sector) }
    // An opened file has whole sectors.
    ensures whole_sectors { (file : FileState) (least : ℕ) (layout : Layout) (disk : Disk)
        → IsOpened file least layout disk → file.size % 512 ≡ 0 }
    // Blocks of 512 octets suit both layouts, and those of 4,096 only the spaced one.
    ensures blocks { (suits Packed 512 ≡ true) × (suits Spaced 512 ≡ true)
        × (suits Spaced 4096 ≡ true) }
{
    a_file_is_left_as_its_disk::<F>();
}
