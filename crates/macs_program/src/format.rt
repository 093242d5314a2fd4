//! `format`: the disk file of a new endpoint.

ghost use Rattle.std.specs.Prelude.{◌≡◌, ◌≢◌, ◌⊎◌, ◌↔◌, codes, option_map, Err, true, IfErr, IfOk};
ghost use Rattle.std.specs.Io.KnownBytes.{Appends};
ghost use Rattle.macs_config.specs.Identity.{Identity};
ghost use Rattle.macs_disk.specs.declared.layout.Layout.{Layout};
ghost use Rattle.macs_fields.specs.First.{IsFirst};
ghost use Rattle.macs_cli.specs.Failing.{failure_status};
ghost use Rattle.macs_cli.specs.Values.{SpellsIdentity, SpellsLayout, ValueFaultHolds};
ghost use Rattle.macs_cli.specs.Values.{value_faults};
ghost use Rattle.macs_cli.specs.declared.values.ValueFault.{ValueFault};
ghost use Rattle.macs_program.specs.NewDisks.{FormatFails, Formats, MakesDisk};
ghost use Rattle.macs_texts.specs.Lines.{line};

use crate::new_disk::{NewFile, format_disk};
use macs_cli::{Failure, FormatValues, Status, Stream, format_values, print};
use macs_disk::DiskFile;
use std::alloc::Global;
use std::rt::Files;

/// Makes the disk file of an endpoint from the given values, and prints a line that says so.
fn format_given<T: Files, W: Stream>(
    rt: &T,
    alloc: Global,
    disk: &str,
    given: FormatValues,
    is_over: bool,
    out: &mut W,
) -> Result<Status, Failure>
where
    T::File: DiskFile,
    ensures { MakesDisk T.File.file W.contents W.failed is_over given.layout given.identity out.old
        result out.new }
{
    let how = NewFile {
        layout: given.layout,
        is_over,
    };
    format_disk(rt, alloc, disk, how, &given.identity)?;
    print(out, "formatted\n")?;
    Ok(Status::Done)
}

/// `format`: makes a disk file for an endpoint.
pub fn format<T: Files, W: Stream>(
    rt: &T,
    alloc: Global,
    disk: &str,
    sci: &str,
    tx_block: u32,
    rx_block: u32,
    block: Option<&str>,
    is_over: bool,
    out: &mut W,
) -> Result<Status, Failure>
where
    T::File: DiskFile,
    ensures printed { IfOk result
        (λ status. (identity : Identity) × SpellsIdentity sci.now tx_block rx_block identity
        × (layout : Layout) × SpellsLayout (option_map (λ text. text.now) block.entry) layout
        × Formats T.File.file is_over layout identity
        × Appends (W.contents out.old) (W.contents out.new) (line (codes "formatted"))
        × (status ≡ Status.Done)) }
    ensures usage { IfErr result (λ failure. failure_status failure ≡ Status.Usage
        → ((fault : ValueFault)
        × ValueFaultHolds sci.now tx_block rx_block (option_map (λ text. text.now) block.entry)
        fault) × (out.new ≡ out.old)) }
    ensures value { (fault : ValueFault) → (result ≡ Err (Failure.Value fault))
        ↔ IsFirst (ValueFaultHolds sci.now tx_block rx_block
        (option_map (λ text. text.now) block.entry)) value_faults fault }
    ensures ended { IfErr result (λ failure. ((fault : ValueFault) × (failure ≡ Failure.Value fault)
        × IsFirst (ValueFaultHolds sci.now tx_block rx_block
        (option_map (λ text. text.now) block.entry)) value_faults fault)
        ⊎ ((identity : Identity) × SpellsIdentity sci.now tx_block rx_block identity
        × FormatFails T.File.file is_over identity failure) ⊎ (failure ≡ Failure.Output)) }
    ensures silent { IfErr result (λ failure. failure ≢ Failure.Output → out.new ≡ out.old) }
    ensures broken { IfErr result (λ failure. failure ≡ Failure.Output → W.failed out.new ≡ true) }
{
    let given = format_values(sci, tx_block, rx_block, block)?;
    format_given(rt, alloc, disk, given, is_over, out)
}
