//! Laws of the definitions, for the layers above: what is written is read, and what is read.

ghost use Rattle.std.specs.Prelude.{◌≡◌, ◌<◌, ◌++◌, ℕ, Bool, List, None, All};
ghost use Rattle.macs_pcap.specs.Captures.{BeginsWithRecords, IsCaptureRecord, IsHeader};
ghost use Rattle.macs_pcap.specs.Captures.{records_text};
ghost use Rattle.macs_pcap.specs.Faults.{header_fault, max_records, record_fault};
ghost use Rattle.macs_pcap.specs.Header.{BeginsWithHeader, header_text};
ghost use Rattle.macs_pcap.specs.Records.{BeginsWithRecord, CaptureRecord, record_text};
ghost use Rattle.macs_pcap.specs.declared.header.Header.{Header};

/// A header that was written is read back unchanged, regardless of what follows.
pub fn written_headers_are_read()
    ensures read { (header : Header) (rest : List ℕ) → IsHeader header
        → BeginsWithHeader (header_text header ++ rest) header rest }
    ensures sound { (header : Header) (rest : List ℕ) → IsHeader header
        → header_fault (header_text header ++ rest) ≡ None }
{}

/// A capture record that was written is read back unchanged, regardless of what follows.
pub fn written_records_are_read()
    ensures { (big : Bool) (taken : CaptureRecord) (rest : List ℕ) → IsCaptureRecord taken
        → BeginsWithRecord big (record_text big taken.stamp taken.frame ++ rest) taken rest }
{}

/// If there is a capture record there is no fault, unless there were too many before it.
pub fn standing_records_have_no_fault()
    ensures { (big : Bool) (count : ℕ) (left rest : List ℕ) (taken : CaptureRecord)
        → BeginsWithRecord big left taken rest
        → count < max_records → record_fault big count left ≡ None }
{}

/// Capture records that were written one after another are read back unchanged.
pub fn written_captures_are_read()
    ensures { (big : Bool) (records : List CaptureRecord) (rest : List ℕ)
        → All IsCaptureRecord records
        → BeginsWithRecords big (records_text big records ++ rest) records rest }
{}
