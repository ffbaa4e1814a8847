//! Laws of the definitions that the contracts of this crate cite. They do nothing when they are called.
ghost use Rattle.std.specs.Prelude.{◌≡◌, ℕ, Bool, true, false, List};
ghost use Rattle.hilti_pcap.specs.declared.header.Header.{Header};
ghost use Rattle.hilti_pcap.specs.declared.packet.Packet.{Packet};
ghost use Rattle.hilti_pcap.specs.Capture.{HasPackets};
ghost use Rattle.hilti_pcap.specs.Reader.{Held, Step, Run, IsReadInPieces, begun};
ghost use Rattle.hilti_pcap.specs.Readings.{reading_from, ending_behind, is_too_long};
ghost use Rattle.hilti_pcap.specs.Records.{HasRecords, EndsRecords, IsPartial, IsTooLong};

/// However a capture is cut into pieces, and whenever a reader is asked: what it gives is the records of all bytes that
/// were fed, one after another, and what it holds stands behind them.
pub fn in_pieces()
    ensures { (header : Header) (steps : List Step) (after : Held) → Run (begun header) steps after
        → IsReadInPieces header steps after }
{}

/// Bytes have one list of records up to where none follows.
pub fn one_list()
    ensures { (header : Header) (packets others : List Packet) (bytes behind rest : List ℕ)
        → HasRecords header packets bytes behind → EndsRecords header behind
        → HasRecords header others bytes rest → EndsRecords header rest
        → (packets ≡ others) × (behind ≡ rest) }
{}

/// What is read of bytes is the packets of their records up to where none follows, and the ending is that of the bytes
/// behind these records.
pub fn reading()
    ensures { (header : Header) (at : ℕ) (packets : List Packet) (bytes behind : List ℕ)
        (larger : Bool) → HasRecords header packets bytes behind → EndsRecords header behind
        → reading_from header at bytes larger
        ≡ ending_behind header at packets bytes behind larger }
{}

/// Behind the last record, the ending is a fault of code 4 exactly where a record stands that is too long.
pub fn long_record()
    ensures long { (header : Header) (captured : ℕ) (bytes : List ℕ)
        → IsTooLong header captured bytes → is_too_long header bytes ≡ true }
    ensures partial { (header : Header) (bytes : List ℕ)
        → IsPartial header bytes → is_too_long header bytes ≡ false }
{}

/// A plain capture has one list of packets at most.
pub fn one_capture()
    ensures { (capture : List ℕ) (packets others : List Packet) → HasPackets capture packets
        → HasPackets capture others → packets ≡ others }
{}
