//! Each kind of record with its fields at the least and the greatest that they may be.

use super::{KEY, LONG_KEY, SCI, ceiling_of, pn_of, stands_as};
use crate::tests::an_of;
use macs_aes::{Key, KeyOctets};
use macs_config::{Fingerprints, Protection, Replay, Role, RxSa, SciMode, TxSa, Validate};
use macs_fields::{Offset, Sci};
use macs_record::{Ceiling, Record};
use std::process::Abort;

const LEAST_SCI: Sci = Sci([0; 8]);

const GREATEST_SCI: Sci = Sci([0xff; 8]);

const LEAST_KEY: Key = Key::Short([0; 16]);

const GREATEST_KEY: Key = Key::Short([0xff; 16]);

const LEAST_LONG_KEY: Key = Key::Long([0; 32]);

const GREATEST_LONG_KEY: Key = Key::Long([0xff; 32]);

const MAX_CEILING: u64 = 1 << 32;

#[test]
fn settings(rt: HostRuntime) {
    stands_as(
        &rt,
        &Record::default(),
        b"MREC\x01\x00\x01\x00\x00\x00\x00\x00\xff",
    );
    let least = Record::Settings {
        validate: Validate::Strict,
        replay: Replay {
            on: false,
            window: 0,
        },
        sci_mode: SciMode::Explicit,
        encoding: Some(an_of(&rt, 0)),
    };
    stands_as(&rt, &least, b"MREC\x01\x00\x00\x00\x00\x00\x00\x00\x00");
    let greatest = Record::Settings {
        validate: Validate::Check,
        replay: Replay {
            on: true,
            window: u32::MAX,
        },
        sci_mode: SciMode::Implicit,
        encoding: Some(an_of(&rt, 3)),
    };
    stands_as(&rt, &greatest, b"MREC\x01\x01\x01\xff\xff\xff\xff\x02\x03");
    let mixed = Record::Settings {
        validate: Validate::Check,
        replay: Replay {
            on: false,
            window: 0x0102_0304,
        },
        sci_mode: SciMode::EndStation,
        encoding: Some(an_of(&rt, 2)),
    };
    stands_as(&rt, &mixed, b"MREC\x01\x01\x00\x01\x02\x03\x04\x01\x02");
}

/// A transmit association of a snapshot.
fn tx_sa(rt: &impl Abort, number: u8, key: Key, ceiling: u64, protection: Protection) -> Record {
    Record::TxSa {
        an: an_of(rt, number),
        sa: TxSa {
            key: KeyOctets::of(key),
            protection,
        },
        ceiling: ceiling_of(rt, ceiling),
    }
}

#[test]
fn transmit_association(rt: HostRuntime) {
    stands_as(
        &rt,
        &tx_sa(&rt, 0, LEAST_KEY, 1, Protection::Integrity),
        b"MREC\x02\x00\0\0\0\0\0\0\0\0\0\0\0\0\0\0\0\0\x00\x00\x00\x00\x00\x00\x00\x01\x00\x00",
    );
    stands_as(
        &rt,
        &tx_sa(
            &rt,
            3,
            GREATEST_KEY,
            MAX_CEILING,
            Protection::Confidentiality(Offset::Fifty),
        ),
        b"MREC\x02\x03\xff\xff\xff\xff\xff\xff\xff\xff\xff\xff\xff\xff\xff\xff\xff\xff\x00\x00\x00\x01\x00\x00\x00\x00\x01\x32",
    );
    stands_as(
        &rt,
        &tx_sa(
            &rt,
            1,
            KEY,
            0xfedc_ba98,
            Protection::Confidentiality(Offset::Zero),
        ),
        b"MREC\x02\x010123456789abcdef\x00\x00\x00\x00\xfe\xdc\xba\x98\x01\x00",
    );
    stands_as(
        &rt,
        &tx_sa(
            &rt,
            2,
            KEY,
            0x0102_0304,
            Protection::Confidentiality(Offset::Thirty),
        ),
        b"MREC\x02\x020123456789abcdef\x00\x00\x00\x00\x01\x02\x03\x04\x01\x1e",
    );
}

#[test]
fn channel(rt: HostRuntime) {
    stands_as(
        &rt,
        &Record::Channel { sci: LEAST_SCI },
        b"MREC\x03\0\0\0\0\0\0\0\0",
    );
    stands_as(
        &rt,
        &Record::Channel { sci: GREATEST_SCI },
        b"MREC\x03\xff\xff\xff\xff\xff\xff\xff\xff",
    );
    stands_as(
        &rt,
        &Record::Channel { sci: SCI },
        b"MREC\x03peer-A\x00\x07",
    );
}

/// What a receive association is configured with.
fn rx_association(key: Key, offset: Offset) -> RxSa {
    RxSa {
        key: KeyOctets::of(key),
        offset,
    }
}

/// A receive association of a snapshot.
fn rx_sa(rt: &impl Abort, sci: Sci, number: u8, sa: RxSa, ceiling: u64) -> Record {
    Record::RxSa {
        sci,
        an: an_of(rt, number),
        sa,
        ceiling: ceiling_of(rt, ceiling),
    }
}

#[test]
fn receive_association(rt: HostRuntime) {
    let sa = rx_association(LEAST_KEY, Offset::Zero);
    stands_as(
        &rt,
        &rx_sa(&rt, LEAST_SCI, 0, sa, 1),
        b"MREC\x04\0\0\0\0\0\0\0\0\x00\0\0\0\0\0\0\0\0\0\0\0\0\0\0\0\0\x00\x00\x00\x00\x00\x00\x00\x01\x00",
    );
    let sa = rx_association(GREATEST_KEY, Offset::Fifty);
    stands_as(
        &rt,
        &rx_sa(&rt, GREATEST_SCI, 3, sa, MAX_CEILING),
        b"MREC\x04\xff\xff\xff\xff\xff\xff\xff\xff\x03\xff\xff\xff\xff\xff\xff\xff\xff\xff\xff\xff\xff\xff\xff\xff\xff\x00\x00\x00\x01\x00\x00\x00\x00\x32",
    );
    let sa = rx_association(KEY, Offset::Thirty);
    stands_as(
        &rt,
        &rx_sa(&rt, SCI, 2, sa, 0x0102_0304),
        b"MREC\x04peer-A\x00\x07\x020123456789abcdef\x00\x00\x00\x00\x01\x02\x03\x04\x1e",
    );
}

#[test]
fn spent_keys(rt: HostRuntime) {
    let one = Record::Spent {
        role: Role::Transmit,
        fingerprints: Fingerprints::new(*b"the first of the fingerprints 01"),
    };
    stands_as(
        &rt,
        &one,
        b"MREC\x05\x00\x01the first of the fingerprints 01",
    );
    let mut fingerprints = Fingerprints::new(*b"the first of the fingerprints 01");
    for _ in 0..13 {
        assert!(rt; fingerprints.push(*b"one that stands among the others"));
    }
    assert!(rt; fingerprints.push(*b"the last one of the fingerprints"));
    let fifteen = Record::Spent {
        role: Role::Receive,
        fingerprints,
    };
    stands_as(
        &rt,
        &fifteen,
        b"MREC\x05\x01\x0f\
        the first of the fingerprints 01\
        one that stands among the others\
        one that stands among the others\
        one that stands among the others\
        one that stands among the others\
        one that stands among the others\
        one that stands among the others\
        one that stands among the others\
        one that stands among the others\
        one that stands among the others\
        one that stands among the others\
        one that stands among the others\
        one that stands among the others\
        one that stands among the others\
        the last one of the fingerprints",
    );
}

#[test]
fn validate(rt: HostRuntime) {
    stands_as(&rt, &Record::SetValidate(Validate::Strict), b"MREC\x06\x00");
    stands_as(&rt, &Record::SetValidate(Validate::Check), b"MREC\x06\x01");
}

#[test]
fn replay(rt: HostRuntime) {
    let least = Replay {
        on: false,
        window: 0,
    };
    stands_as(
        &rt,
        &Record::SetReplay(least),
        b"MREC\x07\x00\x00\x00\x00\x00",
    );
    let greatest = Replay {
        on: true,
        window: u32::MAX,
    };
    stands_as(
        &rt,
        &Record::SetReplay(greatest),
        b"MREC\x07\x01\xff\xff\xff\xff",
    );
    let mixed = Replay {
        on: true,
        window: 0x0102_0304,
    };
    stands_as(
        &rt,
        &Record::SetReplay(mixed),
        b"MREC\x07\x01\x01\x02\x03\x04",
    );
}

#[test]
fn sci_mode(rt: HostRuntime) {
    stands_as(&rt, &Record::SetSciMode(SciMode::Explicit), b"MREC\x08\x00");
    stands_as(
        &rt,
        &Record::SetSciMode(SciMode::EndStation),
        b"MREC\x08\x01",
    );
    stands_as(&rt, &Record::SetSciMode(SciMode::Implicit), b"MREC\x08\x02");
}

/// A new transmit association.
fn tx_install(rt: &impl Abort, number: u8, key: Key, start: u32, protection: Protection) -> Record {
    Record::TxInstall {
        an: an_of(rt, number),
        sa: TxSa {
            key: KeyOctets::of(key),
            protection,
        },
        start: pn_of(rt, start),
    }
}

#[test]
fn new_transmit_association(rt: HostRuntime) {
    stands_as(
        &rt,
        &tx_install(&rt, 0, LEAST_KEY, 1, Protection::Integrity),
        b"MREC\x09\x00\0\0\0\0\0\0\0\0\0\0\0\0\0\0\0\0\x00\x00\x00\x01\x00\x00",
    );
    stands_as(
        &rt,
        &tx_install(
            &rt,
            3,
            GREATEST_KEY,
            u32::MAX,
            Protection::Confidentiality(Offset::Fifty),
        ),
        b"MREC\x09\x03\xff\xff\xff\xff\xff\xff\xff\xff\xff\xff\xff\xff\xff\xff\xff\xff\xff\xff\xff\xff\x01\x32",
    );
    stands_as(
        &rt,
        &tx_install(
            &rt,
            1,
            KEY,
            0x0102_0304,
            Protection::Confidentiality(Offset::Zero),
        ),
        b"MREC\x09\x010123456789abcdef\x01\x02\x03\x04\x01\x00",
    );
}

#[test]
fn transmit_association_numbers(rt: HostRuntime) {
    stands_as(&rt, &Record::TxUse { an: an_of(&rt, 0) }, b"MREC\x0a\x00");
    stands_as(&rt, &Record::TxUse { an: an_of(&rt, 3) }, b"MREC\x0a\x03");
    stands_as(
        &rt,
        &Record::TxRemove { an: an_of(&rt, 0) },
        b"MREC\x0b\x00",
    );
    stands_as(
        &rt,
        &Record::TxRemove { an: an_of(&rt, 3) },
        b"MREC\x0b\x03",
    );
}

#[test]
fn receive_channels(rt: HostRuntime) {
    stands_as(
        &rt,
        &Record::RxAdd { sci: LEAST_SCI },
        b"MREC\x0c\0\0\0\0\0\0\0\0",
    );
    stands_as(
        &rt,
        &Record::RxAdd { sci: GREATEST_SCI },
        b"MREC\x0c\xff\xff\xff\xff\xff\xff\xff\xff",
    );
    stands_as(
        &rt,
        &Record::RxDrop { sci: LEAST_SCI },
        b"MREC\x0d\0\0\0\0\0\0\0\0",
    );
    stands_as(
        &rt,
        &Record::RxDrop { sci: GREATEST_SCI },
        b"MREC\x0d\xff\xff\xff\xff\xff\xff\xff\xff",
    );
}

/// A new receive association.
fn rx_install(rt: &impl Abort, sci: Sci, number: u8, sa: RxSa, start: u32) -> Record {
    Record::RxInstall {
        sci,
        an: an_of(rt, number),
        sa,
        start: pn_of(rt, start),
    }
}

#[test]
fn new_receive_association(rt: HostRuntime) {
    let sa = rx_association(LEAST_KEY, Offset::Zero);
    stands_as(
        &rt,
        &rx_install(&rt, LEAST_SCI, 0, sa, 1),
        b"MREC\x0e\0\0\0\0\0\0\0\0\x00\0\0\0\0\0\0\0\0\0\0\0\0\0\0\0\0\x00\x00\x00\x01\x00",
    );
    let sa = rx_association(GREATEST_KEY, Offset::Fifty);
    stands_as(
        &rt,
        &rx_install(&rt, GREATEST_SCI, 3, sa, u32::MAX),
        b"MREC\x0e\xff\xff\xff\xff\xff\xff\xff\xff\x03\xff\xff\xff\xff\xff\xff\xff\xff\xff\xff\xff\xff\xff\xff\xff\xff\xff\xff\xff\xff\x32",
    );
    let sa = rx_association(KEY, Offset::Thirty);
    stands_as(
        &rt,
        &rx_install(&rt, SCI, 1, sa, 0x0102_0304),
        b"MREC\x0epeer-A\x00\x07\x010123456789abcdef\x01\x02\x03\x04\x1e",
    );
}

#[test]
fn removed_receive_association(rt: HostRuntime) {
    let least = Record::RxRemove {
        sci: LEAST_SCI,
        an: an_of(&rt, 0),
    };
    stands_as(&rt, &least, b"MREC\x0f\0\0\0\0\0\0\0\0\x00");
    let greatest = Record::RxRemove {
        sci: GREATEST_SCI,
        an: an_of(&rt, 3),
    };
    stands_as(
        &rt,
        &greatest,
        b"MREC\x0f\xff\xff\xff\xff\xff\xff\xff\xff\x03",
    );
    let mixed = Record::RxRemove {
        sci: SCI,
        an: an_of(&rt, 2),
    };
    stands_as(&rt, &mixed, b"MREC\x0fpeer-A\x00\x07\x02");
}

/// The raised ceiling of a transmit association.
fn tx_ceiling(rt: &impl Abort, number: u8, ceiling: u64) -> Record {
    Record::TxCeiling {
        an: an_of(rt, number),
        ceiling: ceiling_of(rt, ceiling),
    }
}

#[test]
fn transmit_ceiling(rt: HostRuntime) {
    stands_as(
        &rt,
        &tx_ceiling(&rt, 2, 9),
        b"MREC\x10\x02\x00\x00\x00\x00\x00\x00\x00\x09",
    );
    stands_as(
        &rt,
        &tx_ceiling(&rt, 0, 1),
        b"MREC\x10\x00\x00\x00\x00\x00\x00\x00\x00\x01",
    );
    stands_as(
        &rt,
        &tx_ceiling(&rt, 3, MAX_CEILING),
        b"MREC\x10\x03\x00\x00\x00\x01\x00\x00\x00\x00",
    );
}

/// The raised ceiling of a receive association.
fn rx_ceiling(rt: &impl Abort, sci: Sci, number: u8, ceiling: u64) -> Record {
    Record::RxCeiling {
        sci,
        an: an_of(rt, number),
        ceiling: ceiling_of(rt, ceiling),
    }
}

#[test]
fn receive_ceiling(rt: HostRuntime) {
    stands_as(
        &rt,
        &rx_ceiling(&rt, LEAST_SCI, 0, 1),
        b"MREC\x11\0\0\0\0\0\0\0\0\x00\x00\x00\x00\x00\x00\x00\x00\x01",
    );
    stands_as(
        &rt,
        &rx_ceiling(&rt, GREATEST_SCI, 3, MAX_CEILING),
        b"MREC\x11\xff\xff\xff\xff\xff\xff\xff\xff\x03\x00\x00\x00\x01\x00\x00\x00\x00",
    );
    stands_as(
        &rt,
        &rx_ceiling(&rt, SCI, 1, 0x0102_0304),
        b"MREC\x11peer-A\x00\x07\x01\x00\x00\x00\x00\x01\x02\x03\x04",
    );
}

#[test]
fn ceilings(rt: HostRuntime) {
    for number in [0, MAX_CEILING + 1, u64::MAX] {
        assert!(rt; Ceiling::new(number).is_none());
    }
    for number in [1, 4_294_967_296] {
        assert!(rt; ceiling_of(&rt, number).get() == number);
    }
}

#[test]
fn transmit_association_with_a_long_key(rt: HostRuntime) {
    stands_as(
        &rt,
        &tx_sa(&rt, 0, LEAST_LONG_KEY, 1, Protection::Integrity),
        b"MREC\x12\x00\0\0\0\0\0\0\0\0\0\0\0\0\0\0\0\0\0\0\0\0\0\0\0\0\0\0\0\0\0\0\0\0\x00\x00\x00\x00\x00\x00\x00\x01\x00\x00",
    );
    stands_as(
        &rt,
        &tx_sa(
            &rt,
            3,
            GREATEST_LONG_KEY,
            MAX_CEILING,
            Protection::Confidentiality(Offset::Fifty),
        ),
        b"MREC\x12\x03\
        \xff\xff\xff\xff\xff\xff\xff\xff\xff\xff\xff\xff\xff\xff\xff\xff\
        \xff\xff\xff\xff\xff\xff\xff\xff\xff\xff\xff\xff\xff\xff\xff\xff\
        \x00\x00\x00\x01\x00\x00\x00\x00\x01\x32",
    );
    stands_as(
        &rt,
        &tx_sa(
            &rt,
            2,
            LONG_KEY,
            0x0102_0304,
            Protection::Confidentiality(Offset::Thirty),
        ),
        b"MREC\x12\x020123456789abcdefghijklmnopqrstuv\x00\x00\x00\x00\x01\x02\x03\x04\x01\x1e",
    );
}

#[test]
fn receive_association_with_a_long_key(rt: HostRuntime) {
    let sa = rx_association(LEAST_LONG_KEY, Offset::Zero);
    stands_as(
        &rt,
        &rx_sa(&rt, LEAST_SCI, 0, sa, 1),
        b"MREC\x13\0\0\0\0\0\0\0\0\x00\0\0\0\0\0\0\0\0\0\0\0\0\0\0\0\0\0\0\0\0\0\0\0\0\0\0\0\0\0\0\0\0\x00\x00\x00\x00\x00\x00\x00\x01\x00",
    );
    let sa = rx_association(GREATEST_LONG_KEY, Offset::Fifty);
    stands_as(
        &rt,
        &rx_sa(&rt, GREATEST_SCI, 3, sa, MAX_CEILING),
        b"MREC\x13\xff\xff\xff\xff\xff\xff\xff\xff\x03\
        \xff\xff\xff\xff\xff\xff\xff\xff\xff\xff\xff\xff\xff\xff\xff\xff\
        \xff\xff\xff\xff\xff\xff\xff\xff\xff\xff\xff\xff\xff\xff\xff\xff\
        \x00\x00\x00\x01\x00\x00\x00\x00\x32",
    );
    let sa = rx_association(LONG_KEY, Offset::Thirty);
    stands_as(
        &rt,
        &rx_sa(&rt, SCI, 2, sa, 0x0102_0304),
        b"MREC\x13peer-A\x00\x07\x020123456789abcdefghijklmnopqrstuv\x00\x00\x00\x00\x01\x02\x03\x04\x1e",
    );
}

#[test]
fn new_transmit_association_with_a_long_key(rt: HostRuntime) {
    stands_as(
        &rt,
        &tx_install(&rt, 0, LEAST_LONG_KEY, 1, Protection::Integrity),
        b"MREC\x14\x00\0\0\0\0\0\0\0\0\0\0\0\0\0\0\0\0\0\0\0\0\0\0\0\0\0\0\0\0\0\0\0\0\x00\x00\x00\x01\x00\x00",
    );
    stands_as(
        &rt,
        &tx_install(
            &rt,
            3,
            GREATEST_LONG_KEY,
            u32::MAX,
            Protection::Confidentiality(Offset::Fifty),
        ),
        b"MREC\x14\x03\
        \xff\xff\xff\xff\xff\xff\xff\xff\xff\xff\xff\xff\xff\xff\xff\xff\
        \xff\xff\xff\xff\xff\xff\xff\xff\xff\xff\xff\xff\xff\xff\xff\xff\
        \xff\xff\xff\xff\x01\x32",
    );
    stands_as(
        &rt,
        &tx_install(
            &rt,
            1,
            LONG_KEY,
            0x0102_0304,
            Protection::Confidentiality(Offset::Zero),
        ),
        b"MREC\x14\x010123456789abcdefghijklmnopqrstuv\x01\x02\x03\x04\x01\x00",
    );
}

#[test]
fn new_receive_association_with_a_long_key(rt: HostRuntime) {
    let sa = rx_association(LEAST_LONG_KEY, Offset::Zero);
    stands_as(
        &rt,
        &rx_install(&rt, LEAST_SCI, 0, sa, 1),
        b"MREC\x15\0\0\0\0\0\0\0\0\x00\0\0\0\0\0\0\0\0\0\0\0\0\0\0\0\0\0\0\0\0\0\0\0\0\0\0\0\0\0\0\0\0\x00\x00\x00\x01\x00",
    );
    let sa = rx_association(GREATEST_LONG_KEY, Offset::Fifty);
    stands_as(
        &rt,
        &rx_install(&rt, GREATEST_SCI, 3, sa, u32::MAX),
        b"MREC\x15\xff\xff\xff\xff\xff\xff\xff\xff\x03\
        \xff\xff\xff\xff\xff\xff\xff\xff\xff\xff\xff\xff\xff\xff\xff\xff\
        \xff\xff\xff\xff\xff\xff\xff\xff\xff\xff\xff\xff\xff\xff\xff\xff\
        \xff\xff\xff\xff\x32",
    );
    let sa = rx_association(LONG_KEY, Offset::Thirty);
    stands_as(
        &rt,
        &rx_install(&rt, SCI, 1, sa, 0x0102_0304),
        b"MREC\x15peer-A\x00\x07\x010123456789abcdefghijklmnopqrstuv\x01\x02\x03\x04\x1e",
    );
}
