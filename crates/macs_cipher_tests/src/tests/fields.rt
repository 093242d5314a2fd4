//! The fields of `macs_gf`: worked products of the standards, and of polynomial arithmetic outside
//! this repository.

use macs_gf::{mul8, mul128, xtime128};

/// The first two are worked in FIPS 197, 4.2.
#[test]
fn octet_products(rt: HostRuntime) {
    let products = [
        (0x57, 0x83, 0xC1),
        (0x57, 0x13, 0xFE),
        (0x53, 0xCA, 0x01),
        (0x80, 0x80, 0x9A),
        (0xFF, 0xFF, 0x13),
    ];
    for (a, b, product) in products {
        assert_eq!(rt; mul8(a, b), product);
        assert_eq!(rt; mul8(b, a), product);
    }
}

/// The first is the ciphertext block and the hash subkey of the GCM specification's test case 2.
#[test]
fn block_products(rt: HostRuntime) {
    let products = [
        (
            0x0388dace60b6a392f328c2b971b2fe78,
            0x66e94bd4ef8a2c3b884cfa59ca342b2e,
            0x5e2ec746917062882c85b0685353deb7,
        ),
        (1, 1, 0xe6080000000000000000000000000003),
        (u128::MAX, u128::MAX, 0xf402aaaaaaaaaaaaaaaaaaaaaaaaaaaa),
    ];
    for (a, b, product) in products {
        assert_eq!(rt; mul128(a, b), product);
        assert_eq!(rt; mul128(b, a), product);
    }
}

/// The hash subkey of the GCM specification's test case 2, and the odd number after it.
#[test]
fn block_times_x(rt: HostRuntime) {
    let products = [
        (1, 0xe1000000000000000000000000000000),
        (
            0x66e94bd4ef8a2c3b884cfa59ca342b2e,
            0x3374a5ea77c5161dc4267d2ce51a1597,
        ),
        (
            0x66e94bd4ef8a2c3b884cfa59ca342b2f,
            0xd274a5ea77c5161dc4267d2ce51a1597,
        ),
    ];
    for (a, product) in products {
        assert_eq!(rt; xtime128(a), product);
    }
}
