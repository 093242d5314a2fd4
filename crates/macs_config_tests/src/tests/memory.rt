//! Command files that are read while memory is refused.

use linked_list_allocator::LocalHeap;
use macs_commands::{ConfigFault, commands_of};
use std::process::Abort;

/// A file with a command of each word, in the order of the table of words.
const ALL: &str = r#"
[[command]]
do = "set-validate"
mode = "check"

[[command]]
do = "set-replay"
on = true
window = 4294967295

[[command]]
do = "set-sci-mode"
mode = "end-station"

[[command]]
do = "tx-install"
an = 3
key = "000102030405060708090a0b0c0d0e0f"
start = 4294967295
confidential = true
offset = 255

[[command]]
do = "tx-use"
an = 1

[[command]]
do = "tx-remove"
an = 2

[[command]]
do = "rx-add"
sci = "12153524c0895e81"

[[command]]
do = "rx-drop"
sci = "12153524C0895E81"

[[command]]
do = "rx-install"
sci = "f0761e8dcd3d0001"
an = 0
key = "FFFEFDFCFBFAF9F8F7F6F5F4F3F2F1F0"
start = 0
offset = 0

[[command]]
do = "rx-remove"
sci = "f0761e8dcd3d0001"
an = 0
"#;

/// A command of few octets.
const SHORT: &str = "[[command]]\ndo='tx-use'\nan=0\n";

/// How many of them a command file has room for: together they have 1,048,553 octets, of at most
/// 1,048,576.
const MOST: usize = 36_157;

/// However many commands a file has room for, they are read: there is no want of memory.
#[test]
fn a_file_of_the_limit_is_commands(rt: HostRuntime) {
    let mut text = String::new(rt.alloc());
    for _ in 0..MOST {
        assert!(rt; text.push_str(SHORT).is_ok());
    }
    assert!(rt; text.len() == 1_048_553);
    let file = toml::table_from_str(rt.alloc(), text.as_str()).expect(&rt, "a table");
    let commands = commands_of(rt.alloc(), &file).ok().expect(&rt, "commands");
    assert!(rt; commands.len() == MOST);
}

/// Heaps from 0 octets on, in steps of 16, until one suffices: each smaller one is refused as
/// `Memory`, and gives no command. The others give the commands that are read in ample memory.
#[test]
fn a_refused_growth_is_memory(rt: HostRuntime) {
    let file = toml::table_from_str(rt.alloc(), ALL).expect(&rt, "a table");
    let ample = commands_of(rt.alloc(), &file).ok().expect(&rt, "commands");
    let mut refused = 0_u64;
    let mut read = 0_u64;
    for size in 0..200_usize {
        let Ok(heap) = LocalHeap::new(rt.alloc(), size * 16) else {
            continue;
        };
        match commands_of(&heap, &file) {
            Ok(commands) => {
                read = read.saturating_add(1);
                assert!(rt; commands.as_slice() == ample.as_slice());
            }
            Err(fault) => {
                refused = refused.saturating_add(1);
                assert!(rt; fault == ConfigFault::Memory);
                assert!(rt; read == 0);
            }
        }
    }
    assert!(rt; refused > 0);
    assert!(rt; read > 0);
}
