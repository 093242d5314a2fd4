//! Lines of `/proc/net/udp` and `/proc/net/udp6`, as Linux 6.18 printed them.

use macs_program::overruns::dropped_in;

/// Two sockets over IPv4: 97 datagrams were dropped at the first. Blanks fill each line.
const FOUR: &str = "\
   sl  local_address rem_address   st tx_queue rx_queue tr tm->when retrnsmt   uid  timeout inode ref pointer drops            \n \
3737: 0100007F:BF98 00000000:0000 07 00000000:00000F00 00:00000000 00000000     0        0 15115 2 0000000004a777ea 97       \n \
5728: 00000000:875F 00000000:0000 07 00000000:00000000 00:00000000 00000000   995        0 15116 2 000000007dcb9d77 0        \n";

/// One over IPv6, without blanks at the end.
const SIX: &str = "\
  sl  local_address                         remote_address                        st tx_queue rx_queue tr tm->when retrnsmt   uid  timeout inode ref pointer drops\n \
 970: 00000000000000000000000001000000:10CE 00000000000000000000000000000000:0000 07 00000000:00000000 00:00000000 00000000     0        0 20391 2 00000000e1f4b4e6 494\n";

/// A list, the mark of a socket, and how many datagrams were dropped there.
const CASES: &[(&str, &str, Option<u64>)] = &[
    (FOUR, " 0 15115 ", Some(97)),
    (FOUR, " 0 15116 ", Some(0)),
    (FOUR, " 0 1511 ", None),
    (FOUR, " 0 20391 ", None),
    (SIX, " 0 20391 ", Some(494)),
    ("", " 0 20391 ", None),
    // The last line is cut.
    (" 0 7 2 0000000004a777ea 97", " 0 7 ", None),
    (" 0 7 2 0000000004a777ea", " 0 7 ", None),
    (" 0 7 2 0000000004a777ea 9-\n", " 0 7 ", None),
];

#[test]
fn the_last_column_of_a_socket_is_read(rt: HostRuntime) {
    for &(sockets, mark, dropped) in CASES {
        assert!(rt; dropped_in(sockets, mark) == dropped);
    }
}
