//! A client that waits for its keeper on a socket, and a relay that sleeps on it.

use macs_control::keeping::Waits;
use macs_control::{Connection, NO_SOCKET, Sockets, Taken, Watch};
use std::io::Write;
use std::net::Shutdown;
use std::os::fd::{AsRawFd, RawFd};
use std::os::unix::net::UnixStream;
use std::test::Fail;
use std::time::{Duration, Instant};

/// What waits of a keeper is found at once, and so is its end.
#[test]
fn octets_and_the_end_are_found_at_once(rt: HostRuntime) -> Result<(), Fail> {
    let (mut client, mut keeper) = UnixStream::pair(&rt)?;
    client.set_nonblocking(true)?;
    keeper.write_all(b"a")?;
    assert!(rt; client.wait());
    assert!(rt; client.take_into(&mut [0; 2]) == Taken::Octets(1));
    assert!(rt; client.take_into(&mut [0; 2]) == Taken::Nothing);
    keeper.shutdown(Shutdown::Write)?;
    assert!(rt; client.wait());
    assert!(rt; client.take_into(&mut [0; 2]) == Taken::Ended);
    Ok(())
}

/// What a relay sleeps on that has a keeper and no wires.
fn beside(keeper: RawFd) -> Sockets {
    Sockets {
        controlled: NO_SOCKET,
        common: NO_SOCKET,
        keeper,
    }
}

/// The same, and a control socket with one client.
fn attended(keeper: RawFd, client: RawFd) -> Watch {
    Watch {
        sockets: beside(keeper),
        listener: NO_SOCKET,
        first: client,
        second: NO_SOCKET,
        third: NO_SOCKET,
        fourth: NO_SOCKET,
    }
}

/// What a keeper sent ends a sleep of a minute, and no client is found.
#[test]
fn a_keeper_that_answers_ends_a_sleep(rt: HostRuntime) -> Result<(), Fail> {
    let (client, mut keeper) = UnixStream::pair(&rt)?;
    keeper.write_all(b"a")?;
    let begun = Instant::now(&rt)?;
    beside(client.as_raw_fd()).sleep(60_000);
    assert!(rt; !attended(client.as_raw_fd(), NO_SOCKET).sleep(60_000));
    assert!(rt; begun.elapsed(&rt)? < Duration::from_secs(30));
    Ok(())
}

/// One that has gone ends no sleep, but limits it to a second. A client is found beside it.
#[test]
fn a_keeper_that_has_gone_ends_no_sleep(rt: HostRuntime) -> Result<(), Fail> {
    let (client, keeper) = UnixStream::pair(&rt)?;
    let (desk, mut asker) = UnixStream::pair(&rt)?;
    drop(keeper);
    let begun = Instant::now(&rt)?;
    beside(client.as_raw_fd()).sleep(60_000);
    assert!(rt; !attended(client.as_raw_fd(), desk.as_raw_fd()).sleep(500));
    assert!(rt; begun.elapsed(&rt)? >= Duration::from_millis(1_500));
    asker.write_all(b"a")?;
    assert!(rt; attended(client.as_raw_fd(), desk.as_raw_fd()).sleep(60_000));
    assert!(rt; begun.elapsed(&rt)? < Duration::from_secs(30));
    Ok(())
}
