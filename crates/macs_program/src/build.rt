//! What `tools/tree_for` records about the build in its copies of this file: the commit of the
//! sources, if requested, the toolchain that builds it, whether it is proved, and for which
//! processors the program is. In the repository the values are those below.

ghost use Rattle.std.specs.Prelude.{IfOk};
ghost use Rattle.macs_program.specs.About.{IsThisBuild};

use macs_texts::{Build, Program};
use std::alloc::{AllocError, Global};
use std::rt::Clock;
use std::time::{SystemTime, UNIX_EPOCH};

/// The version, as `--version` prints it.
pub const VERSION: &str = "0.1.0";

/// The commit of the sources.
pub const COMMIT: &str = "unknown";

/// The toolchain that builds it, with its logic, as `rt version` prints them.
pub const TOOLCHAIN: &str = "unknown";

/// Whether each function was proved before it was built: `yes` or `no`.
pub const PROVED: &str = "unknown";

/// The level of processors.
pub const LEVEL: &str = "x86-64-v2";

/// This build.
pub fn this_build(alloc: Global) -> Result<Build, AllocError>
    ensures { IfOk result IsThisBuild }
{
    Build::new(alloc, VERSION, COMMIT, PROVED)
}

/// Seconds since the beginning of 1970 (UTC), if the clock can be read.
pub fn seconds_now(clock: &impl Clock) -> Option<u64> {
    let now = SystemTime::now(clock).ok()?;
    let since = now.duration_since(UNIX_EPOCH).ok()?;
    Some(since.as_secs())
}

/// This program, started now.
pub fn this_program(clock: &impl Clock, alloc: Global) -> Result<Program, AllocError>
    ensures { IfOk result (λ program. IsThisBuild program.build) }
{
    let build = this_build(alloc)?;
    let started = seconds_now(clock);
    Ok(Program {
        build,
        started,
        last_good: None,
    })
}
