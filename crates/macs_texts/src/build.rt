//! Which program reports.

ghost use Rattle.std.specs.Prelude.{◌≡◌, IfOk, string_bytes};

use std::alloc::{AllocError, Global};

/// A build of the program. None of its texts contains a quote, a backslash or a line feed.
#[derive(Drop)]
pub struct Build {
    /// Its version.
    pub version: String,
    /// The commit of its sources, or `unknown`.
    pub commit: String,
    /// Whether each of its functions was proved: `yes`, `no`, or `unknown`.
    pub proved: String,
}

/// An owned copy of a text.
fn owned(alloc: Global, text: &str) -> Result<String, AllocError>
    ensures { IfOk result (λ copy. string_bytes copy ≡ text.now) }
{
    let copy = format!(in alloc; "{text}")?;
    Ok(copy)
}

impl Build {
    ghost use Rattle.std.specs.Prelude.{◌≡◌, IfOk, string_bytes};

    /// A build of this version and commit; `proved` says whether its functions were proved.
    pub fn new(
        alloc: Global,
        version: &str,
        commit: &str,
        proved: &str,
    ) -> Result<Build, AllocError>
        ensures version { IfOk result (λ build. string_bytes build.version ≡ version.now) }
        ensures commit { IfOk result (λ build. string_bytes build.commit ≡ commit.now) }
        ensures proved { IfOk result (λ build. string_bytes build.proved ≡ proved.now) }
    {
        let version = owned(alloc, version)?;
        let commit = owned(alloc, commit)?;
        let proved = owned(alloc, proved)?;
        Ok(Build {
            version,
            commit,
            proved,
        })
    }
}
