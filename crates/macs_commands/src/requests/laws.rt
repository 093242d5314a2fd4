//! Laws of the lines.

ghost use Rattle.std.specs.Prelude.{◌<◌, length};
ghost use Rattle.macs_commands.specs.Requests.{IsAsked, request_line};
ghost use Rattle.macs_commands.specs.declared.requests.request.Request.{Request};

/// The line of a request has fewer than 256 octets, without its line feed.
pub fn requests_are_short()
    ensures { (request : Request) → IsAsked request → length (request_line request) < 256 }
{}
