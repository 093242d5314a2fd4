//! Requests of a client.

ghost use Rattle.std.specs.Prelude.{◌≡◌, ◌↔◌, ◌≤◌, ℕ, List, Some, IfSome, IsTrue, length};
ghost use Rattle.macs_commands.specs.Papers.{IsWritten, Writes, blank};
ghost use Rattle.macs_commands.specs.Requests.{IsAsked, own_request, plain_request, request_line};
ghost use Rattle.macs_commands.specs.declared.requests.request.Request.{Request};

use crate::paper::Paper;
use crate::requests::commands_of_lines::taken_for;
use crate::requests::lines::write_command;
use macs_config::Command;

/// A request of a client, one line.
#[derive(Clone, Copy, PartialEq, Eq)]
pub enum Request {
    /// `show`: the configuration and the numbers, as they are now.
    Show,
    /// `counters`: the counters of the endpoint and its wires.
    Counters,
    /// `keys`: which keys are installed, by their identifiers.
    Keys,
    /// `traffic`: what the frames carried under each association number, and when the last one
    /// arrived that verified.
    Traffic,
    /// `about`: which program runs the relay, and since when.
    About,
    /// `stop`: the relay should end.
    Stop,
    /// A command to apply.
    Apply(Command),
}

/// Writes the line of a request, without its line feed: a word, or the line of a command.
pub fn write_request(paper: &mut Paper, request: &Request)
    ensures { Writes paper.old paper.new (request_line request.now) }
{
    match request {
        Request::Show => paper.put("show"),
        Request::Counters => paper.put("counters"),
        Request::Keys => paper.put("keys"),
        Request::Traffic => paper.put("traffic"),
        Request::About => paper.put("about"),
        Request::Stop => paper.put("stop"),
        Request::Apply(command) => write_command(paper, command),
    }
}

/// The request that consists of this word, `None` if there is none.
fn plain_request(line: &str) -> Option<Request>
    ensures { result ≡ plain_request line.now }
{
    if line == "show" {
        Some(Request::Show)
    } else if line == "counters" {
        Some(Request::Counters)
    } else if line == "stop" {
        Some(Request::Stop)
    } else {
        own_request(line)
    }
}

/// The same for the words about the program and its keys.
fn own_request(line: &str) -> Option<Request>
    ensures { result ≡ own_request line.now }
{
    if line == "keys" {
        Some(Request::Keys)
    } else if line == "traffic" {
        Some(Request::Traffic)
    } else if line == "about" {
        Some(Request::About)
    } else {
        None
    }
}

/// The request whose line this is, if it is the line of a request; otherwise some request.
fn request_taken(line: &str) -> Request
    ensures { (request : Request) → IsAsked request → line.now ≡ request_line request
        → result ≡ request }
{
    match plain_request(line) {
        Some(request) => request,
        None => Request::Apply(taken_for(line)),
    }
}

/// Whether a line is what is written on a paper that has room for it.
fn is_written(paper: &Paper, line: &str) -> bool
    requires { length line.now ≤ paper.now.room }
    ensures { (text : List ℕ) → IsWritten paper.now text → IsTrue result ↔ line.now ≡ text }
{
    match paper.text() {
        Some(text) => text == line.as_bytes(),
        None => false,
    }
}

/// The request of a line without its line feed, `None` if it is not the line of a request. A
/// request has one line: any other spelling is rejected. It reads what `write_request` writes, on a
/// paper that has room for the line, and leaves that blank.
pub fn request_of_line(paper: &mut Paper, line: &str) -> Option<Request>
    requires { length line.now ≤ paper.old.room }
    ensures read { (request : Request) → IsAsked request → line.now ≡ request_line request
        → result ≡ Some request }
    ensures only { IfSome result (λ request. line.now ≡ request_line request) }
    ensures blank { paper.new ≡ blank paper.old.room }
{
    let request = request_taken(line);
    paper.clear();
    write_request(paper, &request);
    let is_its = is_written(paper, line);
    paper.clear();
    if is_its { Some(request) } else { None }
}
