//! The last line of an answer.

use macs_commands::requests::{end_of_line, line_of_end};

#[test]
fn stand_as(rt: HostRuntime) {
    for (status, line) in [(0, "end 0"), (3, "end 3"), (255, "end 255")] {
        let text = line_of_end(rt.alloc(), status).ok().expect(&rt, "memory");
        assert!(rt; text.as_str() == line);
        let found = end_of_line(rt.alloc(), line).ok().expect(&rt, "memory");
        assert!(rt; found == Some(status));
    }
}

#[test]
fn others_are_none(rt: HostRuntime) {
    for line in [
        "", "end", "end ", "end 03", "end 256", "end 0 ", "End 0", "stop 0",
    ] {
        let found = end_of_line(rt.alloc(), line).ok().expect(&rt, "memory");
        assert!(rt; found.is_none());
    }
}
