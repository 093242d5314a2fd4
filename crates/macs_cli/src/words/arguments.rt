//! The arguments of subcommands.

ghost use Rattle.std.specs.Prelude.{◌≡◌, false};
ghost use Rattle.clap.specs.Words.{rule_of};
ghost use Rattle.macs_cli.specs.Words.{rule_for};

use clap::builder::ValueParser;
use clap::{Arg, ArgAction};
use std::alloc::Global;

/// How an argument is given. Numbers are in decimal.
#[derive(Clone, Copy)]
pub enum Kind {
    /// A required value.
    Value,
    /// A required 32-bit number.
    Number,
    /// An optional last value.
    Last,
    /// An optional value after its name.
    Named,
    /// An optional 64-bit number after its name.
    Count,
    /// Optional milliseconds, 1 to 60,000, after their name.
    Wait,
    /// An optional buffer size in octets, 1 to 1,073,741,823, after its name.
    Room,
    /// An option without a value.
    Flag,
}

/// The argument of this kind, as clap takes it.
pub fn argument<'a>(alloc: Global, name: &'a str, kind: Kind) -> Arg<'a>
    ensures rule { rule_of result ≡ rule_for kind name.entry.now }
    ensures local { result.global ≡ false }
{
    let value = Arg::new(alloc, name).action(ArgAction::Set);
    match kind {
        Kind::Value => value.required(true),
        // `value_parser!(u32)` would also accept `-0`, and read it as 0.
        Kind::Number => value
            .required(true)
            .value_parser(ValueParser::unsigned(0, 4_294_967_295)),
        Kind::Last => value,
        Kind::Named => value.long(name),
        Kind::Count => value
            .long(name)
            .value_parser(ValueParser::unsigned(0, u64::MAX)),
        Kind::Wait => value
            .long(name)
            .value_parser(ValueParser::unsigned(1, 60_000)),
        Kind::Room => value
            .long(name)
            .value_parser(ValueParser::unsigned(1, 1_073_741_823)),
        Kind::Flag => value.long(name).action(ArgAction::SetTrue),
    }
}
