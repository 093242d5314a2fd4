//! What an endpoint counted.

use crate::disk::sci_of;
use crate::passing::tell_verdict;
use crate::text::{Answer, Words, whole};
use macs_endpoint::Counters;
use macs_frame::Sci;
use macs_rxsc::{VERDICTS, Verdict};
use macs_txsc::TxFault;

const TX_FAULTS: [TxFault; 6] = [
    TxFault::Runt,
    TxFault::TooLong,
    TxFault::ForeignSource,
    TxFault::NoEncodingSa,
    TxFault::Exhausted,
    TxFault::NoNumber,
];

/// How many frames went out, and each fault that came.
fn tell_sent(counters: Counters<'_>, answer: &mut Answer) {
    answer.number(counters.protected());
    for fault in TX_FAULTS {
        let count = counters.tx_fault(fault);
        if count > 0 {
            answer.name(&fault);
            answer.number(count);
        }
    }
}

fn tell_count(verdict: Verdict, count: u64, answer: &mut Answer) {
    if count > 0 {
        tell_verdict(verdict, answer);
        answer.number(count);
    }
}

fn tell_none(answer: &mut Answer) {
    if answer.is_empty() {
        answer.word("none");
    }
}

/// How often each verdict was given; `none` where none was.
fn tell_received(counters: Counters<'_>, answer: &mut Answer) {
    for verdict in VERDICTS {
        tell_count(verdict, counters.verdict(verdict), answer);
    }
    let held_back = Verdict::HeldBack;
    tell_count(held_back, counters.verdict(held_back), answer);
    tell_none(answer);
}

/// How often a verdict was given on the frames of a channel; `None` where it does not exist.
fn tell_count_of(
    counters: Counters<'_>,
    sci: Sci,
    verdict: Verdict,
    answer: &mut Answer,
) -> Option<()> {
    let count = counters.channel(sci, verdict)?;
    tell_count(verdict, count, answer);
    Some(())
}

/// The same of each verdict.
fn tell_counts_of(counters: Counters<'_>, sci: Sci, answer: &mut Answer) -> Option<()> {
    for verdict in VERDICTS {
        tell_count_of(counters, sci, verdict, answer)?;
    }
    tell_count_of(counters, sci, Verdict::HeldBack, answer)
}

/// How often each verdict was given on the frames of a channel, `none` where none was; `absent`
/// where it does not exist.
fn tell_received_of(counters: Counters<'_>, sci: Sci, answer: &mut Answer) {
    match tell_counts_of(counters, sci, answer) {
        Some(()) => tell_none(answer),
        None => answer.word("absent"),
    }
}

/// Answers a question about counters; `None` where there is none.
pub fn ask_counters(counters: Counters<'_>, words: Words<'_>, answer: &mut Answer) -> Option<()> {
    let mut words = words;
    let told = match words.take() {
        "received-of" => ask_received_of(counters, &mut words, answer),
        question => ask_all(counters, question, answer),
    };
    whole(told, &words)
}

/// Answers a question of one word; `None` where there is none.
fn ask_all(counters: Counters<'_>, question: &str, answer: &mut Answer) -> Option<()> {
    match question {
        "sent" => tell_sent(counters, answer),
        "received" => tell_received(counters, answer),
        _ => return None,
    }
    Some(())
}

fn ask_received_of(
    counters: Counters<'_>,
    words: &mut Words<'_>,
    answer: &mut Answer,
) -> Option<()> {
    tell_received_of(counters, sci_of(words)?, answer);
    Some(())
}
