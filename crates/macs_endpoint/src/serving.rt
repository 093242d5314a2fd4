//! Serving events, one after another.

ghost use Rattle.std.specs.Prelude.{◌≡◌};
ghost use Rattle.macs_endpoint.specs.Calls.{IsCall};
ghost use Rattle.macs_endpoint.specs.Lives.{LivesOn};
ghost use Rattle.macs_endpoint.specs.Serving.{IsServed, call_of, is_halt, reply_of};

use crate::endpoint::Endpoint;
use crate::event::{Answer, Event, ServeEnd};
use crate::fault::{CommandFault, ProtectFault, RefillFault, StepFault, SubmitFault};
use crate::ports::{AnswerSink, EventSource};
use macs_disk::SectorDisk;
use macs_frame::FrameBuf;

impl Answer {
    /// Whether it reports that a device call failed, now or before.
    fn is_halt(&self) -> bool
        ensures { result ≡ is_halt (reply_of self.now) }
    {
        match self {
            Answer::Submitted(Err(SubmitFault::Stopped))
            | Answer::Stepped(Err(StepFault::Stopped | StepFault::Disk))
            | Answer::Ran(Err(CommandFault::Stopped | CommandFault::Disk))
            | Answer::Refilled(Err(RefillFault::Stopped | RefillFault::Disk))
            | Answer::Protected(Err(ProtectFault::Stopped), _)
            | Answer::Received(Err(_), _) => true,
            _ => false,
        }
    }
}

impl<D: SectorDisk> Endpoint<D> {
    /// Takes up to `turns` events from a source and gives each answer to a sink. Ends with `Halted`
    /// at once after the first answer that reports that a device call failed, even on the last
    /// turn, with `Ended` if the source has no further event, and otherwise with `TurnsSpent`. With
    /// 0 turns the source is not asked.
    pub fn serve<S: EventSource, K: AnswerSink>(
        &mut self,
        source: &mut S,
        sink: &mut K,
        turns: u64,
    ) -> ServeEnd
        ensures served { IsServed D.disk turns self.old
            (record {
              source_tells = S.tells source.old;
              left = S.left source.old;
              sink_tells =
                  K.tells sink.old;
              took = K.took sink.old;
            })
            result self.new
            (record {
              source_tells = S.tells source.new;
              left = S.left source.new;
              sink_tells =
                  K.tells sink.new;
              took = K.took sink.new;
            }) }
        ensures lives { LivesOn D.disk self.old self.new }
    {
        for _ in 0..turns {
            let Some(event) = source.next_event() else {
                return ServeEnd::Ended;
            };
            self.facts();
            let answer = self.answer(event);
            let is_halt = answer.is_halt();
            sink.put(answer);
            if is_halt {
                return ServeEnd::Halted;
            }
        }
        ServeEnd::TurnsSpent
    }

    /// Makes the call for an event.
    fn answer(&mut self, event: Event) -> Answer
        ensures { IsCall D.disk self.old (call_of event) (reply_of result) self.new }
    {
        match event {
            Event::Operator(command) => Answer::Submitted(self.submit(command)),
            Event::Controlled(plain) => {
                let mut out = FrameBuf::new();
                let result = self.protect(plain.as_slice(), &mut out);
                Answer::Protected(result, out)
            }
            Event::Common(frame) => {
                let mut out = FrameBuf::new();
                let result = self.receive(frame.as_slice(), &mut out);
                Answer::Received(result, out)
            }
            Event::Work => Answer::Stepped(self.step()),
        }
    }
}
