//! Metrics and their samples, as lines for a metrics collector.
#![tactic(auto, using(crate::proofs::Adding::joined, crate::proofs::Adding::empty))]

ghost use Rattle.std.specs.Prelude.{◌++◌, codes};
ghost use Rattle.std.specs.Fmt.{decimal};
ghost use Rattle.macs_commands.specs.Papers.{Writes};
ghost use Rattle.macs_texts.specs.Lines.{line};
ghost use Rattle.macs_texts.specs.Measuring.{channel_labels, help_line, metric_head, own_label};
ghost use Rattle.macs_texts.specs.Measuring.{sample, sample_of, type_line};

use crate::lines::numbered;
use macs_commands::Paper;
use macs_fields::{An, Sci};

/// A metric of the endpoint with this SCI.
#[derive(Clone, Copy)]
pub(crate) struct Metric<'a> {
    pub name: &'a str,
    pub own: Sci,
}

fn help_line(paper: &mut Paper, name: &str, help: &str)
    ensures { Writes paper.old paper.new (help_line name.now help.now) }
{
    paper.put("# HELP ");
    paper.put(name);
    paper.put(" ");
    paper.put(help);
    paper.end_line();
}

fn type_line(paper: &mut Paper, name: &str, kind: &str)
    ensures { Writes paper.old paper.new (type_line name.now kind.now) }
{
    paper.put("# TYPE ");
    paper.put(name);
    paper.put(" ");
    paper.put(kind);
    paper.end_line();
}

/// Writes the label that all samples of an endpoint have.
fn own_label(paper: &mut Paper, own: Sci)
    ensures { Writes paper.old paper.new (own_label own) }
{
    paper.put("sci=\"");
    paper.hex(&own.get());
    paper.put("\"");
}

/// Writes the beginning of one more label, up to its value.
fn begin_label(paper: &mut Paper, label: &str)
    ensures { Writes paper.old paper.new (codes "," ++ (label.now ++ codes "=\"")) }
{
    paper.put(",");
    paper.put(label);
    paper.put("=\"");
}

/// Writes the end of a sample, from the end of its last label on.
fn end_sample(paper: &mut Paper, number: u64)
    ensures { Writes paper.old paper.new (line (codes "\"} " ++ decimal number)) }
{
    numbered(paper, "\"} ", number);
    paper.end_line();
}

/// Writes the rest of a sample, from its last label on, whose value contains no quote or backslash.
pub(crate) fn rest_of_sample(paper: &mut Paper, label: &str, value: &str, number: u64)
    ensures { Writes paper.old paper.new (line (codes "," ++ (label.now
        ++ (codes "=\"" ++ (value.now ++ (codes "\"} " ++ decimal number)))))) }
{
    begin_label(paper, label);
    paper.put(value);
    end_sample(paper, number);
}

/// The same for a value that is a number.
fn rest_of_sample_at(paper: &mut Paper, label: &str, value: u64, number: u64)
    ensures { Writes paper.old paper.new (line (codes "," ++ (label.now
        ++ (codes "=\"" ++ (decimal value ++ (codes "\"} " ++ decimal number)))))) }
{
    begin_label(paper, label);
    paper.number(value);
    end_sample(paper, number);
}

impl Metric<'_> {
    /// Writes the description and the type of the metric: the lines before its samples.
    pub fn describe(&self, paper: &mut Paper, kind: &str, help: &str)
        ensures { Writes paper.old paper.new (metric_head self.now.name.now kind.now help.now) }
    {
        help_line(paper, self.name, help);
        type_line(paper, self.name, kind);
    }

    /// Writes the beginning of a sample, up to the label that all samples have.
    pub fn begin_sample(&self, paper: &mut Paper)
        ensures { Writes paper.old paper.new
            (self.now.name.now ++ (codes "{" ++ own_label self.now.own)) }
    {
        paper.put(self.name);
        paper.put("{");
        own_label(paper, self.own);
    }

    /// Writes a sample, with one more label, whose value contains no quote or backslash.
    pub fn sample(&self, paper: &mut Paper, label: &str, value: &str, number: u64)
        ensures { Writes paper.old paper.new
            (sample self.now.name.now (own_label self.now.own) label.now value.now number) }
    {
        self.begin_sample(paper);
        rest_of_sample(paper, label, value, number);
    }

    /// The same for a value that is a number.
    pub fn sample_at(&self, paper: &mut Paper, label: &str, value: u64, number: u64)
        ensures { Writes paper.old paper.new
            (sample self.now.name.now (own_label self.now.own) label.now (decimal value) number) }
    {
        self.begin_sample(paper);
        rest_of_sample_at(paper, label, value, number);
    }

    /// Writes the beginning of a sample of a channel, up to the label of the channel.
    fn begin_channel_sample(&self, paper: &mut Paper, sci: Sci)
        ensures { Writes paper.old paper.new (self.now.name.now
            ++ (codes "{" ++ channel_labels (own_label self.now.own) sci)) }
    {
        self.begin_sample(paper);
        paper.put(",channel=\"");
        paper.hex(&sci.get());
        paper.put("\"");
    }

    /// Writes a sample of a channel, if there is a number.
    pub fn channel_sample_of(&self, paper: &mut Paper, sci: Sci, verdict: &str, number: Option<u64>)
        ensures { Writes paper.old paper.new (sample_of self.now.name.now
            (channel_labels (own_label self.now.own) sci) (codes "verdict") verdict.now number) }
    {
        if let Some(number) = number {
            self.begin_channel_sample(paper, sci);
            rest_of_sample(paper, "verdict", verdict, number);
        }
    }

    /// Writes a sample of an association of a channel.
    pub fn association_sample(&self, paper: &mut Paper, sci: Sci, an: An, number: u64)
        ensures { Writes paper.old paper.new (sample self.now.name.now
            (channel_labels (own_label self.now.own) sci) (codes "an") (decimal an) number) }
    {
        self.begin_channel_sample(paper, sci);
        rest_of_sample_at(paper, "an", u64::from(an.get()), number);
    }

    /// Writes a sample, if there is a number.
    pub fn sample_of(&self, paper: &mut Paper, label: &str, value: &str, number: Option<u64>)
        ensures { Writes paper.old paper.new
            (sample_of self.now.name.now (own_label self.now.own) label.now value.now number) }
    {
        if let Some(number) = number {
            self.sample(paper, label, value, number);
        }
    }
}
