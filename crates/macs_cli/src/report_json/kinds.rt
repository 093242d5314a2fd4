//! The kinds of lines in a report, in one table.

/// The lines, word for word: a word with a colon, NAME:TYPE, matches any word that fits the type,
/// and NAME is the name of its member. The types are
///
/// - `text`: any word, a string, even if it is all digits;
/// - `number`: a JSON number, of any size;
/// - `switch`: `on` or `off`, true or false.
///
/// The word `none` fits each of them, and is null. No line belongs to two kinds. A new kind is one
/// more line here.
pub const KINDS: &[&str] = &[
    // of `show`
    "sci sci:text",
    "blocks tx tx:number rx rx:number",
    "validate mode:text",
    "replay on:switch window window:number",
    "sci-mode mode:text",
    "encoding an:number",
    "tx an:number protection:text next next:number",
    "tx an:number protection:text offset offset:number next next:number",
    "channel sci:text",
    "rx sci:text an:number offset offset:number next next:number lowest lowest:number",
    "spent tx tx:number rx rx:number",
    // of `counters`
    "tx counter:text count:number",
    "rx counter:text count:number",
    "channel sci:text counter:text count:number",
    "wire wire:number counter:text count:number",
    "left tx an:number numbers:number",
    "left keys side:text keys:number",
    "reserved tx an:number numbers:number",
    "reserved rx sci:text an:number numbers:number",
    // of `keys`
    "tx an:number key key:number id id:text",
    "rx sci:text an:number key key:number id id:text",
    // of `traffic`
    "tx an:number kind:text frames frames:number octets octets:number",
    "rx sci:text an:number kind:text frames frames:number octets octets:number",
    "last-good seconds:number",
    // of `about`
    "macsecd version:text",
    "commit commit:text",
    "proved proved:text",
    "started seconds:number",
    // of `examine`
    "format format:number",
    "block octets:number",
    "area area:number",
    "generation generation:number",
    "slots used used:number of of:number",
    "records kind:text count:number",
    "ceiling tx an:number ceiling:number",
    "ceiling rx sci:text an:number ceiling:number",
    "spent side:text keys:number of of:number",
    "whole",
];
