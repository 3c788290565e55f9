//! Tests of octets, messages and texts, by what their crates export: codecs, settings, lines in
//! pieces, words of a line, lines of a report that are read again.
#![tactic(auto)]

#[cfg(test)]
mod tests;
