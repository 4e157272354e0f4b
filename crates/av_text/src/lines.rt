// The lines of a text, one after another.
ghost use Rattle.std.specs.Prelude.{◌≡◌, ℕ, List, ◌<◌, [], ◌∷◌, length, drop, MatchOption, IfSome};
ghost use Rattle.std.specs.List.{position};
ghost use Rattle.std.specs.Str.Lines.{strip_carriage_return};
ghost use Rattle.av_text.specs.Lines.{script_lines, is_line_feed};

use std::marker::Model;

/// A line without the one carriage return at its end, if it has one.
fn strip_carriage_return(line: &[u8]) -> &[u8]
    ensures { result.now ≡ strip_carriage_return line.now }
{
    match line {
        [front @ .., b'\r'] => front,
        _ => line,
    }
}

/// Where the first line feed stands.
fn line_feed(bytes: &[u8]) -> Option<usize>
    ensures value { result ≡ position is_line_feed bytes.now }
    ensures within { IfSome result (λ at. at < length bytes.now) }
{
    bytes.iter().position(|b| *b == b'\n')
}

/// The first line of a text, without the one carriage return at its end, and the bytes that follow it, or none where there are no bytes.
fn first_line(bytes: &[u8]) -> Option<(&[u8], &[u8])>
    ensures { MatchOption result (script_lines bytes.now ≡ []) (λ cut. script_lines bytes.now ≡ cut.0.now ∷ script_lines cut.1.now) }
{
    if bytes.is_empty() {
        return None;
    }
    match line_feed(bytes) {
        Some(at) => Some((strip_carriage_return(&bytes[..at]), &bytes[at + 1..])),
        None => Some((strip_carriage_return(bytes), &[])),
    }
}

/// The lines that are left of a text, seen as their list.
#[derive(Drop)]
pub struct Lines<'a> {
    rest: &'a [u8],
}

impl<'a> Model for Lines<'a> {
    ghost use Rattle.std.specs.Prelude.{ℕ, List};
    ghost use Rattle.av_text.specs.Lines.{script_lines};

    ghost Value = { List (List ℕ) };

    ghost view = { λ l. script_lines l.rest.now };
}

impl<'a> Lines<'a> {
    /// All lines of a text: they end at line feeds, the last one also at the end of the text.
    pub fn new(bytes: &'a [u8]) -> Lines<'a>
        ensures { result ≡ script_lines bytes.entry.now }
    {
        Lines { rest: bytes }
    }

    /// The next line, which isn't passed, or none at the end.
    pub fn first(&self) -> Option<&'a [u8]>
        ensures { MatchOption result (self.now ≡ []) (λ line. self.now ≡ line.now ∷ drop 1 self.now) }
    {
        match first_line(self.rest) {
            Some((line, _)) => Some(line),
            None => None,
        }
    }

    /// Passes the next line, if there is one.
    pub fn pass(&mut self)
        ensures { self.new ≡ drop 1 self.old }
    {
        if let Some((_, rest)) = first_line(self.rest) {
            self.rest = rest;
        }
    }

    /// How many lines are left.
    pub fn len(&self) -> usize
        ensures { result ≡ length self.now }
    {
        count_lines(self.rest)
    }

    /// The next line, which is passed, or none at the end.
    pub fn next_line(&mut self) -> Option<&'a [u8]>
        ensures { MatchOption result (self.old ≡ []) (λ line. self.old ≡ line.now ∷ self.new) }
    {
        match first_line(self.rest) {
            Some((line, rest)) => {
                self.rest = rest;
                Some(line)
            }
            None => None,
        }
    }
}

/// How many lines a text has.
pub fn count_lines(bytes: &[u8]) -> usize
    ensures { result ≡ length (script_lines bytes.now) }
{
    let mut lines = Lines::new(bytes);
    let mut count = 0;
    while let Some(_line) = lines.next_line() {
        count += 1;
    }
    count
}
