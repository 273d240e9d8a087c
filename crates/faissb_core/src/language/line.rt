ghost use Rattle.std.specs.Prelude.{◌≡◌};
ghost use Rattle.faissb_core.specs.Language.Lines.{is_silent, line_of};
ghost use Rattle.faissb_core.specs.Language.Read.{line_said};

use super::command::Command;
use super::grammar::read_command;
use super::words::are_words;
use crate::LINE_LIMIT;

/// A line: over the limit, without a command, one command, or none of these.
#[derive(Clone, Copy, Debug)]
pub enum Line<'l> {
    TooLong,
    Silent,
    Whole(Command<'l>),
    Broken,
}

fn is_silent(line: &[u8]) -> bool
    ensures { result ≡ is_silent line.now }
{
    matches!(line, [] | [b'#', ..])
}

/// What a line says.
#[tactic(auto, unfolding(crate::specs::Language::Lines::line_of))]
pub fn read_line(line: &[u8]) -> Line<'_>
    ensures { line_said result ≡ line_of line.now }
{
    if line.len() > LINE_LIMIT {
        return Line::TooLong;
    }
    if is_silent(line) {
        return Line::Silent;
    }
    if !are_words(line) {
        return Line::Broken;
    }
    match read_command(line) {
        Some(command) => Line::Whole(command),
        None => Line::Broken,
    }
}
