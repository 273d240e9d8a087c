ghost use Rattle.std.specs.Prelude.{◌≡◌, IfOk, IsErrOf, IsTrue};
ghost use Rattle.file_parts.specs.Feeding.{GivesField, StaysOver, shelf_of};
ghost use Rattle.index_files.specs.Letters.{is_known, is_wanted, letters, start_of};

use crate::{KindName, Start};
use bcodes::MapName;
use file_parts::{Feed, Letters, PartError, Reason};
use outside::Shelf;

/// What may stand in a place of a file.
#[derive(Clone, Copy, Debug)]
pub enum Wanted {
    /// An index, plain or under outer ids.
    Index,
    /// An index of one of the four kinds.
    Plain,
    /// A Flat, as a quantizer or a storage is one.
    Flat,
}

impl Wanted {
    fn takes(self, start: Start) -> bool
        ensures { result ≡ is_wanted self start }
    {
        match start {
            Start::Plain(kind) => match self {
                Wanted::Index | Wanted::Plain => true,
                Wanted::Flat => kind.is_flat(),
            },
            Start::Mapped(_) => match self {
                Wanted::Index => true,
                Wanted::Plain | Wanted::Flat => false,
            },
            Start::NotRead | Start::Unknown => false,
        }
    }
}

fn start_from(letters: &Letters) -> Start
    ensures { result ≡ start_of letters.now }
{
    if letters.is("IBxF") {
        Start::Plain(KindName::Flat)
    } else if letters.is("IBwF") {
        Start::Plain(KindName::Ivf)
    } else if letters.is("IBHh") {
        Start::Plain(KindName::Hash)
    } else if letters.is("IBHm") {
        Start::Plain(KindName::Multi)
    } else if letters.is("IBMp") {
        Start::Mapped(MapName::Map)
    } else if letters.is("IBM2") {
        Start::Mapped(MapName::Map2)
    } else if letters.is("IBHf") || letters.is("IBFf") {
        Start::NotRead
    } else {
        Start::Unknown
    }
}

fn is_known(start: Start) -> bool
    ensures { result ≡ is_known start }
{
    match start {
        Start::Plain(_) | Start::Mapped(_) | Start::NotRead => true,
        Start::Unknown => false,
    }
}

#[tactic(auto, unfolding(crate::specs::Letters::letters), using(file_parts::proofs::FeedLemmas::field_gives))]
pub fn read_start<H: Shelf>(feed: &mut Feed<'_, H>, wanted: Wanted) -> Result<Start, PartError>
    requires { IsTrue (H.is_reading (shelf_of feed.old)) }
    ensures gives { GivesField H.contents (λ start. start) (letters (is_wanted wanted))
        feed.old feed.new result }
    ensures shelf { StaysOver H.contents H.is_reading H.faults feed.old feed.new
        (IsErrOf result PartError.Failed) }
    ensures fits { IfOk result (λ start. IsTrue (is_wanted wanted start)) }
{
    let at = feed.at();
    let letters = feed.letters()?;
    let start = start_from(&letters);
    let taken = wanted.takes(start);
    if !taken && is_known(start) {
        return Err(PartError::bad(at, Reason::LeftOut));
    }
    if !taken {
        return Err(PartError::bad(at, Reason::Fourcc));
    }
    Ok(start)
}
