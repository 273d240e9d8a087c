// Commands that remove rows.
ghost use Rattle.std.specs.Prelude.{◌≡◌, IfOk, OnErr};
ghost use Rattle.id_select.specs.Removal.{ChoosesAs};
ghost use Rattle.faissb_core.specs.Language.Grammar.{ids_in};
ghost use Rattle.faissb_core.specs.Language.Read.{said_selection};
ghost use Rattle.faissb_core.specs.Machine.Removing.{remove};
ghost use Rattle.faissb_core.specs.Session.Results.{Changes};

use super::halt::Halt;
use super::read_codes::push_id;
use crate::language::{Ids, Selection};
use crate::{Refusal, Reply};
use any_index::AnyIndex;
use bcodes::{BinaryIndex, Want};
use id_select::Selector;
use std::alloc::Global;

// The ids that some words write.
fn read_ids(alloc: Global, words: Ids<'_>) -> Result<Vec<i64>, Want>
    ensures { IfOk result (λ ids. ids.items ≡ ids_in words.entry.text.now) }
{
    let mut ids = Vec::new(alloc);
    let mut rest = Some(words);
    while let Some(words) = rest {
        let (id, more) = words.first();
        push_id(&mut ids, id)?;
        rest = more;
    }
    Ok(ids)
}

fn selector(alloc: Global, selection: Selection<'_>) -> Result<Selector, Want>
    ensures { IfOk result (λ s. ChoosesAs (said_selection selection.entry) s) }
{
    let selector = match selection {
        Selection::Listed(words) => Selector::listed(alloc, &read_ids(alloc, words)?)?,
        Selection::AllBut(words) => Selector::all_but(alloc, &read_ids(alloc, words)?)?,
        Selection::Between(from, to) => Selector::range(from, to),
    };
    Ok(selector)
}

/// The commands `remove`, `keep` and `removerange`.
pub fn remove(alloc: Global, index: &mut AnyIndex, selection: Selection<'_>) -> Result<Reply, Halt>
    ensures ok { Changes (remove (said_selection selection.entry) index.old) index.new result }
    ensures err { OnErr result (index.new ≡ index.old) }
{
    if !index.removes_rows() {
        return Err(Refusal::Kind.into());
    }
    let selector = selector(alloc, selection)?;
    let count = index.remove(&selector)?;
    Ok(Reply::Removed(count, index.count()))
}
