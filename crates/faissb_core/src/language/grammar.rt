// The names of commands, and the words that follow them.
ghost use Rattle.std.specs.Prelude.{◌≡◌, ℕ, ℤ, List, [], ◌∷◌};
ghost use Rattle.std.specs.Option.{option_map};
ghost use Rattle.std.specs.Str.{bytes_eq};
ghost use Rattle.id_select.specs.declared.selector.Selector.TheVariants.{Listed, AllBut, Between};
ghost use Rattle.faissb_core.specs.Language.Words.{id as id_of, id_and_word, name as name_of};
ghost use Rattle.faissb_core.specs.Language.Words.{number as number_of};
ghost use Rattle.faissb_core.specs.Language.Words.{switch as switch_of, word, words_of};
ghost use Rattle.faissb_core.specs.Language.Command.{Add, AddIds, Centroids, DirectMap, MaxCodes};
ghost use Rattle.faissb_core.specs.Language.Command.{Nflip, Nprobe, Range, Reconstruct, Remove};
ghost use Rattle.faissb_core.specs.Language.Command.{Load, Nearest, New, Save, Search, Shard};
ghost use Rattle.faissb_core.specs.Language.Command.{ShardRange, ShardSearch, Show, Unshard};
ghost use Rattle.faissb_core.specs.Language.Command.{IndexChange as SaidChange};
ghost use Rattle.faissb_core.specs.Language.Command.{IndexQuestion as SaidQuestion};
ghost use Rattle.faissb_core.specs.Language.Command.{ShardQuestion as SaidShardQuestion};
ghost use Rattle.faissb_core.specs.Language.Command.{Command as SaidCommand};
ghost use Rattle.faissb_core.specs.Language.Grammar.{command_of, changes, grammar, named};
ghost use Rattle.faissb_core.specs.Language.Grammar.{one, one_or_more, questions};
ghost use Rattle.faissb_core.specs.Language.Grammar.{shard_questions, two};
ghost use Rattle.faissb_core.specs.Language.Read.{said, said_change, said_question};
ghost use Rattle.faissb_core.specs.Language.Read.{said_shard_question};

use super::command::{Command, IndexChange, IndexQuestion, Selection, ShardQuestion};
use super::id::id;
use super::id_words::IdWords;
use super::ids::Ids;
use super::name::file_name;
use super::number::number;
use super::words::first_word;

// A number, and nothing else.
#[tactic(auto, using(crate::proofs::LanguageLemmas::GrammarLemmas::more_than_one))]
fn one_number(words: &[u8]) -> Option<u64>
    ensures change { (command : ℕ → SaidChange)
        → one number_of command (words_of words.now) ≡ option_map command result }
    ensures question { (ask : ℕ → SaidQuestion)
        → one number_of ask (words_of words.now) ≡ option_map ask result }
{
    match first_word(words) {
        (word, None) => number(word),
        (_, Some(_)) => None,
    }
}

// A number and one word, and nothing else.
#[tactic(auto, using(crate::proofs::LanguageLemmas::GrammarLemmas::more_than_two))]
fn number_and_word(words: &[u8]) -> Option<(u64, &[u8])>
    ensures command { (command : ℕ → List ℕ → SaidCommand)
        → two number_of word command (words_of words.now)
        ≡ option_map (λ p. command p.0 p.1.now) result }
    ensures question { (ask : ℕ → List ℕ → SaidQuestion)
        → two number_of word ask (words_of words.now)
        ≡ option_map (λ p. ask p.0 p.1.now) result }
    ensures shard_question { (ask : ℕ → List ℕ → SaidShardQuestion)
        → two number_of word ask (words_of words.now)
        ≡ option_map (λ p. ask p.0 p.1.now) result }
{
    let (first, Some(more)) = first_word(words) else {
        return None;
    };
    match first_word(more) {
        (word, None) => match number(first) {
            Some(n) => Some((n, word)),
            None => None,
        },
        (_, Some(_)) => None,
    }
}

fn switch(word: &[u8]) -> Option<bool>
    ensures { result ≡ switch_of word.now }
{
    if is_named(word, b"on") {
        Some(true)
    } else if is_named(word, b"off") {
        Some(false)
    } else {
        None
    }
}

#[tactic(auto, using(crate::proofs::LanguageLemmas::GrammarLemmas::switch_and_more))]
fn direct_map_command(words: &[u8]) -> Option<IndexChange<'_>>
    ensures { option_map said_change result ≡ one switch_of DirectMap (words_of words.now) }
{
    match first_word(words) {
        (word, None) => Some(IndexChange::DirectMap(switch(word)?)),
        (_, Some(_)) => None,
    }
}

#[tactic(auto, using(crate::proofs::LanguageLemmas::GrammarLemmas::add_of_words))]
fn add_command(words: &[u8]) -> Option<IndexChange<'_>>
    ensures { option_map said_change result ≡ one_or_more word Add (words_of words.now) }
{
    Some(IndexChange::Add(words))
}

#[tactic(auto, using(crate::proofs::LanguageLemmas::GrammarLemmas::add_ids_of_words))]
fn add_ids_command(words: &[u8]) -> Option<IndexChange<'_>>
    ensures { option_map said_change result
        ≡ one_or_more id_and_word AddIds (words_of words.now) }
{
    match IdWords::read(words) {
        Some(words) => Some(IndexChange::AddIds(words)),
        None => None,
    }
}

#[tactic(auto, using(crate::proofs::LanguageLemmas::GrammarLemmas::centroids_of_words))]
fn centroids_command(words: &[u8]) -> Option<IndexChange<'_>>
    ensures { option_map said_change result ≡ one_or_more word Centroids (words_of words.now) }
{
    Some(IndexChange::Centroids(words))
}

#[tactic(auto, using(crate::proofs::LanguageLemmas::GrammarLemmas::remove_of_words))]
fn remove_command(words: &[u8]) -> Option<IndexChange<'_>>
    ensures { option_map said_change result
        ≡ one_or_more id_of (λ ids. Remove (Listed ids)) (words_of words.now) }
{
    match Ids::read(words) {
        Some(ids) => Some(IndexChange::Remove(Selection::Listed(ids))),
        None => None,
    }
}

#[tactic(auto, using(crate::proofs::LanguageLemmas::GrammarLemmas::keep_of_words))]
fn keep_command(words: &[u8]) -> Option<IndexChange<'_>>
    ensures { option_map said_change result
        ≡ one_or_more id_of (λ ids. Remove (AllBut ids)) (words_of words.now) }
{
    match Ids::read(words) {
        Some(ids) => Some(IndexChange::Remove(Selection::AllBut(ids))),
        None => None,
    }
}

// Two ids, and nothing else.
#[tactic(auto, using(crate::proofs::LanguageLemmas::GrammarLemmas::more_than_two_ids))]
fn two_ids(words: &[u8]) -> Option<(i64, i64)>
    ensures { (command : ℤ → ℤ → SaidChange)
        → two id_of id_of command (words_of words.now)
        ≡ option_map (λ p. command p.0 p.1) result }
{
    let (first, Some(more)) = first_word(words) else {
        return None;
    };
    match first_word(more) {
        (second, None) => Some((id(first)?, id(second)?)),
        (_, Some(_)) => None,
    }
}

fn remove_range_command(words: &[u8]) -> Option<IndexChange<'_>>
    ensures { option_map said_change result
        ≡ two id_of id_of (λ from to. Remove (Between from to)) (words_of words.now) }
{
    match two_ids(words) {
        Some((from, to)) => Some(IndexChange::Remove(Selection::Between(from, to))),
        None => None,
    }
}

fn search_command(words: &[u8]) -> Option<IndexQuestion<'_>>
    ensures { option_map said_question result ≡ two number_of word Search (words_of words.now) }
{
    match number_and_word(words) {
        Some((k, query)) => Some(IndexQuestion::Search(k, query)),
        None => None,
    }
}

fn range_command(words: &[u8]) -> Option<IndexQuestion<'_>>
    ensures { option_map said_question result ≡ two number_of word Range (words_of words.now) }
{
    match number_and_word(words) {
        Some((radius, query)) => Some(IndexQuestion::Range(radius, query)),
        None => None,
    }
}

fn nearest_command(words: &[u8]) -> Option<IndexQuestion<'_>>
    ensures { option_map said_question result
        ≡ two number_of word Nearest (words_of words.now) }
{
    match number_and_word(words) {
        Some((k, query)) => Some(IndexQuestion::Nearest(k, query)),
        None => None,
    }
}

fn shard_search_command(words: &[u8]) -> Option<ShardQuestion<'_>>
    ensures { option_map said_shard_question result
        ≡ two number_of word ShardSearch (words_of words.now) }
{
    match number_and_word(words) {
        Some((k, query)) => Some(ShardQuestion::Search(k, query)),
        None => None,
    }
}

fn shard_range_command(words: &[u8]) -> Option<ShardQuestion<'_>>
    ensures { option_map said_shard_question result
        ≡ two number_of word ShardRange (words_of words.now) }
{
    match number_and_word(words) {
        Some((radius, query)) => Some(ShardQuestion::Range(radius, query)),
        None => None,
    }
}

fn new_command(words: &[u8]) -> Option<Command<'_>>
    ensures { option_map said result ≡ two number_of word New (words_of words.now) }
{
    match number_and_word(words) {
        Some((bits, factory)) => Some(Command::New(bits, factory)),
        None => None,
    }
}

// The name of a file, and nothing else.
#[tactic(auto, using(crate::proofs::LanguageLemmas::GrammarLemmas::name_and_more))]
fn one_name(words: &[u8]) -> Option<&str>
    ensures { (command : List ℕ → SaidCommand) → one name_of command (words_of words.now)
        ≡ option_map (λ n. command n.now) result }
{
    match first_word(words) {
        (word, None) => file_name(word),
        (_, Some(_)) => None,
    }
}

fn load_command(words: &[u8]) -> Option<Command<'_>>
    ensures { option_map said result ≡ one name_of Load (words_of words.now) }
{
    match one_name(words) {
        Some(name) => Some(Command::Load(name)),
        None => None,
    }
}

fn save_command(words: &[u8]) -> Option<Command<'_>>
    ensures { option_map said result ≡ one name_of Save (words_of words.now) }
{
    match one_name(words) {
        Some(name) => Some(Command::Save(name)),
        None => None,
    }
}

fn is_named(name: &[u8], text: &[u8]) -> bool
    ensures { result ≡ bytes_eq name.now text.now }
{
    name == text
}

// The change of this name with these words.
fn change_named<'l>(name: &[u8], words: &'l [u8]) -> Option<IndexChange<'l>>
    ensures { option_map said_change result ≡ named changes (name.now ∷ words_of words.now) }
{
    if is_named(name, b"add") {
        add_command(words)
    } else if is_named(name, b"addids") {
        add_ids_command(words)
    } else if is_named(name, b"centroids") {
        centroids_command(words)
    } else if is_named(name, b"nprobe") {
        Some(IndexChange::Nprobe(one_number(words)?))
    } else if is_named(name, b"nflip") {
        Some(IndexChange::Nflip(one_number(words)?))
    } else if is_named(name, b"maxcodes") {
        Some(IndexChange::MaxCodes(one_number(words)?))
    } else if is_named(name, b"directmap") {
        direct_map_command(words)
    } else if is_named(name, b"remove") {
        remove_command(words)
    } else if is_named(name, b"keep") {
        keep_command(words)
    } else if is_named(name, b"removerange") {
        remove_range_command(words)
    } else {
        None
    }
}

// The question of this name with these words.
fn question_named<'l>(name: &[u8], words: &'l [u8]) -> Option<IndexQuestion<'l>>
    ensures { option_map said_question result
        ≡ named questions (name.now ∷ words_of words.now) }
{
    if is_named(name, b"search") {
        search_command(words)
    } else if is_named(name, b"range") {
        range_command(words)
    } else if is_named(name, b"nearest") {
        nearest_command(words)
    } else if is_named(name, b"reconstruct") {
        Some(IndexQuestion::Reconstruct(one_number(words)?))
    } else {
        None
    }
}

// The question to the shards of this name with these words.
fn shard_question_named<'l>(name: &[u8], words: &'l [u8]) -> Option<ShardQuestion<'l>>
    ensures { option_map said_shard_question result
        ≡ named shard_questions (name.now ∷ words_of words.now) }
{
    if is_named(name, b"shardsearch") {
        shard_search_command(words)
    } else if is_named(name, b"shardrange") {
        shard_range_command(words)
    } else {
        None
    }
}

// The command of this name with these words. No two groups of commands share a name.
fn command_named<'l>(name: &[u8], words: &'l [u8]) -> Option<Command<'l>>
    ensures { option_map said result ≡ named grammar (name.now ∷ words_of words.now) }
{
    if is_named(name, b"new") {
        return new_command(words);
    }
    if is_named(name, b"load") {
        return load_command(words);
    }
    if is_named(name, b"save") {
        return save_command(words);
    }
    if let Some(change) = change_named(name, words) {
        return Some(Command::Change(change));
    }
    if let Some(question) = question_named(name, words) {
        return Some(Command::Ask(question));
    }
    match shard_question_named(name, words) {
        Some(question) => Some(Command::AskShards(question)),
        None => None,
    }
}

// The command of this name without further words.
fn command_alone<'l>(name: &[u8]) -> Option<Command<'l>>
    ensures { option_map said result ≡ named grammar (name.now ∷ []) }
{
    if is_named(name, b"shard") {
        Some(Command::Shard)
    } else if is_named(name, b"unshard") {
        Some(Command::Unshard)
    } else if is_named(name, b"show") {
        Some(Command::Ask(IndexQuestion::Show))
    } else {
        None
    }
}

// The command that the words of a line say.
pub fn read_command(line: &[u8]) -> Option<Command<'_>>
    ensures { option_map said result ≡ command_of (words_of line.now) }
{
    match first_word(line) {
        (name, Some(words)) => command_named(name, words),
        (name, None) => command_alone(name),
    }
}
