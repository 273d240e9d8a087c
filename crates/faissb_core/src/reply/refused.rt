// The line of a refusal.
ghost use Rattle.std.specs.Prelude.{◌≡◌, ◌∷◌, [], Err, IfOk, codes, string_bytes};
ghost use Rattle.std.specs.Cow.{cow_str_bytes};
ghost use Rattle.faissb_core.specs.Reply.Refusals.{factory_word, reason_word};
ghost use Rattle.faissb_core.specs.Reply.Text.{reply_text, text_line};
ghost use Rattle.faissb_core.specs.declared.reply.refusal.Refusal.TheVariants.{BucketBits};
ghost use Rattle.faissb_core.specs.declared.reply.refusal.Refusal.TheVariants.{Factory, File};

use super::factory_word::FactoryWord;
use super::refusal::Refusal;
use file_parts::{FileFault, Reason};
use multi_hash::Wide;
use std::alloc::{AllocError, Global};
use std::borrow::CowStr;

fn factory_line(word: FactoryWord) -> &'static str
    ensures { result.now ≡ reply_text (Err (Factory word)) }
{
    match word {
        FactoryWord::Unknown => "refused factory unknown\n",
        FactoryWord::Number => "refused factory number\n",
        FactoryWord::LeftOut => "refused factory leftout\n",
        FactoryWord::Nested => "refused factory nested\n",
        FactoryWord::Misfit => "refused factory misfit\n",
    }
}

fn reason_word(reason: Reason) -> &'static str
    ensures { result.now ≡ reason_word reason }
{
    match reason {
        Reason::Short => "short",
        Reason::Fourcc => "fourcc",
        Reason::LeftOut => "leftout",
        Reason::Dim => "dim",
        Reason::CodeSize => "codesize",
        Reason::Count => "count",
        Reason::Flag => "flag",
        Reason::Metric => "metric",
        Reason::Number => "number",
        Reason::VectorSize => "vectorsize",
        Reason::ListSizes => "listsizes",
        Reason::Bits => "bits",
        Reason::Padding => "padding",
        Reason::DuplicateKey => "duplicatekey",
        Reason::EmptyBucket => "emptybucket",
        Reason::WrongBucket => "wrongbucket",
        Reason::Positions => "positions",
        Reason::IdRange => "idrange",
        Reason::Load => "load",
        Reason::Trailing => "trailing",
        Reason::DirectMap => "directmap",
    }
}

fn fault_line(alloc: Global, fault: FileFault) -> Result<String, AllocError>
    ensures { IfOk result (λ line. string_bytes line ≡ reply_text (Err (File fault))) }
{
    let reason = reason_word(fault.reason);
    let line = format!(in alloc; "refused file {reason} at {}\n", fault.at)?;
    Ok(line)
}

fn wide_line(alloc: Global, wide: Wide) -> Result<String, AllocError>
    ensures { IfOk result (λ line. string_bytes line ≡ reply_text (Err (BucketBits wide))) }
{
    let line = format!(in alloc; "refused bucketbits {} {}\n", wide.map, wide.size)?;
    Ok(line)
}

/// The line of a refusal. Only one with numbers takes memory.
pub fn refused_line(alloc: Global, refusal: Refusal) -> Result<CowStr<'static, Global>, AllocError>
    ensures { IfOk result (λ line. cow_str_bytes line ≡ reply_text (Err refusal)) }
{
    let line = match refusal {
        Refusal::Long => "refused long\n",
        Refusal::Line => "refused line\n",
        Refusal::NoIndex => "refused none\n",
        Refusal::Dim => "refused dim\n",
        Refusal::Factory(word) => factory_line(word),
        Refusal::Code => "refused code\n",
        Refusal::Ids => "refused ids\n",
        Refusal::Kind => "refused kind\n",
        Refusal::Value => "refused value\n",
        Refusal::Full => "refused full\n",
        Refusal::Untrained => "refused untrained\n",
        Refusal::Load => "refused load\n",
        Refusal::NoFile => "refused nofile\n",
        Refusal::File(fault) => return Ok(CowStr::Owned(fault_line(alloc, fault)?)),
        Refusal::BucketBits(wide) => return Ok(CowStr::Owned(wide_line(alloc, wide)?)),
        Refusal::NoDirect => "refused nodirect\n",
        Refusal::Sequential => "refused sequential\n",
        Refusal::Mismatch => "refused mismatch\n",
    };
    Ok(CowStr::Borrowed(line))
}
