// What `show` tells of an index.
ghost use Rattle.std.specs.Prelude.{◌≡◌, ◌++◌, OnOk, IfOk};
ghost use Rattle.std.specs.List.{flat_map};
ghost use Rattle.faissb_core.specs.Reply.Text.{direct_line, head_text, key_lines, kind_lines};
ghost use Rattle.faissb_core.specs.Reply.Text.{limit_line, list_lines, number_line, shown_text};
ghost use Rattle.faissb_core.specs.Reply.Text.{spaced, trained_line};

use super::text::push_number;
use any_index::About;
use factory_text::{Kind, print};
use std::alloc::{AllocError, Global};

// A line of a name and a number.
fn push_line(text: &mut Vec<u8>, name: &[u8], number: u64) -> Result<(), AllocError>
    ensures { OnOk result (text.new.items ≡ text.old.items ++ number_line name.now number) }
{
    text.extend_from_slice(name)?;
    text.push(b' ')?;
    push_number(text, number)?;
    text.push(b'\n')?;
    Ok(())
}

// A line each for the factory text, the bits, the codes and whether the index is trained.
fn push_head(alloc: Global, about: &About, text: &mut Vec<u8>) -> Result<(), AllocError>
    ensures { OnOk result (text.new.items ≡ text.old.items ++ head_text about.now) }
{
    let factory = print(alloc, about.spec)?;
    text.extend_from_slice(b"index ")?;
    text.extend_from_slice(factory.as_str().as_bytes())?;
    text.push(b'\n')?;
    push_line(text, b"d", u64::from(about.bits))?;
    push_line(text, b"total", about.total)?;
    push_trained(about.trained, text)?;
    Ok(())
}

fn push_trained(trained: bool, text: &mut Vec<u8>) -> Result<(), AllocError>
    ensures { OnOk result (text.new.items ≡ text.old.items ++ trained_line trained) }
{
    let line: &[u8] = if trained {
        b"trained yes\n"
    } else {
        b"trained no\n"
    };
    text.extend_from_slice(line)?;
    Ok(())
}

// The lines of an IVF.
fn push_lists(nlist: u32, about: &About, text: &mut Vec<u8>) -> Result<(), AllocError>
    ensures { OnOk result (text.new.items ≡ text.old.items ++ list_lines nlist about.now) }
{
    push_line(text, b"nlist", u64::from(nlist))?;
    push_line(text, b"nprobe", about.nprobe)?;
    push_line(text, b"centroids", u64::from(about.held))?;
    push_limit(about.max_codes, text)?;
    push_direct(about.direct, text)?;
    Ok(())
}

fn push_limit(max_codes: u64, text: &mut Vec<u8>) -> Result<(), AllocError>
    ensures { OnOk result (text.new.items ≡ text.old.items ++ limit_line max_codes) }
{
    if max_codes > 0 {
        push_line(text, b"maxcodes", max_codes)?;
    }
    Ok(())
}

fn push_direct(direct: bool, text: &mut Vec<u8>) -> Result<(), AllocError>
    ensures { OnOk result (text.new.items ≡ text.old.items ++ direct_line direct) }
{
    if direct {
        text.extend_from_slice(b"directmap array\n")?;
    }
    Ok(())
}

// The lines of a Hash, and the last ones of a MultiHash.
fn push_keys(b: u32, about: &About, text: &mut Vec<u8>) -> Result<(), AllocError>
    ensures { OnOk result (text.new.items ≡ text.old.items ++ key_lines b about.now) }
{
    push_line(text, b"b", u64::from(b))?;
    push_line(text, b"nflip", u64::from(about.nflip))?;
    push_line(text, b"bound", about.bound)?;
    text.extend_from_slice(b"buckets")?;
    push_numbers(about.buckets.as_slice(), text)?;
    text.push(b'\n')?;
    Ok(())
}

// Numbers, each behind a space.
fn push_numbers(numbers: &[u64], text: &mut Vec<u8>) -> Result<(), AllocError>
    ensures { OnOk result (text.new.items ≡ text.old.items ++ flat_map spaced numbers.now) }
{
    for number in numbers {
        text.push(b' ')?;
        push_number(text, *number)?;
    }
    Ok(())
}

fn push_kind(about: &About, text: &mut Vec<u8>) -> Result<(), AllocError>
    ensures { OnOk result
        (text.new.items ≡ text.old.items ++ kind_lines about.now.spec.kind about.now) }
{
    match about.spec.kind {
        Kind::Flat => {}
        Kind::Ivf(nlist) => push_lists(nlist, about, text)?,
        Kind::Hash(b) => push_keys(b, about, text)?,
        Kind::Multi(nhash, b) => {
            push_line(text, b"nhash", u64::from(nhash))?;
            push_keys(b, about, text)?;
        }
    }
    Ok(())
}

pub fn shown(alloc: Global, about: &About) -> Result<Vec<u8>, AllocError>
    ensures { IfOk result (λ text. text.items ≡ shown_text about.now) }
{
    let mut text = Vec::new(alloc);
    push_head(alloc, about, &mut text)?;
    push_kind(about, &mut text)?;
    Ok(text)
}
