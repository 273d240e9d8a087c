ghost use Rattle.std.specs.Prelude.{◌≡◌, ◌/◌, ◌≤◌, [], IfOk, IsErrOf, IsTrue, OnOk, length, true};
ghost use Rattle.bcodes.specs.Ranges.{load_limit};
ghost use Rattle.bcodes.specs.Value.{empty_ivf, weight};
ghost use Rattle.file_parts.specs.declared.role.Role.TheVariants.{Quantizer};
ghost use Rattle.file_parts.specs.Fields.{bytes_field, no_check, repeated};
ghost use Rattle.file_parts.specs.Feeding.{GivesField, StaysOver, shelf_of};
ghost use Rattle.file_parts.specs.Heads.{IsHead};
ghost use Rattle.index_files.specs.FlatFormat.{flat_body, flat_inside, flat_value};

use crate::reading::flat::{PIECE, dim_of, read_code_bytes, read_piece};
use crate::reading::start::{Wanted, read_start};
use bcodes::{Dim, Plain};
use file_parts::{Feed, Head, PartError, Role};
use ivf_index::Ivf;
use outside::Shelf;
use std::alloc::Global;

/// The quantizer of an IVF with this header and so many lists, with its letters: an IVF that holds
/// its centroids alone.
#[tactic(auto, unfolding(crate::specs::FlatFormat::flat_inside), using(file_parts::proofs::Reading::run_then))]
pub fn read_quantizer<H: Shelf>(
    alloc: Global,
    feed: &mut Feed<'_, H>,
    head: Head,
    nlist: u32,
) -> Result<Ivf<Plain>, PartError>
    requires reading { IsTrue (H.is_reading (shelf_of feed.old)) }
    requires least { 1 ≤ nlist }
    requires most { nlist ≤ 4194304 }
    ensures gives { GivesField H.contents (λ ivf. flat_value ivf.dim ivf.centroids)
        (flat_inside (Quantizer head.dim nlist head.count head.flag))
        feed.old feed.new result }
    ensures shelf { StaysOver H.contents H.is_reading H.faults feed.old feed.new
        (IsErrOf result PartError.Failed) }
    ensures ivf { IfOk result (λ ivf. ivf
        ≡ record (empty_ivf head.dim nlist) { centroids = ivf.centroids }) }
    ensures head { IfOk result (λ ivf. IsHead (Quantizer head.dim nlist head.count head.flag)
        (record { dim = head.dim; count = length ivf.centroids; flag = true })) }
{
    read_start(feed, Wanted::Flat)?;
    let ivf = read_flat_quantizer(alloc, feed, head, nlist)?;
    Ok(ivf)
}

// What follows the letters of a quantizer.
#[tactic(auto, unfolding(crate::specs::FlatFormat::flat_body), using(file_parts::proofs::Reading::run_then))]
fn read_flat_quantizer<H: Shelf>(
    alloc: Global,
    feed: &mut Feed<'_, H>,
    head: Head,
    nlist: u32,
) -> Result<Ivf<Plain>, PartError>
    requires reading { IsTrue (H.is_reading (shelf_of feed.old)) }
    requires least { 1 ≤ nlist }
    requires most { nlist ≤ 4194304 }
    ensures gives { GivesField H.contents (λ ivf. flat_value ivf.dim ivf.centroids)
        (flat_body (Quantizer head.dim nlist head.count head.flag))
        feed.old feed.new result }
    ensures shelf { StaysOver H.contents H.is_reading H.faults feed.old feed.new
        (IsErrOf result PartError.Failed) }
    ensures ivf { IfOk result (λ ivf. ivf
        ≡ record (empty_ivf head.dim nlist) { centroids = ivf.centroids }) }
    ensures head { IfOk result (λ ivf. IsHead (Quantizer head.dim nlist head.count head.flag)
        (record { dim = head.dim; count = length ivf.centroids; flag = true })) }
{
    let role = Role::Quantizer {
        dim: head.dim,
        nlist: nlist as u64,
        rows: head.count,
        flag: head.flag,
    };
    let inner = feed.head(role)?;
    read_code_bytes(feed, inner)?;
    let ivf = read_centroids(alloc, feed, dim_of(inner.dim), nlist, inner.count)?;
    Ok(ivf)
}

// An index of so many lists with so many centroids.
fn read_centroids<H: Shelf>(
    alloc: Global,
    feed: &mut Feed<'_, H>,
    dim: Dim,
    nlist: u32,
    count: u64,
) -> Result<Ivf<Plain>, PartError>
    requires reading { IsTrue (H.is_reading (shelf_of feed.old)) }
    requires least { 1 ≤ nlist }
    requires most { nlist ≤ 4194304 }
    requires few { count ≤ nlist }
    requires load { weight dim.bits 0 0 count ≤ load_limit }
    ensures gives { GivesField H.contents (λ ivf. ivf.centroids)
        (repeated count (bytes_field (dim.bits / 8) no_check))
        feed.old feed.new result }
    ensures shelf { StaysOver H.contents H.is_reading H.faults feed.old feed.new
        (IsErrOf result PartError.Failed) }
    ensures ivf { IfOk result (λ ivf. ivf
        ≡ record (empty_ivf dim.bits nlist) { centroids = ivf.centroids }) }
    ensures count { IfOk result (λ ivf. length ivf.centroids ≡ count) }
{
    let mut ivf = Ivf::new(alloc, dim, nlist)?;
    give_centroids(alloc, feed, &mut ivf, dim, count)?;
    Ok(ivf)
}

// Gives so many centroids to an index, piece by piece.
fn give_centroids<H: Shelf>(
    alloc: Global,
    feed: &mut Feed<'_, H>,
    ivf: &mut Ivf<Plain>,
    dim: Dim,
    count: u64,
) -> Result<(), PartError>
    requires reading { IsTrue (H.is_reading (shelf_of feed.old)) }
    requires empty { ivf.old ≡ empty_ivf dim.bits ivf.old.nlist }
    requires few { count ≤ ivf.old.nlist }
    requires load { weight dim.bits 0 0 count ≤ load_limit }
    ensures gives { GivesField H.contents (λ _. ivf.new.centroids)
        (repeated count (bytes_field (dim.bits / 8) no_check))
        feed.old feed.new result }
    ensures shelf { StaysOver H.contents H.is_reading H.faults feed.old feed.new
        (IsErrOf result PartError.Failed) }
    ensures ivf { ivf.new ≡ record ivf.old { centroids = ivf.new.centroids } }
    ensures count { OnOk result (length ivf.new.centroids ≡ count) }
{
    let most = (PIECE / dim.bytes()) as u64;
    let mut done = 0;
    while done < count {
        let n = (count - done).min(most);
        let codes = read_piece(alloc, feed, dim, n as usize)?;
        ivf.give_all(&codes)?;
        done += n;
    }
    Ok(())
}
