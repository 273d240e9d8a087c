ghost use Rattle.std.specs.Prelude.{◌≡◌, ◌≢◌, ℕ, ◌^◌, ◌<◌, ◌≤◌, length, replicate, not, false};
ghost use Rattle.std.specs.Prelude.{true};
ghost use Rattle.std.specs.Prelude.{IfOk, slice_set, slice_index_or, vec_capacity};
ghost use Rattle.multi_hash.specs.Seen.{IsPaged, is_marked, is_set};

use bcodes::Want;
use std::alloc::Global;
use std::marker::Model;

// A page has the bits of this many positions in a row.
const PAGE_BITS: usize = 4096;

const WORD_BITS: usize = 64;

const PAGE_WORDS: usize = 64;

type Page = [u64; PAGE_WORDS];

/// Which positions a query has met, one bit for each, as Faiss's `unordered_set` in
/// `IndexBinaryMultiHash::range_search`. It is seen as one truth value a position.
///
/// The bits stand in pages, and a page is written when the first of its positions is met. So a
/// query that meets few of many codes does not pay for a bit of each.
#[derive(Drop)]
pub struct Seen {
    count: usize,
    // The page of each run of positions, where one of them was met.
    places: Vec<Option<u32>>,
    pages: Vec<Page>,
}

impl Model for Seen {
    ghost use Rattle.std.specs.Prelude.{Bool, List, vec_capacity};
    ghost use Rattle.multi_hash.specs.Seen.{marks_of, AreMarks};

    ghost Value = { List Bool };

    ghost view = { λ s. marks_of s.count s.places.items s.pages.items };

    ghost invariant = { λ s. AreMarks s.count s.places.items s.pages.items (vec_capacity s.pages) };
}

impl Seen {
    /// None of `count` positions. All room is taken here, so that no later call can fail.
    ///
    /// # Errors
    ///
    /// If memory runs out.
    pub fn new(alloc: Global, count: usize) -> Result<Seen, Want>
        requires { count ≤ 2 ^ 32 }
        ensures { IfOk result (λ seen. seen ≡ replicate count false) }
    {
        let runs = count.div_ceil(PAGE_BITS);
        let places = no_places(alloc, runs)?;
        let pages = Vec::with_capacity(alloc, runs)?;
        Ok(Seen {
            count,
            places,
            pages,
        })
    }

    /// Whether a position was met.
    pub fn contains(&self, position: usize) -> bool
        requires { position < length self.now }
        ensures { result ≡ slice_index_or self.now position false }
    {
        match self.places[position / PAGE_BITS] {
            None => false,
            Some(page) => has_bit(&self.pages[page as usize], position % PAGE_BITS),
        }
    }

    /// Marks a position as met, and tells whether it was not met before.
    pub fn insert(&mut self, position: usize) -> bool
        requires { position < length self.old }
        ensures fresh { result ≡ not (slice_index_or self.old position false) }
        ensures marked { self.new ≡ slice_set self.old position true }
    {
        let page = page_of(&mut self.places, &mut self.pages, position / PAGE_BITS);
        set_bit(&mut self.pages[page as usize], position % PAGE_BITS)
    }
}

fn no_places(alloc: Global, n: usize) -> Result<Vec<Option<u32>>, Want>
    ensures { IfOk result (λ places. places.items ≡ replicate n None) }
{
    let places = vec![in alloc; None; n]?;
    Ok(places)
}

// The page of a run of positions, which is made where the run has none.
fn page_of(places: &mut Vec<Option<u32>>, pages: &mut Vec<Page>, run: usize) -> u32
    requires exists { run < length places.old.items }
    requires paged { IsPaged places.old.items pages.old.items (vec_capacity pages.old) }
    ensures here { slice_index_or places.new.items run None ≡ Some result }
    ensures paged { IsPaged places.new.items pages.new.items (vec_capacity pages.new) }
    ensures runs { length places.new.items ≡ length places.old.items }
    ensures same { (i : ℕ) → is_marked places.new.items pages.new.items i
        ≡ is_marked places.old.items pages.old.items i }
{
    match places[run] {
        Some(page) => page,
        None => {
            let page = pages.len() as u32;
            pages.push_reserved([0; PAGE_WORDS]);
            places[run] = Some(page);
            page
        }
    }
}

fn has_bit(page: &Page, bit: usize) -> bool
    requires { bit < 4096 }
    ensures { result ≡ is_set page.now bit }
{
    page[bit / WORD_BITS] >> (bit % WORD_BITS) & 1 == 1
}

// Sets a bit, and tells whether it was not set before.
fn set_bit(page: &mut Page, bit: usize) -> bool
    requires { bit < 4096 }
    ensures fresh { result ≡ not (is_set page.old bit) }
    ensures set { is_set page.new bit ≡ true }
    ensures words { length page.new ≡ 64 }
    ensures others { (i : ℕ) → i ≢ bit → is_set page.new i ≡ is_set page.old i }
{
    let fresh = !has_bit(page, bit);
    page[bit / WORD_BITS] |= 1 << (bit % WORD_BITS);
    fresh
}
