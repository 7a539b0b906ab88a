//! The terms of a document as numbers.
ghost use Rattle.std.specs.Prelude.{◌≡◌, ◌≢◌, ◌<◌, ◌≤◌, ◌+◌, ◌*◌, ◌^◌, ℕ, [], ◌∷◌, ◌++◌, length, slice_index, IfOk, OnOk, OnErr};
ghost use Rattle.sk_base.specs.Order.{ArePositions};
ghost use Rattle.sk_packed.specs.Packed.{numbered_at, positions_at_place, words_of, plain_words, told_words, heads_of, wdfs_of, are_plain, term_count, begin_at, end_at};

use sk_pieces::Copier;
use std::alloc::{AllocError, Global};
use std::marker::Model;

/// A term of a document: its number in the dictionary, its wdf, and where its positions end. They begin where those of
/// the term before end.
#[derive(Clone, Copy)]
struct PackedTerm {
    number: u32,
    wdf: u32,
    end: u32,
}

/// The terms of a document while they are gathered, with their positions in one vector. Contracts see them as a list,
/// each with its own positions.
#[derive(Drop)]
pub struct Packing {
    terms: Vec<PackedTerm>,
    positions: Vec<u32>,
}

impl Model for Packing {
    ghost use Rattle.std.specs.Prelude.{List};
    ghost use Rattle.sk_packed.specs.Packed.{NumberedTerm, cut_positions, IsPacked};

    ghost Value = { List NumberedTerm };

    ghost view = { λ p. cut_positions 0 p.terms.items p.positions.items };

    ghost invariant = { λ p. IsPacked p.terms.items p.positions.items };
}

impl Packing {
    /// No term, and room for so many terms and positions, and no more.
    pub fn with_capacity(
        alloc: Global,
        terms: usize,
        positions: usize,
    ) -> Result<Packing, AllocError>
        ensures { IfOk result (λ packing. packing ≡ []) }
    {
        Ok(Packing {
            terms: Vec::with_capacity(alloc, terms)?,
            positions: Vec::with_capacity(alloc, positions)?,
        })
    }

    /// Puts a term last. A number or a count of positions past 32 bits is want of memory.
    pub fn push(&mut self, number: usize, wdf: u32, positions: &[u32]) -> Result<(), AllocError>
        requires rising { ArePositions positions.now }
        ensures ok { OnOk result (self.new ≡ self.old ++ record { number = number; wdf = wdf; positions = positions.now } ∷ []) }
        ensures err { OnErr result (self.new ≡ self.old) }
    {
        let number = narrow(number)?;
        let end = narrow_sum(self.positions.len(), positions.len())?;
        self.terms.reserve(1)?;
        self.positions.extend_from_slice(positions)?;
        self.terms.push_reserved(PackedTerm { number, wdf, end });
        Ok(())
    }

    /// The terms, to be kept: in one vector that has no more room than they take.
    pub fn packed(&self, alloc: Global) -> Result<PackedTerms, AllocError>
        ensures { IfOk result (λ packed. packed ≡ self.now) }
    {
        let words = words_of(alloc, self.terms.as_slice(), self.positions.as_slice())?;
        Ok(PackedTerms { words })
    }
}

/// The terms of a document in one vector of numbers: for each where its positions begin in the vector, and its number in
/// the dictionary; the positions. If a wdf is not the number of the term's positions, the place where the positions end
/// stands before them, and the wdf of each term behind them. So they begin at an even place in the one case, and at an odd
/// one in the other. No term takes no memory.
#[derive(Drop)]
pub struct PackedTerms {
    words: Vec<u32>,
}

impl Model for PackedTerms {
    ghost use Rattle.std.specs.Prelude.{List};
    ghost use Rattle.sk_packed.specs.Packed.{NumberedTerm, frozen, IsFrozen};

    ghost Value = { List NumberedTerm };

    ghost view = { λ p. frozen p.words.items };

    ghost invariant = { λ p. IsFrozen p.words.items };
}

impl PackedTerms {
    /// No term. It takes no memory.
    pub fn new(alloc: Global) -> PackedTerms
        ensures { result ≡ [] }
    {
        PackedTerms {
            words: Vec::new(alloc),
        }
    }

    /// The same terms, in memory of their own.
    pub fn copy(&self, alloc: Global) -> Result<PackedTerms, AllocError>
        ensures { IfOk result (λ copy. copy ≡ self.now) }
    {
        let words = Vec::from_slice(alloc, self.words.as_slice())?;
        Ok(PackedTerms { words })
    }

    /// How many terms there are.
    pub fn len(&self) -> usize
        ensures value { result ≡ length self.now }
        ensures small { result < 2 ^ 32 }
    {
        count(self.words.as_slice())
    }

    /// How many numbers they take, with their positions.
    pub fn size(&self) -> usize
        ensures { length self.now ≤ result }
    {
        self.words.len()
    }

    /// The number of the i-th term.
    pub fn number(&self, i: usize) -> usize
        requires there { i < length self.now }
        ensures { result ≡ (numbered_at self.now i).number }
    {
        number(self.words.as_slice(), i)
    }

    /// The positions of the i-th term.
    pub fn positions(&self, i: usize) -> &[u32]
        requires there { i < length self.now }
        ensures value { result.now ≡ (numbered_at self.now i).positions }
        ensures rising { ArePositions result.now }
    {
        let words = self.words.as_slice();
        let from = begin(words, i);
        let to = end(words, i);
        &words[from..to]
    }

    /// The positions of the term at this place, none behind the last.
    pub fn positions_at(&self, place: usize) -> &[u32]
        ensures value { result.now ≡ positions_at_place self.now place }
        ensures rising { ArePositions result.now }
    {
        if place < self.len() {
            self.positions(place)
        } else {
            &[]
        }
    }

    /// A place of the number, sought from a place on to both sides, or the number of terms. The place may be any number.
    pub fn place_of(&self, number: usize, near: usize) -> usize
        ensures within { result ≤ length self.now }
        ensures none { result ≡ length self.now → (k : ℕ) → k < length self.now → (numbered_at self.now k).number ≢ number }
        ensures found { result < length self.now → (numbered_at self.now result).number ≡ number }
    {
        let count = self.len();
        if near < count && self.number(near) == number {
            return near;
        }
        let mut low = near.min(count);
        let mut high = low;
        'around: while low > 0 || high < count {
            if low > 0 {
                low -= 1;
                if self.number(low) == number {
                    return low;
                }
            }
            if high < count {
                if self.number(high) == number {
                    return high;
                }
                high += 1;
            }
        }
        count
    }
}

/// Copies the terms of documents.
#[derive(Drop)]
pub struct TermsCopier {
    pub alloc: Global,
}

impl Copier<PackedTerms> for TermsCopier {
    fn copy(&self, x: &PackedTerms) -> Result<PackedTerms, AllocError> {
        x.copy(self.alloc)
    }
}

/// How many terms the words have.
fn count(words: &[u32]) -> usize
    ensures value { result ≡ term_count words.now }
    ensures small { result < 2 ^ 32 }
{
    if words.is_empty() {
        0
    } else {
        words[0] as usize / 2
    }
}

/// The number of the i-th term.
fn number(words: &[u32], i: usize) -> usize
    requires { 2 * i + 1 < length words.now }
    ensures { result ≡ slice_index words.now (2 * i + 1) }
{
    words[2 * i + 1] as usize
}

/// Where the positions of the i-th term begin.
fn begin(words: &[u32], i: usize) -> usize
    requires { 2 * i < length words.now }
    ensures { result ≡ begin_at words.now i }
{
    words[2 * i] as usize
}

/// Where they end.
fn end(words: &[u32], i: usize) -> usize
    requires there { 2 * i + 1 < length words.now }
    requires heads { slice_index words.now 0 ≤ length words.now }
    ensures { result ≡ end_at words.now i }
{
    let next = 2 * i + 2;
    if next < words[0] as usize {
        words[next] as usize
    } else {
        words.len()
    }
}

/// The terms in one vector.
fn words_of(alloc: Global, terms: &[PackedTerm], positions: &[u32]) -> Result<Vec<u32>, AllocError>
    ensures { IfOk result (λ words. words.items ≡ words_of terms.now positions.now) }
{
    if terms.is_empty() {
        Ok(Vec::new(alloc))
    } else if are_plain(terms) {
        plain_words(alloc, terms, positions)
    } else {
        told_words(alloc, terms, positions)
    }
}

/// The heads and the positions, with no room for more.
fn plain_words(
    alloc: Global,
    terms: &[PackedTerm],
    positions: &[u32],
) -> Result<Vec<u32>, AllocError>
    ensures { IfOk result (λ words. words.items ≡ plain_words terms.now positions.now) }
{
    let first = narrow_sum(terms.len(), terms.len())? as usize;
    let room = first.saturating_add(positions.len());
    let mut words = Vec::with_capacity(alloc, room)?;
    push_heads(&mut words, first, terms)?;
    words.extend_from_slice(positions)?;
    Ok(words)
}

/// The heads, where the positions end, these, and the wdfs, with no room for more.
fn told_words(
    alloc: Global,
    terms: &[PackedTerm],
    positions: &[u32],
) -> Result<Vec<u32>, AllocError>
    ensures { IfOk result (λ words. words.items ≡ told_words terms.now positions.now) }
{
    let first = narrow_sum(terms.len(), terms.len())? as usize + 1;
    let end = narrow_sum(first, positions.len())?;
    let room = terms.len().saturating_add(end as usize);
    let mut words = Vec::with_capacity(alloc, room)?;
    push_heads(&mut words, first, terms)?;
    words.push(end)?;
    words.extend_from_slice(positions)?;
    push_wdfs(&mut words, terms)?;
    Ok(words)
}

/// Whether each wdf is the number of the term's positions.
fn are_plain(terms: &[PackedTerm]) -> bool
    ensures { result ≡ are_plain 0 terms.now }
{
    let mut from = 0;
    'terms: for one in terms {
        if one.wdf != one.end.saturating_sub(from) {
            return false;
        }
        from = one.end;
    }
    true
}

fn push_heads(words: &mut Vec<u32>, first: usize, terms: &[PackedTerm]) -> Result<(), AllocError>
    ensures { OnOk result (words.new.items ≡ words.old.items ++ heads_of first 0 terms.now) }
{
    let mut from = 0;
    'terms: for one in terms {
        words.push(narrow_sum(first, from as usize)?)?;
        words.push(one.number)?;
        from = one.end;
    }
    Ok(())
}

fn push_wdfs(words: &mut Vec<u32>, terms: &[PackedTerm]) -> Result<(), AllocError>
    ensures { OnOk result (words.new.items ≡ words.old.items ++ wdfs_of terms.now) }
{
    'terms: for one in terms {
        words.push(one.wdf)?;
    }
    Ok(())
}

/// The number, where 32 bits hold it.
fn narrow(number: usize) -> Result<u32, AllocError>
    ensures { IfOk result (λ n. n ≡ number) }
{
    match u32::try_from(number) {
        Ok(narrow) => Ok(narrow),
        Err(_) => Err(AllocError),
    }
}

/// The sum, where 32 bits hold it.
fn narrow_sum(a: usize, b: usize) -> Result<u32, AllocError>
    ensures { IfOk result (λ n. n ≡ a + b) }
{
    match a.checked_add(b) {
        Some(sum) => narrow(sum),
        None => Err(AllocError),
    }
}
