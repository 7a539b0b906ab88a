//! The order of the terms: where a term stands among the blocks, and how a new one is put there.
ghost use Rattle.std.specs.Prelude.{◌≡◌, ◌<◌, ◌≤◌, ◌+◌, true, false, [], length, take, drop, slice_get, ◌++◌, ◌∷◌, IfOk, OnOk, OnErr, MatchOption};
ghost use Rattle.std.specs.List.{concat, take_while};
ghost use Rattle.sk_dict.specs.Terms.{term_at, begins_with};
ghost use Rattle.sk_dict.specs.Searches.{passes};
ghost use Rattle.sk_dict.specs.Heads.{AreBytes, head_of};
ghost use Rattle.sk_dict.specs.Order.{Each, IsKnown, IsRising, IsSplit, IsPutIn};
ghost use Rattle.sk_dict.specs.Blocks.{in_block, front_of, rest_from, IsStep, IsCutInTwo, HasRoom};

use crate::block::{Block, FULL};
use crate::terms::{Terms, head_of};
use std::alloc::{AllocError, Global};

/// Where a full block is cut.
const HALF: usize = 256;

/// A place in the order of the terms: before the number in this offset of this block.
#[derive(Clone, Copy, Debug)]
pub struct Place {
    pub(crate) block: usize,
    pub(crate) offset: usize,
}

impl Place {
    /// Before the first term.
    pub const FIRST: Place = Place {
        block: 0,
        offset: 0,
    };
}

/// The last block whose first term is passed, or the first block.
fn find_block(terms: &Terms, blocks: &[Block], key: &[u8], head: u64, behind: bool) -> usize
    requires rising { IsRising terms.now (concat blocks.now) }
    requires known { Each (IsKnown terms.now) (concat blocks.now) }
    requires some { 0 < length blocks.now }
    requires bytes { AreBytes key.now }
    requires head { head ≡ head_of key.now }
    ensures there { result < length blocks.now }
    ensures front { Each (λ n. passes terms.now key.now behind n ≡ true) (concat (take result blocks.now)) }
    ensures back { Each (λ n. passes terms.now key.now behind n ≡ false) (concat (drop (result + 1) blocks.now)) }
{
    let mut low = 0;
    let mut high = blocks.len();
    'halves: while high - low > 1 {
        let middle = low + (high - low) / 2;
        let first = blocks[middle].numbers()[0];
        if terms.is_passed(first, key, head, behind) {
            low = middle;
        } else {
            high = middle;
        }
    }
    low
}

/// How many of the numbers have a term that is passed.
fn find_slot(terms: &Terms, numbers: &[usize], key: &[u8], head: u64, behind: bool) -> usize
    requires rising { IsRising terms.now numbers.now }
    requires known { Each (IsKnown terms.now) numbers.now }
    requires bytes { AreBytes key.now }
    requires head { head ≡ head_of key.now }
    ensures within { result ≤ length numbers.now }
    ensures front { Each (λ n. passes terms.now key.now behind n ≡ true) (take result numbers.now) }
    ensures back { Each (λ n. passes terms.now key.now behind n ≡ false) (drop result numbers.now) }
{
    let mut low = 0;
    let mut high = numbers.len();
    'halves: while low < high {
        let middle = low + (high - low) / 2;
        if terms.is_passed(numbers[middle], key, head, behind) {
            low = middle + 1;
        } else {
            high = middle;
        }
    }
    low
}

/// The place behind all terms that are passed.
pub(crate) fn find_place(terms: &Terms, blocks: &[Block], key: &[u8], behind: bool) -> Place
    requires rising { IsRising terms.now (concat blocks.now) }
    requires known { Each (IsKnown terms.now) (concat blocks.now) }
    requires some { 0 < length blocks.now }
    ensures there { result.block < length blocks.now }
    ensures within { result.offset ≤ length (in_block blocks.now result.block) }
    ensures split { IsSplit (passes terms.now key.now behind) (concat blocks.now)
        (front_of blocks.now result.block result.offset) (rest_from blocks.now result.block result.offset) }
{
    let head = head_of(key);
    let block = find_block(terms, blocks, key, head, behind);
    let offset = find_slot(terms, blocks[block].numbers(), key, head, behind);
    Place { block, offset }
}

/// The place behind the number, which stands at the one that is guessed, or is searched.
pub(crate) fn place_behind(terms: &Terms, blocks: &[Block], number: usize, guess: Place) -> Place
    requires rising { IsRising terms.now (concat blocks.now) }
    requires known { Each (IsKnown terms.now) (concat blocks.now) }
    requires some { 0 < length blocks.now }
    requires number { IsKnown terms.now number }
    ensures there { result.block < length blocks.now }
    ensures split { IsSplit (passes terms.now (term_at terms.now number) true) (concat blocks.now)
        (front_of blocks.now result.block result.offset) (rest_from blocks.now result.block result.offset) }
{
    if guess.block < blocks.len()
        && let Some((there, behind)) = step(blocks, guess)
        && there == number
    {
        return behind;
    }
    find_place(terms, blocks, terms.get(number), true)
}

/// The number at the place, and the place behind it, or none at the end.
pub(crate) fn step(blocks: &[Block], place: Place) -> Option<(usize, Place)>
    requires { place.block < length blocks.now }
    ensures { MatchOption result (rest_from blocks.now place.block place.offset ≡ [])
        (λ s. IsStep blocks.now place.block place.offset s.0 s.1.block s.1.offset) }
{
    let numbers = blocks[place.block].numbers();
    if place.offset < numbers.len() {
        let behind = Place {
            block: place.block,
            offset: place.offset + 1,
        };
        return Some((numbers[place.offset], behind));
    }
    let next = place.block + 1;
    if next < blocks.len() {
        let behind = Place {
            block: next,
            offset: 1,
        };
        return Some((blocks[next].numbers()[0], behind));
    }
    None
}

/// The number at the place, or none at the end.
pub(crate) fn number_at(blocks: &[Block], place: Place) -> Option<usize>
    requires { place.block < length blocks.now }
    ensures { result ≡ slice_get (rest_from blocks.now place.block place.offset) 0 }
{
    let (number, _) = step(blocks, place)?;
    Some(number)
}

/// The numbers from the place on whose terms begin with the prefix, up to the first that does not.
pub(crate) fn numbers_with(
    terms: &Terms,
    blocks: &[Block],
    prefix: &[u8],
    start: Place,
) -> Result<Vec<usize>, AllocError>
    requires there { start.block < length blocks.now }
    requires known { Each (IsKnown terms.now) (rest_from blocks.now start.block start.offset) }
    ensures { IfOk result (λ ns. ns.items
        ≡ take_while (λ n. begins_with (term_at terms.now n) prefix.now) (rest_from blocks.now start.block start.offset)) }
{
    let mut found = Vec::new(terms.allocator());
    let mut place = start;
    'walk: loop {
        let Some((number, behind)) = step(blocks, place) else {
            return Ok(found);
        };
        if !terms.get(number).starts_with(prefix) {
            return Ok(found);
        }
        found.push(number)?;
        place = behind;
    }
}

/// Cuts the block in two.
fn cut(blocks: &mut Vec<Block>, block: usize, half: usize) -> Result<(), AllocError>
    requires there { block < length blocks.old.items }
    requires some { 0 < half }
    requires within { half < length (in_block blocks.old.items block) }
    ensures ok { OnOk result (IsCutInTwo blocks.old.items blocks.new.items block half) }
    ensures err { OnErr result (blocks.new.items ≡ blocks.old.items) }
{
    let upper = blocks[block].upper(half)?;
    blocks.insert(block + 1, upper)?;
    blocks[block].truncate(half);
    Ok(())
}

/// The place again, in a block that has room: a full one is cut.
fn make_room(blocks: &mut Vec<Block>, place: Place) -> Result<Place, AllocError>
    requires there { place.block < length blocks.old.items }
    requires within { place.offset ≤ length (in_block blocks.old.items place.block) }
    ensures ok { IfOk result (λ p. HasRoom blocks.old.items blocks.new.items place.block place.offset p.block p.offset) }
    ensures same { concat blocks.new.items ≡ concat blocks.old.items }
{
    if blocks[place.block].numbers().len() < FULL {
        return Ok(place);
    }
    cut(blocks, place.block, HALF)?;
    if place.offset <= HALF {
        return Ok(place);
    }
    Ok(Place {
        block: place.block + 1,
        offset: place.offset - HALF,
    })
}

/// Puts the number into the block.
fn put_at(blocks: &mut Vec<Block>, place: Place, number: usize) -> Result<(), AllocError>
    requires there { place.block < length blocks.old.items }
    requires within { place.offset ≤ length (in_block blocks.old.items place.block) }
    requires room { length (in_block blocks.old.items place.block) < FULL }
    ensures ok { OnOk result (concat blocks.new.items ≡ front_of blocks.old.items place.block place.offset ++ number ∷ rest_from blocks.old.items place.block place.offset) }
    ensures err { OnErr result (concat blocks.new.items ≡ concat blocks.old.items) }
{
    blocks[place.block].insert(place.offset, number)?;
    Ok(())
}

/// Puts the number behind all terms that stand before the key.
pub(crate) fn put(
    blocks: &mut Vec<Block>,
    alloc: Global,
    terms: &Terms,
    key: &[u8],
    number: usize,
) -> Result<(), AllocError>
    requires rising { IsRising terms.now (concat blocks.old.items) }
    requires known { Each (IsKnown terms.now) (concat blocks.old.items) }
    ensures ok { OnOk result (IsPutIn (passes terms.now key.now false) number (concat blocks.old.items) (concat blocks.new.items)) }
    ensures err { OnErr result (concat blocks.new.items ≡ concat blocks.old.items) }
{
    if blocks.is_empty() {
        let first = Block::new(alloc, number)?;
        blocks.push(first)?;
        return Ok(());
    }
    let place = find_place(terms, blocks, key, false);
    let place = make_room(blocks, place)?;
    put_at(blocks, place, number)?;
    Ok(())
}
