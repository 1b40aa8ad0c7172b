//! The cells of one row: its tags stand in the first of them, and rise.
//!
//! A change moves the tags after it. Where many changes may come to one row, it is gone through once for all of them:
//! what comes is put at the end while more than a few are owed, and what goes is taken out together.
ghost use Rattle.std.specs.Prelude.{◌≡◌, ℕ, ◌+◌, ◌<◌, ◌≤◌, ◌||◌, ◌&&◌, ◌==◌, length, take, true};
ghost use Rattle.std.specs.Ordering.{nat_cmp};
ghost use Rattle.std.specs.List.{insert};
ghost use Rattle.std.specs.List.Sorted.{IsSorted};
ghost use Rattle.lsys_reads.specs.Rows.{IsRising, has, few, Sweeps};

use lsys_level::Tag;

/// How many changes of a row are made one by one; where there may be more, the row is gone through once.
pub(crate) const FEW: usize = 256;

/// Puts the tag among the first `len`, where `owed` are still to come, and answers how many they are now.
///
/// While more than a few are owed they needn't rise.
#[inline]
pub(crate) fn put(cells: &mut [Tag], len: usize, owed: usize, tag: Tag) -> usize
    requires room { len + owed ≤ length cells.old }
    requires some { 0 < owed }
    requires rising { owed ≤ few → IsRising (take len cells.old) }
    ensures tags { (q : ℕ) → has (take result cells.new) q ≡ (tag == q || has (take len cells.old) q) }
    ensures rising { owed ≤ few + 1 → IsRising (take result cells.new) }
    ensures most { result ≤ len + 1 }
    ensures cells { length cells.new ≡ length cells.old }
{
    if owed <= FEW {
        return insert(cells, len, tag);
    }
    cells[len] = tag;
    if owed > FEW + 1 {
        return len + 1;
    }
    order(cells, len + 1)
}

/// Puts the tag in where it belongs.
#[inline]
fn insert(cells: &mut [Tag], len: usize, tag: Tag) -> usize
    requires room { len < length cells.old }
    requires rising { IsRising (take len cells.old) }
    ensures tags { (q : ℕ) → has (take result cells.new) q ≡ (tag == q || has (take len cells.old) q) }
    ensures rising { IsRising (take result cells.new) }
    ensures most { result ≤ len + 1 }
    ensures cells { length cells.new ≡ length cells.old }
{
    if len == 0 || cells[len - 1] < tag {
        cells[len] = tag;
        return len + 1;
    }
    insert_within(cells, len, tag)
}

/// Puts the tag in where it belongs, which may be before others.
#[inline(never)]
fn insert_within(cells: &mut [Tag], len: usize, tag: Tag) -> usize
    requires some { 0 < len }
    requires room { len < length cells.old }
    requires rising { IsRising (take len cells.old) }
    ensures tags { (q : ℕ) → has (take result cells.new) q ≡ (tag == q || has (take len cells.old) q) }
    ensures rising { IsRising (take result cells.new) }
    ensures most { result ≤ len + 1 }
    ensures cells { length cells.new ≡ length cells.old }
{
    if tag < cells[0] {
        return put_at(cells, len, 0, tag);
    }
    match cells[..len].binary_search(&tag) {
        Ok(_) => len,
        Err(place) => put_at(cells, len, place, tag),
    }
}

/// Puts the tag at this place among the first `len`: those from there on move by one.
fn put_at(cells: &mut [Tag], len: usize, place: usize, tag: Tag) -> usize
    requires room { len < length cells.old }
    requires place { place ≤ len }
    ensures tags { take result cells.new ≡ insert (take len cells.old) place tag }
    ensures more { result ≡ len + 1 }
    ensures cells { length cells.new ≡ length cells.old }
{
    cells[len] = tag;
    cells[place..len + 1].rotate_right(1);
    len + 1
}

/// Makes the first `len` tags rise, each once. Where they rise or fall already it costs a step for each.
fn order(cells: &mut [Tag], len: usize) -> usize
    requires room { len ≤ length cells.old }
    ensures tags { (q : ℕ) → has (take result cells.new) q ≡ has (take len cells.old) q }
    ensures rising { IsRising (take result cells.new) }
    ensures most { result ≤ len }
    ensures cells { length cells.new ≡ length cells.old }
{
    if is_rising(&cells[..len]) {
        return len;
    }
    cells[..len].reverse();
    if is_rising(&cells[..len]) {
        return len;
    }
    cells[..len].sort_unstable();
    dedup(cells, len)
}

/// Whether each tag is below the next.
fn is_rising(tags: &[Tag]) -> bool
    ensures { result ≡ true → IsRising tags.now }
{
    let mut at = 1;
    while at < tags.len() {
        if tags[at - 1] >= tags[at] {
            return false;
        }
        at += 1;
    }
    true
}

/// Keeps each of the first `len` tags once.
fn dedup(cells: &mut [Tag], len: usize) -> usize
    requires room { len ≤ length cells.old }
    requires sorted { IsSorted nat_cmp (take len cells.old) }
    ensures tags { (q : ℕ) → has (take result cells.new) q ≡ has (take len cells.old) q }
    ensures rising { IsRising (take result cells.new) }
    ensures most { result ≤ len }
    ensures cells { length cells.new ≡ length cells.old }
{
    let mut kept = 0;
    let mut at = 0;
    while at < len {
        let tag = cells[at];
        if kept == 0 || cells[kept - 1] < tag {
            cells[kept] = tag;
            kept += 1;
        }
        at += 1;
    }
    kept
}

/// Takes the tag out of the first `len`, if it is there, and where many of `gone` may be there, those too. It answers how
/// many are left.
pub(crate) fn sweep(cells: &mut [Tag], len: usize, tag: Tag, gone: &[Tag]) -> usize
    requires room { len ≤ length cells.old }
    requires rising { IsRising (take len cells.old) }
    ensures tags { Sweeps (take len cells.old) (take result cells.new) tag gone.now }
    ensures rising { IsRising (take result cells.new) }
    ensures most { result ≤ len }
    ensures cells { length cells.new ≡ length cells.old }
{
    let Ok(place) = cells[..len].binary_search(&tag) else {
        return len;
    };
    if gone.len() > FEW && len > FEW {
        return cut_all(cells, len, tag, gone);
    }
    cells[place..len].rotate_left(1);
    len - 1
}

/// Takes the tag out, and others of `gone`: all of them, where `gone` rises.
fn cut_all(cells: &mut [Tag], len: usize, tag: Tag, gone: &[Tag]) -> usize
    requires room { len ≤ length cells.old }
    requires rising { IsRising (take len cells.old) }
    ensures tags { Sweeps (take len cells.old) (take result cells.new) tag gone.now }
    ensures rising { IsRising (take result cells.new) }
    ensures most { result ≤ len }
    ensures cells { length cells.new ≡ length cells.old }
{
    let mut kept = 0;
    let mut at = 0;
    while at < len {
        let other = cells[at];
        if other != tag && !is_found(other, gone) {
            cells[kept] = other;
            kept += 1;
        }
        at += 1;
    }
    kept
}

/// Whether a search finds the tag among these: only if it is there, and surely where they rise.
fn is_found(tag: Tag, tags: &[Tag]) -> bool
    ensures { result ≡ true → has tags.now tag ≡ true }
{
    tags.binary_search(&tag).is_ok()
}
