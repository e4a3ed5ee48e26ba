ghost use Rattle.std.specs.Prelude.{◌≡◌, ℕ, ◌+◌, ◌-◌, ◌/◌, ◌%◌, ◌<◌, ◌≤◌, ◌⊎◌, ◌++◌, length, [], OnOk, OnErr};
ghost use Rattle.std.specs.Prelude.{IfOk, is_some, true, map, slice_index, Some, false};
ghost use Rattle.std.specs.List.{range_with_len};
ghost use Rattle.tape_types.specs.Bounds.{longest_file};
ghost use Rattle.plain_tree.specs.Cells.{written, resized, range_of, bytes_of};
ghost use Rattle.plain_tree.specs.Pages.{page_at, byte_at};

use std::alloc::{AllocError, Global};
use std::collections::BTreeMap;
use std::marker::Model;
use tape_types::{Bytes, NoMemory};

const PAGE: u64 = 4096;

type Page = Box<[u8; 4096]>;

type Pages = BTreeMap<u64, Page>;

/// A file as a length and pages of 4,096 bytes. A page that isn't there is all zeros.
#[derive(Drop)]
pub struct PagedFile {
    length: u64,
    pages: Pages,
    alloc: Global,
}

impl Model for PagedFile {
    ghost use Rattle.std.specs.Prelude.{◌≡◌, ◌≤◌, List, Option, ℕ};
    ghost use Rattle.std.specs.Coded.{coded_list, coded_option, coded_ℕ};
    ghost use Rattle.plain_tree.specs.Pages.{cells_of, byte_at};

    ghost Value = { List (Option ℕ) };

    ghost coded = { coded_list (coded_option coded_ℕ) };

    ghost view = { λ f. cells_of (λ b. b.value) f.pages.entries f.length };

    ghost invariant = { λ f. (i : ℕ) → f.length ≤ i → byte_at (λ b. b.value) f.pages.entries i ≡ 0 };
}

impl PagedFile {
    pub fn new(alloc: Global) -> PagedFile
        ensures { result ≡ [] }
    {
        PagedFile {
            length: 0,
            pages: BTreeMap::new(alloc),
            alloc,
        }
    }

    /// In bytes.
    pub fn len(&self) -> u64
        ensures { result ≡ length self.now }
    {
        self.length
    }

    /// At most `count` bytes from an offset on.
    pub fn read(&self, offset: u64, count: u64) -> Result<Bytes, NoMemory>
        ensures { IfOk result (λ bytes. bytes_of (range_of self.now offset count) ≡ Some bytes) }
    {
        let from = offset.min(self.length);
        let size = count.min(self.length - from);
        let bytes = bytes_between(&self.pages, self.alloc, from, from + size)?;
        Ok(Bytes::from_vec(bytes))
    }

    /// Puts bytes at an offset, with zeros in a gap. Without memory nothing changes.
    pub fn write(&mut self, offset: u64, bytes: &[u8]) -> Result<(), NoMemory>
        requires some { 0 < length bytes.now }
        requires fits { offset + length bytes.now ≤ longest_file }
        ensures ok { OnOk result (self.new ≡ written self.old offset (map Some bytes.now)) }
        ensures err { OnErr result (self.new ≡ self.old) }
    {
        let end = offset + bytes.len() as u64;
        add_pages(&mut self.pages, self.alloc, offset / PAGE, (end - 1) / PAGE)?;
        put_bytes(&mut self.pages, offset, bytes);
        self.length = self.length.max(end);
        Ok(())
    }

    /// Cuts the file, or makes it longer by zeros. Takes no memory.
    pub fn resize(&mut self, length: u64)
        ensures { self.new ≡ resized self.old length }
    {
        if length < self.length {
            drop_pages(&mut self.pages, length.div_ceil(PAGE));
            clear_tail(&mut self.pages, length);
        }
        self.length = length;
    }
}

/// The bytes from one offset up to another.
fn bytes_between(pages: &Pages, alloc: Global, from: u64, end: u64) -> Result<Vec<u8>, AllocError>
    requires { from ≤ end }
    ensures { IfOk result (λ bytes. bytes.items
        ≡ map (byte_at (λ b. b.value) pages.now.entries) (range_with_len from (end - from))) }
{
    let mut bytes = Vec::with_capacity(alloc, (end - from) as usize)?;
    let mut at = from;
    while at < end {
        let count = (PAGE - at % PAGE).min(end - at);
        append_piece(&mut bytes, pages, at, count)?;
        at += count;
    }
    Ok(bytes)
}

/// Appends bytes that lie in one page.
fn append_piece(bytes: &mut Vec<u8>, pages: &Pages, at: u64, count: u64) -> Result<(), AllocError>
    requires within { at % 4096 + count ≤ 4096 }
    ensures { OnOk result (bytes.new.items
        ≡ bytes.old.items ++ map (byte_at (λ b. b.value) pages.now.entries) (range_with_len at count)) }
{
    let size = count as usize;
    match pages.get(&(at / PAGE)) {
        Some(page) => append_part(bytes, page, (at % PAGE) as usize, size),
        None => append_zeros(bytes, size),
    }
}

fn append_part(
    bytes: &mut Vec<u8>,
    page: &[u8; 4096],
    from: usize,
    size: usize,
) -> Result<(), AllocError>
    requires { from + size ≤ 4096 }
    ensures { OnOk result (bytes.new.items
        ≡ bytes.old.items ++ map (λ i. slice_index page.now i) (range_with_len from size)) }
{
    bytes.extend_from_slice(&page[from..from + size])
}

fn append_zeros(bytes: &mut Vec<u8>, size: usize) -> Result<(), AllocError>
    requires { size ≤ 4096 }
    ensures { OnOk result (bytes.new.items ≡ bytes.old.items ++ map (λ i. 0) (range_with_len 0 size)) }
{
    let zeros = [0u8; 4096];
    bytes.extend_from_slice(&zeros[..size])
}

/// Adds pages of zeros where there are none, which changes no byte.
fn add_pages(pages: &mut Pages, alloc: Global, first: u64, last: u64) -> Result<(), AllocError>
    requires { last < longest_file }
    ensures same { (i : ℕ) → byte_at (λ b. b.value) pages.new.entries i ≡ byte_at (λ b. b.value) pages.old.entries i }
    ensures there { OnOk result ((q : ℕ) → first ≤ q → q ≤ last → is_some (page_at pages.new.entries q) ≡ true) }
{
    for number in first..last + 1 {
        add_page(pages, alloc, number)?;
    }
    Ok(())
}

fn add_page(pages: &mut Pages, alloc: Global, number: u64) -> Result<(), AllocError>
    ensures same { (i : ℕ) → byte_at (λ b. b.value) pages.new.entries i ≡ byte_at (λ b. b.value) pages.old.entries i }
    ensures there { OnOk result (is_some (page_at pages.new.entries number) ≡ true) }
    ensures kept { (q : ℕ) → is_some (page_at pages.old.entries q) ≡ true
        → is_some (page_at pages.new.entries q) ≡ true }
{
    if pages.contains_key(&number) {
        return Ok(());
    }
    let page = Box::new(alloc, [0u8; 4096])?;
    pages.insert(number, page)?;
    Ok(())
}

/// Puts bytes into pages that are there.
fn put_bytes(pages: &mut Pages, offset: u64, bytes: &[u8])
    requires some { 0 < length bytes.now }
    requires fits { offset + length bytes.now ≤ longest_file }
    requires there { (q : ℕ) → offset / 4096 ≤ q → q ≤ (offset + length bytes.now - 1) / 4096
        → is_some (page_at pages.old.entries q) ≡ true }
    ensures inside { (k : ℕ) → k < length bytes.now
        → byte_at (λ b. b.value) pages.new.entries (offset + k) ≡ slice_index bytes.now k }
    ensures below { (i : ℕ) → i < offset
        → byte_at (λ b. b.value) pages.new.entries i ≡ byte_at (λ b. b.value) pages.old.entries i }
    ensures above { (i : ℕ) → offset + length bytes.now ≤ i
        → byte_at (λ b. b.value) pages.new.entries i ≡ byte_at (λ b. b.value) pages.old.entries i }
{
    let mut done = 0;
    while done < bytes.len() {
        let at = offset + done as u64;
        let count = ((PAGE - at % PAGE) as usize).min(bytes.len() - done);
        put_piece(pages, at, &bytes[done..done + count]);
        done += count;
    }
}

/// Puts bytes into one page that is there.
fn put_piece(pages: &mut Pages, at: u64, piece: &[u8])
    requires there { is_some (page_at pages.old.entries (at / 4096)) ≡ true }
    requires within { at % 4096 + length piece.now ≤ 4096 }
    ensures inside { (k : ℕ) → k < length piece.now
        → byte_at (λ b. b.value) pages.new.entries (at + k) ≡ slice_index piece.now k }
    ensures others { (i : ℕ) → (i < at) ⊎ (at + length piece.now ≤ i)
        → byte_at (λ b. b.value) pages.new.entries i ≡ byte_at (λ b. b.value) pages.old.entries i }
    ensures kept { (q : ℕ) → is_some (page_at pages.old.entries q) ≡ true
        → is_some (page_at pages.new.entries q) ≡ true }
{
    if let Some(page) = pages.get_mut(&(at / PAGE)) {
        put_part(page, (at % PAGE) as usize, piece);
    }
}

fn put_part(page: &mut [u8; 4096], from: usize, piece: &[u8])
    requires { from + length piece.now ≤ 4096 }
    ensures inside { (k : ℕ) → k < length piece.now → slice_index page.new (from + k) ≡ slice_index piece.now k }
    ensures others { (k : ℕ) → (k < from) ⊎ (from + length piece.now ≤ k)
        → slice_index page.new k ≡ slice_index page.old k }
{
    page[from..from + piece.len()].copy_from_slice(piece);
}

/// Takes out the pages from a number on.
fn drop_pages(pages: &mut Pages, first: u64)
    ensures kept { (q : ℕ) → q < first → page_at pages.new.entries q ≡ page_at pages.old.entries q }
    ensures gone { (q : ℕ) → first ≤ q → is_some (page_at pages.new.entries q) ≡ false }
{
    pages.retain(|number, _| *number < first);
}

/// Clears the bytes of the page of an offset, from that offset on.
fn clear_tail(pages: &mut Pages, offset: u64)
    ensures tail { (i : ℕ) → offset ≤ i → i / 4096 ≡ offset / 4096 → byte_at (λ b. b.value) pages.new.entries i ≡ 0 }
    ensures below { (i : ℕ) → i < offset
        → byte_at (λ b. b.value) pages.new.entries i ≡ byte_at (λ b. b.value) pages.old.entries i }
    ensures others { (i : ℕ) → (i / 4096 ≡ offset / 4096 → ⊥)
        → byte_at (λ b. b.value) pages.new.entries i ≡ byte_at (λ b. b.value) pages.old.entries i }
{
    if let Some(page) = pages.get_mut(&(offset / PAGE)) {
        clear_part(page, (offset % PAGE) as usize);
    }
}

fn clear_part(page: &mut [u8; 4096], from: usize)
    requires { from < 4096 }
    ensures tail { (k : ℕ) → from ≤ k → slice_index page.new k ≡ 0 }
    ensures below { (k : ℕ) → k < from → slice_index page.new k ≡ slice_index page.old k }
{
    page[from..].fill(0);
}
