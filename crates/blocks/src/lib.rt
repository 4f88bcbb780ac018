// What is known of the code points that a text has: what the memo of a search in the image tells is kept, then two loads are enough for each
// character. A block of 64 code points has a row of 64 cells, and the index says which; a cell is 16 times the length of the code point's
// sequence, and what the token rules know of it; 0: nothing. The first two rows are ASCII, with no length: so a block with row 0 says nothing.
// A sequence is known to be well-formed since one was decoded, by the rows of Table 3-7, when its block was learned; only its last byte may
// be another.
#![tactic(auto)]

ghost use Rattle.std.specs.Prelude.{◌≡◌, true, List, ℕ, ◌+◌, ◌-◌, ◌*◌, ◌%◌, ◌≤◌, ◌<◌, length};
ghost use Rattle.std.proofs.Math.Option.{none};
ghost use Rattle.image.specs.Check.{refusal_of};
ghost use Rattle.character.specs.Read.{MemoOf};
ghost use Rattle.blocks.specs.Blocks.{block_size, block_count, Fits, Learning, Blank, HeldAt, FoundAt, BlockLong, Meets, Put, RowPut, Learns};

use character::Memo;
use image::{ClassImage, START};

// The code points of a block.
const BLOCK: usize = 64;

// The blocks of an index for all code points below U+40000.
pub const BLOCKS: usize = 4096;

// The cells of ASCII.
const ASCII: usize = 128;

// A byte of the index tells one of so many rows.
const ROWS: usize = 256;

// The rows of ASCII, and of blocks that are all Start, whose row is the length of their sequences, come first; this one is free.
const FIRST_ROW: usize = 5;

// What a cell has more for each byte of a sequence.
const LENGTH: usize = 16;

// What a byte that follows others has beside its six bits of the code point.
const TRAIL: usize = 0x80;

// What the bytes that tell the block have beside their bits of it: the first of two,
const TWO_BYTES: usize = 0xC0;

// the first and second of three,
const THREE_BYTES: usize = 0xE0 * 64 + TRAIL;

// the second and third of four, where the first is 0xF0.
const FOUR_BYTES: usize = TRAIL * 64 + TRAIL;

// What is held of a sequence of this length by its block and its last byte; 0: nothing.
fn held(index: &[u8], cells: &[u8], block: usize, last: u8, len: usize) -> usize
    requires fits { Fits index.now cells.now × (block_count ≤ length index.now) }
    requires block_lt_block_count { (block < block_count) × (0x80 ≤ last) × (last < 0xC0) }
    ensures { HeldAt index.now cells.now block (last % block_size) len result }
{
    let row = index[block] as usize;
    let cell = cells[row * BLOCK + last as usize - TRAIL] as usize;
    if cell / LENGTH == len {
        cell % LENGTH
    } else {
        0
    }
}

// What is held of the sequence of LEN bytes at a place, 2, 3 or 4; 0: nothing. Of four, no block is held but of those that begin with F0.
// No Option: 0 is what no cell of a sequence has. `mark` looks it up as it does any other, with no test more, and `count` stops at it.
pub fn known<const LEN: usize>(index: &[u8], cells: &[u8], text: &[u8], at: usize) -> usize
    requires fits { Fits index.now cells.now × (block_count ≤ length index.now) }
    requires at_in_bounds { at + LEN ≤ length text.now }
    ensures { FoundAt index.now cells.now text.now at LEN result }
{
    match &text[at..at + LEN] {
        &[a @ 0xC0..=0xDF, b] if utf8::is_trail(b) => {
            let block = a as usize - TWO_BYTES;
            held(index, cells, block, b, 2)
        }
        &[a @ 0xE0..=0xEF, b, c] if utf8::is_trail(b) && utf8::is_trail(c) => {
            let block = a as usize * BLOCK + b as usize - THREE_BYTES;
            held(index, cells, block, c, 3)
        }
        &[0xF0, b, c, d] if utf8::is_trail(b) && utf8::is_trail(c) && utf8::is_trail(d) => {
            let block = b as usize * BLOCK + c as usize - FOUR_BYTES;
            held(index, cells, block, d, 4)
        }
        _ => 0,
    }
}

// Fills the rows of ASCII and, if they have room, those of Start. The first row that is free.
pub fn begin(image: &ClassImage, cells: &mut [u8]) -> usize
    requires in_bounds { (128 ≤ length cells.old) × Blank cells.old }
    ensures { ((index : List ℕ) → Blank index → Learning image.now index cells.new result) × (length cells.new ≡ length cells.old) }
{
    image.recall();
    character::fill_cells(image, 0, 0, &mut cells[..ASCII]);
    if FIRST_ROW * BLOCK <= cells.len() {
        for i in ASCII..FIRST_ROW * BLOCK {
            cells[i] = cell_of(i / BLOCK, START);
        }
    }
    FIRST_ROW
}

// Puts a cell at the places from `from` on, before `to`.
fn put_cells(cells: &mut [u8], from: usize, to: usize, cell: u8)
    requires { (from ≤ to) × (to ≤ length cells.old) }
    ensures { Put from to cell cells.old cells.new }
{
    cells[from..to].fill(cell);
}

// Where the code points from `first` on begin in the block at `base`.
fn part_begin(first: u32, base: usize) -> usize
    ensures { result ≡ first - base }
{
    (first as usize).saturating_sub(base)
}

// Where the code points to `last` end in it.
fn part_end(last: u32, base: usize) -> usize
    requires { base ≤ last }
    ensures { (result ≤ block_size) × (base + result ≤ last + 1) × ((j : ℕ) → j < block_size → base + j ≤ last → j < result) }
{
    BLOCK.min(last as usize - base + 1)
}

// Puts a cell for each code point of the memo in a block into a row.
fn put_row(cells: &mut [u8], row: usize, memo: Memo, block: usize, cell: u8)
    requires block_size_in_bounds { row * block_size + block_size ≤ length cells.old }
    requires meets { Meets memo block }
    ensures { RowPut memo block row cell cells.old cells.new }
{
    let base = block * BLOCK;
    let begin = row * BLOCK;
    let from = begin + part_begin(memo.first, base);
    let to = begin + part_end(memo.last, base);
    put_cells(cells, from, to, cell);
}

// Whether all code points of a block are in the memo, and are Start.
fn all_start(memo: Memo, block: usize) -> bool
    requires { Meets memo block }
    ensures { result ≡ true → (memo.first ≤ block * block_size) × (block * block_size + 63 ≤ memo.last) × (memo.traits % 16 ≡ 1) }
{
    let base = block * BLOCK;
    memo.first as usize <= base
        && base + BLOCK <= memo.last as usize + 1
        && character::token_traits(memo.traits) == START
}

// The cell of a sequence of this length, with these traits.
fn cell_of(len: usize, traits: u32) -> u8
    requires { len ≤ 4 }
    ensures { result ≡ len * 16 + traits % 16 }
{
    (len * LENGTH + character::token_traits(traits) as usize) as u8
}

// Keeps what the memo tells of a block, whose sequences have this length: in its row, in that of Start, or in the free row. The first row
// that is free then.
fn learn(
    index: &mut [u8],
    cells: &mut [u8],
    rows: usize,
    block: usize,
    len: usize,
    memo: Memo,
) -> usize
    requires fits { Fits index.old cells.old }
    requires block_in_bounds { (block < length index.old) × (2 ≤ len) × (len ≤ 4) × BlockLong block len × Meets memo block }
    ensures { Learns memo index.old cells.old rows index.new cells.new result }
{
    let cell = cell_of(len, memo.traits);
    let row = index[block] as usize;
    if FIRST_ROW <= row {
        put_row(cells, row, memo, block, cell);
        return rows;
    }
    // A row of Start is whole.
    if row != 0 || rows < FIRST_ROW || cells.len() < FIRST_ROW * BLOCK {
        return rows;
    }
    if all_start(memo, block) {
        index[block] = len as u8;
        return rows;
    }
    if ROWS <= rows || cells.len() < rows * BLOCK + BLOCK {
        return rows;
    }
    index[block] = rows as u8;
    put_row(cells, rows, memo, block, cell);
    rows + 1
}

// Keeps what the memo tells of the character at a place and its block. The first row that is free then. Index, cells and rows are no struct:
// the hot loops take the two slices, and the borrow checker doesn't cover `f(w.index, w.cells)` of two fields behind a reference (tried).
pub fn learn_at(
    index: &mut [u8],
    cells: &mut [u8],
    rows: usize,
    text: &[u8],
    at: usize,
    memo: Memo,
) -> usize
    requires fits { Fits index.old cells.old }
    requires at_in_bounds { at < length text.now }
    ensures by_index { (s : List ℕ) → refusal_of s ≡ none → MemoOf s memo → Learning s index.old cells.old rows → Learning s index.new cells.new result }
    ensures index_len_unchanged { (length index.new ≡ length index.old) × (length cells.new ≡ length cells.old) × Fits index.new cells.new }
{
    if index.len() < BLOCKS || text[at] < 0x80 {
        return rows;
    }
    let packed = utf8::decode_packed(text, at);
    let len = packed % 8;
    let code = packed / 8;
    let block = code / BLOCK;
    // Below 2 the text is ill-formed.
    if len < 2 || BLOCKS <= block {
        return rows;
    }
    if code < memo.first as usize || (memo.last as usize) < code {
        return rows;
    }
    learn(index, cells, rows, block, len, memo)
}
