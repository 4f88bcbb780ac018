// Counting a text's tokens under a checked image. The state says what is under way, as in `turns`, and what stands before it as far as a
// direction mark could part it: so the count knows at each token whether a mark is refused. Most characters cost only a few loads: what
// is known of a character comes from `blocks`, and what it does from the one before it. What is not known so is read by `look`.
#![tactic(auto)]

ghost use Rattle.std.specs.Prelude.{◌≡◌, List, ℕ, ◌+◌, ◌-◌, ◌≤◌, ◌<◌, length, get_or};
ghost use Rattle.std.proofs.Math.Option.{none};
ghost use Rattle.character.specs.Read.{MemoOf, TokenTableOf};
ghost use Rattle.blocks.specs.Blocks.{Cached, Learning, Learnt};
ghost use Rattle.grammar.specs.Counted.{count_through};
ghost use Rattle.count.specs.Counting.{CountingFrom, CountingAs, CountLook, Advanced, Looked, finished_by};
ghost use Rattle.count.specs.Turns.{count_states, count_pending_of, count_beside, state_beside, mark_beside, refused_beside};
ghost use Rattle.count.specs.Steps.{row_state};
ghost use Rattle.count.specs.Four.{SmallCells, FourSteps};
ghost use Rattle.count.specs.Rules.{rule_rows, rule_for};

use blocks::BLOCKS;
use character::{Character, Memo};
use image::ClassImage;
use refusal::Refusal;

// The state: nothing yet, 0; an identifier; a medial Syntax right after one, 2; blanks, 3; line ends, 4; a mark after an identifier;
// another Syntax, 6; another mark, 7; a mark after such a medial; a medial Syntax after a mark after an identifier; an identifier with a
// medial after it that waits: WAITING, and the state that the medial itself begins, 0 if none. States and turns are numbers, no enums: they
// are rows of RULES and what it holds, as `rule`, `row_of` and `Run` promise.
const NOTHING: u32 = 0;

const IDENTIFIER: u32 = 1;

const IDENTIFIER_MARK: u32 = 5;

const MEDIAL_MARK: u32 = 8;

const MARK_MEDIAL: u32 = 9;

pub const WAITING: u32 = 10;

// What a character does, by the state and its traits. No token is complete, since the one under way goes on or the first begins: 0.
// The one under way is complete, and another begins: BEGINS. A medial waits: WAITS. The one that waits is settled, and the character has
// another turn after that: SETTLES. Beside a mark: it goes on, STAYS; it begins, MARKS; a medial Syntax follows it, LINKS; an identifier
// begins that makes it refused, JOINS. No token begins: any other.
const BEGINS: usize = 1;

const WAITS: usize = 2;

const SETTLES: usize = 3;

const STAYS: usize = 4;

const MARKS: usize = 5;

const LINKS: usize = 6;

const JOINS: usize = 7;

// A step from here on is none. A number, since four steps are added and tested at once (`four_steps`).
pub const ODD: usize = 128;

// States that have no row are told by this number: a row of RULES tells it, as the definitions have it.
pub const NO_ROW: usize = 16;

// The rules as rows of sixteen numbers, one for each of a character's traits, or for each state:
// 0 to 15, how many tokens are complete with a character, by the traits of the one before it; 255: that is not known from these;
// 16 to 31, its turn, by the state;
// then the state after a character with which a token goes on or begins and no mark is beside it, after a medial that waits, and after a
// character that a step was told of; of each state a row of the steps, and traits of the token under way.
pub static RULES: [u8; 592] = *b"\
\xff\x00\xff\x00\x00\xff\x00\x00\xff\x00\xff\xff\xff\xff\xff\xff\
\xff\x00\x00\x01\x01\xff\x01\xff\x00\x00\x00\x00\x00\x00\x00\x00\
\xff\x00\x00\x01\x01\xff\x01\xff\x00\x00\x00\x00\x00\x00\x00\x00\
\xff\x01\xff\x01\x01\xff\x01\x01\xff\x01\xff\xff\xff\xff\xff\xff\
\xff\x01\xff\x01\x00\xff\x01\x01\xff\x01\xff\xff\xff\xff\xff\xff\
\xff\x00\xff\x00\x00\xff\x00\x00\xff\x00\xff\xff\xff\xff\xff\xff\
\xff\x01\xff\x01\x01\xff\x00\x01\xff\x01\xff\xff\xff\xff\xff\xff\
\xff\x01\xff\x01\x01\xff\x01\x00\xff\x01\xff\xff\xff\xff\xff\xff\
\xff\x00\x00\xff\xff\xff\xff\xff\xff\x00\x00\xff\xff\xff\xff\xff\
\xff\x00\x00\x01\x01\xff\x01\xff\x00\x00\x00\x00\x00\x00\x00\x00\
\xff\x00\x00\x01\x01\xff\x01\xff\x00\x00\x00\x00\x00\x00\x00\x00\
\xff\x00\x00\xff\xff\xff\xff\xff\xff\x00\x00\xff\xff\xff\xff\xff\
\xff\x00\x00\xff\xff\xff\xff\xff\xff\x00\x00\xff\xff\xff\xff\xff\
\xff\x00\x00\xff\xff\xff\xff\xff\xff\x00\x00\xff\xff\xff\xff\xff\
\xff\x00\x00\xff\xff\xff\xff\xff\xff\x00\x00\xff\xff\xff\xff\xff\
\xff\x00\x00\xff\xff\xff\xff\xff\xff\x00\x00\xff\xff\xff\xff\xff\
\x08\x00\x08\x00\x00\x08\x00\x00\x08\x00\x08\x00\x00\x08\x00\x00\
\x08\x00\x00\x01\x01\x08\x01\x05\x02\x00\x00\x02\x02\x02\x02\x02\
\x08\x01\x08\x01\x01\x08\x01\x05\x08\x01\x08\x01\x01\x08\x01\x05\
\x08\x01\x08\x01\x00\x08\x01\x01\x08\x01\x08\x01\x00\x08\x01\x01\
\x08\x01\x08\x01\x01\x08\x00\x01\x08\x01\x08\x01\x01\x08\x00\x01\
\x08\x07\x08\x01\x01\x08\x01\x04\x08\x07\x08\x06\x01\x08\x01\x04\
\x08\x01\x08\x01\x01\x08\x01\x01\x08\x01\x08\x01\x01\x08\x01\x01\
\x08\x01\x08\x01\x01\x08\x01\x00\x08\x01\x08\x01\x01\x08\x01\x00\
\x08\x07\x08\x01\x01\x08\x01\x04\x08\x07\x08\x01\x01\x08\x01\x04\
\x08\x07\x08\x01\x01\x08\x01\x01\x08\x07\x08\x01\x01\x08\x01\x01\
\x03\x00\x00\x03\x03\x03\x03\x03\x03\x00\x00\x03\x03\x03\x03\x03\
\x03\x00\x00\x03\x03\x03\x03\x03\x03\x00\x00\x03\x03\x03\x03\x03\
\x03\x00\x00\x03\x03\x03\x03\x03\x03\x00\x00\x03\x03\x03\x03\x03\
\x03\x00\x00\x03\x03\x03\x03\x03\x03\x00\x00\x03\x03\x03\x03\x03\
\x03\x00\x00\x03\x03\x03\x03\x03\x03\x00\x00\x03\x03\x03\x03\x03\
\x03\x00\x00\x03\x03\x03\x03\x03\x03\x00\x00\x03\x03\x03\x03\x03\
\x00\x01\x01\x06\x03\x00\x04\x07\x00\x01\x01\x06\x03\x00\x04\x07\
\x0a\x0b\x0a\x0c\x0d\x0a\x0e\x0f\x0a\x0b\x0a\x0c\x0d\x0a\x0e\x0f\
\x00\x01\x01\x06\x03\x00\x04\x07\x0a\x01\x01\x0c\x0d\x0a\x0e\x0f\
\x00\x01\x10\x04\x06\x10\x03\x07\x10\x10\x08\x10\x0b\x0c\x0e\x0f\
\x00\x01\x03\x04\x06\x07\x03\x07\x07\x03\x01\x01\x01\x01\x01\x01\
";

const TURNS: usize = 16;

const AFTER: usize = 32;

const WAITING_AFTER: usize = 33;

pub const ROW_STATES: usize = 34;

const STATE_ROWS: usize = 35;

pub const STATE_TRAITS: usize = 36;

// Number t of a row of the rules.
pub fn rule(row: usize, t: usize) -> usize
    requires { (row < rule_rows) × (t < 16) }
    ensures { result ≡ rule_for row t }
{
    RULES[row * 16 + t] as usize
}

// How many tokens are complete with a turn beside a mark.
fn count_beside(turn: usize) -> usize
    ensures { result ≡ count_beside turn }
{
    if turn == STAYS { 0 } else { 1 }
}

// The state after it.
fn state_beside(turn: usize, state: u32) -> u32
    ensures { result ≡ state_beside turn state }
{
    match turn {
        STAYS => state,
        LINKS => MARK_MEDIAL,
        JOINS => IDENTIFIER,
        _ if state == IDENTIFIER => IDENTIFIER_MARK,
        _ => MEDIAL_MARK,
    }
}

// Where the mark began that is beside it.
fn mark_beside(turn: usize, mark: usize, at: usize) -> usize
    ensures { result ≡ mark_beside turn mark at }
{
    if turn == MARKS { at } else { mark }
}

// The first mark that is refused after it; `none` stands for no mark.
fn refused_beside(turn: usize, refused: usize, mark: usize, none: usize) -> usize
    ensures { result ≡ refused_beside turn refused mark none }
{
    if turn == JOINS && refused == none {
        mark
    } else {
        refused
    }
}

// How many tokens are pending in a state, where nothing follows.
fn count_pending(state: u32) -> usize
    ensures { result ≡ count_pending_of state }
{
    match state {
        NOTHING => 0,
        IDENTIFIER..WAITING => 1,
        _ => 2,
    }
}

// How far a count has come: the place, the state, the tokens that are complete, where the medial stands that waits, where the last mark
// began that may be refused, the first that is, or the text's length (`CountingFrom` says it so), the first free row of the blocks, and the memo.
#[derive(Clone, Copy, Debug, PartialEq, Eq)]
pub struct Run {
    pub at: usize,
    pub state: u32,
    pub count: usize,
    pub mid: usize,
    pub mark: usize,
    pub refused: usize,
    pub rows: usize,
    pub memo: Memo,
}

// Where a count begins.
pub fn begin(text: &[u8], rows: usize) -> Run
    ensures { ((s : List ℕ) → CountingFrom s text.now result 0 × MemoOf s result.memo) × (result.rows ≡ rows) × (result.at ≡ 0) × (result.state ≡ 0) × (result.count ≡ 0) }
{
    Run {
        at: 0,
        state: NOTHING,
        count: 0,
        mid: 0,
        mark: 0,
        refused: text.len(),
        rows,
        memo: character::no_memo(),
    }
}

// What a character does that was read, where it settles nothing: `turn` is its own.
fn advance<'a>(
    image: &ClassImage,
    text: &'a [u8],
    run: Run,
    c: Character,
    turn: usize,
) -> Result<Run, Refusal>
    requires counting_as { CountingAs image.now text.now run }
    requires count_look { CountLook image.now text.now run.state run.at c.len c.traits turn }
    requires memo_of { MemoOf image.now c.memo × (turn ≡ 3 → ⊥) }
    ensures { Advanced image.now text.now run result }
{
    let traits = c.traits as usize;
    let next = Run {
        at: run.at + c.len,
        memo: c.memo,
        ..run
    };
    match turn {
        0..=BEGINS => Ok(Run {
            count: run.count + turn,
            state: rule(AFTER, traits) as u32,
            ..next
        }),
        WAITS => Ok(Run {
            state: rule(WAITING_AFTER, traits) as u32,
            mid: run.at,
            ..next
        }),
        SETTLES..=JOINS => {
            let mark = mark_beside(turn, run.mark, run.at);
            Ok(Run {
                count: run.count + count_beside(turn),
                state: state_beside(turn, run.state),
                mark,
                refused: refused_beside(turn, run.refused, mark, text.len()),
                ..next
            })
        }
        _ => Err(grammar::refuse_at(text, run.at)),
    }
}

// Reads one character, whatever it is and does.
pub fn look<'a>(
    image: &ClassImage,
    cells: &'a [u8],
    text: &'a [u8],
    run: Run,
) -> Result<Run, Refusal>
    requires token_table_of { TokenTableOf image.now cells.now }
    requires counting_as { CountingAs image.now text.now run }
    requires at_in_bounds { run.at < length text.now }
    ensures { Looked image.now text.now run result }
{
    image.recall();
    let c = character::read_for_tokens(image, cells, run.memo, text, run.at);
    if c.len == 0 {
        return Err(grammar::refuse_at(text, run.at));
    }
    let turn = rule(TURNS + run.state as usize, c.traits as usize);
    if turn != SETTLES {
        return advance(image, text, run, c, turn);
    }
    if run.state == WAITING {
        return Err(grammar::refuse_at(text, run.mid));
    }
    let next = Run {
        state: run.state - WAITING,
        count: run.count + 1,
        mark: run.mid,
        ..run
    };
    let turn = rule(TURNS + next.state as usize, c.traits as usize);
    advance(image, text, next, c, turn)
}

// At each place before this one four bytes stand.
pub fn known_end(n: usize) -> usize
    ensures { result ≡ n - 3 }
{
    n.saturating_sub(3)
}

// The row of the steps that leads on from a state; NO_ROW if there is none.
pub fn row_of(state: u32) -> usize
    requires { state < count_states }
    ensures { result < 16 → state ≡ row_state result }
{
    rule(STATE_ROWS, state as usize)
}

// What is known of an ASCII byte.
pub fn ascii_cell(cells: &[u8], a: u8) -> usize
    requires { SmallCells cells.now × (a < 0x80) }
    ensures { (result ≡ get_or cells.now a 0) × (result < 16) }
{
    cells[a as usize] as usize
}

// How many tokens are complete with four characters of ASCII at a place, after a row; ODD or more where they aren't ASCII, or it isn't known.
// Test by test: the hot loops were measured so, and a table in place of the tests took longer (docs/SPEED.md, "The loops that mark starts").
pub fn four_steps<'a>(cells: &'a [u8], text: &'a [u8], at: usize, row: usize) -> usize
    requires small_cells { SmallCells cells.now }
    requires row_bound { (row < 16) × (at + 4 ≤ length text.now) × (get_or text.now at 0 < 0x80) }
    ensures { result < 128 → FourSteps cells.now text.now at row result }
{
    let a = text[at];
    let b = text[at + 1];
    if 0x80 <= b {
        return ODD;
    }
    let c = text[at + 2];
    if 0x80 <= c {
        return ODD;
    }
    let d = text[at + 3];
    if 0x80 <= d {
        return ODD;
    }
    let first = ascii_cell(cells, a);
    let second = ascii_cell(cells, b);
    let third = ascii_cell(cells, c);
    let fourth = ascii_cell(cells, d);
    rule(row, first) + rule(first, second) + rule(second, third) + rule(third, fourth)
}

// Counts on as far as what characters do is known from the one before. The row is the traits of the last character, or of one that leads to
// the state at first; `last` is the place of a medial that waits.
fn run_count<'a>(
    image: &ClassImage,
    index: &'a [u8],
    cells: &'a [u8],
    text: &'a [u8],
    row: usize,
    run: Run,
) -> Run
    requires cached { Cached image.now index.now cells.now }
    requires row_bound { (row < 16) × (run.state ≡ row_state row) }
    requires counting_as { CountingAs image.now text.now run }
    ensures { CountingAs image.now text.now result × (run.at ≤ result.at) × (result.rows ≡ run.rows) }
{
    image.recall();
    let end = known_end(text.len());
    let mut at = run.at;
    let mut row = row;
    let mut count = run.count;
    let mut last = run.mid;
    // A step over a character. Each length has its own: with one for all, where the length is a variable, counting Adlam takes 1.45 of the
    // time and misses the goal of docs/SPEED.md. Traits of 0, which every row stops at, end the loop before the rule is looked up: so what
    // isn't known has no part in the path of what is (docs/SPEED.md, "Letters of four bytes").
    macro_rules! step {
        ($traits:expr, $len:expr) => {
            let traits = $traits;
            if traits == 0 {
                break;
            }
            let step = rule(row, traits);
            if ODD <= step {
                break;
            }
            count += step;
            row = traits;
            last = at;
            at += $len;
            continue;
        };
    }
    // `while`: each round goes on by the length of a character, or of four.
    while at < end {
        let a = text[at];
        if a < 0x80 {
            let four = four_steps(cells, text, at, row);
            if four < ODD {
                count += four;
                last = at + 3;
                let d = text[last];
                row = cells[d as usize] as usize;
                at += 4;
                continue;
            }
            step!(cells[a as usize] as usize, 1);
        }
        if index.len() < BLOCKS {
            break;
        }
        if a < 0xE0 {
            step!(blocks::known::<2>(index, cells, text, at), 2);
        }
        if a < 0xF0 {
            step!(blocks::known::<3>(index, cells, text, at), 3);
        }
        step!(blocks::known::<4>(index, cells, text, at), 4);
    }
    Run {
        at,
        state: rule(ROW_STATES, row) as u32,
        count,
        mid: last,
        ..run
    }
}

// The answer at the text's end. Two tests, each with its refusal: a `match` on the state would need the second as a guard.
fn finish(text: &[u8], run: Run) -> Result<usize, Refusal>
    requires { (run.mid ≤ length text.now) × (run.count ≤ length text.now) }
    ensures { result ≡ finished_by text.now run }
{
    if run.state == WAITING {
        return Err(grammar::refuse_at(text, run.mid));
    }
    if run.refused < text.len() {
        return Err(Refusal::Mark(run.refused));
    }
    Ok(run.count + count_pending(run.state))
}

// Counts on to the text's end.
pub fn count_on<'a>(
    image: &ClassImage,
    index: &mut [u8],
    cells: &mut [u8],
    text: &'a [u8],
    run: Run,
) -> Result<usize, Refusal>
    requires learning { Learning image.now index.old cells.old run.rows }
    requires counting_as { CountingAs image.now text.now run }
    ensures value { result ≡ count_through image.now text.now }
    ensures learnt { Learnt image.now index.new cells.new }
{
    image.recall();
    let mut run = run;
    // `while`: each round goes on as far as characters are known, and by one that is not.
    while run.at < text.len() {
        let row = row_of(run.state);
        if row < NO_ROW {
            run = run_count(image, index, cells, text, row, run);
            if text.len() <= run.at {
                break;
            }
        }
        let next = look(image, cells, text, run)?;
        let rows = blocks::learn_at(index, cells, run.rows, text, run.at, next.memo);
        run = Run { rows, ..next };
    }
    finish(text, run)
}
