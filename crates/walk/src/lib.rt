// Windows of a name: at most eight characters that stand in one number, 7 bits each, and are walked at once.
#![tactic(auto)]

ghost use Rattle.std.specs.Prelude.{◌≡◌, true, ◌/◌, ◌%◌, ◌^◌, ◌≤◌, ◌<◌};
ghost use Rattle.lexical.specs.Bytes.{chars_in};
ghost use Rattle.words.specs.Walking.{walk_shape, walk as walk_of, Fits};
ghost use Rattle.words.specs.Words.{words_in, Right};
ghost use Rattle.words.specs.declared.Shape.TheVariants.{Empty};
ghost use Rattle.walk.specs.Windows.{walk_word, settled};

use text::char_in;
use words::{Shape, State, Words, step_shape, step_word};

// ---- the word

// A state without its shape.
#[derive(Clone, Copy)]
pub struct Place {
    pub word: u8,
    pub matched: u8,
}

// The word behind the characters of x: one step for each, as long as there is a word.
fn walk_word(t: &[u16; Words::SIZE], word: u8, matched: u8, x: u64, bits: u32) -> Place
    requires { Right t.now × Fits (words_in t.now) (record { word = word; matched = matched; shape = Empty }) ×
        (bits ≤ 56) × (bits % 7 ≡ 0) × (x < 2 ^ bits) }
    ensures { (result.word ≡ (walk_word (words_in t.now) word matched (chars_in (bits / 7) x)).word) ×
        (result.matched ≡ (walk_word (words_in t.now) word matched (chars_in (bits / 7) x)).matched) }
{
    let mut w = word;
    let mut m = matched;
    let mut down = bits;
    // No count: down by a character's bits, and no further than there is a word.
    while 0 < down && w < Words::NONE {
        down = down - 7;
        w = step_word(t, w, m, char_in(x, down));
        m = m + 1;
    }
    Place {
        word: w,
        matched: m,
    }
}

// ---- the shape

fn is_settled(shape: Shape) -> bool
    ensures { result ≡ settled shape }
{
    !matches!(shape, Shape::Empty | Shape::Leading)
}

// Eight characters of 7 bits in one number: 1 in each.
const ONES: u64 = 0x2_0408_1020_4081;

// The shape behind the characters of x, from a settled one, all tested at once. Each pair of sums tells by a high bit
// whether the low bits of a character are in a range: those of letters, of the underscore and of digits.
fn shape_behind(shape: Shape, x: u64, bits: u32) -> Shape
    requires { (settled shape ≡ true) × (bits ≤ 56) × (bits % 7 ≡ 0) × (x < 2 ^ bits) }
    ensures { result ≡ walk_shape shape (chars_in (bits / 7) x) }
{
    let low = x & (63 * ONES);
    let five = x & (31 * ONES);
    let letters = (five + 63 * ONES) ^ (five + 37 * ONES);
    let scores = (low + 33 * ONES) ^ (low + 32 * ONES);
    let digits = (low + 16 * ONES) ^ (low + 6 * ONES);
    let good = (digits ^ (((letters | scores) ^ digits) & x)) & (64 * ONES);
    if good != (64 * ONES) >> (56 - bits) {
        return Shape::Broken;
    }
    let score: u64 = match shape {
        Shape::Empty | Shape::Leading | Shape::Plain => 0,
        Shape::Underscore => 64,
        Shape::Reserved => return Shape::Reserved,
        Shape::Broken => return Shape::Broken,
    };
    let u = (scores & x & (64 * ONES)) + (score << bits);
    if u & (u >> 7) != 0 {
        return Shape::Reserved;
    }
    if u % 128 != 0 {
        return Shape::Underscore;
    }
    Shape::Plain
}

// The shape behind the characters of x: step by step until it is settled, and then at once.
fn walk_shape(shape: Shape, x: u64, bits: u32) -> Shape
    requires { (bits ≤ 56) × (bits % 7 ≡ 0) × (x < 2 ^ bits) }
    ensures { result ≡ walk_shape shape (chars_in (bits / 7) x) }
{
    let one: u64 = 1;
    let mut q = shape;
    let mut low = bits;
    let mut rest = x;
    // No count: down by a character's bits, until the shape is settled.
    while 0 < low && !is_settled(q) {
        low = low - 7;
        q = step_shape(q, char_in(x, low));
        rest = x % (one << low);
    }
    if low == 0 {
        return q;
    }
    shape_behind(q, rest, low)
}

// The state behind the characters of x.
pub fn walk(t: &[u16; Words::SIZE], q: State, x: u64, bits: u32) -> State
    requires { Right t.now × Fits (words_in t.now) q × (bits ≤ 56) × (bits % 7 ≡ 0) × (x < 2 ^ bits) }
    ensures { result ≡ walk_of (words_in t.now) q (chars_in (bits / 7) x) }
{
    let p = walk_word(t, q.word, q.matched, x, bits);
    State {
        word: p.word,
        matched: p.matched,
        shape: walk_shape(q.shape, x, bits),
    }
}
