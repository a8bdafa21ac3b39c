// The name rule of documents 01 and 02 as a walk over the characters of a name: the table of words that are no names,
// the state, its steps and its verdict (specs/Walking.antt).
#![tactic(auto)]

ghost use Rattle.std.specs.Prelude.{◌≡◌, [], ◌∷◌, ◌-◌, ◌≤◌, ◌<◌, length, get_or};
ghost use Rattle.lexical.specs.Bytes.{within, same};
ghost use Rattle.lexical.specs.Names.{letter};
ghost use Rattle.words.specs.declared.Shape.TheVariants.{Empty};
ghost use Rattle.words.specs.Walking.{start as startState, step_shape, step_word, first_with, common, free};
ghost use Rattle.words.specs.Walking.{char_behind, compared_of};
ghost use Rattle.words.specs.Walking.{behind as behindOf, verdict as verdictOf};
ghost use Rattle.words.specs.Words.{words_in, added_in, Right};

mod keywords;

// ---- bytes

pub fn in_range(lo: u8, hi: u8, c: u8) -> bool
    ensures { result ≡ within lo hi c }
{
    lo <= c && c <= hi
}

// Whether two lists of bytes are the same.
#[tactic(auto, using(crate::proofs::ByteLoops::pointwise_same, std::proofs::lemmas::List::take_all))]
pub fn equal(a: &[u8], b: &[u8]) -> bool
    ensures { result ≡ same a.now b.now }
{
    a == b
}

fn is_letter(c: u8) -> bool
    ensures { result ≡ letter c }
{
    in_range(b'a', b'z', c) || in_range(b'A', b'Z', c)
}

// ---- the table of words

// The table of words, which a service makes once and lends: a constant is built anew in each call that looks into it.
#[derive(Clone, Copy)]
pub struct Words {
    pub count: u8,
}

impl Words {
    // Its entries.
    pub const SIZE: usize = 971;
    // The number behind that of the last word: no word.
    pub const NONE: u8 = 92;
    // Where its parts begin (src/keywords.rt, specs/Words.antt).
    const SHARED: usize = 92;

    const ADDED: usize = 184;

    const FIRST: usize = 276;

    const STARTS: usize = 302;

    const CHARS: usize = 394;

    pub fn table() -> [u16; Words::SIZE]
        ensures { Right result }
    {
        keywords::TABLE
    }
}

// ---- the state

// What the characters of a name up to here are.
#[derive(Clone, Copy)]
pub enum Shape {
    Empty,
    Leading,
    Plain,
    Underscore,
    Reserved,
    Broken,
}

// The number of the first word that begins with them, how many characters it was searched for, and the shape.
#[derive(Clone, Copy)]
pub struct State {
    pub word: u8,
    pub matched: u8,
    pub shape: Shape,
}

impl State {
    pub fn start() -> State
        ensures { result ≡ startState }
    {
        State {
            word: 0,
            matched: 0,
            shape: Shape::Empty,
        }
    }
}

// c behind other characters: a letter or digit leaves `plain`, an underscore `score`.
fn behind(plain: Shape, score: Shape, c: u8) -> Shape
    ensures { result ≡ behindOf plain score c }
{
    if is_letter(c) || in_range(b'0', b'9', c) {
        return plain;
    }
    if c == b'_' {
        return score;
    }
    Shape::Broken
}

// c as the first character.
fn begin(c: u8) -> Shape
    ensures { result ≡ step_shape Empty c }
{
    if is_letter(c) {
        return Shape::Plain;
    }
    if c == b'_' {
        return Shape::Leading;
    }
    Shape::Broken
}

fn follow(shape: Shape, c: u8) -> Shape
    ensures { result ≡ step_shape shape c }
{
    match shape {
        Shape::Empty => begin(c),
        Shape::Leading => {
            if in_range(b'A', b'Z', c) {
                return Shape::Reserved;
            }
            behind(Shape::Plain, Shape::Reserved, c)
        }
        Shape::Plain => behind(Shape::Plain, Shape::Underscore, c),
        Shape::Underscore => behind(Shape::Plain, Shape::Reserved, c),
        Shape::Reserved => behind(Shape::Reserved, Shape::Reserved, c),
        Shape::Broken => Shape::Broken,
    }
}

// The shape with one character more. The first is asked for apart: most names are stepped for it alone.
pub fn step_shape(shape: Shape, c: u8) -> Shape
    ensures { result ≡ step_shape shape c }
{
    match shape {
        Shape::Empty => begin(c),
        _ => follow(shape, c),
    }
}

// ---- words of the table

// How long a word is.
fn word_length(t: &[u16; Words::SIZE], w: usize) -> u16
    requires { Right t.now × (w < 92) }
    ensures { result ≡ length (get_or (words_in t.now) w []) }
{
    t[w]
}

// A character of a word.
fn word_char(t: &[u16; Words::SIZE], w: usize, k: usize) -> u16
    requires { Right t.now × (w < 92) × (k < length (get_or (words_in t.now) w [])) }
    ensures { result ≡ get_or (get_or (words_in t.now) w []) k 0 }
{
    let start = t[Words::STARTS + w] as usize;
    t[Words::CHARS + start + k]
}

// How many characters a word shares with the one before it.
fn shared_by(t: &[u16; Words::SIZE], w: usize) -> u16
    requires { Right t.now × (0 < w) × (w < 92) }
    ensures { result ≡ common (get_or (words_in t.now) (w - 1) []) (get_or (words_in t.now) w []) }
{
    t[Words::SHARED + w]
}

// What a word has behind its first characters, as many as matched: c, a larger character, or neither. std's Ordering
// has no variant for the last, which a smaller character and the end of the word share.
#[derive(Clone, Copy)]
pub enum Compared {
    Same,
    Larger,
    Other,
}

fn compare(t: &[u16; Words::SIZE], w: usize, matched: u8, c: u8) -> Compared
    requires { Right t.now × (w < 92) }
    ensures { result ≡ compared_of (char_behind (get_or (words_in t.now) w []) matched) c }
{
    if word_length(t, w) <= matched as u16 {
        return Compared::Other;
    }
    let d = word_char(t, w, matched as usize);
    let e = c as u16;
    if d == e {
        return Compared::Same;
    }
    if e < d {
        return Compared::Larger;
    }
    Compared::Other
}

// The first word from one on that has the same first characters, as many as matched, and then c.
fn seek(t: &[u16; Words::SIZE], word: u8, matched: u8, c: u8) -> u8
    requires { Right t.now × (word < 92) × (matched ≤ length (get_or (words_in t.now) word [])) }
    ensures { result ≡ step_word (words_in t.now) word matched c }
{
    for w in word as usize..92 {
        match compare(t, w, matched, c) {
            Compared::Same => return w as u8,
            Compared::Larger => return Words::NONE,
            Compared::Other => {}
        }
        let next = w + 1;
        if next < 92 && shared_by(t, next) < matched as u16 {
            return Words::NONE;
        }
    }
    Words::NONE
}

// The first word that begins with c.
fn first_word(t: &[u16; Words::SIZE], c: u8) -> u8
    requires { Right t.now }
    ensures { result ≡ first_with (c ∷ []) (words_in t.now) }
{
    if c < b'a' || b'z' < c {
        return Words::NONE;
    }
    t[Words::FIRST + (c - b'a') as usize] as u8
}

// The word with one character more.
pub fn step_word(t: &[u16; Words::SIZE], word: u8, matched: u8, c: u8) -> u8
    requires { Right t.now × (word < 92) × (matched ≤ length (get_or (words_in t.now) word [])) }
    ensures { result ≡ step_word (words_in t.now) word matched c }
{
    if matched == 0 && word == 0 {
        return first_word(t, c);
    }
    seek(t, word, matched, c)
}

// ---- the verdict

fn is_free(shape: Shape) -> bool
    ensures { result ≡ free shape }
{
    matches!(shape, Shape::Leading | Shape::Plain | Shape::Underscore)
}

// Whether the characters are a name of a sheet of that edition.
pub fn verdict(t: &[u16; Words::SIZE], q: State, edition: u32) -> bool
    requires { Right t.now }
    ensures { result ≡ verdictOf (words_in t.now) (added_in t.now) edition q }
{
    if !is_free(q.shape) {
        return false;
    }
    if Words::NONE <= q.word {
        return true;
    }
    let w = q.word as usize;
    if word_length(t, w) != q.matched as u16 {
        return true;
    }
    edition < 2 && t[Words::ADDED + w] != 0
}
