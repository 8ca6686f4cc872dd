// The words of notes: what a table has for a word.

ghost use Rattle.std.specs.Prelude.{◌≡◌, map};
ghost use Rattle.notes_grammar.specs.Words.{pick, head_named, rule_named, test_named, sum_named, bit_named, int_named, wide_named, op_named};

use bitvector_rules::Rule;
use notes_grammar::Head;
use wasm_values::{IntOp, NumOp};

static HEADS: [(&str, Head); 56] = [
    ("true", Head::True),
    ("false", Head::False),
    ("=", Head::Eq),
    ("<=", Head::Le),
    ("<", Head::Lt),
    ("not", Head::Not),
    ("and", Head::And),
    ("or", Head::Or),
    ("imp", Head::Imp),
    ("+", Head::Plus),
    ("-", Head::Minus),
    ("*", Head::Times),
    ("low", Head::Low),
    ("sext", Head::Sext),
    ("sgn", Head::Sgn),
    ("local", Head::Local),
    ("stack", Head::Stack),
    ("global", Head::Global),
    ("pages", Head::Pages),
    ("arg", Head::Arg),
    ("result", Head::Result),
    ("index", Head::Index),
    ("item", Head::Item),
    ("h", Head::Hyp),
    ("s", Head::Earlier),
    ("cell", Head::Cell),
    ("region", Head::Region),
    ("row", Head::Row),
    ("with", Head::With),
    ("safe", Head::Safe),
    ("trap", Head::Trap),
    ("take", Head::Take),
    ("table", Head::Table),
    ("both", Head::Both),
    ("label", Head::Label),
    ("loop", Head::Loop),
    ("skip", Head::Skip),
    ("have", Head::Have),
    ("name", Head::Name),
    ("let", Head::Let),
    ("put", Head::Put),
    ("split", Head::Split),
    ("merge", Head::Merge),
    ("forget", Head::Forget),
    ("view", Head::View),
    ("halve", Head::Halve),
    ("unite", Head::Unite),
    ("readdr", Head::Readdr),
    ("reval", Head::Reval),
    ("relen", Head::Relen),
    ("pick", Head::Pick),
    ("join", Head::Join),
    ("enrow", Head::Enrow),
    ("rows", Head::Rows),
    ("each", Head::Each),
    ("use", Head::Use),
];

static RULES: [(&str, Rule); 38] = [
    ("hyp", Rule::Hyp),
    ("true", Rule::True),
    ("and", Rule::And),
    ("left", Rule::Left),
    ("right", Rule::Right),
    ("orl", Rule::Orl),
    ("orr", Rule::Orr),
    ("cases", Rule::Cases),
    ("assume", Rule::Assume),
    ("apply", Rule::Apply),
    ("contra", Rule::Contra),
    ("refute", Rule::Refute),
    ("clash", Rule::Clash),
    ("explode", Rule::Explode),
    ("refl", Rule::Refl),
    ("rewrite", Rule::Rewrite),
    ("eval", Rule::Eval),
    ("linear", Rule::Linear),
    ("floor", Rule::Floor),
    ("ceil", Rule::Ceil),
    ("order", Rule::Order),
    ("notle", Rule::Notle),
    ("notlt", Rule::Notlt),
    ("mulpos", Rule::Mulpos),
    ("range", Rule::Range),
    ("add", Rule::Add),
    ("addwrap", Rule::Addwrap),
    ("sub", Rule::Sub),
    ("subwrap", Rule::Subwrap),
    ("mul", Rule::Mul),
    ("divu", Rule::Divu),
    ("divs", Rule::Divs),
    ("test", Rule::Test),
    ("tests", Rule::Tests),
    ("sgn", Rule::Sgn),
    ("shift", Rule::Shift),
    ("mask", Rule::Mask),
    ("widen", Rule::Widen),
];

static TESTS: [(&str, IntOp); 11] = [
    ("eqz", IntOp::Eqz),
    ("eq", IntOp::Eq),
    ("ne", IntOp::Ne),
    ("lt_s", IntOp::LtS),
    ("lt_u", IntOp::LtU),
    ("gt_s", IntOp::GtS),
    ("gt_u", IntOp::GtU),
    ("le_s", IntOp::LeS),
    ("le_u", IntOp::LeU),
    ("ge_s", IntOp::GeS),
    ("ge_u", IntOp::GeU),
];

static SUMS: [(&str, IntOp); 7] = [
    ("add", IntOp::Add),
    ("sub", IntOp::Sub),
    ("mul", IntOp::Mul),
    ("div_s", IntOp::DivS),
    ("div_u", IntOp::DivU),
    ("rem_s", IntOp::RemS),
    ("rem_u", IntOp::RemU),
];

static BITS: [(&str, IntOp); 11] = [
    ("clz", IntOp::Clz),
    ("ctz", IntOp::Ctz),
    ("popcnt", IntOp::Popcnt),
    ("and", IntOp::And),
    ("or", IntOp::Or),
    ("xor", IntOp::Xor),
    ("shl", IntOp::Shl),
    ("shr_s", IntOp::ShrS),
    ("shr_u", IntOp::ShrU),
    ("rotl", IntOp::Rotl),
    ("rotr", IntOp::Rotr),
];

/// What a table has for a word.
fn find<T: Copy>(table: &[(&str, T)], word: &[u8]) -> Option<T>
    ensures { result ≡ pick (map (λ e. (e.0.now, e.1)) table.now) word.now }
{
    for (name, value) in table {
        if word == name.as_bytes() {
            return Some(*value);
        }
    }
    None
}

/// The head that a word is.
#[tactic(auto, unfolding(notes_grammar::specs::Words::head_named))]
pub fn head_named(word: &[u8]) -> Option<Head>
    ensures { result ≡ head_named word.now }
{
    find(&HEADS, word)
}

/// The rule of a name.
#[tactic(auto, unfolding(notes_grammar::specs::Words::rule_named))]
pub fn rule_named(word: &[u8]) -> Option<Rule>
    ensures { result ≡ rule_named word.now }
{
    find(&RULES, word)
}

#[tactic(auto, unfolding(notes_grammar::specs::Words::test_named))]
fn test_named(word: &[u8]) -> Option<IntOp>
    ensures { result ≡ test_named word.now }
{
    find(&TESTS, word)
}

#[tactic(auto, unfolding(notes_grammar::specs::Words::sum_named))]
fn sum_named(word: &[u8]) -> Option<IntOp>
    ensures { result ≡ sum_named word.now }
{
    find(&SUMS, word)
}

#[tactic(auto, unfolding(notes_grammar::specs::Words::bit_named))]
fn bit_named(word: &[u8]) -> Option<IntOp>
    ensures { result ≡ bit_named word.now }
{
    find(&BITS, word)
}

/// The operator of a name, behind its width.
#[tactic(auto, unfolding(notes_grammar::specs::Words::int_named))]
fn int_named(word: &[u8]) -> Option<IntOp>
    ensures { result ≡ int_named word.now }
{
    match test_named(word) {
        Some(op) => Some(op),
        None => match sum_named(word) {
            Some(op) => Some(op),
            None => bit_named(word),
        },
    }
}

/// The operator of a name that has a width.
#[tactic(auto, unfolding(notes_grammar::specs::Words::wide_named))]
fn wide_named(word: &[u8]) -> Option<NumOp>
    ensures { result ≡ wide_named word.now }
{
    if word.len() < 4 {
        return None;
    }
    let width = &word[..4];
    let name = &word[4..];
    if width == "i32.".as_bytes() {
        return int_named(name).map(NumOp::W32);
    }
    if width == "i64.".as_bytes() {
        return int_named(name).map(NumOp::W64);
    }
    None
}

/// The operator of a name.
#[tactic(auto, unfolding(notes_grammar::specs::Words::op_named))]
pub fn op_named(word: &[u8]) -> Option<NumOp>
    ensures { result ≡ op_named word.now }
{
    if word == "i32.wrap_i64".as_bytes() {
        return Some(NumOp::Wrap);
    }
    if word == "i64.extend_i32_s".as_bytes() {
        return Some(NumOp::ExtendS);
    }
    if word == "i64.extend_i32_u".as_bytes() {
        return Some(NumOp::ExtendU);
    }
    wide_named(word)
}
