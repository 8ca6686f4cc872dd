use annot_text::{print_notes, read_notes};
use sexp_text::{TextFault, TextWord};
use std::alloc::{AllocError, Global};
use std::test::Fail;
use wasm_values::{Bytes, LimitWord};

// The notes of a stack in private memory, of at most 1,000 numbers, in version 1.
const STACK: &[u8] = b"(notes 1 ; a count at 0, and below it 1,000 numbers
 (assert 1 ((<= 0 x0) (<= x0 1000)) ((cell 4 0 x0) (region 4 4000)))
 (initial ((cell 4 0 0) (region 4 4000))
  ((have (<= 0 0) (eval (<= 0 0) () ())) (have (<= 0 1000) (eval (<= 0 1000) () ())))
  (with (0) (0 1) (0 1)))
 (func 0 (at 1 (cell 0)) ; push
  (at 4 (skip (assert 1 ((<= 0 x0) (<= x0 1000)) ((cell 4 0 x0) (region 4 4000)))
   (take () (with (v2) (4 5) (0 1)))))
  (at 10
   (have (< v2 1000)
    (linear (<= v2 4294967295) ((h 5)) (1))
    (test (or (and (= (i32.lt_u v2 1000) 1) (< v2 1000)) (and (= (i32.lt_u v2 1000) 0) (not (< v2 1000)))) ((h 4) (s 0)) ())
    (cases (< v2 1000) ((s 1)) () ((right (< v2 1000) ((h 11)) ())) ((clash false ((h 10) (h 6)) ()) (explode (< v2 1000) ((s 0)) ()))))
   (split 1 (* 4 v2) 9 10) (split 2 4 11 12) (view 2) (readdr 2 (+ (i32.shl v2 2) 4) 15) (cell 2))
  (at 17 (forget 2) (merge 1 2 19) (relen 1 4000 21) (with ((i32.add v2 1)) (17 18) (0 1))))
 (func 1 (contract (pre (assert 0 () ())) (post (assert 0 ((<= (result) 4294967295)) ()))) ; pop
  (at 1 (cell 0))
  (at 5 (let (- v2 1)) (name (stack 0)) (put (stack 0) v4 8) (safe 4 5))
  (at 9 (trap (with (v2) (4 5) (0 1))))
  (at 12 (with (v4) (6 7) (0 1)))))";

// What is printed of them.
const PRINTED_STACK: &[u8] =
    b"(notes 2 (assert 1 ((<= 0 x0) (<= x0 1000)) ((cell 4 0 x0) (region 4 4000))) (initial ((cell 4 0 0) (region 4 4000)) ((have (<= 0 0) (eval (<= 0 0) () ())) (have (<= 0 1000) (eval (<= 0 1000) () ()))) (with (0) (0 1) (0 1))) (func 0 (at 1 (cell 0)) (at 4 (skip (assert 1 ((<= 0 x0) (<= x0 1000)) ((cell 4 0 x0) (region 4 4000))) (take () (with (v2) (4 5) (0 1))))) (at 10 (have (< v2 1000) (linear (<= v2 4294967295) ((h 5)) (1)) (test (or (and (= (i32.lt_u v2 1000) 1) (< v2 1000)) (and (= (i32.lt_u v2 1000) 0) (not (< v2 1000)))) ((h 4) (s 0)) ()) (cases (< v2 1000) ((s 1)) () ((right (< v2 1000) ((h 11)) ())) ((clash false ((h 10) (h 6)) ()) (explode (< v2 1000) ((s 0)) ())))) (split 1 (* 4 v2) 9 10) (split 2 4 11 12) (view 2) (readdr 2 (+ (i32.shl v2 2) 4) 15) (cell 2)) (at 17 (forget 2) (merge 1 2 19) (relen 1 4000 21) (with ((i32.add v2 1)) (17 18) (0 1)))) (func 1 (contract (pre (assert 0 () ())) (post (assert 0 ((<= (result) 4294967295)) ()))) (at 1 (cell 0)) (at 5 (let (- v2 1)) (name (stack 0)) (put (stack 0) v4 8) (safe 4 5)) (at 9 (trap (with (v2) (4 5) (0 1)))) (at 12 (with (v4) (6 7) (0 1)))))";

// Notes with rows, lemmas, and the other moves and uses.
const ROWS: &[u8] = b"(notes 2
 (lemma two 0 () (<= 1 2) (eval (<= 1 2) () ()))
 (lemma three 2 ((<= v0 v1)) (or (<= v0 v1) false) (orl (or (<= v0 v1) false) ((h 0)) ()))
 (assert 0 () ((row 4 0 2 (imp (<= (item) 1) (< (index) 2)))))
 (initial ((row 4 0 2 (<= (item) 1))) ((use two () ())) (with () () (0)) (take () (with () () (0))))
 (func 0
  (at 1 (use three (1 (+ 1 1)) (0)) (pick 0 1 2 3) (readdr 1 4 7) (cell 1))
  (at 2 (enrow 1 (<= (item) 1) 6) (join 0 1 8) (rows 2 8 true) (each 0 true (true true () ())) (relen 0 2 10) (with () () (0)))
  (at 3 (both (with () () (0)) (with () () ())))
  (at 4 (table (take () (with () () (0))) (take ((halve 0) (unite 0 1 2) (reval 0 v1 3)) (with (v0) () ()))))
  (at 5 (label (assert 0 () ())))
  (at 6 (loop (assert 0 () ()) (with () () ())))
  (at 7 (take () (with () () ())))
  (at 8 (safe 1))
  (at 9 (name (pages)) (let (sext 8 32 (low 16 (sgn 64 (- (local 1) (* (global 2) -5)))))))))";

// What is printed of them.
const PRINTED_ROWS: &[u8] =
    b"(notes 2 (lemma two 0 () (<= 1 2) (eval (<= 1 2) () ())) (lemma three 2 ((<= v0 v1)) (or (<= v0 v1) false) (orl (or (<= v0 v1) false) ((h 0)) ())) (assert 0 () ((row 4 0 2 (imp (<= (item) 1) (< (index) 2))))) (initial ((row 4 0 2 (<= (item) 1))) ((use two () ())) (with () () (0)) (take () (with () () (0)))) (func 0 (at 1 (use three (1 (+ 1 1)) (0)) (pick 0 1 2 3) (readdr 1 4 7) (cell 1)) (at 2 (enrow 1 (<= (item) 1) 6) (join 0 1 8) (rows 2 8 true) (each 0 true (true true () ())) (relen 0 2 10) (with () () (0))) (at 3 (both (with () () (0)) (with () () ()))) (at 4 (table (take () (with () () (0))) (take ((halve 0) (unite 0 1 2) (reval 0 v1 3)) (with (v0) () ())))) (at 5 (label (assert 0 () ()))) (at 6 (loop (assert 0 () ()) (with () () ()))) (at 7 (take () (with () () ()))) (at 8 (safe 1)) (at 9 (name (pages)) (let (sext 8 32 (low 16 (sgn 64 (- (local 1) (* (global 2) -5)))))))))";

// The smallest notes.
const SMALL: &[u8] = b"(notes 1 (assert 0 () ()) (initial () () (with () () ())))";

// What is printed of them.
const PRINTED_SMALL: &[u8] = b"(notes 2 (assert 0 () ()) (initial () () (with () () ())))";

// Texts that are refused, each with its place and word.
const REFUSED: [(&[u8], usize, TextWord); 24] = [
    (b"", 0, TextWord::End),
    (b"(notes 1", 8, TextWord::End),
    (b"(notes 1))", 9, TextWord::Close),
    (
        b"(note 1 (assert 0 () ()) (initial () () (with () () ())))",
        1,
        TextWord::Form,
    ),
    (
        b"(notes 3 (assert 0 () ()) (initial () () (with () () ())))",
        7,
        TextWord::Form,
    ),
    (b"(notes 1)", 8, TextWord::Form),
    (
        b"(notes 1 (assert 0 ()) (initial () () (with () () ())))",
        21,
        TextWord::Form,
    ),
    (
        b"(notes 1 (assert 0 () () ()) (initial () () (with () () ())))",
        25,
        TextWord::Form,
    ),
    (
        b"(notes 1 (assert 4294967296 () ()) (initial () () (with () () ())))",
        17,
        TextWord::Form,
    ),
    (
        b"(notes 1 (assert 0 ((= (sext 8 16 v0) 0)) ()) (initial () () (with () () ())))",
        31,
        TextWord::Form,
    ),
    (
        b"(notes 1 (assert 0 ((= (low 7 v0) 0)) ()) (initial () () (with () () ())))",
        28,
        TextWord::Form,
    ),
    (
        b"(notes 1 (assert 0 ((= v01 0)) ()) (initial () () (with () () ())))",
        23,
        TextWord::Form,
    ),
    (
        b"(notes 1 (assert 0 () ((cell 3 0 0))) (initial () () (with () () ())))",
        29,
        TextWord::Form,
    ),
    (
        b"(notes 1 (assert 0 () ((row 4 0 2 true))) (initial () () (with () () ())))",
        24,
        TextWord::Form,
    ),
    (
        b"(notes 1 (assert 0 ((= (item) 1)) ()) (initial () () (with () () ())))",
        24,
        TextWord::Form,
    ),
    (
        b"(notes 1 (lemma two 0 () true) (assert 0 () ()) (initial () () (with () () ())))",
        10,
        TextWord::Form,
    ),
    (
        b"(notes 1 (assert 0 () ()) (initial () ((use two () ())) (with () () ())))",
        40,
        TextWord::Form,
    ),
    (
        b"(notes 1 (assert 0 () ()) (initial () ((pick 0 1 2 3)) (with () () ())))",
        40,
        TextWord::Form,
    ),
    (
        b"(notes 1 (assert 0 () ()) (initial () ((each 0 true)) (with () () ())))",
        40,
        TextWord::Form,
    ),
    (
        b"(notes 1 (assert 0 () ()) (initial () () (with () () ()))(func 0 (at 0 (cell 0) (forget 0))))",
        80,
        TextWord::Form,
    ),
    (
        b"(notes 1 (assert 0 () ()) (initial () () (with () () ()))(func 0 (at 0 (safe 1 2 3))))",
        81,
        TextWord::Form,
    ),
    (
        b"(notes 2 (lemma two 0 () true) (lemma two 0 () false) (assert 0 () ()) (initial () () (with () () ())))",
        38,
        TextWord::Name,
    ),
    (
        b"(notes 2 (lemma = 0 () true) (assert 0 () ()) (initial () () (with () () ())))",
        16,
        TextWord::Form,
    ),
    (
        b"(notes 2 (lemma two 0 () true) (assert 0 () ()) (initial () ((use three () ())) (with () () ())))",
        66,
        TextWord::Name,
    ),
];

/// What is printed of the notes that a text spells.
fn printed(alloc: Global, text: &[u8]) -> Result<Bytes, TextFault> {
    let notes = read_notes(alloc, text)?;
    Ok(print_notes(alloc, &notes)?)
}

/// The fault of a text, if it is refused.
fn fault(alloc: Global, text: &[u8]) -> Option<TextFault> {
    read_notes(alloc, text).err()
}

/// Whether notes are printed so, and what is printed is read and printed again.
fn is_printed(alloc: Global, text: &[u8], wanted: &[u8]) -> Result<bool, TextFault> {
    let first = printed(alloc, text)?;
    let again = printed(alloc, first.as_slice())?;
    Ok(first.as_slice() == wanted && again.as_slice() == wanted)
}

#[test]
fn reads_and_prints_the_notes_of_a_stack(rt: HostRuntime) -> Result<(), Fail> {
    assert!(rt; is_printed(rt.alloc(), STACK, PRINTED_STACK)?);
    Ok(())
}

#[test]
fn reads_and_prints_rows_and_lemmas(rt: HostRuntime) -> Result<(), Fail> {
    assert!(rt; is_printed(rt.alloc(), ROWS, PRINTED_ROWS)?);
    assert!(rt; is_printed(rt.alloc(), SMALL, PRINTED_SMALL)?);
    Ok(())
}

#[test]
fn refuses(rt: HostRuntime) {
    for (text, at, word) in &REFUSED {
        let wanted = TextFault::Refused {
            at: *at,
            word: *word,
        };
        assert!(rt; fault(rt.alloc(), text) == Some(wanted), "{at}");
    }
}

/// Adds bytes so often.
fn push_times(out: &mut Vec<u8>, bytes: &[u8], times: usize) -> Result<(), AllocError> {
    for _ in 0..times {
        out.extend_from_slice(bytes)?;
    }
    Ok(())
}

/// Notes with so many sub-derivations in one another.
fn nested(alloc: Global, subs: usize) -> Result<Vec<u8>, AllocError> {
    let mut text = Vec::new(alloc);
    text.extend_from_slice(b"(notes 2 (lemma a 0 () true ")?;
    push_times(&mut text, b"(true true () () (", subs)?;
    push_times(&mut text, b"))", subs)?;
    text.extend_from_slice(b") (assert 0 () ()) (initial () () (with () () ())))")?;
    Ok(text)
}

#[test]
fn derivations_nest_to_the_limit(rt: HostRuntime) -> Result<(), Fail> {
    let deepest = nested(rt.alloc(), 50)?;
    assert!(rt; fault(rt.alloc(), deepest.as_slice()).is_none());
    let deeper = nested(rt.alloc(), 51)?;
    let limit = TextFault::Limit {
        at: 945,
        word: LimitWord::Derivation,
    };
    assert!(rt; fault(rt.alloc(), deeper.as_slice()) == Some(limit));
    Ok(())
}
