use sexp_text::{TextFault, TextWord, print_sexp, read_sexp};
use std::alloc::{AllocError, Global};
use std::test::Fail;
use wasm_values::LimitWord;

// Texts, and what is printed of their values.
const READ: [(&[u8], &[u8]); 8] = [
    (b"( a  1 )", b"(a 1)"),
    (b"()", b"()"),
    (b"\r\n\t(+ - * = < <= a_9.z) ", b"(+ - * = < <= a_9.z)"),
    (
        b"(0 -1 1329227995784915872903807060280344575)",
        b"(0 -1 1329227995784915872903807060280344575)",
    ),
    (b"(1(2)3)", b"(1 (2) 3)"),
    (b"(a\"b\"\"c\"1\"\")", b"(a \"b\" \"c\" 1 \"\")"),
    (
        b"(\"\\22\\5c\\0a\\c3\\a9 ~\")",
        b"(\"\\22\\5c\\0a\\c3\\a9 ~\")",
    ),
    (b";) \xff\r\n(a;(\n1);", b"(a 1)"),
];

// Texts that are refused, each with its place and word.
const REFUSED: [(&[u8], usize, TextWord); 45] = [
    (b"", 0, TextWord::End),
    (b"(a", 2, TextWord::End),
    (b"(notes 1", 8, TextWord::End),
    (b"(;)\r", 4, TextWord::End),
    (b"(\"ab", 4, TextWord::End),
    (b"(\"\\", 3, TextWord::End),
    (b"(\"\\c", 4, TextWord::End),
    (b"(\"\\5", 4, TextWord::End),
    (b"(\"\xff", 1, TextWord::String),
    (b"(\"\\ff", 5, TextWord::End),
    (b"a", 0, TextWord::Byte),
    (b"1a", 0, TextWord::Byte),
    (b" \"\n", 1, TextWord::Byte),
    (b"(A)", 1, TextWord::Byte),
    (b"(a'b)", 2, TextWord::Byte),
    (b"(a+)", 2, TextWord::Byte),
    (b"(--1)", 2, TextWord::Byte),
    (b"(_a)", 1, TextWord::Byte),
    (b"(<==)", 3, TextWord::Byte),
    (b"(-a)", 2, TextWord::Byte),
    (b"(a)!", 3, TextWord::Byte),
    (b")", 0, TextWord::Close),
    (b"(a))", 3, TextWord::Close),
    (b"(1a)", 1, TextWord::Number),
    (b"(1a", 1, TextWord::Number),
    (b"(00)", 1, TextWord::Number),
    (b"(01)", 1, TextWord::Number),
    (b"(-0)", 1, TextWord::Number),
    (b"(a -01)", 3, TextWord::Number),
    (b"(1-2)", 1, TextWord::Number),
    (
        b"(1329227995784915872903807060280344576)",
        1,
        TextWord::Number,
    ),
    (
        b"(-1329227995784915872903807060280344576)",
        1,
        TextWord::Number,
    ),
    (b"(\"\n\")", 1, TextWord::String),
    (b"(a \"\\C3\\a9\")", 3, TextWord::String),
    (b"(\"\\4", 1, TextWord::String),
    (b"(\"\\41\")", 1, TextWord::String),
    (b"(\"\\g0\")", 1, TextWord::String),
    (b"(\"\\0\")", 1, TextWord::String),
    (b"(\"\\ff\")", 1, TextWord::Utf8),
    (b"(1 \"\\c3\")", 3, TextWord::Utf8),
    (b"(a) b", 4, TextWord::Rest),
    (b"()()", 2, TextWord::Rest),
    (b"()\"", 2, TextWord::Rest),
    (b"();\n1a", 4, TextWord::Rest),
    (b"(a)\x00", 3, TextWord::Byte),
];

#[test]
fn reads_and_prints(rt: HostRuntime) -> Result<(), Fail> {
    for (text, printed) in &READ {
        let value = read_sexp(rt.alloc(), text)?;
        let again = print_sexp(rt.alloc(), &value)?;
        assert!(rt; again.as_slice() == *printed);
    }
    Ok(())
}

#[test]
fn refuses(rt: HostRuntime) {
    for (text, at, word) in &REFUSED {
        let fault = TextFault::Refused {
            at: *at,
            word: *word,
        };
        assert!(rt; read_sexp(rt.alloc(), text).err() == Some(fault), "{at}");
    }
}

// A text with so many lists in one another.
fn nested(alloc: Global, lists: usize) -> Result<Vec<u8>, AllocError> {
    let mut text = Vec::new(alloc);
    for _ in 0..lists {
        text.push(b'(')?;
    }
    for _ in 0..lists {
        text.push(b')')?;
    }
    Ok(text)
}

#[test]
fn nests_to_the_limit(rt: HostRuntime) -> Result<(), Fail> {
    let deepest = nested(rt.alloc(), 500)?;
    let value = read_sexp(rt.alloc(), deepest.as_slice())?;
    let again = print_sexp(rt.alloc(), &value)?;
    assert!(rt; again.as_slice() == deepest.as_slice());
    let deeper = nested(rt.alloc(), 501)?;
    let limit = TextFault::Limit {
        at: 500,
        word: LimitWord::Nesting,
    };
    assert!(rt; read_sexp(rt.alloc(), deeper.as_slice()).err() == Some(limit));
    Ok(())
}
