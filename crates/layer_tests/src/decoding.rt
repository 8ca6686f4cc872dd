use binary_grammar::{DecodeFault, DecodeWord, Decoded, LebFault};
use std::alloc::Global;
use std::test::Fail;
use wasm_binary::{decode, read_s32, read_s64, read_u32};
use wasm_syntax::Custom;

type Fault = (usize, Option<DecodeWord>);

// What is wrong with the bytes, and where; a limit has no word.
fn fault(alloc: Global, bytes: &[u8]) -> Option<Fault> {
    match decode(alloc, bytes) {
        Ok(_) => None,
        Err(DecodeFault::Malformed { at, word }) => Some((at, Some(word))),
        Err(DecodeFault::Limit { at, word: _ }) => Some((at, None)),
        Err(DecodeFault::OutOfMemory) => Some((usize::MAX, None)),
    }
}

// One function that sets a global.
const SAMPLE: [u8; 43] = [
    0, 0x61, 0x73, 0x6d, 1, 0, 0, 0, 1, 4, 1, 0x60, 0, 0, 3, 2, 1, 0, 6, 6, 1, 0x7f, 1, 0x41, 7,
    0x0b, 7, 5, 1, 1, 0x66, 0, 0, 0x0a, 8, 1, 6, 0, 0x41, 7, 0x24, 0, 0x0b,
];

fn cut_fault(len: usize) -> Option<Fault> {
    match len {
        8 | 14 | 43 => None,
        10..=13 => Some((9, Some(DecodeWord::Size))),
        16..=17 => Some((15, Some(DecodeWord::Size))),
        18 | 26 | 33 => Some((len, Some(DecodeWord::Count))),
        20..=25 => Some((19, Some(DecodeWord::Size))),
        28..=32 => Some((27, Some(DecodeWord::Size))),
        35..=42 => Some((34, Some(DecodeWord::Size))),
        _ => Some((len, Some(DecodeWord::End))),
    }
}

#[test]
fn cut_files(rt: HostRuntime) {
    for len in 0..44 {
        assert_eq!(rt;
            fault(rt.alloc(), &SAMPLE[..len]),
            cut_fault(len),
            "at {len}"
        );
    }
}

/// Whether it is what the sample spells.
fn is_the_sample(found: &Decoded) -> bool {
    let code = found.marks.code.as_slice();
    found.module.funcs.len() == 1
        && found.module.globals.len() == 1
        && found.marks.exports.as_slice() == [29].as_slice()
        && code.len() == 1
        && code[0].as_slice() == [0x26, 0x28, 0x2a].as_slice()
}

#[test]
fn a_module_with_its_marks(rt: HostRuntime) -> Result<(), Fail> {
    let found = decode(rt.alloc(), &SAMPLE)?;
    assert!(rt; is_the_sample(&found));
    Ok(())
}

// The bytes behind the first eight or fourteen of the sample: its header, and its section with one empty function type.
fn behind(alloc: Global, front: &[u8], bytes: &[u8]) -> Result<Vec<u8>, Fail> {
    let mut all = Vec::from_slice(alloc, front)?;
    all.extend_from_slice(bytes)?;
    Ok(all)
}

fn with_type(alloc: Global, bytes: &[u8]) -> Result<Vec<u8>, Fail> {
    behind(alloc, &SAMPLE[..14], bytes)
}

#[test]
fn numbers_floats_and_limits(rt: HostRuntime) -> Result<(), Fail> {
    let cases: [(&[u8], Option<Fault>); 6] = [
        (
            &[3, 6, 1, 0x80, 0x80, 0x80, 0x80, 0, 0x0a, 4, 1, 2, 0, 0x0b],
            None,
        ),
        (
            &[3, 7, 1, 0x80, 0x80, 0x80, 0x80, 0x80, 0],
            Some((0x11, Some(DecodeWord::Number))),
        ),
        (
            &[
                3, 2, 1, 0, 0x0a, 0x10, 1, 0x0e, 0, 0x42, 0x80, 0x80, 0x80, 0x80, 0x80, 0x80, 0x80,
                0x80, 0x80, 1, 0x1a, 0x0b,
            ],
            Some((0x18, Some(DecodeWord::Number))),
        ),
        (
            &[3, 2, 1, 0, 0x0a, 5, 1, 3, 0, 0x92, 0x0b],
            Some((0x17, Some(DecodeWord::Float))),
        ),
        (
            &[3, 2, 1, 0, 0x0a, 7, 1, 5, 1, 0xe9, 7, 0x7f, 0x0b],
            Some((0x17, None)),
        ),
        (&[3, 2, 1, 0, 0x0a, 7, 1, 5, 1, 0xe8, 7, 0x7f, 0x0b], None),
    ];
    for (bytes, wanted) in cases {
        let all = with_type(rt.alloc(), bytes)?;
        assert_eq!(rt; fault(rt.alloc(), &all), wanted);
    }
    Ok(())
}

#[test]
fn floats_and_false_counts(rt: HostRuntime) -> Result<(), Fail> {
    let cases: [(&[u8], Option<Fault>); 3] = [
        (
            &[1, 5, 1, 0x60, 1, 0x7c, 0],
            Some((0x0d, Some(DecodeWord::Float))),
        ),
        (&[1, 5, 0xff, 0xff, 0xff, 0xff, 0x0f], Some((0x0a, None))),
        (
            &[7, 5, 0xff, 0xff, 0xff, 0xff, 0x0f],
            Some((0x0f, Some(DecodeWord::End))),
        ),
    ];
    for (bytes, wanted) in cases {
        let all = behind(rt.alloc(), &SAMPLE[..8], bytes)?;
        assert_eq!(rt; fault(rt.alloc(), &all), wanted);
    }
    Ok(())
}

/// Whether these are two custom sections behind that of the types.
fn are_behind_types(customs: &[Custom]) -> bool {
    customs.len() == 2 && customs.iter().all(|custom| custom.after == 1)
}

#[test]
fn custom_sections(rt: HostRuntime) -> Result<(), Fail> {
    // Behind the types stand a custom section, no functions, and another custom section.
    let all = with_type(rt.alloc(), &[0, 3, 1, 0x61, 7, 3, 1, 0, 0, 1, 0])?;
    let found = decode(rt.alloc(), &all)?;
    assert!(rt; are_behind_types(found.module.customs.as_slice()));
    Ok(())
}

// A function of so many blocks in one another; the sizes of its section and its body stand before it.
fn nested(alloc: Global, sizes: [u8; 5], count: u8) -> Result<Vec<u8>, Fail> {
    let mut all = with_type(alloc, &[3, 2, 1, 0, 0x0a])?;
    all.extend_from_slice(&sizes)?;
    all.push(0)?;
    for _ in 0..count {
        all.extend_from_slice(&[2, 0x40])?;
    }
    for _ in 0..count {
        all.push(0x0b)?;
    }
    all.push(0x0b)?;
    Ok(all)
}

#[test]
fn nesting(rt: HostRuntime) -> Result<(), Fail> {
    let most = nested(rt.alloc(), [0xb1, 2, 1, 0xae, 2], 100)?;
    assert_eq!(rt; fault(rt.alloc(), &most), None);
    let more = nested(rt.alloc(), [0xb4, 2, 1, 0xb1, 2], 101)?;
    assert_eq!(rt; fault(rt.alloc(), &more), Some((225, None)));
    Ok(())
}

#[test]
fn numbers(rt: HostRuntime) {
    assert_eq!(rt; read_u32(&[9, 0xe5, 0x8e, 0x26], 1, 4), Ok((624_485, 4)));
    assert_eq!(rt; read_s32(&[0x40], 0, 1), Ok((-64, 1)));
    assert_eq!(rt; read_s64(&[0x80], 0, 1), Err(LebFault::End));
}
