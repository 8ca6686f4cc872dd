use std::alloc::Global;
use std::test::Fail;
use wasm_values::{
    Bytes, IntOp, List, NumOp, Text, Val, Width, load_le, num1, num2, sext, store_le,
};

// What an operator of two operands that is defined everywhere gives at each pair, at 32 and at 64 bits.
struct Two {
    op: IntOp,
    narrow: [u64; 10],
    wide: [u64; 7],
}

// What an operator of one operand gives at each number, at 32 and at 64 bits.
struct One {
    op: IntOp,
    narrow: [u64; 6],
    wide: [u64; 6],
}

static NARROW_PAIRS: [(u32, u32); 10] = [
    (0, 0),
    (7, 0),
    (0xfffffff9, 2),
    (7, 0xfffffffe),
    (1, 33),
    (0x80000000, 0xffffffff),
    (0x80000000, 1),
    (0x7fffffff, 0x80000000),
    (0xffffffff, 0xffffffff),
    (0x80000001, 31),
];

static WIDE_PAIRS: [(u64, u64); 7] = [
    (0xfffffffffffffff9, 2),
    (7, 0xfffffffffffffffe),
    (1, 65),
    (0x8000000000000000, 0xffffffffffffffff),
    (0x7fffffffffffffff, 0x8000000000000000),
    (0xffffffffffffffff, 0xffffffffffffffff),
    (0x8000000000000001, 63),
];

static TWO: [Two; 21] = [
    Two {
        op: IntOp::Eq,
        narrow: [1, 0, 0, 0, 0, 0, 0, 0, 1, 0],
        wide: [0, 0, 0, 0, 0, 1, 0],
    },
    Two {
        op: IntOp::Ne,
        narrow: [0, 1, 1, 1, 1, 1, 1, 1, 0, 1],
        wide: [1, 1, 1, 1, 1, 0, 1],
    },
    Two {
        op: IntOp::LtS,
        narrow: [0, 0, 1, 0, 1, 1, 1, 0, 0, 1],
        wide: [1, 0, 1, 1, 0, 0, 1],
    },
    Two {
        op: IntOp::LtU,
        narrow: [0, 0, 0, 1, 1, 1, 0, 1, 0, 0],
        wide: [0, 1, 1, 1, 1, 0, 0],
    },
    Two {
        op: IntOp::GtS,
        narrow: [0, 1, 0, 1, 0, 0, 0, 1, 0, 0],
        wide: [0, 1, 0, 0, 1, 0, 0],
    },
    Two {
        op: IntOp::GtU,
        narrow: [0, 1, 1, 0, 0, 0, 1, 0, 0, 1],
        wide: [1, 0, 0, 0, 0, 0, 1],
    },
    Two {
        op: IntOp::LeS,
        narrow: [1, 0, 1, 0, 1, 1, 1, 0, 1, 1],
        wide: [1, 0, 1, 1, 0, 1, 1],
    },
    Two {
        op: IntOp::LeU,
        narrow: [1, 0, 0, 1, 1, 1, 0, 1, 1, 0],
        wide: [0, 1, 1, 1, 1, 1, 0],
    },
    Two {
        op: IntOp::GeS,
        narrow: [1, 1, 0, 1, 0, 0, 0, 1, 1, 0],
        wide: [0, 1, 0, 0, 1, 1, 0],
    },
    Two {
        op: IntOp::GeU,
        narrow: [1, 1, 1, 0, 0, 0, 1, 0, 1, 1],
        wide: [1, 0, 0, 0, 0, 1, 1],
    },
    Two {
        op: IntOp::Add,
        narrow: [
            0, 7, 0xfffffffb, 5, 34, 0x7fffffff, 0x80000001, 0xffffffff, 0xfffffffe, 0x80000020,
        ],
        wide: [
            0xfffffffffffffffb,
            5,
            66,
            0x7fffffffffffffff,
            0xffffffffffffffff,
            0xfffffffffffffffe,
            0x8000000000000040,
        ],
    },
    Two {
        op: IntOp::Sub,
        narrow: [
            0, 7, 0xfffffff7, 9, 0xffffffe0, 0x80000001, 0x7fffffff, 0xffffffff, 0, 0x7fffffe2,
        ],
        wide: [
            0xfffffffffffffff7,
            9,
            0xffffffffffffffc0,
            0x8000000000000001,
            0xffffffffffffffff,
            0,
            0x7fffffffffffffc2,
        ],
    },
    Two {
        op: IntOp::Mul,
        narrow: [
            0, 0, 0xfffffff2, 0xfffffff2, 33, 0x80000000, 0x80000000, 0x80000000, 1, 0x8000001f,
        ],
        wide: [
            0xfffffffffffffff2,
            0xfffffffffffffff2,
            65,
            0x8000000000000000,
            0x8000000000000000,
            1,
            0x800000000000003f,
        ],
    },
    Two {
        op: IntOp::And,
        narrow: [0, 0, 0, 6, 1, 0x80000000, 0, 0, 0xffffffff, 1],
        wide: [0, 6, 1, 0x8000000000000000, 0, 0xffffffffffffffff, 1],
    },
    Two {
        op: IntOp::Or,
        narrow: [
            0, 7, 0xfffffffb, 0xffffffff, 33, 0xffffffff, 0x80000001, 0xffffffff, 0xffffffff,
            0x8000001f,
        ],
        wide: [
            0xfffffffffffffffb,
            0xffffffffffffffff,
            65,
            0xffffffffffffffff,
            0xffffffffffffffff,
            0xffffffffffffffff,
            0x800000000000003f,
        ],
    },
    Two {
        op: IntOp::Xor,
        narrow: [
            0, 7, 0xfffffffb, 0xfffffff9, 32, 0x7fffffff, 0x80000001, 0xffffffff, 0, 0x8000001e,
        ],
        wide: [
            0xfffffffffffffffb,
            0xfffffffffffffff9,
            64,
            0x7fffffffffffffff,
            0xffffffffffffffff,
            0,
            0x800000000000003e,
        ],
    },
    Two {
        op: IntOp::Shl,
        narrow: [
            0, 7, 0xffffffe4, 0xc0000000, 2, 0, 0, 0x7fffffff, 0x80000000, 0x80000000,
        ],
        wide: [
            0xffffffffffffffe4,
            0xc000000000000000,
            2,
            0,
            0x7fffffffffffffff,
            0x8000000000000000,
            0x8000000000000000,
        ],
    },
    Two {
        op: IntOp::ShrS,
        narrow: [
            0, 7, 0xfffffffe, 0, 0, 0xffffffff, 0xc0000000, 0x7fffffff, 0xffffffff, 0xffffffff,
        ],
        wide: [
            0xfffffffffffffffe,
            0,
            0,
            0xffffffffffffffff,
            0x7fffffffffffffff,
            0xffffffffffffffff,
            0xffffffffffffffff,
        ],
    },
    Two {
        op: IntOp::ShrU,
        narrow: [0, 7, 0x3ffffffe, 0, 0, 1, 0x40000000, 0x7fffffff, 1, 1],
        wide: [0x3ffffffffffffffe, 0, 0, 1, 0x7fffffffffffffff, 1, 1],
    },
    Two {
        op: IntOp::Rotl,
        narrow: [
            0, 7, 0xffffffe7, 0xc0000001, 2, 0x40000000, 1, 0x7fffffff, 0xffffffff, 0xc0000000,
        ],
        wide: [
            0xffffffffffffffe7,
            0xc000000000000001,
            2,
            0x4000000000000000,
            0x7fffffffffffffff,
            0xffffffffffffffff,
            0xc000000000000000,
        ],
    },
    Two {
        op: IntOp::Rotr,
        narrow: [
            0, 7, 0x7ffffffe, 28, 0x80000000, 1, 0x40000000, 0x7fffffff, 0xffffffff, 3,
        ],
        wide: [
            0x7ffffffffffffffe,
            28,
            0x8000000000000000,
            1,
            0x7fffffffffffffff,
            0xffffffffffffffff,
            3,
        ],
    },
];

static NARROW_DIVISIONS: [(IntOp, u32, u32, Option<u64>); 24] = [
    (IntOp::DivS, 7, 0, None),
    (IntOp::DivS, 0xfffffff9, 2, Some(0xfffffffd)),
    (IntOp::DivS, 7, 0xfffffffe, Some(0xfffffffd)),
    (IntOp::DivS, 0x80000000, 0xffffffff, None),
    (IntOp::DivS, 0xfffffff9, 0xfffffffe, Some(3)),
    (IntOp::DivS, 0x80000000, 0x7fffffff, Some(0xffffffff)),
    (IntOp::DivU, 7, 0, None),
    (IntOp::DivU, 0xfffffff9, 2, Some(0x7ffffffc)),
    (IntOp::DivU, 7, 0xfffffffe, Some(0)),
    (IntOp::DivU, 0x80000000, 0xffffffff, Some(0)),
    (IntOp::DivU, 0xfffffff9, 0xfffffffe, Some(0)),
    (IntOp::DivU, 0x80000000, 0x7fffffff, Some(1)),
    (IntOp::RemS, 7, 0, None),
    (IntOp::RemS, 0xfffffff9, 2, Some(0xffffffff)),
    (IntOp::RemS, 7, 0xfffffffe, Some(1)),
    (IntOp::RemS, 0x80000000, 0xffffffff, Some(0)),
    (IntOp::RemS, 0xfffffff9, 0xfffffffe, Some(0xffffffff)),
    (IntOp::RemS, 0x80000000, 0x7fffffff, Some(0xffffffff)),
    (IntOp::RemU, 7, 0, None),
    (IntOp::RemU, 0xfffffff9, 2, Some(1)),
    (IntOp::RemU, 7, 0xfffffffe, Some(7)),
    (IntOp::RemU, 0x80000000, 0xffffffff, Some(0x80000000)),
    (IntOp::RemU, 0xfffffff9, 0xfffffffe, Some(0xfffffff9)),
    (IntOp::RemU, 0x80000000, 0x7fffffff, Some(1)),
];

static WIDE_DIVISIONS: [(IntOp, u64, u64, Option<u64>); 24] = [
    (IntOp::DivS, 7, 0, None),
    (IntOp::DivS, 0xfffffffffffffff9, 2, Some(0xfffffffffffffffd)),
    (IntOp::DivS, 7, 0xfffffffffffffffe, Some(0xfffffffffffffffd)),
    (IntOp::DivS, 0x8000000000000000, 0xffffffffffffffff, None),
    (IntOp::DivS, 0xfffffffffffffff9, 0xfffffffffffffffe, Some(3)),
    (
        IntOp::DivS,
        0x8000000000000000,
        0x7fffffffffffffff,
        Some(0xffffffffffffffff),
    ),
    (IntOp::DivU, 7, 0, None),
    (IntOp::DivU, 0xfffffffffffffff9, 2, Some(0x7ffffffffffffffc)),
    (IntOp::DivU, 7, 0xfffffffffffffffe, Some(0)),
    (IntOp::DivU, 0x8000000000000000, 0xffffffffffffffff, Some(0)),
    (IntOp::DivU, 0xfffffffffffffff9, 0xfffffffffffffffe, Some(0)),
    (IntOp::DivU, 0x8000000000000000, 0x7fffffffffffffff, Some(1)),
    (IntOp::RemS, 7, 0, None),
    (IntOp::RemS, 0xfffffffffffffff9, 2, Some(0xffffffffffffffff)),
    (IntOp::RemS, 7, 0xfffffffffffffffe, Some(1)),
    (IntOp::RemS, 0x8000000000000000, 0xffffffffffffffff, Some(0)),
    (
        IntOp::RemS,
        0xfffffffffffffff9,
        0xfffffffffffffffe,
        Some(0xffffffffffffffff),
    ),
    (
        IntOp::RemS,
        0x8000000000000000,
        0x7fffffffffffffff,
        Some(0xffffffffffffffff),
    ),
    (IntOp::RemU, 7, 0, None),
    (IntOp::RemU, 0xfffffffffffffff9, 2, Some(1)),
    (IntOp::RemU, 7, 0xfffffffffffffffe, Some(7)),
    (
        IntOp::RemU,
        0x8000000000000000,
        0xffffffffffffffff,
        Some(0x8000000000000000),
    ),
    (
        IntOp::RemU,
        0xfffffffffffffff9,
        0xfffffffffffffffe,
        Some(0xfffffffffffffff9),
    ),
    (IntOp::RemU, 0x8000000000000000, 0x7fffffffffffffff, Some(1)),
];

static NARROW: [u32; 6] = [0, 1, 0x7fffffff, 0x80000000, 0xffffffff, 40];

static WIDE: [u64; 6] = [
    0,
    1,
    0x7fffffffffffffff,
    0x8000000000000000,
    0xffffffffffffffff,
    40,
];

static ONE: [One; 4] = [
    One {
        op: IntOp::Eqz,
        narrow: [1, 0, 0, 0, 0, 0],
        wide: [1, 0, 0, 0, 0, 0],
    },
    One {
        op: IntOp::Clz,
        narrow: [32, 31, 1, 0, 0, 26],
        wide: [64, 63, 1, 0, 0, 58],
    },
    One {
        op: IntOp::Ctz,
        narrow: [32, 0, 0, 31, 0, 3],
        wide: [64, 0, 0, 63, 0, 3],
    },
    One {
        op: IntOp::Popcnt,
        narrow: [0, 1, 31, 1, 32, 2],
        wide: [0, 1, 63, 1, 64, 2],
    },
];

/// The first operands of 32 bits at which an operator of two does not give what is wanted.
fn wrong_narrow(op: IntOp, pairs: &[(u32, u32)], wanted: &[u64]) -> Option<(IntOp, u64, u64)> {
    for (i, (a, b)) in pairs.iter().enumerate() {
        let (a, b) = (u64::from(*a), u64::from(*b));
        if op.is_unary() || Width::<32>::two(op, a, b) != wanted.get(i).copied() {
            return Some((op, a, b));
        }
    }
    None
}

/// The first operands of 64 bits at which an operator of two does not give what is wanted.
fn wrong_wide(op: IntOp, pairs: &[(u64, u64)], wanted: &[u64]) -> Option<(IntOp, u64, u64)> {
    for (i, (a, b)) in pairs.iter().enumerate() {
        if op.is_unary() || Width::<64>::two(op, *a, *b) != wanted.get(i).copied() {
            return Some((op, *a, *b));
        }
    }
    None
}

fn wrong_of_two(rows: &[Two]) -> Option<(IntOp, u64, u64)> {
    for row in rows {
        let narrow = wrong_narrow(row.op, &NARROW_PAIRS, &row.narrow);
        if narrow.is_some() {
            return narrow;
        }
        let wide = wrong_wide(row.op, &WIDE_PAIRS, &row.wide);
        if wide.is_some() {
            return wide;
        }
    }
    None
}

#[test]
fn operators_of_two_operands(rt: HostRuntime) {
    assert_eq!(rt; wrong_of_two(&TWO), None);
}

fn wrong_narrow_division(rows: &[(IntOp, u32, u32, Option<u64>)]) -> Option<(IntOp, u32, u32)> {
    for (op, a, b, wanted) in rows {
        if op.is_unary() || Width::<32>::two(*op, u64::from(*a), u64::from(*b)) != *wanted {
            return Some((*op, *a, *b));
        }
    }
    None
}

fn wrong_wide_division(rows: &[(IntOp, u64, u64, Option<u64>)]) -> Option<(IntOp, u64, u64)> {
    for (op, a, b, wanted) in rows {
        if op.is_unary() || Width::<64>::two(*op, *a, *b) != *wanted {
            return Some((*op, *a, *b));
        }
    }
    None
}

#[test]
fn quotients_and_remainders(rt: HostRuntime) {
    assert_eq!(rt; wrong_narrow_division(&NARROW_DIVISIONS), None);
    assert_eq!(rt; wrong_wide_division(&WIDE_DIVISIONS), None);
}

/// The first number of 32 or of 64 bits at which an operator of one operand does not give what is wanted.
fn wrong_of_one(rows: &[One]) -> Option<(IntOp, u64)> {
    for row in rows {
        let op = row.op;
        for (i, a) in NARROW.iter().enumerate() {
            let a = u64::from(*a);
            if !op.is_unary() || Width::<32>::one(op, a) != row.narrow[i] {
                return Some((op, a));
            }
        }
        for (i, a) in WIDE.iter().enumerate() {
            if !op.is_unary() || Width::<64>::one(op, *a) != row.wide[i] {
                return Some((op, *a));
            }
        }
    }
    None
}

#[test]
fn operators_of_one_operand(rt: HostRuntime) {
    assert_eq!(rt; wrong_of_one(&ONE), None);
}

#[test]
fn instructions(rt: HostRuntime) {
    let minus_one = Val::I32(0xffff_ffff);
    let one = Val::I64(1);
    let unary = [
        num1(NumOp::ExtendS, minus_one),
        num1(NumOp::ExtendU, minus_one),
        num1(NumOp::Wrap, Val::I64(0x1_2345_6789)),
        num1(NumOp::W64(IntOp::Eqz), Val::I64(0)),
    ];
    let binary = [
        num2(NumOp::W64(IntOp::LtS), one, one),
        num2(NumOp::W64(IntOp::Add), one, one),
        num2(NumOp::W32(IntOp::DivU), minus_one, Val::I32(0)),
    ];
    assert_eq!(rt;
        unary,
        [
            Val::I64(0xffff_ffff_ffff_ffff),
            Val::I64(0xffff_ffff),
            Val::I32(0x2345_6789),
            Val::I32(1),
        ]
    );
    assert_eq!(rt; binary, [Some(Val::I32(0)), Some(Val::I64(2)), None]);
}

#[test]
fn bytes_of_numbers(rt: HostRuntime) {
    let mut into = [0; 2];
    store_le(0x12_3456, &mut into);
    assert_eq!(rt; into, [0x56, 0x34]);
    assert_eq!(rt;
        [
            sext(8, 32, 0x80),
            sext(16, 64, 0x7fff),
            load_le(&[0x34, 0x12])
        ],
        [0xffff_ff80, 0x7fff, 0x1234]
    );
}

fn spelled(alloc: Global) -> Result<Bytes, Fail> {
    let mut bytes = Bytes::new(alloc);
    bytes.push(b'o')?;
    bytes.push(b'k')?;
    Ok(bytes)
}

#[test]
fn copies_of_bytes(rt: HostRuntime) -> Result<(), Fail> {
    let bytes = spelled(rt.alloc())?;
    assert!(rt; bytes.copy(rt.alloc())? == bytes);
    assert!(rt; bytes.as_slice() == b"ok".as_slice());
    Ok(())
}

#[test]
fn copies_of_texts(rt: HostRuntime) -> Result<(), Fail> {
    let text = Text::from_str(rt.alloc(), "ok")?;
    assert!(rt; text.copy(rt.alloc())? == text);
    assert_eq!(rt; text.as_str(), "ok");
    Ok(())
}

/// The two bytes of `ok`, and the bytes 1 and 2.
fn pair(alloc: Global) -> Result<List<Bytes>, Fail> {
    let mut list = List::new(alloc);
    list.push(spelled(alloc)?)?;
    list.push(Bytes::from_vec(vec![in alloc; 1, 2]?))?;
    Ok(list)
}

#[test]
fn copies_of_lists(rt: HostRuntime) -> Result<(), Fail> {
    let list = pair(rt.alloc())?;
    assert!(rt; list.copy(rt.alloc())? == list);
    Ok(())
}

/// How many items are left of a list that is cut to one, and whether one can be taken off it, twice.
fn cut(mut list: List<Bytes>) -> (usize, bool, bool) {
    list.truncate(1);
    (list.len(), list.pop().is_some(), list.pop().is_some())
}

#[test]
fn a_list_is_cut(rt: HostRuntime) -> Result<(), Fail> {
    assert_eq!(rt; cut(pair(rt.alloc())?), (1, true, false));
    Ok(())
}

#[test]
fn a_list_of_texts_is_copied(rt: HostRuntime) -> Result<(), Fail> {
    let mut texts = List::from_vec(Vec::new(rt.alloc()));
    texts.push(Text::from_str(rt.alloc(), "ok")?)?;
    assert_eq!(rt; texts.copy(rt.alloc())?.into_vec().len(), 1);
    Ok(())
}
