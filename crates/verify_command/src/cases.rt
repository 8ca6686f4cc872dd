// Modules and what is said of them, worked out apart from the code.

/// Bodies around code that can't be reached, branches out of blocks, and their ends: the function's type, 0 for `[] -> []`
/// and 1 for `[] -> [i32]`, its instructions, of which the first stands at `0x1b`, and what is said of the module.
pub const BODIES: &[(u8, &[u8], &[u8])] = &[
    // The end of a body, and operands that are missing or left.
    (1, &[0x0b], b"invalid: stack at 0x0000001b\n"),
    (0, &[0x41, 0, 0x0b], b"invalid: stack at 0x0000001d\n"),
    // Code that can't be reached takes and gives any operands, and only within its block.
    (1, &[0x00, 0x0b], b"valid\n"),
    (1, &[0x00, 0x6a, 0x0b], b"valid\n"),
    (1, &[0x00, 0x1b, 0x0b], b"valid\n"),
    (
        1,
        &[0x00, 0x42, 0, 0x6a, 0x0b],
        b"invalid: stack at 0x0000001e\n",
    ),
    (0, &[0x00, 0x41, 0, 0x0b], b"invalid: stack at 0x0000001e\n"),
    (1, &[0x41, 7, 0x0f, 0x6a, 0x0b], b"valid\n"),
    (1, &[0x0f, 0x0b], b"invalid: stack at 0x0000001b\n"),
    (
        0,
        &[0x02, 0x40, 0x0c, 0, 0x6a, 0x1a, 0x0b, 0x0b],
        b"valid\n",
    ),
    (
        0,
        &[0x02, 0x40, 0x0c, 0, 0x42, 0, 0x6a, 0x1a, 0x0b, 0x0b],
        b"invalid: stack at 0x00000021\n",
    ),
    (
        0,
        &[0x02, 0x40, 0x41, 0, 0x0e, 0, 0, 0x6a, 0x1a, 0x0b, 0x0b],
        b"valid\n",
    ),
    (
        0,
        &[0x02, 0x40, 0x00, 0x0b, 0x6a, 0x1a, 0x0b],
        b"invalid: stack at 0x0000001f\n",
    ),
    (1, &[0x02, 0x7f, 0x00, 0x0b, 0x0b], b"valid\n"),
    // What it names must exist all the same.
    (0, &[0x00, 0x0c, 1, 0x0b], b"invalid: label at 0x0000001c\n"),
    (0, &[0x00, 0x10, 7, 0x0b], b"invalid: index at 0x0000001c\n"),
    (
        0,
        &[0x00, 0x28, 2, 0, 0x1a, 0x0b],
        b"invalid: index at 0x0000001c\n",
    ),
    // A choice between two operands, both known, one known, and none.
    (
        0,
        &[0x00, 0x42, 0, 0x41, 0, 0x41, 0, 0x1b, 0x1a, 0x0b],
        b"invalid: stack at 0x00000022\n",
    ),
    (
        1,
        &[0x00, 0x42, 0, 0x41, 0, 0x1b, 0x0b],
        b"invalid: stack at 0x00000021\n",
    ),
    (1, &[0x41, 1, 0x41, 2, 0x41, 0, 0x1b, 0x0b], b"valid\n"),
    // Branches out of blocks and loops, with results and without.
    (0, &[0x0c, 1, 0x0b], b"invalid: label at 0x0000001b\n"),
    (1, &[0x02, 0x7f, 0x41, 7, 0x0c, 0, 0x0b, 0x0b], b"valid\n"),
    (
        1,
        &[0x02, 0x7f, 0x0c, 0, 0x0b, 0x0b],
        b"invalid: stack at 0x0000001d\n",
    ),
    (
        1,
        &[0x02, 0x7f, 0x42, 0, 0x41, 7, 0x0c, 0, 0x0b, 0x0b],
        b"valid\n",
    ),
    (
        1,
        &[
            0x02, 0x40, 0x02, 0x7f, 0x41, 7, 0x0c, 2, 0x0b, 0x1a, 0x0b, 0x00, 0x0b,
        ],
        b"valid\n",
    ),
    (
        0,
        &[
            0x02, 0x40, 0x02, 0x40, 0x02, 0x40, 0x0c, 2, 0x0b, 0x0b, 0x0b, 0x0b,
        ],
        b"valid\n",
    ),
    (
        0,
        &[0x02, 0x40, 0x02, 0x40, 0x0c, 3, 0x0b, 0x0b, 0x0b],
        b"invalid: label at 0x0000001f\n",
    ),
    (
        1,
        &[
            0x02, 0x7f, 0x02, 0x7e, 0x41, 7, 0x0c, 1, 0x0b, 0x1a, 0x41, 8, 0x0b, 0x0b,
        ],
        b"valid\n",
    ),
    (
        1,
        &[
            0x02, 0x7f, 0x02, 0x7e, 0x42, 7, 0x0c, 1, 0x0b, 0x1a, 0x41, 8, 0x0b, 0x0b,
        ],
        b"invalid: stack at 0x00000021\n",
    ),
    (
        1,
        &[0x02, 0x7f, 0x41, 7, 0x02, 0x40, 0x0c, 1, 0x0b, 0x0b, 0x0b],
        b"invalid: stack at 0x00000021\n",
    ),
    (
        1,
        &[
            0x02, 0x40, 0x02, 0x40, 0x41, 7, 0x0f, 0x0b, 0x0b, 0x41, 8, 0x0b,
        ],
        b"valid\n",
    ),
    (1, &[0x03, 0x7f, 0x0c, 0, 0x0b, 0x0b], b"valid\n"),
    (
        1,
        &[0x03, 0x7f, 0x0b, 0x0b],
        b"invalid: stack at 0x0000001d\n",
    ),
    (
        1,
        &[0x03, 0x7f, 0x41, 0, 0x0d, 0, 0x41, 7, 0x0b, 0x0b],
        b"valid\n",
    ),
    // Behind `br_if` stand the label's types, also where it can't be reached.
    (
        1,
        &[0x02, 0x7f, 0x41, 7, 0x41, 0, 0x0d, 0, 0x0b, 0x0b],
        b"valid\n",
    ),
    (
        1,
        &[0x02, 0x7f, 0x00, 0x0d, 0, 0xa7, 0x0b, 0x0b],
        b"invalid: stack at 0x00000020\n",
    ),
    (
        0,
        &[0x02, 0x40, 0x41, 0, 0x0d, 0, 0x41, 0, 0x0b, 0x0b],
        b"invalid: stack at 0x00000023\n",
    ),
    (
        0,
        &[0x41, 0, 0x0d, 1, 0x0b],
        b"invalid: label at 0x0000001d\n",
    ),
    // Targets of `br_table` at different depths, the function's own label and those of loops among them.
    (
        1,
        &[
            0x02, 0x7f, 0x02, 0x7f, 0x41, 7, 0x41, 0, 0x0e, 1, 0, 1, 0x0b, 0x0b, 0x0b,
        ],
        b"valid\n",
    ),
    (
        1,
        &[
            0x02, 0x7f, 0x02, 0x7f, 0x41, 0, 0x0e, 1, 0, 1, 0x0b, 0x0b, 0x0b,
        ],
        b"invalid: stack at 0x00000021\n",
    ),
    (
        1,
        &[0x02, 0x7f, 0x41, 7, 0x41, 0, 0x0e, 1, 0, 1, 0x0b, 0x0b],
        b"valid\n",
    ),
    (
        0,
        &[
            0x02, 0x40, 0x03, 0x40, 0x41, 0, 0x0e, 1, 0, 1, 0x0b, 0x0b, 0x0b,
        ],
        b"valid\n",
    ),
    (
        0,
        &[
            0x02, 0x40, 0x03, 0x7f, 0x41, 0, 0x0e, 1, 0, 1, 0x0b, 0x1a, 0x0b, 0x0b,
        ],
        b"valid\n",
    ),
    (
        1,
        &[
            0x02, 0x7f, 0x03, 0x7f, 0x41, 0, 0x0e, 1, 0, 1, 0x0b, 0x0b, 0x0b,
        ],
        b"invalid: label at 0x00000021\n",
    ),
    (
        1,
        &[
            0x02, 0x7f, 0x02, 0x7e, 0x41, 7, 0x41, 0, 0x0e, 1, 0, 1, 0x0b, 0x1a, 0x41, 8, 0x0b,
            0x0b,
        ],
        b"invalid: label at 0x00000023\n",
    ),
    (
        1,
        &[
            0x02, 0x7f, 0x02, 0x40, 0x00, 0x0e, 1, 0, 1, 0x0b, 0x41, 7, 0x0b, 0x0b,
        ],
        b"invalid: label at 0x00000020\n",
    ),
    (
        1,
        &[
            0x02, 0x7f, 0x02, 0x7f, 0x00, 0x0e, 1, 0, 1, 0x0b, 0x0b, 0x0b,
        ],
        b"valid\n",
    ),
    (
        0,
        &[0x02, 0x40, 0x41, 0, 0x0e, 1, 2, 0, 0x0b, 0x0b],
        b"invalid: label at 0x0000001f\n",
    ),
    (
        0,
        &[0x02, 0x40, 0x41, 0, 0x0e, 1, 0, 2, 0x0b, 0x0b],
        b"invalid: label at 0x0000001f\n",
    ),
    (
        0,
        &[0x02, 0x40, 0x0e, 0, 0, 0x0b, 0x0b],
        b"invalid: stack at 0x0000001d\n",
    ),
    (
        0,
        &[0x02, 0x40, 0x42, 0, 0x0e, 0, 0, 0x0b, 0x0b],
        b"invalid: stack at 0x0000001f\n",
    ),
    // The two sides of an `if`, and operands of the block around.
    (
        1,
        &[0x41, 0, 0x04, 0x7f, 0x41, 7, 0x05, 0x41, 8, 0x0b, 0x0b],
        b"valid\n",
    ),
    (
        1,
        &[0x41, 0, 0x04, 0x7f, 0x41, 7, 0x0b, 0x0b],
        b"invalid: stack at 0x00000021\n",
    ),
    (
        0,
        &[0x41, 0, 0x04, 0x40, 0x41, 7, 0x05, 0x0b, 0x0b],
        b"invalid: stack at 0x00000021\n",
    ),
    (
        0,
        &[0x42, 0, 0x04, 0x40, 0x0b, 0x0b],
        b"invalid: stack at 0x0000001d\n",
    ),
    (
        1,
        &[0x41, 0, 0x04, 0x7f, 0x00, 0x05, 0x41, 7, 0x0b, 0x0b],
        b"valid\n",
    ),
    (
        1,
        &[0x41, 0, 0x04, 0x7f, 0x00, 0x05, 0x0b, 0x0b],
        b"invalid: stack at 0x00000021\n",
    ),
    (
        1,
        &[0x41, 7, 0x02, 0x40, 0x6a, 0x0b, 0x0b],
        b"invalid: stack at 0x0000001f\n",
    ),
];

/// Modules behind their header, and what is said of each.
pub const SECTIONS: &[(&[u8], &[u8])] = &[
    // Long spellings of numbers, and too long ones.
    (
        &[
            1, 4, 1, 0x60, 0, 0, 3, 6, 1, 0x80, 0x80, 0x80, 0x80, 0, 0x0a, 4, 1, 2, 0, 0x0b,
        ],
        b"valid\n",
    ),
    (
        &[
            1, 4, 1, 0x60, 0, 0, 3, 7, 1, 0x80, 0x80, 0x80, 0x80, 0x80, 0, 0x0a, 4, 1, 2, 0, 0x0b,
        ],
        b"malformed: number at 0x00000011\n",
    ),
    (
        &[
            1, 4, 1, 0x60, 0, 0, 3, 2, 1, 0, 0x0a, 0x10, 1, 0x0e, 0, 0x42, 0x80, 0x80, 0x80, 0x80,
            0x80, 0x80, 0x80, 0x80, 0x80, 1, 0x1a, 0x0b,
        ],
        b"malformed: number at 0x00000018\n",
    ),
    // Floats.
    (
        &[
            1, 4, 1, 0x60, 0, 0, 3, 2, 1, 0, 0x0a, 5, 1, 3, 0, 0x92, 0x0b,
        ],
        b"malformed: float at 0x00000017\n",
    ),
    (
        &[1, 5, 1, 0x60, 1, 0x7c, 0],
        b"malformed: float at 0x0000000d\n",
    ),
    // Counts of more entries than there are bytes, and 1,001 and 1,000 locals.
    (
        &[1, 5, 0xff, 0xff, 0xff, 0xff, 0x0f],
        b"limit: types at 0x0000000a\n",
    ),
    (
        &[7, 5, 0xff, 0xff, 0xff, 0xff, 0x0f],
        b"malformed: end at 0x0000000f\n",
    ),
    (
        &[
            1, 4, 1, 0x60, 0, 0, 3, 2, 1, 0, 0x0a, 7, 1, 5, 1, 0xe9, 7, 0x7f, 0x0b,
        ],
        b"limit: locals at 0x00000017\n",
    ),
    (
        &[
            1, 4, 1, 0x60, 0, 0, 3, 2, 1, 0, 0x0a, 7, 1, 5, 1, 0xe8, 7, 0x7f, 0x0b,
        ],
        b"valid\n",
    ),
    // Types, functions, tables and memories.
    (
        &[1, 6, 1, 0x60, 0, 2, 0x7f, 0x7f],
        b"invalid: type at 0x0000000b\n",
    ),
    (
        &[3, 2, 1, 0, 0x0a, 4, 1, 2, 0, 0x0b],
        b"invalid: index at 0x0000000b\n",
    ),
    (
        &[4, 5, 1, 0x70, 1, 2, 1],
        b"invalid: limits at 0x0000000b\n",
    ),
    (&[5, 5, 2, 0, 0, 0, 0], b"invalid: count at 0x0000000d\n"),
    (
        &[2, 8, 1, 1, 0x65, 1, 0x6d, 2, 0, 0, 5, 3, 1, 0, 0],
        b"invalid: count at 0x00000015\n",
    ),
    (
        &[5, 5, 1, 0, 0x81, 0x80, 4],
        b"invalid: limits at 0x0000000b\n",
    ),
    (
        &[5, 6, 1, 1, 1, 0x81, 0x80, 4],
        b"invalid: limits at 0x0000000b\n",
    ),
    // Globals, and what their expressions read.
    (
        &[6, 5, 1, 0x7f, 0, 1, 0x0b],
        b"invalid: const at 0x0000000b\n",
    ),
    (
        &[6, 6, 1, 0x7e, 0, 0x41, 0, 0x0b],
        b"invalid: type at 0x0000000b\n",
    ),
    (
        &[6, 0x0b, 2, 0x7f, 0, 0x41, 0, 0x0b, 0x7f, 0, 0x23, 0, 0x0b],
        b"invalid: const at 0x00000010\n",
    ),
    (
        &[
            2, 8, 1, 1, 0x65, 1, 0x67, 3, 0x7f, 0, 6, 6, 1, 0x7f, 0, 0x23, 0, 0x0b,
        ],
        b"valid\n",
    ),
    (
        &[
            2, 8, 1, 1, 0x65, 1, 0x67, 3, 0x7f, 1, 6, 6, 1, 0x7f, 0, 0x23, 0, 0x0b,
        ],
        b"invalid: const at 0x00000015\n",
    ),
    // Exports and the start function.
    (&[7, 5, 1, 1, 0x61, 0, 0], b"invalid: index at 0x0000000b\n"),
    (
        &[5, 3, 1, 0, 0, 7, 9, 2, 1, 0x61, 2, 0, 1, 0x61, 2, 0],
        b"invalid: export at 0x00000014\n",
    ),
    (&[8, 1, 0], b"invalid: index at 0x0000000a\n"),
    (
        &[
            1, 5, 1, 0x60, 0, 1, 0x7f, 3, 2, 1, 0, 8, 1, 0, 0x0a, 6, 1, 4, 0, 0x41, 0, 0x0b,
        ],
        b"invalid: start at 0x00000015\n",
    ),
    // Segments: an offset may read a defined immutable global.
    (
        &[9, 6, 1, 0, 0x41, 0, 0x0b, 0],
        b"invalid: index at 0x0000000b\n",
    ),
    (
        &[4, 4, 1, 0x70, 0, 0, 9, 4, 1, 0, 0x0b, 0],
        b"invalid: const at 0x00000011\n",
    ),
    (
        &[4, 4, 1, 0x70, 0, 0, 9, 6, 1, 0, 0x42, 0, 0x0b, 0],
        b"invalid: type at 0x00000011\n",
    ),
    (
        &[4, 4, 1, 0x70, 0, 0, 9, 7, 1, 0, 0x41, 0, 0x0b, 1, 0],
        b"invalid: index at 0x00000011\n",
    ),
    (
        &[
            5, 3, 1, 0, 0, 6, 6, 1, 0x7f, 0, 0x41, 0, 0x0b, 0x0b, 6, 1, 0, 0x23, 0, 0x0b, 0,
        ],
        b"valid\n",
    ),
    (
        &[
            5, 3, 1, 0, 0, 6, 6, 1, 0x7f, 1, 0x41, 0, 0x0b, 0x0b, 6, 1, 0, 0x23, 0, 0x0b, 0,
        ],
        b"invalid: const at 0x00000018\n",
    ),
    // Alignment, and a set of an immutable global.
    (
        &[
            1, 4, 1, 0x60, 0, 0, 3, 2, 1, 0, 5, 3, 1, 0, 0, 0x0a, 0x0a, 1, 8, 0, 0x41, 0, 0x28, 2,
            0, 0x1a, 0x0b,
        ],
        b"valid\n",
    ),
    (
        &[
            1, 4, 1, 0x60, 0, 0, 3, 2, 1, 0, 5, 3, 1, 0, 0, 0x0a, 0x0a, 1, 8, 0, 0x41, 0, 0x28, 3,
            0, 0x1a, 0x0b,
        ],
        b"invalid: align at 0x0000001e\n",
    ),
    (
        &[
            1, 4, 1, 0x60, 0, 0, 3, 2, 1, 0, 6, 6, 1, 0x7f, 0, 0x41, 0, 0x0b, 0x0a, 8, 1, 6, 0,
            0x41, 0, 0x24, 0, 0x0b,
        ],
        b"invalid: type at 0x00000021\n",
    ),
    // Of an element segment, a body and a data segment at fault the first, and of two bodies the first.
    (
        &[
            1, 4, 1, 0x60, 0, 0, 3, 2, 1, 0, 9, 6, 1, 0, 0x41, 0, 0x0b, 0, 0x0a, 5, 1, 3, 0, 0x1a,
            0x0b, 0x0b, 6, 1, 0, 0x41, 0, 0x0b, 0,
        ],
        b"invalid: index at 0x00000015\n",
    ),
    (
        &[
            1, 4, 1, 0x60, 0, 0, 3, 2, 1, 0, 0x0a, 5, 1, 3, 0, 0x1a, 0x0b, 0x0b, 6, 1, 0, 0x41, 0,
            0x0b, 0,
        ],
        b"invalid: stack at 0x00000017\n",
    ),
    (
        &[
            1, 4, 1, 0x60, 0, 0, 3, 3, 2, 0, 0, 0x0a, 9, 2, 3, 0, 0x1a, 0x0b, 3, 0, 0x6a, 0x0b,
        ],
        b"invalid: stack at 0x00000018\n",
    ),
];

/// From how many bytes of the example on, up to how many, the same is said.
pub const PREFIXES: &[(usize, usize, &[u8])] = &[
    (0, 1, b"malformed: end at 0x00000000\n"),
    (1, 2, b"malformed: end at 0x00000001\n"),
    (2, 3, b"malformed: end at 0x00000002\n"),
    (3, 4, b"malformed: end at 0x00000003\n"),
    (4, 5, b"malformed: end at 0x00000004\n"),
    (5, 6, b"malformed: end at 0x00000005\n"),
    (6, 7, b"malformed: end at 0x00000006\n"),
    (7, 8, b"malformed: end at 0x00000007\n"),
    (8, 9, b"valid\n"),
    (9, 10, b"malformed: end at 0x00000009\n"),
    (10, 14, b"malformed: size at 0x00000009\n"),
    (14, 15, b"valid\n"),
    (15, 16, b"malformed: end at 0x0000000f\n"),
    (16, 18, b"malformed: size at 0x0000000f\n"),
    (18, 19, b"malformed: count at 0x00000012\n"),
    (19, 20, b"malformed: end at 0x00000013\n"),
    (20, 26, b"malformed: size at 0x00000013\n"),
    (26, 27, b"malformed: count at 0x0000001a\n"),
    (27, 28, b"malformed: end at 0x0000001b\n"),
    (28, 33, b"malformed: size at 0x0000001b\n"),
    (33, 34, b"malformed: count at 0x00000021\n"),
    (34, 35, b"malformed: end at 0x00000022\n"),
    (35, 43, b"malformed: size at 0x00000022\n"),
    (43, 44, b"valid\n"),
];

/// Modules behind their header, and how each is listed: one with each kind of entry, and one with items of code that print
/// in ways of their own.
pub const LISTINGS: &[(&[u8], &[u8])] = &[
    (
        &[
            1, 10, 2, 0x60, 0, 0, 0x60, 2, 0x7f, 0x7e, 1, 0x7e, // types
            2, 30, 4, 1, 0x6d, 1, 0x66, 0, 0, 1, 0x6d, 1, 0x74, 1, 0x70, 1, 1, 2, 1, 0x6d, 0, 2, 1,
            1, 2, 1, 0x6d, 1, 0x67, 3, 0x7f, 1, // imports
            3, 2, 1, 0, // functions
            4, 4, 1, 0x70, 0, 3, // tables
            5, 3, 1, 0, 3, // memories
            6, 11, 2, 0x7f, 1, 0x41, 7, 0x0b, 0x7e, 0, 0x41, 7, 0x0b, // globals
            7, 22, 4, 1, 0x66, 0, 0, 6, 0x61, 0x22, 0x62, 0x5c, 0x63, 0x0a, 1, 1, 1, 0x6d, 2, 0, 1,
            0x67, 3, 1, // exports
            8, 1, 1, // start
            9, 6, 1, 1, 0x0b, 2, 0, 1, // elements
            10, 8, 1, 6, 0, 0x41, 7, 0x24, 0, 0x0b, // code
            11, 5, 1, 0, 0x0b, 1, 255, // data
            0, 3, 2, 0xc3, 0xa9, // custom
        ],
        b"type 0: [] -> []
type 1: [i32 i64] -> [i64]
import 0: \"m\" \"f\" func 0
import 1: \"m\" \"t\" table 1 2
import 2: \"m\" \"\" memory 1 2
import 3: \"m\" \"g\" global mut i32
function 1: type 0
table 1: 3
memory 1: 3
global 1: mut i32
global 2: i64
export 0: \"f\" func 0
export 1: \"a\\22b\\5cc\\0a\" table 1
export 2: \"m\" memory 0
export 3: \"g\" global 1
start: 1
elem 0: 2
code 1
  0x00000078 i32.const 7
  0x0000007a global.set 0
  0x0000007c end
data 0: 1
custom: \"\\c3\\a9\" 0
",
    ),
    (
        &[
            1, 4, 1, 0x60, 0, 0, 3, 2, 1, 0, 10, 30, 1, 28, 0, 0x02, 0x40, 0x03, 0x7e, 0x0e, 2, 0,
            2, 1, 0x35, 2, 16, 0x42, 0x7f, 0x88, 0x11, 3, 0, 0x40, 0, 0x04, 0x40, 0x05, 0x0b, 0x0b,
            0x0b, 0x0b,
        ],
        b"type 0: [] -> []
function 0: type 0
code 0
  0x00000017 block
  0x00000019 loop i64
  0x0000001b br_table 0 2 1
  0x00000020 i64.load32_u 2 16
  0x00000023 i64.const 18446744073709551615
  0x00000025 i64.shr_u
  0x00000026 call_indirect 3
  0x00000029 memory.grow
  0x0000002b if
  0x0000002d else
  0x0000002e end
  0x0000002f end
  0x00000030 end
  0x00000031 end
",
    ),
];

/// Notes for the example, and what is said of them: one at an instruction that isn't there, an assertion of a global that
/// isn't there, a `with` of an earlier fact, and an assertion before the global is set.
pub const NOTES: &[(&[u8], &[u8])] = &[
    (
        b"(notes 1 (assert 0 ((= (global 1) 7)) ())
 (initial () ((have (= (global 1) 7) (eval (= (global 1) 7) () ()))) (with () (0) ()))
 (func 0 (at 3 (have (= (global 1) 7) (eval (= (global 1) 7) () ())) (with () (3) ()))))",
        b"failed: notes at 0x00000000\n",
    ),
    (
        b"(notes 1 (assert 0 ((= (global 1) 7)) ())
 (initial () ((have (= (global 1) 7) (eval (= (global 1) 7) () ()))) (with () (0) ()))
 (func 0 (at 2 (have (= (global 1) 7) (eval (= (global 1) 7) () ())) (with () (3) ()))))",
        b"failed: scope at 0x00000000\n",
    ),
    (
        b"(notes 1 (assert 0 ((= (global 0) 7)) ())
 (initial () ((have (= (global 0) 7) (eval (= (global 0) 7) () ()))) (with () (0) ()))
 (func 0 (at 2 (have (= (global 0) 7) (eval (= (global 0) 7) () ())) (with () (2) ()))))",
        b"failed: fact at 0x0000002a in function 0\n",
    ),
    (
        b"(notes 1 (assert 0 ((= (global 0) 7)) ())
 (initial () ((have (= (global 0) 7) (eval (= (global 0) 7) () ()))) (with () (0) ()))
 (func 0 (at 1 (have (= (global 0) 7) (eval (= (global 0) 7) () ())) (with () (3) ()))))",
        b"failed: derivation 0 at 0x00000028 in function 0\n",
    ),
];

/// Modules behind their header, and the bounds of their functions.
pub const BOUNDS: &[(&[u8], &[u8])] = &[
    // Functions that call later ones.
    (
        &[
            1, 4, 1, 0x60, 0, 0, 3, 4, 3, 0, 0, 0, 10, 15, 3, // heads
            4, 0, 0x10, 1, 0x0b, 4, 0, 0x10, 2, 0x0b, 3, 0, 0x01, 0x0b,
        ],
        b"function 0: 6\nfunction 1: 4\nfunction 2: 2\n",
    ),
    // Cycles of calls, and what leads to one.
    (
        &[
            1, 4, 1, 0x60, 0, 0, 3, 6, 5, 0, 0, 0, 0, 0, 10, 24, 5, // heads
            4, 0, 0x10, 1, 0x0b, 4, 0, 0x10, 0, 0x0b, 4, 0, 0x10, 0, 0x0b, 4, 0, 0x10, 3, 0x0b, 2,
            0, 0x0b,
        ],
        b"function 0: none\nfunction 1: none\nfunction 2: none\nfunction 3: none\nfunction 4: 1\n",
    ),
    // Blocks, and the greater of two sides.
    (
        &[
            1, 4, 1, 0x60, 0, 0, 3, 4, 3, 0, 0, 0, 10, 38, 3, // heads
            15, 0, 0x41, 0, 0x04, 0x40, 0x01, 0x01, 0x05, 0x01, 0x0b, 0x02, 0x40, 0x01, 0x0b, 0x0b, // the first is greater
            11, 0, 0x41, 0, 0x04, 0x40, 0x01, 0x05, 0x01, 0x01, 0x0b, 0x0b, // the second is
            8, 0, 0x41, 0, 0x04, 0x40, 0x01, 0x0b, 0x0b,
        ],
        b"function 0: 9\nfunction 1: 6\nfunction 2: 5\n",
    ),
    // A loop, a call by a table, a call of an import, and a return.
    (
        &[
            1, 4, 1, 0x60, 0, 0, 2, 7, 1, 1, 0x65, 1, 0x68, 0, 0, 3, 5, 4, 0, 0, 0, 0, 4, 4, 1,
            0x70, 0, 1, 10, 24, 4, // heads
            5, 0, 0x03, 0x40, 0x0b, 0x0b, 7, 0, 0x41, 0, 0x11, 0, 0, 0x0b, 4, 0, 0x10, 0, 0x0b, 3,
            0, 0x0f, 0x0b,
        ],
        b"function 1: none\nfunction 2: none\nfunction 3: none\nfunction 4: 2\n",
    ),
    // No function.
    (&[], b""),
];

// A function that counts down from 3, exported as `f`.
const LOOP: &[u8] = &[
    0, 0x61, 0x73, 0x6d, 1, 0, 0, 0, 1, 5, 1, 0x60, 0, 1, 0x7f, 3, 2, 1, 0, 7, 5, 1, 1, 0x66, 0, 0,
    0xa, 0x18, 1, 0x16, 1, 1, 0x7f, 0x41, 3, 0x21, 0, 3, 0x40, 0x20, 0, 0x41, 1, 0x6b, 0x22, 0,
    0xd, 0, 0xb, 0x20, 0, 0xb,
];

// A memory of one page that may grow to two, and a function that grows it, exported as `g`.
const GROW: &[u8] = &[
    0, 0x61, 0x73, 0x6d, 1, 0, 0, 0, 1, 6, 1, 0x60, 1, 0x7f, 1, 0x7f, 3, 2, 1, 0, 5, 4, 1, 1, 1, 2,
    7, 5, 1, 1, 0x67, 0, 0, 0xa, 8, 1, 6, 0, 0x20, 0, 0x40, 0, 0xb,
];

// The first bytes of a module.
const CUT: &[u8] = &[
    0, 0x61, 0x73, 0x6d, 1, 0, 0, 0, 1, 4, 1, 0x60, 0, 0, 3, 2, 1, 0, 6, 6, 1, 0x7f, 1, 0x41, 7,
    0xb, 7, 5, 1, 1,
];

// A function that sets its global by an operand that is missing.
const LEFT: &[u8] = &[
    0, 0x61, 0x73, 0x6d, 1, 0, 0, 0, 1, 4, 1, 0x60, 0, 0, 3, 2, 1, 0, 6, 6, 1, 0x7f, 1, 0x41, 7,
    0xb, 7, 5, 1, 1, 0x66, 0, 0, 0xa, 8, 1, 6, 0, 1, 1, 0x24, 0, 0xb,
];

/// Scripts over one module: the module's bytes, the script, and what `link` writes.
pub const LINKS: &[(&[u8], &[u8], &[u8])] = &[
    (
        LOOP,
        b"(script 21 (load m \"m\") (new a m) (call a \"f\"))",
        b"a: made\na \"f\": values i32 0\n",
    ),
    (
        LOOP,
        b"(script 20 (load m \"m\") (new a m) (call a \"f\"))",
        b"a: made\na \"f\": stopped\n",
    ),
    (
        LOOP,
        b"(script 21 (load m \"m\") (new a m) (call a \"g\"))",
        b"name at 0x0000002a\n",
    ),
    (
        GROW,
        b"(script 100 (load m \"m\") (new x m) (call x \"g\" (i32 1)) (call x \"g\" (i32 1)) (call x \"g\"))",
        b"x: made\nx \"g\": values i32 1\nx \"g\": values i32 4294967295\nx \"g\": arguments\n",
    ),
    (
        CUT,
        b"(script 1 (load m \"m\"))",
        b"module m: malformed: size at 0x0000001b\n",
    ),
    (
        LEFT,
        b"(script 1 (load m \"m\"))",
        b"module m: invalid: stack at 0x00000028\n",
    ),
    (
        LOOP,
        b"(script 0 (load m \"m\"))",
        b"script: form at 0x00000008\n",
    ),
    (
        LOOP,
        b"(script 1 (load m \"m\") (load m \"m\"))",
        b"script: name at 0x0000001d\n",
    ),
    (LOOP, b"(script 1 (load m \"x\"))", b""),
];
