// The least and the greatest value of `int[n]` and `uint[n]` at n = 1, 2, 8, 63 and 64 through each call, beside worked
// examples, which stand first in each table. A Python script wrote the tables: its whole numbers have no bound, it
// divides sizes and then gives the quotient its sign, it adds or takes away 2^n until a number is in range, and it
// writes a value from 2^63 on less 2^64.
ghost use Rattle.word_arith.specs.WordTy.{IsWord};

use super::*;

// a number, the type as signed and width, and the number's word
const WRAPPED: [(i128, bool, u32, i64); 49] = [
    (-9, true, 4, 7),
    (-2, true, 1, 0),
    (-1, true, 1, -1),
    (0, true, 1, 0),
    (1, true, 1, -1),
    (-1, false, 1, 1),
    (0, false, 1, 0),
    (1, false, 1, 1),
    (2, false, 1, 0),
    (-3, true, 2, 1),
    (-2, true, 2, -2),
    (1, true, 2, 1),
    (2, true, 2, -2),
    (-1, false, 2, 3),
    (0, false, 2, 0),
    (3, false, 2, 3),
    (4, false, 2, 0),
    (-129, true, 8, 127),
    (-128, true, 8, -128),
    (127, true, 8, 127),
    (128, true, 8, -128),
    (-1, false, 8, 255),
    (0, false, 8, 0),
    (255, false, 8, 255),
    (256, false, 8, 0),
    (-4611686018427387905, true, 63, 4611686018427387903),
    (-4611686018427387904, true, 63, -4611686018427387904),
    (4611686018427387903, true, 63, 4611686018427387903),
    (4611686018427387904, true, 63, -4611686018427387904),
    (-1, false, 63, i64::MAX),
    (0, false, 63, 0),
    (9223372036854775807, false, 63, i64::MAX),
    (9223372036854775808, false, 63, 0),
    (-9223372036854775809, true, 64, i64::MAX),
    (-9223372036854775808, true, 64, i64::MIN),
    (9223372036854775807, true, 64, i64::MAX),
    (9223372036854775808, true, 64, i64::MIN),
    (-1, false, 64, -1),
    (0, false, 64, 0),
    (18446744073709551615, false, 64, -1),
    (18446744073709551616, false, 64, 0),
    (i128::MIN, true, 8, 0),
    (i128::MIN, true, 64, 0),
    (i128::MAX, true, 8, -1),
    (i128::MAX, true, 64, -1),
    (i128::MIN, false, 8, 0),
    (i128::MIN, false, 64, 0),
    (i128::MAX, false, 8, 255),
    (i128::MAX, false, 64, -1),
];

// the type, the values of two words a and b, the words of a + b, a - b, a * b, a & b, a | b and a ^ b, those of a / b
// and a % b where b is from 1 on, and whether a < b
const PAIRS: [(bool, u32, i128, i128, [i64; 6], Option<[i64; 2]>, bool); 44] = [
    (
        true,
        8,
        -7,
        2,
        [-5, -9, -14, 0, -5, -5],
        Some([-3, -1]),
        true,
    ),
    (
        false,
        64,
        18446744073709551615,
        1,
        [0, -2, -1, 1, -1, -2],
        Some([-1, 0]),
        false,
    ),
    (true, 1, -1, -1, [0, 0, -1, -1, -1, 0], None, false),
    (true, 1, -1, 0, [-1, -1, 0, 0, -1, -1], None, true),
    (true, 1, 0, -1, [-1, -1, 0, 0, -1, -1], None, false),
    (true, 1, 0, 0, [0, 0, 0, 0, 0, 0], None, false),
    (false, 1, 0, 0, [0, 0, 0, 0, 0, 0], None, false),
    (false, 1, 0, 1, [1, 1, 0, 0, 1, 1], Some([0, 0]), true),
    (false, 1, 1, 0, [1, 1, 0, 0, 1, 1], None, false),
    (false, 1, 1, 1, [0, 0, 1, 1, 1, 0], Some([1, 0]), false),
    (true, 2, -2, -2, [0, 0, 0, -2, -2, 0], None, false),
    (true, 2, -2, 1, [-1, 1, -2, 0, -1, -1], Some([-2, 0]), true),
    (true, 2, 1, -2, [-1, -1, -2, 0, -1, -1], None, false),
    (true, 2, 1, 1, [-2, 0, 1, 1, 1, 0], Some([1, 0]), false),
    (false, 2, 0, 0, [0, 0, 0, 0, 0, 0], None, false),
    (false, 2, 0, 3, [3, 1, 0, 0, 3, 3], Some([0, 0]), true),
    (false, 2, 3, 0, [3, 3, 0, 0, 3, 3], None, false),
    (false, 2, 3, 3, [2, 0, 1, 3, 3, 0], Some([1, 0]), false),
    (true, 8, -128, -128, [0, 0, 0, -128, -128, 0], None, false),
    (
        true,
        8,
        -128,
        127,
        [-1, 1, -128, 0, -1, -1],
        Some([-1, -1]),
        true,
    ),
    (true, 8, 127, -128, [-1, -1, -128, 0, -1, -1], None, false),
    (
        true,
        8,
        127,
        127,
        [-2, 0, 1, 127, 127, 0],
        Some([1, 0]),
        false,
    ),
    (false, 8, 0, 0, [0, 0, 0, 0, 0, 0], None, false),
    (
        false,
        8,
        0,
        255,
        [255, 1, 0, 0, 255, 255],
        Some([0, 0]),
        true,
    ),
    (false, 8, 255, 0, [255, 255, 0, 0, 255, 255], None, false),
    (
        false,
        8,
        255,
        255,
        [254, 0, 1, 255, 255, 0],
        Some([1, 0]),
        false,
    ),
    (
        true,
        63,
        -4611686018427387904,
        -4611686018427387904,
        [0, 0, 0, -4611686018427387904, -4611686018427387904, 0],
        None,
        false,
    ),
    (
        true,
        63,
        -4611686018427387904,
        4611686018427387903,
        [-1, 1, -4611686018427387904, 0, -1, -1],
        Some([-1, -1]),
        true,
    ),
    (
        true,
        63,
        4611686018427387903,
        -4611686018427387904,
        [-1, -1, -4611686018427387904, 0, -1, -1],
        None,
        false,
    ),
    (
        true,
        63,
        4611686018427387903,
        4611686018427387903,
        [-2, 0, 1, 4611686018427387903, 4611686018427387903, 0],
        Some([1, 0]),
        false,
    ),
    (false, 63, 0, 0, [0, 0, 0, 0, 0, 0], None, false),
    (
        false,
        63,
        0,
        9223372036854775807,
        [i64::MAX, 1, 0, 0, i64::MAX, i64::MAX],
        Some([0, 0]),
        true,
    ),
    (
        false,
        63,
        9223372036854775807,
        0,
        [i64::MAX, i64::MAX, 0, 0, i64::MAX, i64::MAX],
        None,
        false,
    ),
    (
        false,
        63,
        9223372036854775807,
        9223372036854775807,
        [9223372036854775806, 0, 1, i64::MAX, i64::MAX, 0],
        Some([1, 0]),
        false,
    ),
    (
        true,
        64,
        -9223372036854775808,
        -9223372036854775808,
        [0, 0, 0, i64::MIN, i64::MIN, 0],
        None,
        false,
    ),
    (
        true,
        64,
        -9223372036854775808,
        9223372036854775807,
        [-1, 1, i64::MIN, 0, -1, -1],
        Some([-1, -1]),
        true,
    ),
    (
        true,
        64,
        9223372036854775807,
        -9223372036854775808,
        [-1, -1, i64::MIN, 0, -1, -1],
        None,
        false,
    ),
    (
        true,
        64,
        9223372036854775807,
        9223372036854775807,
        [-2, 0, 1, i64::MAX, i64::MAX, 0],
        Some([1, 0]),
        false,
    ),
    (false, 64, 0, 0, [0, 0, 0, 0, 0, 0], None, false),
    (
        false,
        64,
        0,
        18446744073709551615,
        [-1, 1, 0, 0, -1, -1],
        None,
        true,
    ),
    (
        false,
        64,
        18446744073709551615,
        0,
        [-1, -1, 0, 0, -1, -1],
        None,
        false,
    ),
    (
        false,
        64,
        18446744073709551615,
        18446744073709551615,
        [-2, 0, 1, -1, -1, 0],
        None,
        false,
    ),
    (
        false,
        64,
        0,
        9223372036854775807,
        [i64::MAX, -9223372036854775807, 0, 0, i64::MAX, i64::MAX],
        Some([0, 0]),
        true,
    ),
    (
        false,
        64,
        18446744073709551615,
        9223372036854775807,
        [
            9223372036854775806,
            i64::MIN,
            -9223372036854775807,
            i64::MAX,
            -1,
            i64::MIN,
        ],
        Some([2, 1]),
        false,
    ),
];

// the type, the value of a word a, an amount k, and the words of -a, ~a, a << k and a >> k
const SINGLES: [(bool, u32, i128, u32, [i64; 4]); 33] = [
    (true, 8, -8, 1, [8, 7, -16, -4]),
    (true, 1, -1, 0, [-1, 0, -1, -1]),
    (true, 1, 0, 0, [0, -1, 0, 0]),
    (false, 1, 0, 0, [0, 1, 0, 0]),
    (false, 1, 1, 0, [1, 0, 1, 1]),
    (true, 2, -2, 1, [-2, 1, 0, -1]),
    (true, 2, 1, 1, [-1, -2, -2, 0]),
    (false, 2, 0, 1, [0, 3, 0, 0]),
    (false, 2, 3, 1, [1, 0, 2, 1]),
    (true, 8, -128, 4, [-128, 127, 0, -8]),
    (true, 8, -128, 7, [-128, 127, 0, -1]),
    (true, 8, 127, 4, [-127, -128, -16, 7]),
    (true, 8, 127, 7, [-127, -128, -128, 0]),
    (false, 8, 0, 4, [0, 255, 0, 0]),
    (false, 8, 0, 7, [0, 255, 0, 0]),
    (false, 8, 255, 4, [1, 0, 240, 15]),
    (false, 8, 255, 7, [1, 0, 128, 1]),
    (
        true,
        63,
        -4611686018427387904,
        31,
        [-4611686018427387904, 4611686018427387903, 0, -2147483648],
    ),
    (
        true,
        63,
        -4611686018427387904,
        62,
        [-4611686018427387904, 4611686018427387903, 0, -1],
    ),
    (
        true,
        63,
        4611686018427387903,
        31,
        [
            -4611686018427387903,
            -4611686018427387904,
            -2147483648,
            2147483647,
        ],
    ),
    (
        true,
        63,
        4611686018427387903,
        62,
        [
            -4611686018427387903,
            -4611686018427387904,
            -4611686018427387904,
            0,
        ],
    ),
    (false, 63, 0, 31, [0, i64::MAX, 0, 0]),
    (false, 63, 0, 62, [0, i64::MAX, 0, 0]),
    (
        false,
        63,
        9223372036854775807,
        31,
        [1, 0, 9223372034707292160, 4294967295],
    ),
    (
        false,
        63,
        9223372036854775807,
        62,
        [1, 0, 4611686018427387904, 1],
    ),
    (
        true,
        64,
        -9223372036854775808,
        32,
        [i64::MIN, i64::MAX, 0, -2147483648],
    ),
    (
        true,
        64,
        -9223372036854775808,
        63,
        [i64::MIN, i64::MAX, 0, -1],
    ),
    (
        true,
        64,
        9223372036854775807,
        32,
        [-9223372036854775807, i64::MIN, -4294967296, 2147483647],
    ),
    (
        true,
        64,
        9223372036854775807,
        63,
        [-9223372036854775807, i64::MIN, i64::MIN, 0],
    ),
    (false, 64, 0, 32, [0, -1, 0, 0]),
    (false, 64, 0, 63, [0, -1, 0, 0]),
    (
        false,
        64,
        18446744073709551615,
        32,
        [1, 0, -4294967296, 4294967295],
    ),
    (false, 64, 18446744073709551615, 63, [1, 0, i64::MIN, 1]),
];

#[test]
fn wraps(rt: HostRuntime) {
    for (x, signed, width, want) in WRAPPED {
        assert!(rt; 1 <= width && width <= 64);
        assert_eq!(rt;
            wrap(x, WordTy { signed, width }),
            want,
            "{x} at {signed} {width}"
        );
    }
}

// The words that the operations on two words give, in the table's order.
fn combined(a: i64, b: i64, ty: WordTy) -> [i64; 6]
    requires first { IsWord ty a }
    requires second { IsWord ty b }
{
    [
        add(a, b, ty),
        sub(a, b, ty),
        mul(a, b, ty),
        and(a, b, ty),
        or(a, b, ty),
        xor(a, b, ty),
    ]
}

fn divided(a: i64, b: i64, ty: WordTy) -> Option<[i64; 2]>
    requires first { IsWord ty a }
    requires second { IsWord ty b }
{
    if b < 1 {
        return None;
    }
    Some([div(a, b, ty), rem(a, b, ty)])
}

#[test]
fn combines(rt: HostRuntime) {
    for (signed, width, x, y, words, quotient, is_less) in PAIRS {
        assert!(rt; 1 <= width && width <= 64);
        let ty = WordTy { signed, width };
        let a = wrap(x, ty);
        let b = wrap(y, ty);
        let got = (combined(a, b, ty), divided(a, b, ty), less(a, b, ty));
        let want = (words, quotient, is_less);
        assert_eq!(rt; got, want, "{x} and {y} at {signed} {width}");
    }
}

#[test]
fn turns_and_shifts(rt: HostRuntime) {
    for (signed, width, x, amount, want) in SINGLES {
        assert!(rt; 1 <= width && width <= 64 && amount < width);
        let ty = WordTy { signed, width };
        let a = wrap(x, ty);
        let got = [
            neg(a, ty),
            not(a, ty),
            shl(a, amount, ty),
            shr(a, amount, ty),
        ];
        assert_eq!(rt; got, want, "{x} by {amount} at {signed} {width}");
    }
}

#[test]
fn knows_values(rt: HostRuntime) {
    let byte = WordTy {
        signed: true,
        width: 8,
    };
    let word = WordTy {
        signed: false,
        width: 64,
    };
    assert!(rt; is_value(-128, byte) && !is_value(128, byte) && !is_value(-129, byte));
    assert!(rt; is_value((1 << 64) - 1, word) && !is_value(1 << 64, word) && !is_value(-1, word));
    assert_eq!(rt; (value(-1, byte), value(-1, word)), (-1, (1 << 64) - 1));
}

#[test]
fn combines_whole_numbers(rt: HostRuntime) {
    assert_eq!(rt;
        [whole_and(-4, 7), whole_or(-4, 1), whole_xor(-4, 7)],
        [4, -3, -5]
    );
    assert_eq!(rt; whole_and(-1, (1 << 64) - 1), (1 << 64) - 1);
}
