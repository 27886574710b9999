//! What is refused: words, expressions, rules and files.

use super::runs::{Case, first_wrong};

const USAGE: &str = "desq: usage: desq --support N [options] EXPR [FILE]\n";

const REFUSED: &[Case] = &[
    ("--help", "", "a\n", 2, "", USAGE),
    ("--support 0 (a) f", "", "a\n", 2, "", USAGE),
    ("--support 1 (a) f --workers 65", "", "a\n", 2, "", USAGE),
    ("--support 1 (a) f --max-gap 1", "", "a\n", 2, "", USAGE),
    (
        "--support 1 (a f",
        "",
        "\x01",
        3,
        "",
        "desq: expression: column 3: unexpected\n",
    ),
    (
        "--support 1 a{1025} f",
        "",
        "\x01",
        4,
        "",
        "desq: expression: column 2: repeat over 1024\n",
    ),
    (
        "--support 1 [a{32}]{33} f",
        "",
        "\x01",
        4,
        "",
        "desq: expression: 1056 leaves, over 1024\n",
    ),
    (
        "--support 1 --max-gap 510 --max-length 3 f",
        "",
        "\x01",
        4,
        "",
        "desq: expression: 1025 leaves, over 1024\n",
    ),
    (
        "--support 1 --max-gap 509 --max-length 3 f",
        "",
        "\x01",
        3,
        "",
        "desq: sequences: line 1 column 1: bad byte\n",
    ),
    (
        "--support 1 --hierarchy h (zz) f",
        "x y\ny z\nz x\n",
        "\x01",
        3,
        "",
        "desq: hierarchy: line 3: cycle\n",
    ),
    (
        "--support 1 --hierarchy h (zz) f",
        "a b\n",
        "\x7f\n",
        3,
        "",
        "desq: sequences: line 1 column 1: bad byte\n",
    ),
    (
        "--support 1 --weighted (zz) f",
        "",
        "1 a\n\n",
        3,
        "",
        "desq: sequences: line 2 column 1: bad weight\n",
    ),
    (
        "--support 1 (a)[b] f",
        "",
        "a\n",
        3,
        "",
        "desq: expression: column 5: unknown name\n",
    ),
    (
        "--support 1 (.) g",
        "",
        "",
        5,
        "",
        "desq: sequences: read fault\n",
    ),
    (
        "--support 1 --hierarchy g (.) f",
        "",
        "",
        5,
        "",
        "desq: hierarchy: read fault\n",
    ),
];

#[test]
fn the_first_refusal_is_told(rt: HostRuntime) {
    assert_eq!(rt; first_wrong(&rt, rt.alloc(), "--stats", REFUSED), Ok(None));
}
