//! Answers, with and without a hierarchy, weights, an expression.

use super::runs::{ANSWER, Case, HIERARCHY, SEQUENCES, first_wrong_by};

const ANSWERS: &[Case] = &[
    (
        "--support 2 --hierarchy h .*(A)[(.^)|.]*(b).* f",
        HIERARCHY,
        SEQUENCES,
        0,
        ANSWER,
        "",
    ),
    (
        "--support 2 --hierarchy h .*(A)!A*(b).* f",
        HIERARCHY,
        SEQUENCES,
        0,
        "3\ta1 b\n",
        "",
    ),
    (
        "--support 2 --hierarchy h (P^) f",
        "x P Q\nP R\nQ R\n",
        "x\nx\n",
        0,
        "2\tP\n2\tx\n",
        "",
    ),
    (
        "--support 1 (a){0}(b) f",
        "",
        "\u{feff}b\r\na",
        0,
        "1\tb\n",
        "",
    ),
    (
        "--weighted (a) --support=000000000000000000000000000000000000000002 f",
        "",
        "7\n002 a\n",
        0,
        "2\ta\n",
        "",
    ),
    (
        "--support 1 --max-gap 1 --min-length 2 --max-length 2 f",
        "",
        "a b c\na x x b\n",
        0,
        "1\ta b\n1\ta c\n1\ta x\n1\tb c\n1\tx b\n1\tx x\n",
        "",
    ),
    (
        "--support 7 --generated 7 .*(top^=).*",
        "",
        "",
        0,
        "generated 7 patterns 1 support 7 longest 1\n",
        "",
    ),
    (
        "--support 6 --generated 5 (.)",
        "",
        "",
        0,
        "generated 5 patterns 0 support 0 longest 0\n",
        "",
    ),
    (
        "--support 2 --generalize --max-gap 0 --max-length 1 --hierarchy h f",
        "x P Q\nP R\n",
        "x\nx\n",
        0,
        "2\tP\n2\tQ\n2\tR\n2\tx\n",
        "",
    ),
    (
        "--support 1 --max-gap=509 --min-length=3 --max-length=3 --weighted f",
        "",
        "7 a b c\n",
        0,
        "7\ta b c\n",
        "",
    ),
];

const ENGINES: &[&str] = &[
    "--engine=count",
    "--engine=dfs",
    "--engine=pivot",
    "--engine=cand",
];

#[test]
fn each_engine_gives_the_answer(rt: HostRuntime) {
    assert_eq!(rt; first_wrong_by(&rt, rt.alloc(), ENGINES, ANSWERS), Ok(None));
}
