//! Command lines with their orders and their faults.

use answers::Stop;
use exact_ratio::Decimal;
use exact_ratio::NumberFault::{BadByte, Empty, TooLarge, TooManyPlaces};
use price_certificate::Objective::{Backorders, LogAvailability};
use price_certificate::{Objective, Terms};
use spares_io::Text;
use spares_words::Which::{Bits, Budget, Format, Lines, Mean, Stock, Target, Variance};
use spares_words::WordsFault::{Number, Range, Shape};
use spares_words::{Order, Which, WordsFault, read_words};
use std::alloc::Global;
use std::process::Abort;
use std::test::Fail;

/// The answer for the words of a line.
type Answer = Result<Order, Stop<WordsFault>>;

/// The answer for words separated by single spaces. Two adjacent spaces have an empty word between them.
fn answer_for(alloc: Global, line: &str) -> Answer {
    let mut words = Vec::new(alloc);
    for word in line.split(' ') {
        words.push(Text::from_str(alloc, word)?)?;
    }
    read_words(alloc, words.as_slice())
}

/// The words are refused with this fault.
fn refuses(rt: &impl Abort, alloc: Global, line: &str, want: WordsFault) {
    assert!(rt;
        answer_for(alloc, line).err() == Some(Stop::Fault(want)),
        "at {line}"
    );
}

fn ten_thousandths(units: u64) -> Decimal {
    Decimal { units, places: 4 }
}

/// The answer is `single` with these values.
fn is_single(answer: &Answer, of_mean: u64, of_stock: u8, of_variance: Option<u64>) -> bool {
    match answer {
        Ok(
            Order::Single {
                mean,
                variance,
                stock,
            },
        ) => {
            *mean == ten_thousandths(of_mean)
                && *variance == of_variance.map(ten_thousandths)
                && *stock == of_stock
        }
        _ => false,
    }
}

/// Lines of `single`, with their mean, stock and variance.
const SINGLES: [(&str, u64, u8, Option<u64>); 11] = [
    ("single 1 1", 10_000, 1, None),
    ("single .0001 63.0", 1, 63, None),
    ("single 1 1 --variance 2", 10_000, 1, Some(20_000)),
    ("single 1 --variance 2 1", 10_000, 1, Some(20_000)),
    ("single --variance 2 1 1", 10_000, 1, Some(20_000)),
    ("single --variance=2 1 1", 10_000, 1, Some(20_000)),
    ("single 1 1 --variance=2.", 10_000, 1, Some(20_000)),
    // Two hyphens end the options, even if no word follows.
    ("single -- 1 1", 10_000, 1, None),
    ("single 1 -- 1", 10_000, 1, None),
    ("single 1 1 --", 10_000, 1, None),
    ("single --variance 2 -- 1 1", 10_000, 1, Some(20_000)),
];

fn gives_singles(rt: &impl Abort, alloc: Global, cases: &[(&str, u64, u8, Option<u64>)]) {
    for (line, mean, stock, variance) in cases {
        let answer = answer_for(alloc, line);
        let is_wanted = is_single(&answer, *mean, *stock, *variance);
        drop(answer);
        assert!(rt; is_wanted, "at {line}");
    }
}

#[test]
fn takes_single_with_its_option_anywhere(rt: HostRuntime) -> Result<(), Fail> {
    gives_singles(&rt, rt.alloc(), &SINGLES);
    Ok(())
}

/// The texts are these four.
fn are(texts: [&Text; 4], names: [&str; 4]) -> bool {
    texts[0].as_str() == names[0]
        && texts[1].as_str() == names[1]
        && texts[2].as_str() == names[2]
        && texts[3].as_str() == names[3]
}

/// The answer is `eval` with these names of files and bits.
fn is_eval(answer: &Answer, names: [&str; 4], of_bits: u8) -> bool {
    match answer {
        Ok(
            Order::Eval {
                sites,
                parts,
                rates,
                stocks,
                bits,
            },
        ) => are([sites, parts, rates, stocks], names) && *bits == of_bits,
        _ => false,
    }
}

/// Lines of `eval`, with their names of files and their bits.
const EVALS: [(&str, [&str; 4], u8); 4] = [
    (
        "eval --sites a --parts b --rates c --stocks d",
        ["a", "b", "c", "d"],
        48,
    ),
    (
        "eval --bits 32 --stocks d --rates c --parts b --sites a",
        ["a", "b", "c", "d"],
        32,
    ),
    (
        "eval --sites=a --parts=-b --rates= --stocks d --bits=52.0",
        ["a", "-b", "", "d"],
        52,
    ),
    (
        "eval --sites a --parts a --rates a --stocks a --bits 048 --",
        ["a", "a", "a", "a"],
        48,
    ),
];

fn gives_evals(rt: &impl Abort, alloc: Global, cases: &[(&str, [&str; 4], u8)]) {
    for (line, names, bits) in cases {
        let answer = answer_for(alloc, line);
        let is_wanted = is_eval(&answer, *names, *bits);
        drop(answer);
        assert!(rt; is_wanted, "at {line}");
    }
}

#[test]
fn takes_eval_with_its_options_in_any_order(rt: HostRuntime) -> Result<(), Fail> {
    gives_evals(&rt, rt.alloc(), &EVALS);
    Ok(())
}

/// The text is this one, if it is given.
fn is_given(text: &Option<Text>, name: Option<&str>) -> bool {
    match (text, name) {
        (Some(text), Some(name)) => text.as_str() == name,
        (None, None) => true,
        _ => false,
    }
}

/// The answer is `plan` with these names of its tables and certificate, these stocks on hand and these terms.
fn is_plan(answer: &Answer, names: [&str; 4], of_on_hand: Option<&str>, terms: Terms) -> bool {
    match answer {
        Ok(
            Order::Plan {
                sites,
                parts,
                rates,
                on_hand,
                budget,
                format,
                objective,
                certificate,
            },
        ) => {
            are([sites, parts, rates, certificate], names)
                && is_given(on_hand, of_on_hand)
                && *budget == terms.budget
                && *format == terms.format
                && *objective == terms.objective
        }
        _ => false,
    }
}

/// Lines of `plan`, with their names of files, budget and format.
const PLANS: [(&str, [&str; 4], u64, u8); 3] = [
    (
        "plan --sites a --parts b --rates c --budget 250 --certificate d",
        ["a", "b", "c", "d"],
        250,
        1,
    ),
    (
        "plan --format 2 --certificate d --budget=0 --rates c --parts b --sites a",
        ["a", "b", "c", "d"],
        0,
        2,
    ),
    (
        "plan --sites a --parts a --rates a --certificate= --format=1. --budget 1000000000000000",
        ["a", "a", "a", ""],
        1_000_000_000_000_000,
        1,
    ),
];

fn gives_plans(rt: &impl Abort, alloc: Global, cases: &[(&str, [&str; 4], u64, u8)]) {
    for (line, names, budget, format) in cases {
        let answer = answer_for(alloc, line);
        let terms = Terms {
            budget: *budget,
            format: *format,
            objective: Backorders,
        };
        let is_wanted = is_plan(&answer, *names, None, terms);
        drop(answer);
        assert!(rt; is_wanted, "at {line}");
    }
}

#[test]
fn takes_plan(rt: HostRuntime) -> Result<(), Fail> {
    gives_plans(&rt, rt.alloc(), &PLANS);
    Ok(())
}

/// Lines of `plan` with stocks on hand or an objective, each with its stocks, format and objective.
const AIMS: [(&str, Option<&str>, u8, Objective); 4] = [
    (
        "plan --sites a --parts b --rates c --budget 1 --certificate d --objective backorders",
        None,
        1,
        Backorders,
    ),
    (
        "plan --sites a --parts b --rates c --budget 1 --certificate d --objective log-availability",
        None,
        2,
        LogAvailability,
    ),
    (
        "plan --sites a --parts b --rates c --budget 1 --certificate d --on-hand e",
        Some("e"),
        2,
        Backorders,
    ),
    (
        "plan --sites a --parts b --rates c --budget 1 --certificate d --on-hand= --objective=log-availability --format 2",
        Some(""),
        2,
        LogAvailability,
    ),
];

fn gives_aims(rt: &impl Abort, alloc: Global, cases: &[(&str, Option<&str>, u8, Objective)]) {
    for (line, on_hand, format, objective) in cases {
        let answer = answer_for(alloc, line);
        let terms = Terms {
            budget: 1,
            format: *format,
            objective: *objective,
        };
        let is_wanted = is_plan(&answer, ["a", "b", "c", "d"], *on_hand, terms);
        drop(answer);
        assert!(rt; is_wanted, "at {line}");
    }
}

#[test]
fn takes_stocks_on_hand_and_objectives(rt: HostRuntime) -> Result<(), Fail> {
    gives_aims(&rt, rt.alloc(), &AIMS);
    Ok(())
}

/// The answer is `check` with this name.
fn is_check(answer: &Answer, name: &str) -> bool {
    match answer {
        Ok(Order::Check { certificate }) => certificate.as_str() == name,
        _ => false,
    }
}

#[test]
fn takes_check(rt: HostRuntime) -> Result<(), Fail> {
    let answer = answer_for(rt.alloc(), "check --certificate c");
    let is_wanted = is_check(&answer, "c");
    drop(answer);
    assert!(rt; is_wanted);
    Ok(())
}

/// The answer is `demo` with these numbers.
fn is_demo(answer: &Answer, of_number: u32, of_lines: u16) -> bool {
    match answer {
        Ok(Order::Demo { number, lines }) => *number == of_number && *lines == of_lines,
        _ => false,
    }
}

/// Lines of `demo`, with their number and their count of line units.
const DEMOS: [(&str, u32, u16); 2] = [
    ("demo 4294967295 80", 4_294_967_295, 80),
    ("demo 0. 01", 0, 1),
];

fn gives_demos(rt: &impl Abort, alloc: Global, cases: &[(&str, u32, u16)]) {
    for (line, number, lines) in cases {
        let answer = answer_for(alloc, line);
        let is_wanted = is_demo(&answer, *number, *lines);
        drop(answer);
        assert!(rt; is_wanted, "at {line}");
    }
}

#[test]
fn takes_demo(rt: HostRuntime) -> Result<(), Fail> {
    gives_demos(&rt, rt.alloc(), &DEMOS);
    Ok(())
}

/// Lines without an order, each with its fault.
const REFUSED: [(&str, WordsFault); 62] = [
    ("", Shape),
    ("help", Shape),
    ("--help", Shape),
    ("plan", Shape),
    ("Single 1 1", Shape),
    ("sing 1 1", Shape),
    ("single", Shape),
    ("single 1", Shape),
    ("single 1 1 1", Shape),
    ("single --variance 2", Shape),
    ("single help", Shape),
    ("single 1 1 --help", Shape),
    ("single 1 1 -h", Shape),
    ("single 1 1 --version", Shape),
    ("single 1 1 -V", Shape),
    ("single -1 1", Shape),
    ("single 1 -1", Shape),
    // An option needs a value, is there at most once, and isn't abbreviated.
    ("single 1 1 --variance", Shape),
    ("single 1 1 --variance -1", Shape),
    ("single 1 1 --variance --", Shape),
    ("single 1 1 --variance -- 2", Shape),
    ("single 1 1 --variance 2 --variance 2", Shape),
    ("single --variance=2 1 1 --variance=2", Shape),
    ("single 1 1 --var 2", Shape),
    ("single 1 1 -v 2", Shape),
    ("single 1 1 --stock 2", Shape),
    // After two hyphens each word is a value.
    ("single -- 1 1 --variance 2", Shape),
    ("single -- -1 1", Number(Mean, BadByte(0))),
    ("single 1 1 --variance=-1", Number(Variance, BadByte(0))),
    ("single 1 1 --variance -", Number(Variance, BadByte(0))),
    ("single 1 1 --variance=", Number(Variance, Empty)),
    ("single 1 1 --variance ", Number(Variance, Empty)),
    ("single  1", Number(Mean, Empty)),
    ("single - 1", Number(Mean, BadByte(0))),
    ("single 1 - ", Shape),
    ("single 1 -", Number(Stock, BadByte(0))),
    ("single x 1", Number(Mean, BadByte(0))),
    ("single 1.00001 1", Number(Mean, TooManyPlaces)),
    ("single 1844674407370955.1616 1", Number(Mean, TooLarge)),
    ("single 1 0.5", Number(Stock, TooManyPlaces)),
    ("single 1 18446744073709551616", Number(Stock, TooLarge)),
    ("single 1 64", Range(Stock)),
    ("eval", Shape),
    ("eval --sites a --parts b --rates c", Shape),
    ("eval --sites a --parts b --stocks d", Shape),
    ("eval --sites a --parts b --rates c --stocks", Shape),
    ("eval --sites a --parts b --rates c --stocks d e", Shape),
    (
        "eval --sites a --parts b --rates c --stocks d --sites a",
        Shape,
    ),
    ("eval --sites -a --parts b --rates c --stocks d", Shape),
    (
        "eval --sites a --parts b --rates c --stocks d --budget 1",
        Shape,
    ),
    (
        "eval --sites a --parts b --rates c --stocks d --bits",
        Shape,
    ),
    (
        "eval --sites a --parts b --rates c --stocks d --bits 40",
        Range(Bits),
    ),
    (
        "eval --sites a --parts b --rates c --stocks d --bits 33",
        Range(Bits),
    ),
    (
        "eval --sites a --parts b --rates c --stocks d --bits 0",
        Range(Bits),
    ),
    (
        "eval --sites a --parts b --rates c --stocks d --bits 304",
        Range(Bits),
    ),
    (
        "eval --sites a --parts b --rates c --stocks d --bits=",
        Number(Bits, Empty),
    ),
    (
        "eval --sites a --parts b --rates c --stocks d --bits x",
        Number(Bits, BadByte(0)),
    ),
    (
        "eval --sites a --parts b --rates c --stocks d --bits 48.5",
        Number(Bits, TooManyPlaces),
    ),
    // The mean is read first, then the variance, then the stock.
    ("single x y --variance z", Number(Mean, BadByte(0))),
    ("single 1 y --variance z", Number(Variance, BadByte(0))),
    ("single 1 64 --variance z", Number(Variance, BadByte(0))),
    ("single 1 y --variance 2", Number(Stock, BadByte(0))),
];

/// Each line is refused with its fault.
fn refuses_each(rt: &impl Abort, alloc: Global, cases: &[(&str, WordsFault)]) {
    for (line, want) in cases {
        refuses(rt, alloc, line, *want);
    }
}

#[test]
fn refuses_words_and_numbers(rt: HostRuntime) -> Result<(), Fail> {
    refuses_each(&rt, rt.alloc(), &REFUSED);
    Ok(())
}

#[test]
fn refuses_no_words(rt: HostRuntime) -> Result<(), Fail> {
    let none: [Text; 0] = [];
    let answer = read_words(rt.alloc(), none.as_slice());
    assert!(rt; answer.err() == Some(Stop::Fault(Shape)));
    Ok(())
}

/// A line with this start and each of these ends is refused with its fault.
fn refuses_after(
    rt: &impl Abort,
    alloc: Global,
    start: &str,
    cases: &[(&str, WordsFault)],
) -> Result<(), Fail> {
    for (end, want) in cases {
        let line = format!(in alloc; "{start} {end}")?;
        refuses(rt, alloc, line.as_str(), *want);
    }
    Ok(())
}

/// Words that may not follow the names of the tables in `plan`, each with its fault.
const REFUSED_PLANS: [(&str, WordsFault); 11] = [
    ("--certificate d", Shape),
    ("--budget 1", Shape),
    ("--budget 1 --certificate d --stocks e", Shape),
    ("--budget 1 --certificate d --format 1 --format 1", Shape),
    ("--budget 1000000000000001 --certificate d", Range(Budget)),
    ("--budget=-1 --certificate d", Number(Budget, BadByte(0))),
    ("--budget 1 --certificate d --format 3", Range(Format)),
    ("--budget 1 --certificate d --format 0", Range(Format)),
    (
        "--budget 1 --certificate d --format 1.5",
        Number(Format, TooManyPlaces),
    ),
    // The budget is read first, then the format.
    (
        "--budget x --certificate d --format 3",
        Number(Budget, BadByte(0)),
    ),
    (
        "--budget 1000000000000001 --certificate d --format x",
        Range(Budget),
    ),
];

#[test]
fn refuses_plans(rt: HostRuntime) -> Result<(), Fail> {
    refuses_after(
        &rt,
        rt.alloc(),
        "plan --sites a --parts b --rates c",
        &REFUSED_PLANS,
    )
}

/// Words that may not follow them with stocks on hand or an objective, each with its fault.
const REFUSED_AIMS: [(&str, WordsFault); 8] = [
    ("--objective availability", Range(Which::Objective)),
    ("--objective=", Range(Which::Objective)),
    ("--objective", Shape),
    ("--on-hand e --format 1", Range(Format)),
    ("--objective log-availability --format 1", Range(Format)),
    // The format is read before the objective.
    ("--objective x --format 3", Range(Format)),
    ("--objective x --on-hand e --format 1", Range(Format)),
    ("--objective x --format 1", Range(Which::Objective)),
];

#[test]
fn refuses_stocks_on_hand_and_objectives(rt: HostRuntime) -> Result<(), Fail> {
    refuses_after(
        &rt,
        rt.alloc(),
        "plan --sites a --parts b --rates c --budget 1 --certificate d",
        &REFUSED_AIMS,
    )
}

/// Lines of `check` and `demo` without an order, each with its fault.
const REFUSED_REST: [(&str, WordsFault); 9] = [
    ("check", Shape),
    ("check c", Shape),
    ("check --certificate c --certificate c", Shape),
    ("demo 7", Shape),
    ("demo 7 0", Range(Lines)),
    ("demo 7 81", Range(Lines)),
    ("demo 7 1.5", Number(Lines, TooManyPlaces)),
    ("demo x 0", Number(Which::Number, BadByte(0))),
    ("demo 4294967296 x", Range(Which::Number)),
];

#[test]
fn refuses_check_and_demo(rt: HostRuntime) -> Result<(), Fail> {
    refuses_each(&rt, rt.alloc(), &REFUSED_REST);
    Ok(())
}

/// Lines without an order, of the commands that take only tables, each with its fault.
const REFUSED_TABLES: [(&str, WordsFault); 8] = [
    ("sweep --sites a --parts b", Shape),
    ("sweep --sites a --parts b --rates c --budget 1", Shape),
    ("target --sites a --parts b --rates c", Shape),
    (
        "target --sites a --parts b --rates c --backorders 0.00001",
        Number(Target, TooManyPlaces),
    ),
    (
        "target --sites a --parts b --rates c --backorders 1000000000.0001",
        Range(Target),
    ),
    ("session --sites a --parts b --rates c", Shape),
    (
        "session --sites a --parts b --rates c --edits d --budget 1",
        Shape,
    ),
    (
        "compare --sites a --parts b --rates c --stocks d --bits 32",
        Shape,
    ),
];

#[test]
fn refuses_commands_over_tables(rt: HostRuntime) -> Result<(), Fail> {
    refuses_each(&rt, rt.alloc(), &REFUSED_TABLES);
    Ok(())
}

/// The answer is this command over the tables `a`, `b` and `c`, and the file `d` if it takes one.
fn is_over_tables(answer: &Answer, command: &str) -> bool {
    match answer {
        Ok(
            Order::Sweep {
                sites,
                parts,
                rates,
            },
        ) => command == "sweep" && are([sites, parts, rates, sites], ["a", "b", "c", "a"]),
        Ok(
            Order::Target {
                sites,
                parts,
                rates,
                backorders,
            },
        ) => {
            command == "target"
                && are([sites, parts, rates, sites], ["a", "b", "c", "a"])
                && *backorders == ten_thousandths(25_000)
        }
        Ok(
            Order::Session {
                sites,
                parts,
                rates,
                edits,
            },
        ) => command == "session" && are([sites, parts, rates, edits], ["a", "b", "c", "d"]),
        Ok(
            Order::Compare {
                sites,
                parts,
                rates,
                stocks,
            },
        ) => command == "compare" && are([sites, parts, rates, stocks], ["a", "b", "c", "d"]),
        _ => false,
    }
}

/// Lines of these commands, with their names.
const TABLES: [(&str, &str); 4] = [
    ("sweep --parts b --sites a --rates=c", "sweep"),
    (
        "target --sites a --parts b --rates c --backorders 2.5",
        "target",
    ),
    ("session --edits d --rates c --parts b --sites a", "session"),
    (
        "compare --sites a --parts b --rates c --stocks d",
        "compare",
    ),
];

fn gives_orders(rt: &impl Abort, alloc: Global, cases: &[(&str, &str)]) {
    for (line, command) in cases {
        let answer = answer_for(alloc, line);
        let is_wanted = is_over_tables(&answer, command);
        drop(answer);
        assert!(rt; is_wanted, "at {line}");
    }
}

#[test]
fn takes_commands_over_tables(rt: HostRuntime) -> Result<(), Fail> {
    gives_orders(&rt, rt.alloc(), &TABLES);
    Ok(())
}
