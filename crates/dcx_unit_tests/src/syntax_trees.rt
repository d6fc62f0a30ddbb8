//! What syntax trees keep of how a script was written, which no command shows.

use dcx_read::{
    Arg, Compared, Comparison, Factor, Line, Primary, Script, Sign, Signed, Sum, Trailer, parse,
};
use dcx_shape::Place;
use std::alloc::Global;

fn at(line: u32, column: u32) -> Place {
    Place { line, column }
}

/// An argument by its place, and one by a name.
fn is_place_and_name(args: &[Arg]) -> bool {
    matches!(args, [Arg::ByPlace(_), Arg::ByName(_, _)])
}

/// Whether a comparison and its place are these.
fn is_compared(compared: &Compared, comparison: Comparison, place: Place) -> bool {
    compared.comparison == comparison && compared.place == place
}

/// Whether an operand is a tuple with a comma at its end.
fn is_tuple(sum: &Sum) -> bool {
    matches!(
        &sum.first.first.power.first.primary,
        Primary::Tuple { comma: true, .. }
    )
}

/// Whether an operand is a call with a comma at its end, of an argument by its place and one by a name.
fn is_call(sum: &Sum) -> bool {
    matches!(
        sum.first.first.power.first.trailers.as_slice(),
        [Trailer::Call { comma: true, args, .. }] if is_place_and_name(args.as_slice())
    )
}

/// Whether an operand stands in round brackets, which open at this place.
fn is_round(sum: &Sum, opens: Place) -> bool {
    matches!(
        &sum.first.first.power.first.primary,
        Primary::Round(place, _) if *place == opens
    )
}

/// What is kept of the comparisons of a chain, of a call and of a bracket: each comparison with its place, the comma of the
/// tuple at the end of the chain, the call, and the bracket.
fn kept_in(compared: &[Compared], call: &Sum, bracket: &Sum) -> [bool; 5] {
    match compared {
        [first, second] => [
            is_compared(first, Comparison::AtMost, at(1, 3)),
            is_compared(second, Comparison::Equal, at(1, 8)),
            is_tuple(&second.sum),
            is_call(call),
            is_round(bracket, at(3, 1)),
        ],
        _ => [false; 5],
    }
}

/// What is kept of a chain, of a call and of a bracket, each a line.
fn kept(script: &Script) -> [bool; 5] {
    match script.lines.as_slice() {
        [
            Line::Evaluate(chain),
            Line::Evaluate(call),
            Line::Evaluate(bracket),
        ] => kept_in(chain.rest.as_slice(), &call.first, &bracket.first),
        _ => [false; 5],
    }
}

/// The same of the script that bytes spell.
fn kept_of(alloc: Global, bytes: &[u8]) -> [bool; 5] {
    match parse(alloc, bytes) {
        Ok(script) => {
            let kept = kept(&script);
            drop(script);
            kept
        }
        Err(_) => [false; 5],
    }
}

#[test]
fn what_was_written_is_kept(rt: HostRuntime) {
    let kept = kept_of(rt.alloc(), b"a <= b == (c,)\nf(x, n=1, )\n(a)\n");
    assert_eq!(rt; kept, [true; 5]);
}

/// The first operand of the only line.
fn operand_of(script: &Script) -> Option<&Factor> {
    match script.lines.as_slice() {
        [Line::Evaluate(only)] => Some(&only.first.first.first),
        _ => None,
    }
}

/// The signs before the only exponent of an operand.
fn signs_of_exponent(operand: &Factor) -> &[Signed] {
    match operand.power.rest.as_slice() {
        [raised] => raised.signs.as_slice(),
        _ => &[],
    }
}

/// Whether these are the signs before the first operand of the only line, and before its only exponent.
fn are_signs(script: &Script, before: &[Signed], of_exponent: &[Signed]) -> [bool; 2] {
    match operand_of(script) {
        Some(operand) => [
            operand.signs.as_slice() == before,
            signs_of_exponent(operand) == of_exponent,
        ],
        None => [false; 2],
    }
}

/// The same of the script that bytes spell.
fn are_signs_of(
    alloc: Global,
    bytes: &[u8],
    before: &[Signed],
    of_exponent: &[Signed],
) -> [bool; 2] {
    match parse(alloc, bytes) {
        Ok(script) => {
            let found = are_signs(&script, before, of_exponent);
            drop(script);
            found
        }
        Err(_) => [false; 2],
    }
}

/// A sign in the first line.
fn signed(sign: Sign, column: u32) -> Signed {
    Signed {
        sign,
        place: at(1, column),
    }
}

#[test]
fn signs_are_kept_in_their_order(rt: HostRuntime) {
    for (bytes, before, of_exponent) in [
        (b"a ** b".as_slice(), [].as_slice(), [].as_slice()),
        (
            b"-a ** +b".as_slice(),
            [signed(Sign::Minus, 1)].as_slice(),
            [signed(Sign::Plus, 7)].as_slice(),
        ),
        (
            b"- +a ** +-b".as_slice(),
            [signed(Sign::Minus, 1), signed(Sign::Plus, 3)].as_slice(),
            [signed(Sign::Plus, 9), signed(Sign::Minus, 10)].as_slice(),
        ),
        (
            b"+-+a ** --+-b".as_slice(),
            [
                signed(Sign::Plus, 1),
                signed(Sign::Minus, 2),
                signed(Sign::Plus, 3),
            ]
            .as_slice(),
            [
                signed(Sign::Minus, 9),
                signed(Sign::Minus, 10),
                signed(Sign::Plus, 11),
                signed(Sign::Minus, 12),
            ]
            .as_slice(),
        ),
    ] {
        let found = are_signs_of(rt.alloc(), bytes, before, of_exponent);
        assert_eq!(rt; (bytes, found), (bytes, [true; 2]));
    }
}
