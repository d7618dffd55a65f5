ghost use Rattle.tla_ast.specs.Listing.{IsTokenList};

use crate::dump::{push_module, push_place};
use core_expr::Memory;
use proof_parser::read_module;
use std::alloc::{AllocError, Global};
use std::test::Fail;
use tla_ast::{Fault, Kind, Place, Tokens};
use tla_lexer::lex;

/// What stands in a module before a text and after it, and what its units are told as before and after that text's.
#[derive(Clone, Copy, Debug)]
struct Frame {
    before: &'static str,
    after: &'static str,
    told_before: &'static str,
    told_after: &'static str,
}

/// A text that is all of a module but its header and end token.
const MODULE: Frame = Frame {
    before: "---- MODULE M ----\n",
    after: "\n====",
    told_before: "",
    told_after: "",
};

/// A text as a proof, from the third line on.
const PROOF: Frame = Frame {
    before: "---- MODULE M ----\nTHEOREM a\n",
    after: "\n====",
    told_before: "2:1 THEOREM a ",
    told_after: "",
};

/// A text as what follows the token of a step, from the fifth column of the third line on. It takes one line.
const STEP: Frame = Frame {
    before: "---- MODULE M ----\nTHEOREM a\n<1> ",
    after: "\n<1> QED\n====",
    told_before: "2:1 THEOREM a {<1>@3:1 ",
    told_after: "; <1>@4:1 QED -}",
};

/// A text that ends before an end token.
const CUT: Frame = Frame {
    before: "---- MODULE M ----\n",
    after: "",
    told_before: "",
    told_after: "",
};

/// Appends a place and a kind.
fn push_refusal(
    alloc: Global,
    out: &mut Vec<u8>,
    place: &Place,
    kind: &Kind,
) -> Result<(), Memory> {
    let text = kind.text(alloc)?;
    out.extend_from_slice(b"refused ")?;
    push_place(out, place)?;
    out.push(b' ')?;
    out.extend_from_slice(text.bytes())?;
    Ok(())
}

/// Appends the units, or the refusal.
fn push_reading(alloc: Global, out: &mut Vec<u8>, tokens: &Tokens) -> Result<(), Memory>
    requires { IsTokenList tokens.now.list }
{
    match read_module(alloc, tokens) {
        Ok(module) => Ok(push_module(out, &module)?),
        Err(Fault::At { place, kind }) => push_refusal(alloc, out, &place, &kind),
        Err(Fault::Memory) => Err(Memory),
    }
}

/// What the reader answers, as one line.
fn answer(alloc: Global, text: &[u8]) -> Result<Vec<u8>, Memory> {
    let mut out = Vec::new(alloc);
    match lex(alloc, text) {
        Ok(tokens) => push_reading(alloc, &mut out, &tokens)?,
        Err(_) => out.extend_from_slice(b"refused: no tokens")?,
    }
    Ok(out)
}

/// What the reader answers to a text in a frame.
fn answer_in(alloc: Global, frame: &Frame, text: &str) -> Result<Vec<u8>, Memory> {
    let mut module = Vec::from_slice(alloc, frame.before.as_bytes())?;
    module.extend_from_slice(text.as_bytes())?;
    module.extend_from_slice(frame.after.as_bytes())?;
    answer(alloc, module.as_slice())
}

/// What stands before ` ==> ` and after it.
fn halves(row: &str) -> (&str, &str) {
    row.split_once(" ==> ").unwrap_or((row, ""))
}

/// Whether the text of this row is read, and its units are told so.
fn is_read(alloc: Global, frame: &Frame, row: &str) -> Result<bool, Memory> {
    let (text, want) = halves(row);
    let got = answer_in(alloc, frame, text)?;
    let want = format!(in alloc; "{}{want}{}", frame.told_before, frame.told_after)?;
    Ok(got.as_slice() == want.as_str().as_bytes())
}

/// Whether the text of this row is refused at its place, with its kind.
fn is_refused(alloc: Global, frame: &Frame, row: &str) -> Result<bool, Memory> {
    let (text, want) = halves(row);
    let got = answer_in(alloc, frame, text)?;
    let want = format!(in alloc; "refused {want}")?;
    Ok(got.as_slice() == want.as_str().as_bytes())
}

/// Texts of units, and the units.
const UNITS: [&str; 53] = [
    " ==> ",
    "---- ==> ",
    "-----\n---- ==> ",
    "EXTENDS N ==> EXTENDS N@2:9",
    "EXTENDS Naturals, N,\nNaturals ==> EXTENDS Naturals@2:9,N@2:19,Naturals@3:1",
    "EXTENDS N\n---- CONSTANT b\n---- ==> EXTENDS N@2:9; 3:6 CONSTANTS b@3:15",
    "CONSTANT a ==> 2:1 CONSTANTS a@2:10",
    "CONSTANT a, b ==> 2:1 CONSTANTS a@2:10,b@2:13",
    "CONSTANTS a ==> 2:1 CONSTANTS a@2:11",
    "CONSTANTS f(_) ==> 2:1 CONSTANTS f/1@2:11",
    "CONSTANTS f(_, _), b, g ( _\n) ==> 2:1 CONSTANTS f/2@2:11,b@2:20,g/1@2:23",
    "VARIABLE x ==> 2:1 VARIABLES x@2:10",
    "VARIABLES x, y,z ==> 2:1 VARIABLES x@2:11,y@2:14,z@2:16",
    "VARIABLE x VARIABLES y ==> 2:1 VARIABLES x@2:10; 2:12 VARIABLES y@2:22",
    "ASSUME a = b ==> 2:1 ASSUME =[a b]",
    "ASSUMPTION a ==> 2:1 ASSUME a",
    "AXIOM a ==> 2:1 ASSUME a",
    "ASSUME N == a ==> 2:1 ASSUME N@2:8 == a",
    "ASSUMPTION N == a ==> 2:1 ASSUME N@2:12 == a",
    "AXIOM N\n== a ==> 2:1 ASSUME N@2:7 == a",
    "ASSUME f(a) /\\ b ==> 2:1 ASSUME /\\[f[a] b]",
    "ASSUME N ASSUME M ==> 2:1 ASSUME N; 2:10 ASSUME M",
    "D == a ==> 2:1 D@2:1 == a",
    "D(p) == p ==> 2:1 D(p@2:3)@2:1 == p",
    "D (p, q)\n== p = q ==> 2:1 D(p@2:4,q@2:7)@2:1 == =[p q]",
    "D == a E == b\nF == c ==> 2:1 D@2:1 == a; 2:8 E@2:8 == b; 3:1 F@3:1 == c",
    "D == f\n(a) ==> 2:1 D@2:1 == f[a]",
    "D == f E(x) == x ==> 2:1 D@2:1 == f; 2:8 E(x@2:10)@2:8 == x",
    "D == /\\ a\n     /\\ b\nE == c ==> 2:1 D@2:1 == AND[a b]; 4:1 E@4:1 == c",
    "1a == 1 ==> 2:1 1a@2:1 == 1",
    "  D == a ---- E == b ==> 2:3 D@2:3 == a; 2:15 E@2:15 == b",
    "THEOREM a ==> 2:1 THEOREM a -",
    "LEMMA a ==> 2:1 THEOREM a -",
    "PROPOSITION a ==> 2:1 THEOREM a -",
    "COROLLARY a ==> 2:1 THEOREM a -",
    "THEOREM T == a ==> 2:1 THEOREM T@2:9 == a -",
    "LEMMA T == a = b OBVIOUS ==> 2:1 THEOREM T@2:7 == =[a b] OBVIOUS@2:18",
    "THEOREM T = a OMITTED ==> 2:1 THEOREM =[T a] OMITTED@2:15",
    "THEOREM /\\ a\n        /\\ b\nOBVIOUS ==> 2:1 THEOREM AND[a b] OBVIOUS@4:1",
    "THEOREM a THEOREM b D == c ==> 2:1 THEOREM a -; 2:11 THEOREM b -; 2:21 D@2:21 == c",
    "THEOREM a BY b CONSTANT c ==> 2:1 THEOREM a BY@2:11 b@2:14; 2:16 CONSTANTS c@2:25",
    "THEOREM a\n<1> QED\nD == b ==> 2:1 THEOREM a {<1>@3:1 QED -}; 4:1 D@4:1 == b",
    "THEOREM a\n<1> QED\n----\nTHEOREM b ==> 2:1 THEOREM a {<1>@3:1 QED -}; 5:1 THEOREM b -",
    "THEOREM a <1> QED VARIABLE x ASSUME b ==> \
        2:1 THEOREM a {<1>@2:11 QED -}; 2:19 VARIABLES x@2:28; 2:30 ASSUME b",
    "THEOREM ASSUME a PROVE b ==> 2:1 THEOREM ASSUME a PROVE b -",
    "THEOREM ASSUME a, b = c PROVE c ==> 2:1 THEOREM ASSUME a, =[b c] PROVE c -",
    "THEOREM ASSUME NEW x PROVE x OBVIOUS ==> 2:1 THEOREM ASSUME NEW x@2:20 PROVE x OBVIOUS@2:30",
    "THEOREM ASSUME NEW x \\in S PROVE x ==> 2:1 THEOREM ASSUME NEW x@2:20 \\in S PROVE x -",
    "THEOREM ASSUME NEW CONSTANT x PROVE x ==> 2:1 THEOREM ASSUME NEW x@2:29 PROVE x -",
    "THEOREM ASSUME NEW CONSTANT x \\in S \\cup T PROVE x ==> \
        2:1 THEOREM ASSUME NEW x@2:29 \\in \\cup[S T] PROVE x -",
    "THEOREM ASSUME NEW VARIABLE x, NEW STATE y PROVE x ==> \
        2:1 THEOREM ASSUME NEW VARIABLE x@2:29, NEW STATE y@2:42 PROVE x -",
    "THEOREM ASSUME x \\in S, NEW y, x PROVE y ==> \
        2:1 THEOREM ASSUME \\in[x S], NEW y@2:29, x PROVE y -",
    "THEOREM T == ASSUME a PROVE b OBVIOUS ==> 2:1 THEOREM T@2:9 == ASSUME a PROVE b OBVIOUS@2:31",
];

/// Proofs of a theorem.
const PROOFS: [&str; 31] = [
    "OBVIOUS ==> OBVIOUS@3:1",
    "OMITTED ==> OMITTED@3:1",
    "PROOF OBVIOUS ==> OBVIOUS@3:7",
    "PROOF\nOMITTED ==> OMITTED@4:1",
    "PROOF BY DEF D ==> BY@3:7 DEF D@3:14",
    "BY b ==> BY@3:1 b@3:4",
    "BY b, c = d, (e), <1>2 ==> BY@3:1 b@3:4, =[c d]@3:7, e@3:14, <1>2@3:19",
    "BY b + c DEF D, E ==> BY@3:1 +[b c]@3:4 DEF D@3:14,E@3:17",
    "BY DEFS D ==> BY@3:1 DEF D@3:9",
    "BY ONLY b ==> BY@3:1 ONLY b@3:9",
    "BY ONLY <3>x. DEFS D,\nE ==> BY@3:1 ONLY <3>x@3:9 DEF D@3:20,E@4:1",
    "BY ONLY DEF D ==> BY@3:1 ONLY DEF D@3:13",
    "BY <1>, <2>.. ==> BY@3:1 <1>@3:4, <2>@3:9",
    "BY {b}, -c ==> BY@3:1 Enum[b]@3:4, -[c]@3:9",
    "<1> QED ==> {<1>@3:1 QED -}",
    "PROOF\n<1>q QED ==> {<1>q@4:1 QED -}",
    "<0>. QED OBVIOUS ==> {<0>@3:1 QED OBVIOUS@3:10}",
    "<07>x_1... QED PROOF BY b ==> {<7>x_1@3:1 QED BY@3:22 b@3:25}",
    "<1>1. b OBVIOUS\n<1>2. QED BY <1>1 ==> \
        {<1>1@3:1 b OBVIOUS@3:9; <1>2@4:1 QED BY@4:11 <1>1@4:14}",
    "<1>1. b\n<1>2. c\n<1> QED ==> {<1>1@3:1 b -; <1>2@4:1 c -; <1>@5:1 QED -}",
    "<1>1. b\n <2>1. c OBVIOUS\n <2> QED\n<1> QED ==> \
        {<1>1@3:1 b {<2>1@4:2 c OBVIOUS@4:10; <2>@5:2 QED -}; <1>@6:1 QED -}",
    "<1> b <3> c <7> QED <3> QED <1> QED ==> \
        {<1>@3:1 b {<3>@3:7 c {<7>@3:13 QED -}; <3>@3:21 QED -}; <1>@3:29 QED -}",
    "<1> QED\n <2> b OBVIOUS\n <2> QED ==> {<1>@3:1 QED {<2>@4:2 b OBVIOUS@4:8; <2>@5:2 QED -}}",
    "<1> b PROOF <2> QED <1> QED ==> {<1>@3:1 b {<2>@3:13 QED -}; <1>@3:21 QED -}",
    "<1> QED <2> QED <3> QED ==> {<1>@3:1 QED {<2>@3:9 QED {<3>@3:17 QED -}}}",
    "<1> b <2> QED <3> QED <1> c <2> QED <1> QED ==> \
        {<1>@3:1 b {<2>@3:7 QED {<3>@3:15 QED -}}; <1>@3:23 c {<2>@3:29 QED -}; <1>@3:37 QED -}",
    "<1>1. b BY c <1>2. QED ==> {<1>1@3:1 b BY@3:9 c@3:12; <1>2@3:14 QED -}",
    "<1>a b <1>a c <1> QED ==> {<1>a@3:1 b -; <1>a@3:8 c -; <1>@3:15 QED -}",
    "<1> HAVE b <1> TAKE x <1> QED ==> {<1>@3:1 HAVE b -; <1>@3:12 TAKE x@3:21 -; <1>@3:23 QED -}",
    "<1> D == b <1> E == c\nF == d <1> QED ==> \
        {<1>@3:1 DEFINE D@3:5 == b -; <1>@3:12 DEFINE E@3:16 == c, F@4:1 == d -; <1>@4:8 QED -}",
    "<1> USE b <1> HIDE b <1> QED ==> \
        {<1>@3:1 USE b@3:9 -; <1>@3:11 HIDE b@3:20 -; <1>@3:22 QED -}",
];

/// Steps, with their proofs.
const STEPS: [&str; 41] = [
    "b = c ==> =[b c] -",
    "b OBVIOUS ==> b OBVIOUS@3:7",
    "(b) OMITTED ==> b OMITTED@3:9",
    "f(b) = c BY d ==> =[f[b] c] BY@3:14 d@3:17",
    "f(x) # b ==> #[f[x] b] -",
    "f[b] = c ==> =[Index[f b] c] -",
    "LET x == b IN x ==> LET[x] -",
    "ASSUME b, NEW x \\in S PROVE c OBVIOUS ==> ASSUME b, NEW x@3:19 \\in S PROVE c OBVIOUS@3:35",
    "ASSUME NEW VARIABLE x PROVE c ==> ASSUME NEW VARIABLE x@3:25 PROVE c -",
    "CASE b ==> CASE b -",
    "CASE b = c OBVIOUS ==> CASE =[b c] OBVIOUS@3:16",
    "SUFFICES b ==> SUFFICES b -",
    "SUFFICES b PROOF OMITTED ==> SUFFICES b OMITTED@3:22",
    "SUFFICES ASSUME NEW x PROVE c BY d ==> SUFFICES ASSUME NEW x@3:25 PROVE c BY@3:35 d@3:38",
    "HAVE b = c ==> HAVE =[b c] -",
    "TAKE x ==> TAKE x@3:10 -",
    "TAKE x, y ==> TAKE x@3:10,y@3:13 -",
    "TAKE x \\in S \\cup T ==> TAKE x@3:10 \\in \\cup[S T] -",
    "TAKE x, y \\in S, z \\in T ==> TAKE x@3:10,y@3:13 \\in S; z@3:22 \\in T -",
    "WITNESS b ==> WITNESS b -",
    "WITNESS b, c \\in S, (d) ==> WITNESS b, \\in[c S], d -",
    "PICK x : b ==> PICK x@3:10 : b -",
    "PICK x, y : x = y OBVIOUS ==> PICK x@3:10,y@3:13 : =[x y] OBVIOUS@3:23",
    "PICK x \\in S : b OMITTED ==> PICK x@3:10 \\in S : b OMITTED@3:22",
    "PICK x \\in S, y, z \\in T : b ==> PICK x@3:10 \\in S; y@3:19,z@3:22 \\in T : b -",
    "PICK x \\in S : b <2> QED ==> PICK x@3:10 \\in S : b {<2>@3:22 QED -}",
    "DEFINE D == b ==> DEFINE D@3:12 == b -",
    "D == b ==> DEFINE D@3:5 == b -",
    "DEFINE D(x) == b ==> DEFINE D(x@3:14)@3:12 == b -",
    "D(x, y) == x = y ==> DEFINE D(x@3:7,y@3:10)@3:5 == =[x y] -",
    "DEFINE D == b E(x) == x F == c ==> DEFINE D@3:12 == b, E(x@3:21)@3:19 == x, F@3:29 == c -",
    "D == f 1E == (c) ==> DEFINE D@3:5 == f, 1E@3:12 == c -",
    "D(x) ==> D[x] -",
    "D(x, y) = b ==> =[D[x y] b] -",
    "USE b ==> USE b@3:9 -",
    "USE b, (c = d), <1>1 DEF D, E ==> USE b@3:9, =[c d]@3:12, <1>1@3:21 DEF D@3:30,E@3:33 -",
    "USE DEF D ==> USE DEF D@3:13 -",
    "USE DEFS D, E ==> USE DEF D@3:14,E@3:17 -",
    "HIDE b, <1> ==> HIDE b@3:10, <1>@3:13 -",
    "HIDE <2>a.. DEFS D ==> HIDE <2>a@3:10 DEF D@3:22 -",
    "HIDE DEF D ==> HIDE DEF D@3:14 -",
];

/// Units that are refused.
const REFUSED: [&str; 73] = [
    "b ==> 3:1 Expected",
    "b c ==> 2:3 Expected",
    "1 ==> 2:1 Expected",
    "D = a ==> 2:3 Expected",
    "D == ==> 3:1 Expected",
    "D == ASSUME ==> 2:6 Unsupported ASSUME",
    "D == a ) ==> 2:8 Expected",
    "D == a == b ==> 2:8 Expected",
    "D[x] == a ==> 2:2 Unsupported [",
    "D == f[x] == a ==> 2:11 Expected",
    "D() == a ==> 2:3 Expected",
    "D(_) == a ==> 2:3 Unsupported _",
    "D(x(_)) == a ==> 2:4 Unsupported (",
    "D(x, y(_, _)) == a ==> 2:7 Unsupported (",
    "D(1) == a ==> 2:3 Expected",
    "D(<<x>>) == a ==> 2:3 Expected",
    "D(x) = a ==> 2:6 Expected",
    "D == a = b = c ==> 2:12 Precedence",
    "EXTENDS ==> 3:1 Expected",
    "EXTENDS N M ==> 3:1 Expected",
    "EXTENDS N(_) ==> 2:10 Expected",
    "EXTENDS N EXTENDS M ==> 2:11 Expected",
    "----\nEXTENDS N ==> 3:1 Expected",
    "CONSTANT ==> 3:1 Expected",
    "CONSTANT _ ==> 2:10 Unsupported _",
    "CONSTANT f() ==> 2:12 Expected",
    "CONSTANT f(x) ==> 2:12 Expected",
    "CONSTANT a \\in S ==> 2:12 Expected",
    "VARIABLE x(_) ==> 2:11 Expected",
    "ASSUME ==> 3:1 Expected",
    "ASSUME N == M == a ==> 2:15 Expected",
    "ASSUME (N) == a ==> 2:12 Expected",
    "ASSUME f[x] == a ==> 2:13 Expected",
    "ASSUME ASSUME a ==> 2:8 Unsupported ASSUME",
    "ASSUME N == ASSUME a ==> 2:13 Unsupported ASSUME",
    "ASSUME NEW x ==> 2:8 Expected",
    "ASSUME a OBVIOUS ==> 2:10 Expected",
    "THEOREM ==> 3:1 Expected",
    "THEOREM T == T == a ==> 2:16 Expected",
    "THEOREM f[x] == a ==> 2:14 Expected",
    "THEOREM ASSUME PROVE b ==> 2:16 Expected",
    "THEOREM ASSUME a b PROVE c ==> 2:18 Expected",
    "THEOREM ASSUME a, PROVE b ==> 2:19 Expected",
    "THEOREM ASSUME a PROVE ASSUME b PROVE c ==> 2:24 Unsupported ASSUME",
    "THEOREM ASSUME ASSUME a PROVE b PROVE c ==> 2:16 Unsupported ASSUME",
    "THEOREM ASSUME a, ASSUME b ==> 2:19 Unsupported ASSUME",
    "THEOREM ASSUME NEW 1 PROVE a ==> 2:20 Expected",
    "THEOREM ASSUME NEW P(_) PROVE a ==> 2:21 Unsupported (",
    "THEOREM ASSUME NEW CONSTANT P(_) PROVE a ==> 2:30 Unsupported (",
    "THEOREM ASSUME NEW VARIABLE P(_) PROVE a ==> 2:30 Unsupported (",
    "THEOREM ASSUME NEW ACTION A PROVE a ==> 2:20 Unsupported ACTION",
    "THEOREM ASSUME NEW TEMPORAL F PROVE a ==> 2:20 Unsupported TEMPORAL",
    "THEOREM ASSUME NEW VARIABLE x \\in S PROVE a ==> 2:31 Expected",
    "THEOREM ASSUME NEW STATE x \\in S PROVE a ==> 2:28 Expected",
    "THEOREM ASSUME NEW x = a PROVE b ==> 2:22 Expected",
    "THEOREM ASSUME NEW x, y z PROVE a ==> 2:25 Expected",
    "THEOREM ASSUME CONSTANT x PROVE a ==> 2:16 Expected",
    "THEOREM ASSUME f[x] == a PROVE b ==> 2:21 Expected",
    "THEOREM a PROVE b ==> 2:11 Expected",
    "THEOREM a OBVIOUS OBVIOUS ==> 2:19 Expected",
    "THEOREM a OBVIOUS <1> QED ==> 2:19 Expected",
    "THEOREM a OMITTED\n<1> QED ==> 3:1 Expected",
    "THEOREM a\n----\n<1> QED ==> 4:1 Expected",
    "D == a <1> QED ==> 2:8 Expected",
    "USE a ==> 2:1 Expected",
    "HIDE a ==> 2:1 Expected",
    "INSTANCE N ==> 2:1 Unsupported INSTANCE",
    "LOCAL D == a ==> 2:1 Unsupported LOCAL",
    "RECURSIVE f(_) ==> 2:1 Unsupported RECURSIVE",
    "MODULE N ==> 2:1 Unsupported MODULE",
    "_ == a ==> 2:1 Unsupported _",
    "a ++ b == c ==> 2:3 Unsupported ++",
    "a + b == c ==> 2:3 Expected",
];

/// Proofs that are refused.
const REFUSED_PROOFS: [&str; 53] = [
    "PROOF ==> 4:1 Expected",
    "PROOF PROOF OBVIOUS ==> 3:7 Expected",
    "BY ==> 4:1 Expected",
    "BY ONLY ONLY b ==> 3:9 Expected",
    "BY DEF ==> 4:1 Expected",
    "BY DEF <1>a ==> 3:8 Expected",
    "BY DEF D(b) ==> 3:9 Expected",
    "BY b DEF D DEFS E ==> 3:12 Expected",
    "BY b, DEF D ==> 3:7 Expected",
    "BY <1>b = c ==> 3:9 Expected",
    "BY b, c <1>d ==> 3:9 Expected",
    "BY f[x] == b ==> 3:9 Expected",
    "BY ASSUME b ==> 3:4 Unsupported ASSUME",
    "BY b, LAMBDA ==> 3:7 Unsupported LAMBDA",
    "<1> QED OBVIOUS OMITTED ==> 3:17 Expected",
    "<1> ==> 4:1 Expected",
    "<1>1. <1>2. QED ==> 3:7 Expected",
    "<1>1. b ==> 4:1 NoQed",
    "<1>1. b OBVIOUS\n----\n<1> QED ==> 4:1 NoQed",
    "<1>1. b THEOREM c ==> 3:9 NoQed",
    "<1>1. b OBVIOUS D == c ==> 3:17 NoQed",
    "<1>1. b OBVIOUS CONSTANT c ==> 3:17 NoQed",
    "<1>1. b ASSUME c ==> 3:9 NoQed",
    "<1>1. b c ==> 3:9 NoQed",
    "<1>1. b ) ==> 3:9 Expected",
    "<1>1. b EXTENDS N ==> 3:9 Expected",
    "<1>1. b LOCAL D == c ==> 3:9 Unsupported LOCAL",
    "<1> HAVE b OBVIOUS ==> 3:12 Expected",
    "<1> TAKE x OBVIOUS ==> 3:12 Expected",
    "<1> WITNESS b BY c ==> 3:15 Expected",
    "<1> DEFINE D == b OMITTED ==> 3:19 Expected",
    "<1> USE b PROOF OBVIOUS ==> 3:11 Expected",
    "<1> HIDE b OBVIOUS ==> 3:12 Expected",
    "<1> HAVE b <2> QED ==> 3:12 StepLevel",
    "<1> D == b <2> QED ==> 3:12 StepLevel",
    "<1>1. b\n <2>1. c\n<1>2. QED ==> 5:1 NoQed",
    "<1>1. b\n <3>1. c\n <2> QED ==> 5:2 StepLevel",
    "<1>1. b\n <2>1. c\n<0> QED ==> 5:1 StepLevel",
    "<1> b <2> c <3> d <1> QED ==> 3:19 NoQed",
    "<1> b <2> QED <2> QED ==> 3:15 StepLevel",
    "<1>1. b\n <2> QED ==> 5:1 NoQed",
    "<1>1. b\n <2> QED\n<0> QED ==> 5:1 StepLevel",
    "<1> QED\n<1> QED ==> 4:1 StepLevel",
    "<2> QED\n<1> QED ==> 4:1 StepLevel",
    "<1> QED <2> QED <2> QED ==> 3:17 StepLevel",
    "<1> QED\n----\n<1> QED ==> 5:1 Expected",
    "<1> QED OBVIOUS <2> QED ==> 3:17 StepLevel",
    "<1> b PROOF <1> QED ==> 3:13 StepLevel",
    "<1> b PROOF QED ==> 3:13 Expected",
    "<1> b OBVIOUS <2> QED ==> 3:15 StepLevel",
    "<1> b BY c, <2> QED ==> 3:17 Expected",
    "<1> QED b ==> 4:1 Expected",
    "<1>1. b BY <1>1, <1>2. QED ==> 3:24 Expected",
];

/// Steps that are refused.
const REFUSED_STEPS: [&str; 61] = [
    "CASE A -> b ==> 3:12 Expected",
    "CASE ASSUME b PROVE c ==> 3:10 Unsupported ASSUME",
    "CASE f[x] == b ==> 3:15 Unsupported ==",
    "f[x] == b ==> 3:10 Unsupported ==",
    "(f[x]) == b ==> 3:12 Unsupported ==",
    "f[x][y] == b ==> 3:13 Unsupported ==",
    "b = f[x] == c ==> 3:14 Expected",
    "f[x].h == c ==> 3:12 Expected",
    "f(x[y]) == b ==> 3:13 Expected",
    "D(b + c) == d ==> 3:14 Expected",
    "D(x, (y)) == d ==> 3:15 Expected",
    "D(x(_)) == d ==> 3:9 Unsupported _",
    "(D) == b ==> 3:9 Expected",
    "@ = b ==> 3:5 Expected",
    "b :: c ==> 3:7 Unsupported ::",
    "ASSUME b PROVE f[x] == c ==> 3:25 Unsupported ==",
    "ASSUME f[x] == b PROVE c ==> 3:17 Expected",
    "ASSUME b PROVE ASSUME c PROVE d ==> 3:20 Unsupported ASSUME",
    "HAVE f[x] == b ==> 3:15 Unsupported ==",
    "HAVE ASSUME b PROVE c ==> 3:10 Unsupported ASSUME",
    "SUFFICES f[x] == b ==> 3:19 Unsupported ==",
    "SUFFICES ASSUME b PROVE f[x] == c ==> 3:34 Unsupported ==",
    "TAKE <<x, y>> \\in S ==> 3:10 Unsupported <<",
    "TAKE x \\in S, <<y>> \\in T ==> 3:19 Unsupported <<",
    "TAKE x, <<y>> ==> 3:13 Unsupported <<",
    "TAKE x \\in S, y ==> 4:1 Expected",
    "TAKE x \\in S : b ==> 3:18 Expected",
    "TAKE x \\in f[x] == b ==> 3:21 Expected",
    "TAKE x = b ==> 3:12 Expected",
    "WITNESS b, ==> 4:1 Expected",
    "WITNESS f[x] == b ==> 3:18 Unsupported ==",
    "WITNESS b, f[x] == c ==> 3:21 Unsupported ==",
    "PICK : b ==> 3:10 Expected",
    "PICK x b ==> 3:12 Expected",
    "PICK x \\in S, y : b ==> 3:21 Expected",
    "PICK <<x, y>> : b ==> 3:10 Unsupported <<",
    "PICK x : f[x] == b ==> 3:19 Unsupported ==",
    "PICK x \\in f[x] == b ==> 3:21 Expected",
    "PICK x : b : c ==> 3:16 Expected",
    "DEFINE D ==> 4:1 Expected",
    "DEFINE D[x] == b ==> 3:13 Unsupported [",
    "DEFINE D(x(_)) == b ==> 3:15 Unsupported (",
    "DEFINE D == f[x] == b ==> 3:22 Expected",
    "D == b c ==> 4:1 Expected",
    "D == b E[x] == c ==> 3:13 Unsupported [",
    "D(x) == ==> 4:1 Expected",
    "USE ==> 4:5 Expected",
    "USE ONLY b ==> 3:9 Expected",
    "USE f[x] == b ==> 3:14 Expected",
    "USE b, ==> 4:5 Expected",
    "HIDE (b) ==> 3:10 Expected",
    "HIDE b = c ==> 3:12 Expected",
    "HIDE f(b) ==> 3:11 Expected",
    "HIDE LAMBDA ==> 3:10 Unsupported LAMBDA",
    "HIDE DEF D, <1> ==> 3:17 Expected",
    "PROVE b ==> 3:5 Expected",
    "OBVIOUS ==> 3:5 Expected",
    "QED QED ==> 3:9 Expected",
    "INSTANCE N ==> 3:5 Unsupported INSTANCE",
    "b % c ==> 3:7 Unsupported %",
    "b = c = d ==> 3:11 Precedence",
];

/// Modules that end too early.
const REFUSED_CUT: [&str; 13] = [
    " ==> 2:1 Expected",
    "---- ==> 2:5 Expected",
    "CONSTANT a ==> 2:11 Expected",
    "CONSTANT f(_ ==> 2:13 Expected",
    "VARIABLE a, ==> 2:12 Expected",
    "D(x ==> 2:4 Expected",
    "THEOREM a ==> 2:10 Expected",
    "THEOREM a OBVIOUS  ==> 2:19 Expected",
    "THEOREM a <1> QED ==> 2:18 Expected",
    "THEOREM a\n<1>1. b\n ==> 4:1 Expected",
    "THEOREM a BY b ==> 2:15 Expected",
    "EXTENDS N ==> 2:10 Expected",
    "THEOREM a <1> QED b ==> 2:20 Expected",
];

#[test]
fn what_is_read(rt: HostRuntime) -> Result<(), Fail> {
    let alloc = rt.alloc();
    for row in UNITS.iter() {
        assert!(rt; is_read(alloc, &MODULE, row)?, "{row}");
    }
    for row in PROOFS.iter() {
        assert!(rt; is_read(alloc, &PROOF, row)?, "{row}");
    }
    for row in STEPS.iter() {
        assert!(rt; is_read(alloc, &STEP, row)?, "{row}");
    }
    Ok(())
}

#[test]
fn what_is_refused(rt: HostRuntime) -> Result<(), Fail> {
    let alloc = rt.alloc();
    for row in REFUSED.iter() {
        assert!(rt; is_refused(alloc, &MODULE, row)?, "{row}");
    }
    for row in REFUSED_PROOFS.iter() {
        assert!(rt; is_refused(alloc, &PROOF, row)?, "{row}");
    }
    for row in REFUSED_STEPS.iter() {
        assert!(rt; is_refused(alloc, &STEP, row)?, "{row}");
    }
    for row in REFUSED_CUT.iter() {
        assert!(rt; is_refused(alloc, &CUT, row)?, "{row}");
    }
    Ok(())
}

/// What stands in the innermost of so many nested proofs, and where the module is refused, if it is.
const NESTED: [(&str, u64, &str); 16] = [
    ("b", 201, ""),
    ("b", 202, "204:1"),
    ("b OBVIOUS", 200, ""),
    ("b OBVIOUS", 201, "203:9"),
    ("b PROOF BY c", 201, "203:9"),
    ("(b)", 200, ""),
    ("(b)", 201, "203:7"),
    ("HAVE (b)", 201, "203:12"),
    ("USE (b)", 201, "203:11"),
    ("f(b)", 201, "203:8"),
    ("/\\ b", 201, "203:10"),
    ("D == b", 201, ""),
    ("D(x) == b", 200, ""),
    ("D(x) == b", 201, "203:8"),
    ("DEFINE D(x) == b", 201, "203:15"),
    ("TAKE x \\in S", 201, ""),
];

/// So many nested proofs; in the innermost stands a step of this text.
fn nested(alloc: Global, text: &str, count: u64) -> Result<String, AllocError> {
    let mut module = String::from_str(alloc, PROOF.before)?;
    for level in 1..count {
        module.push_str(format!(in alloc; "<{level}> a\n")?.as_str())?;
    }
    module.push_str(format!(in alloc; "<{count}> {text}\n")?.as_str())?;
    for above in 0..count {
        let level = count - above;
        module.push_str(format!(in alloc; "<{level}> QED\n")?.as_str())?;
    }
    module.push_str("====")?;
    Ok(module)
}

/// Whether a module is refused as too deep at this place; where the place is empty, whether it is read.
fn is_deep(alloc: Global, module: &str, place: &str) -> Result<bool, Memory> {
    let got = answer(alloc, module.as_bytes())?;
    if place.is_empty() {
        return Ok(got.starts_with(b"2:1 THEOREM a {"));
    }
    let want = format!(in alloc; "refused {place} TooDeep")?;
    Ok(got.as_slice() == want.as_str().as_bytes())
}

#[test]
fn two_hundred_subproofs_and_one_more(rt: HostRuntime) -> Result<(), Fail> {
    let alloc = rt.alloc();
    for (text, count, place) in NESTED.iter() {
        let module = nested(alloc, text, *count)?;
        assert!(rt; is_deep(alloc, module.as_str(), place)?, "{count} {text}");
    }
    Ok(())
}

/// What begins a module, what is repeated in it, and what ends it.
const LONG: [(&str, &str, &str); 12] = [
    ("", "----\n", ""),
    ("", "D==a\n", ""),
    ("EXTENDS N", ",N", ""),
    ("CONSTANT a", ",a", ""),
    ("D(x", ",x", ") == x"),
    ("THEOREM ASSUME a", ",a", " PROVE b"),
    ("THEOREM a BY a", ",a", " DEF D"),
    ("THEOREM a BY DEF D", ",D", ""),
    ("THEOREM a\n", "<1> a\n", "<1> QED"),
    ("THEOREM a <1> TAKE x", ",x", " <1> QED"),
    ("THEOREM a <1> WITNESS a", ",a", " <1> QED"),
    ("THEOREM a <1> DEFINE ", "D==a\n", "<1> QED"),
];

/// How often a text is repeated in a long list.
const OFTEN: u64 = 100_000;

#[test]
fn long_lists_take_no_stack(rt: HostRuntime) -> Result<(), Fail> {
    let alloc = rt.alloc();
    for (before, again, after) in LONG.iter() {
        let mut text = String::from_str(alloc, before)?;
        for _ in 0..OFTEN {
            text.push_str(again)?;
        }
        text.push_str(after)?;
        let got = answer_in(alloc, &MODULE, text.as_str())?;
        assert!(rt; got.is_empty() == (*again == "----\n"), "{again}");
        assert!(rt; !got.starts_with(b"refused"), "{again}");
    }
    Ok(())
}
